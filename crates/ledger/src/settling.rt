// Settling a trade: money and a berth change hands.
ghost use Rattle.std.specs.Prelude.{◌≡◌};
ghost use Rattle.orders.specs.Lent.{SameLoans};
ghost use Rattle.ledger.specs.Trades.{changed, ChangedBy, paying, earning, one_more, one_less, account_cell, berth_cell};

use orders::{Books, HalfCents};

// A buyer and a seller of one rank of a kind, with what the one pays and the other gets.
#[derive(Clone, Copy)]
pub(crate) struct Trade {
    pub(crate) kind: u8,
    pub(crate) buyer: u16,
    pub(crate) seller: u16,
    pub(crate) paid: HalfCents,
    pub(crate) got: HalfCents,
}

// Moves a trade's money and its berth, in an evening of so many kinds.
pub(crate) fn settle(kinds: u8, books: &mut Books, trade: Trade)
    ensures accounts { books.new.accounts.now ≡ changed (earning trade.got.0) (account_cell trade.seller) (changed (paying trade.paid.0) (account_cell trade.buyer) books.old.accounts.now) }
    ensures berths { books.new.berths.now ≡ changed one_less (berth_cell kinds trade.kind trade.seller) (changed one_more (berth_cell kinds trade.kind trade.buyer) books.old.berths.now) }
    ensures entries { books.new.entries.now ≡ books.old.entries.now }
    ensures numbers { books.new.numbers.now ≡ books.old.numbers.now }
    ensures committed { books.new.committed.now ≡ books.old.committed.now }
    ensures lent { SameLoans books.old books.new }
{
    let row = usize::from(kinds);
    let kind = usize::from(trade.kind);
    let buyer = usize::from(trade.buyer);
    let seller = usize::from(trade.seller);
    change(
        books.accounts,
        buyer,
        |account| account.saturating_sub(trade.paid.0),
    );
    change(
        books.accounts,
        seller,
        |account| account.saturating_add(trade.got.0),
    );
    change(
        books.berths,
        buyer * row + kind,
        |berths| berths.saturating_add(1),
    );
    change(
        books.berths,
        seller * row + kind,
        |berths| berths.saturating_sub(1),
    );
}

// Changes one of the cells by a rule, if there is such a one.
fn change<T: Copy, F: FnOnce(T) -> T>(cells: &mut [T], at: usize, rule: F)
    requires { F.IsAlwaysCallable rule }
    ensures { ChangedBy (F.post rule) at cells.old cells.new }
{
    if at < cells.len() {
        cells[at] = rule(cells[at]);
    }
}
