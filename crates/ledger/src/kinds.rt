// Settling all kinds, one after another.
ghost use Rattle.std.specs.Prelude.{◌≡◌, ◌+◌, length};
ghost use Rattle.orders.specs.Lent.{held, SameLoans};
ghost use Rattle.ledger.specs.Closing.{Settled};
ghost use Rattle.ledger.specs.Publishing.{OnSheet};
ghost use Rattle.ledger.specs.Underway.{Closable};

use crate::session::Session;
use crate::settling::{Trade, settle};
use orders::{Books, HalfCents};
use ranking::{Ranked, Side};

// What the fund holds when all kinds are settled, and where the sheet ends.
#[derive(Clone, Copy)]
pub(crate) struct Settlement {
    pub(crate) fund: HalfCents,
    pub(crate) end: usize,
}

impl Session {
    // Goes through the kinds from 0: each is put on the sheet, and its trades are settled rank by rank.
    pub(crate) fn settle_kinds(
        &self,
        books: &mut Books,
        sheet: &mut [u8],
        buyers: &mut [Ranked],
        sellers: &mut [Ranked],
    ) -> Settlement
        ensures settled { let K = self.now.open.extent.kinds in let M = self.now.open.extent.members in let fund = self.now.open.fund.0 in Closable K M fund (held books.old) self.now.index sheet.old buyers.old sellers.old → Settled K M fund (held books.old) K books.new.accounts.now books.new.berths.now result.fund.0 × OnSheet M books.old.entries.now sheet.old K result.end sheet.new }
        ensures entries { books.new.entries.now ≡ books.old.entries.now }
        ensures numbers { books.new.numbers.now ≡ books.old.numbers.now }
        ensures committed { books.new.committed.now ≡ books.old.committed.now }
        ensures accounts { length books.new.accounts.now ≡ length books.old.accounts.now }
        ensures berths { length books.new.berths.now ≡ length books.old.berths.now }
        ensures lent { SameLoans books.old books.new }
    {
        let mut fund = self.open.fund.0;
        let mut end = 0;
        'kinds: for kind in 0..self.open.extent.kinds {
            let cleared = self.publish(kind, sheet, end, buyers, sellers);
            end = cleared.end;
            fund = fund.saturating_add(cleared.takings().0);
            let outcome = cleared.outcome;
            'ranks: for (rank, (buyer, seller)) in buyers.iter().zip(sellers.iter()).enumerate() {
                if rank == outcome.trades() {
                    continue 'kinds;
                }
                let trade = Trade {
                    kind,
                    buyer: buyer.member,
                    seller: seller.member,
                    paid: outcome.price(Side::Buyers),
                    got: outcome.price(Side::Sellers),
                };
                settle(self.open.extent.kinds, books, trade);
            }
        }
        Settlement {
            fund: HalfCents(fund),
            end,
        }
    }
}
