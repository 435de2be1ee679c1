// Opening an evening over lent memory.
ghost use Rattle.std.specs.Prelude.{◌≡◌, ◌*◌, take, IfOk, None, OnOk};
ghost use Rattle.std.specs.Result.{result_err};
ghost use Rattle.orders.specs.Lent.{held, Fits, SameLoans};
ghost use Rattle.orders.specs.Statements.{AllSound};
ghost use Rattle.orders.specs.Opening.{account_or, first_over, opening, emptied};

use crate::books::Books;
use crate::evening::Open;
use crate::extent::Extent;
use crate::money::HalfCents;
use crate::refusal::Refusal;

// In half cents.
const ACCOUNT_MOST: u64 = 2_000_000_000;

const FUND_MOST: HalfCents = HalfCents(1_000_000_000_000_000);

// Whether no member has more in its account than an account may hold. A refusal names the first who has.
fn check_accounts(accounts: &[u64], members: u16) -> Result<(), Refusal>
    ensures { result_err result ≡ account_or (first_over 0 (take members accounts.now)) None }
{
    for (member, account) in (0..members).zip(accounts) {
        if *account > ACCOUNT_MOST {
            return Err(Refusal::Account(member));
        }
    }
    Ok(())
}

impl Open {
    // Opens an evening: there is no entry, nothing is bid, and no message has been taken. A refused opening changes nothing.
    pub fn open(extent: Extent, fund: HalfCents, books: &mut Books) -> Result<Open, Refusal>
        ensures opened { IfOk result (λ o. (o.extent ≡ extent) × (o.fund ≡ fund)) }
        ensures refusal { result_err result ≡ opening extent.kinds extent.members fund.0 (held books.old) }
        ensures entries { books.new.entries.now ≡ emptied (result_err result) (extent.kinds * extent.members) books.old.entries.now }
        ensures numbers { books.new.numbers.now ≡ emptied (result_err result) extent.members books.old.numbers.now }
        ensures committed { books.new.committed.now ≡ emptied (result_err result) extent.members books.old.committed.now }
        ensures accounts { books.new.accounts.now ≡ books.old.accounts.now }
        ensures berths { books.new.berths.now ≡ books.old.berths.now }
        ensures lent { SameLoans books.old books.new }
        ensures fits { OnOk result (Fits extent.kinds extent.members (held books.new)) }
        ensures sound { OnOk result (AllSound extent.kinds extent.members (held books.new)) }
    {
        let open = Open::admit(extent, fund, books)?;
        let slots = extent.slots();
        let members = usize::from(extent.members);
        books.entries[0..slots].fill(0);
        books.numbers[0..members].fill(0);
        books.committed[0..members].fill(0);
        Ok(open)
    }

    // Whether an evening would open.
    pub fn check(extent: Extent, fund: HalfCents, books: &Books) -> Result<(), Refusal>
        ensures { result_err result ≡ opening extent.kinds extent.members fund.0 (held books.now) }
    {
        Open::admit(extent, fund, books).map(|_| ())
    }

    // The evening that would open, or why it does not.
    fn admit(extent: Extent, fund: HalfCents, books: &Books) -> Result<Open, Refusal>
        ensures opened { IfOk result (λ o. (o.extent ≡ extent) × (o.fund ≡ fund)) }
        ensures refusal { result_err result ≡ opening extent.kinds extent.members fund.0 (held books.now) }
    {
        extent.check()?;
        check_accounts(books.accounts, extent.members)?;
        if fund > FUND_MOST {
            return Err(Refusal::Fund);
        }
        extent.check_books(books)?;
        Ok(Open { extent, fund })
    }
}
