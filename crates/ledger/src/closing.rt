// Closing an evening.
ghost use Rattle.std.specs.Prelude.{◌≡◌, length, IfOk};
ghost use Rattle.std.specs.Result.{result_err};
ghost use Rattle.orders.specs.Lent.{held, SameLoans};
ghost use Rattle.ledger.specs.Closing.{ClosedAs};
ghost use Rattle.ledger.specs.Publishing.{OnSheet};
ghost use Rattle.ledger.specs.Refusing.{closing, refused_with, HandedBack, UnlessRefused};
ghost use Rattle.ledger.specs.Underway.{Underway};
ghost use Rattle.ledger.specs.Space.{SameSpace};
ghost use Rattle.ledger.specs.Whole.{Fair};

use crate::session::Session;
use crate::space::Space;
use orders::{Books, Closed, HalfCents, Refusal};

// An evening that was closed, and how many bytes its sheet has.
#[derive(Drop)]
pub struct Closing {
    pub evening: Closed,
    pub sheet: usize,
}

impl Session {
    // Ends the evening, with what the fund then holds.
    pub fn close(self, fund: HalfCents) -> Closed
        ensures { result ≡ record { extent = self.open.extent; fund = fund } }
    {
        let Session {
            open,
            index: _index,
        } = self;
        open.close(fund)
    }

    // Refuses memory that is too short to close the evening.
    fn check(&self, books: &Books, space: &Space) -> Result<(), Refusal>
        ensures { result_err result ≡ closing self.now.open.extent.kinds self.now.open.extent.members (held books.now) (length space.now.sheet.now) (length space.now.buyers.now) (length space.now.sellers.now) }
    {
        self.open.extent.check_books(books)?;
        space.check(self.open.extent)
    }

    // Closes the evening kind by kind, writes its sheet, and empties all entries. In a refusal nothing has changed, and the
    // evening is handed back as it was. The lists of the space are written over.
    pub fn settle(self, books: &mut Books, space: &mut Space) -> Result<Closing, (Session, Refusal)>
        ensures refusal { refused_with result ≡ closing self.open.extent.kinds self.open.extent.members (held books.old) (length space.old.sheet.now) (length space.old.buyers.now) (length space.old.sellers.now) }
        ensures handed_back { HandedBack result self }
        ensures unchanged { UnlessRefused (refused_with result) (held books.old) (held books.new) }
        ensures same_sheet { UnlessRefused (refused_with result) space.old.sheet.now space.new.sheet.now }
        ensures closed { let K = self.open.extent.kinds in let M = self.open.extent.members in let fund = self.open.fund.0 in Underway K M fund (held books.old) self.index → IfOk result (λ c. ClosedAs K M fund (held books.old) (held books.new) c.evening.fund.0 × OnSheet M books.old.entries.now space.old.sheet.now K c.sheet space.new.sheet.now × Fair K M fund (held books.old)) }
        ensures lent { SameLoans books.old books.new }
        ensures same_space { SameSpace space.old space.new }
    {
        if let Err(refusal) = self.check(books, space) {
            return Err((self, refusal));
        }
        let sheet = &mut *space.sheet;
        let buyers = &mut *space.buyers;
        let sellers = &mut *space.sellers;
        let settled = self.settle_kinds(books, sheet, buyers, sellers);
        let Session {
            open,
            index: _index,
        } = self;
        Ok(Closing {
            evening: open.close_books(books, settled.fund),
            sheet: settled.end,
        })
    }
}
