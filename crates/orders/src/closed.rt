// Closing ends an open evening, and a closed one takes nothing any more.
ghost use Rattle.std.specs.Prelude.{◌≡◌, ◌*◌, None, Err};
ghost use Rattle.orders.specs.Lent.{held, Fits, SameLoans};
ghost use Rattle.orders.specs.Opening.{emptied};

use crate::books::Books;
use crate::evening::{Closed, Open};
use crate::money::HalfCents;
use crate::refusal::Refusal;

impl Open {
    // Ends the evening, with what the fund then holds.
    pub fn close(self, fund: HalfCents) -> Closed
        ensures { result ≡ record { extent = self.extent; fund = fund } }
    {
        Closed {
            extent: self.extent,
            fund,
        }
    }

    // Ends the evening, with what the fund then holds: there is no entry, and nothing is bid. Message numbers stay.
    pub fn close_books(self, books: &mut Books, fund: HalfCents) -> Closed
        requires fits { Fits self.extent.kinds self.extent.members (held books.old) }
        ensures closed { result ≡ record { extent = self.extent; fund = fund } }
        ensures entries { books.new.entries.now ≡ emptied None (self.extent.kinds * self.extent.members) books.old.entries.now }
        ensures committed { books.new.committed.now ≡ emptied None self.extent.members books.old.committed.now }
        ensures numbers { books.new.numbers.now ≡ books.old.numbers.now }
        ensures accounts { books.new.accounts.now ≡ books.old.accounts.now }
        ensures berths { books.new.berths.now ≡ books.old.berths.now }
        ensures lent { SameLoans books.old books.new }
    {
        let slots = self.extent.slots();
        let members = usize::from(self.extent.members);
        books.entries[0..slots].fill(0);
        books.committed[0..members].fill(0);
        self.close(fund)
    }
}

impl Closed {
    // Refuses any message.
    pub fn take(self, books: &mut Books, _message: &[u8]) -> (Closed, Result<(), Refusal>)
        ensures closed { result.0 ≡ self }
        ensures answer { result.1 ≡ Err Refusal.Closed }
        ensures same { books.new ≡ books.old }
    {
        (self, Err(Refusal::Closed))
    }

    // Refuses a second closing.
    pub fn close(self) -> (Closed, Result<(), Refusal>)
        ensures closed { result.0 ≡ self }
        ensures answer { result.1 ≡ Err Refusal.Closed }
    {
        let again: Result<(), Refusal> = Err(Refusal::Closed);
        (self, again)
    }
}
