// Taking a message: it is judged by what its own member has, and sets one entry and one number.
ghost use Rattle.std.specs.Prelude.{◌≡◌, ◌<◌, length, Ok, slice_set};
ghost use Rattle.std.specs.Option.{unwrap_or};
ghost use Rattle.orders.specs.Entries.{encoded};
ghost use Rattle.orders.specs.Lent.{held, Fits, judged, entries_after, numbers_after, committed_after, SameLoans};

use crate::books::Books;
use crate::entry::Entry;
use crate::evening::Open;
use crate::message::Message;
use crate::order::{Member, Order};
use crate::position::Fitting;
use crate::refusal::Refusal;

impl Open {
    // Takes a message or refuses it, and answers with the order that it is. What is refused changes nothing.
    pub fn enter(&self, books: &mut Books, message: &[u8]) -> Result<Order, Refusal>
        ensures order { result ≡ judged self.now.extent.kinds self.now.extent.members (held books.old) message.now }
        ensures entries { books.new.entries.now ≡ entries_after self.now.extent.members books.old.entries.now result }
        ensures numbers { books.new.numbers.now ≡ numbers_after books.old.numbers.now result }
        ensures committed { books.new.committed.now ≡ committed_after books.old.committed.now result }
        ensures accounts { books.new.accounts.now ≡ books.old.accounts.now }
        ensures berths { books.new.berths.now ≡ books.old.berths.now }
        ensures lent { SameLoans books.old books.new }
    {
        self.extent.check_books(books)?;
        let message = Message::read(message)?;
        let lent = Fitting {
            extent: self.extent,
            books,
        };
        let order = lent.judge(message)?;
        self.write(books, order);
        Ok(order)
    }

    // Writes what an order leaves: its entry in its kind's row, its number, and what is bid with it.
    fn write(&self, books: &mut Books, order: Order)
        requires fits { Fits self.now.extent.kinds self.now.extent.members (held books.old) }
        requires member { order.member.0 < self.now.extent.members }
        requires kind { order.kind.0 < self.now.extent.kinds }
        ensures entries { books.new.entries.now ≡ entries_after self.now.extent.members books.old.entries.now (Ok order) }
        ensures numbers { books.new.numbers.now ≡ numbers_after books.old.numbers.now (Ok order) }
        ensures committed { books.new.committed.now ≡ committed_after books.old.committed.now (Ok order) }
        ensures accounts { books.new.accounts.now ≡ books.old.accounts.now }
        ensures berths { books.new.berths.now ≡ books.old.berths.now }
        ensures lent { SameLoans books.old books.new }
    {
        let first = self.extent.row(order.kind);
        let end = first + usize::from(self.extent.members);
        place(&mut books.entries[first..end], order.member, order.entry);
        let member = usize::from(order.member.0);
        books.numbers[member] = order.number;
        books.committed[member] = order.committed.0;
    }
}

// Writes a member's entry into a kind's row.
fn place(row: &mut [u32], member: Member, entry: Entry)
    requires { member.0 < length row.old }
    ensures { row.new ≡ slice_set row.old member.0 (unwrap_or (encoded entry) 0) }
{
    row[usize::from(member.0)] = u32::try_from(entry).unwrap_or(0);
}
