// Taking a row of messages.
ghost use Rattle.std.specs.Prelude.{◌≡◌, length};
ghost use Rattle.orders.specs.Lent.{held, SameLoans};
ghost use Rattle.orders.specs.Running.{messages, run, answers_to, written_over};
ghost use Rattle.orders.specs.Statements.{Alone, AllSound};
ghost use Rattle.ledger.specs.Indexed.{Indexed};

use crate::session::Session;
use orders::{Books, Refusal};

// The bytes of a message.
const MESSAGE: usize = 12;

impl Session {
    // Takes or refuses the messages in `bytes`, one after another, and writes down the answer to each: to as many as there
    // are places for answers.
    pub fn take_all(
        mut self,
        books: &mut Books,
        bytes: &[u8],
        answers: &mut [Result<(), Refusal>],
    ) -> Session
        ensures open { result.open ≡ self.open }
        ensures after { held books.new ≡ run self.open.extent.kinds self.open.extent.members (held books.old) (messages (length answers.old) bytes.now) }
        ensures answers { answers.new ≡ written_over (answers_to self.open.extent.kinds self.open.extent.members (held books.old) (messages (length answers.old) bytes.now)) answers.old }
        ensures alone { Alone self.open.extent.kinds self.open.extent.members (held books.old) (held books.new) (messages (length answers.old) bytes.now) answers.new }
        ensures sound { AllSound self.open.extent.kinds self.open.extent.members (held books.old) → AllSound self.open.extent.kinds self.open.extent.members (held books.new) }
        ensures indexed { Indexed self.open.extent.kinds self.open.extent.members books.old.entries.now self.index → Indexed self.open.extent.kinds self.open.extent.members books.new.entries.now result.index }
        ensures lent { SameLoans books.old books.new }
    {
        for (place, message) in bytes.chunks(MESSAGE).take(answers.len()).enumerate() {
            (self, answers[place]) = self.take(books, message);
        }
        self
    }
}
