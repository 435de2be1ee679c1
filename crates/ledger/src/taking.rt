// Opening an evening, and taking messages, with the index of the entries kept beside them.
ghost use Rattle.std.specs.Prelude.{◌≡◌, is_ok};
ghost use Rattle.orders.specs.Lent.{held, judged, answer, held_after, SameLoans};
ghost use Rattle.orders.specs.Statements.{TakenWhenDue};
ghost use Rattle.ledger.specs.Indexed.{Indexed};

use crate::indexing::replace;
use crate::session::Session;
use orders::{Books, Refusal};

impl Session {
    // Takes a message or refuses it, and hands the evening on. What is refused changes nothing.
    pub fn take(mut self, books: &mut Books, message: &[u8]) -> (Session, Result<(), Refusal>)
        ensures open { result.0.open ≡ self.open }
        ensures answer { result.1 ≡ answer (judged self.open.extent.kinds self.open.extent.members (held books.old) message.now) }
        ensures after { held books.new ≡ held_after self.open.extent.kinds self.open.extent.members (held books.old) message.now }
        ensures indexed { Indexed self.open.extent.kinds self.open.extent.members books.old.entries.now self.index → Indexed self.open.extent.kinds self.open.extent.members books.new.entries.now result.0.index }
        ensures lent { SameLoans books.old books.new }
        ensures due { TakenWhenDue self.open.extent.kinds self.open.extent.members (held books.old) message.now (is_ok result.1) }
    {
        let entered = self.open.enter(books, message);
        if let Ok(order) = entered {
            replace(&mut self.index, order);
        }
        (self, entered.map(|_order| ()))
    }
}
