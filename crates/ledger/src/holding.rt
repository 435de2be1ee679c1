// Holding a whole evening.
ghost use Rattle.std.specs.Prelude.{◌≡◌, ◌*◌, ◌≤◌, length, take, IfOk, Ok, OnOk};
ghost use Rattle.std.specs.Result.{result_err};
ghost use Rattle.orders.specs.Lent.{held, SameLoans};
ghost use Rattle.orders.specs.Running.{messages, answers_to, written_over};
ghost use Rattle.sheet.specs.Verdicts.{check_answer};
ghost use Rattle.ledger.specs.Closing.{ClosedAs};
ghost use Rattle.ledger.specs.Opening.{RefusedFor};
ghost use Rattle.ledger.specs.Publishing.{OnSheet};
ghost use Rattle.ledger.specs.Refusing.{holding, UnlessRefused};
ghost use Rattle.ledger.specs.Space.{SameSpace};
ghost use Rattle.ledger.specs.Whole.{opened, at_closing, FairFromMessages};

use crate::closing::Closing;
use crate::session::Session;
use crate::space::Space;
use orders::{Books, Input, Open, Part, Refusal};
use std::alloc::Global;

// Copies the first `count` entries.
fn copy_entries(books: &Books, count: usize, standing: &mut [u32])
    requires { (count ≤ length books.now.entries.now) × (count ≤ length standing.old) }
    ensures { standing.new ≡ written_over (take count books.now.entries.now) standing.old }
{
    standing[0..count].copy_from_slice(&books.entries[0..count]);
}

// Holds an evening from its opening to its closing: takes the messages of the input, answers them, as many as there are
// places for answers, copies the entries as they then stand into `standing`, for those who check, and closes. In a refusal
// nothing has changed.
pub fn hold(
    heap: Global,
    input: &Input,
    books: &mut Books,
    answers: &mut [Result<(), Refusal>],
    standing: &mut [u32],
    space: &mut Space,
) -> Result<Closing, Refusal>
    ensures refusal { RefusedFor (result_err result) (holding input.now.extent.kinds input.now.extent.members input.now.fund.0 (held books.old) (length standing.old) (length space.old.sheet.now) (length space.old.buyers.now) (length space.old.sellers.now)) }
    ensures unchanged { UnlessRefused (result_err result) (held books.old) (held books.new) }
    ensures same_answers { UnlessRefused (result_err result) answers.old answers.new }
    ensures same_standing { UnlessRefused (result_err result) standing.old standing.new }
    ensures same_sheet { UnlessRefused (result_err result) space.old.sheet.now space.new.sheet.now }
    ensures answers { OnOk result (answers.new ≡ written_over (answers_to input.now.extent.kinds input.now.extent.members (opened input.now.extent.kinds input.now.extent.members (held books.old)) (messages (length answers.old) input.now.messages.now)) answers.old) }
    ensures standing { OnOk result (standing.new ≡ written_over (take (input.now.extent.kinds * input.now.extent.members) (at_closing input.now.extent.kinds input.now.extent.members (held books.old) (messages (length answers.old) input.now.messages.now)).entries) standing.old) }
    ensures closed { IfOk result (λ c. ClosedAs input.now.extent.kinds input.now.extent.members input.now.fund.0 (at_closing input.now.extent.kinds input.now.extent.members (held books.old) (messages (length answers.old) input.now.messages.now)) (held books.new) c.evening.fund.0) }
    ensures sheet { IfOk result (λ c. OnSheet input.now.extent.members (at_closing input.now.extent.kinds input.now.extent.members (held books.old) (messages (length answers.old) input.now.messages.now)).entries space.old.sheet.now input.now.extent.kinds c.sheet space.new.sheet.now) }
    ensures accepted { IfOk result (λ c. check_answer input.now.extent.kinds input.now.extent.members (at_closing input.now.extent.kinds input.now.extent.members (held books.old) (messages (length answers.old) input.now.messages.now)).entries (take c.sheet space.new.sheet.now) ≡ Ok tt) }
    ensures fair { OnOk result (FairFromMessages input.now.extent.kinds input.now.extent.members input.now.fund.0 (held books.old) (messages (length answers.old) input.now.messages.now)) }
    ensures lent { SameLoans books.old books.new }
    ensures same_space { SameSpace space.old space.new }
{
    Open::check(input.extent, input.fund, books)?;
    let slots = input.extent.slots();
    if standing.len() < slots {
        return Err(Refusal::Short(Part::Entries));
    }
    space.check(input.extent)?;
    let session = Session::open(heap, input.extent, input.fund, books)?;
    let session = session.take_all(books, input.messages, answers);
    copy_entries(books, slots, standing);
    session
        .settle(books, space)
        .map_err(|(_session, refusal)| refusal)
}
