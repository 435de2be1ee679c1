// Opening an evening with an empty index.
ghost use Rattle.std.specs.Prelude.{◌≡◌, ◌*◌, IfOk, OnOk};
ghost use Rattle.std.specs.Result.{result_err};
ghost use Rattle.orders.specs.Lent.{held, Fits, SameLoans};
ghost use Rattle.orders.specs.Opening.{opening, emptied};
ghost use Rattle.orders.specs.Statements.{AllSound};
ghost use Rattle.ledger.specs.Indexed.{Indexed};
ghost use Rattle.ledger.specs.Opening.{RefusedFor};

use crate::session::Session;
use orders::{Books, Extent, HalfCents, Open, Refusal};
use ranking::Index;
use std::alloc::Global;

impl Session {
    // Opens an evening: there is no entry, nothing is bid, no message has been taken, and the index is empty. A refused
    // opening changes nothing. No call after this one gets memory.
    pub fn open(
        heap: Global,
        extent: Extent,
        fund: HalfCents,
        books: &mut Books,
    ) -> Result<Session, Refusal>
        ensures opened { IfOk result (λ s. (s.open.extent ≡ extent) × (s.open.fund ≡ fund)) }
        ensures refusal { RefusedFor (result_err result) (opening extent.kinds extent.members fund.0 (held books.old)) }
        ensures entries { books.new.entries.now ≡ emptied (result_err result) (extent.kinds * extent.members) books.old.entries.now }
        ensures numbers { books.new.numbers.now ≡ emptied (result_err result) extent.members books.old.numbers.now }
        ensures committed { books.new.committed.now ≡ emptied (result_err result) extent.members books.old.committed.now }
        ensures accounts { books.new.accounts.now ≡ books.old.accounts.now }
        ensures berths { books.new.berths.now ≡ books.old.berths.now }
        ensures lent { SameLoans books.old books.new }
        ensures fits { OnOk result (Fits extent.kinds extent.members (held books.new)) }
        ensures sound { OnOk result (AllSound extent.kinds extent.members (held books.new)) }
        ensures indexed { IfOk result (λ s. Indexed extent.kinds extent.members books.new.entries.now s.index) }
    {
        Open::check(extent, fund, books)?;
        let index = Index::new(heap, extent)?;
        let open = Open::open(extent, fund, books)?;
        Ok(Session { open, index })
    }
}
