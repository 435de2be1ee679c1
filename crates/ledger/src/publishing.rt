// Clearing a kind, and writing it onto the sheet.
ghost use Rattle.std.specs.Prelude.{◌≡◌, ◌^◌, ◌≤◌, min, List, length, if◌then◌else◌, nat_lt};
ghost use Rattle.orders.specs.declared.entry.Entry.{Entry as OneEntry};
ghost use Rattle.clearing.specs.Rule.{fund_gets};
ghost use Rattle.ledger.specs.Indexed.{Lists};
ghost use Rattle.ledger.specs.Publishing.{ClearedAs, OneMore};

use crate::session::Session;
use clearing::{Outcome, clear};
use orders::HalfCents;
use ranking::{Ranked, Side};
use sheet::{Listing, write_kind};

// A kind's outcome, and where its part of the sheet ends.
#[derive(Clone, Copy)]
pub(crate) struct Cleared {
    pub(crate) outcome: Outcome,
    pub(crate) end: usize,
}

impl Cleared {
    // What the fund gets of the kind; nothing where that passes 64 bits, as it never does.
    pub(crate) fn takings(self) -> HalfCents
        ensures { result.0 ≡ (if nat_lt (fund_gets self.outcome) (2 ^ 64) then fund_gets self.outcome else 0) }
    {
        self.outcome.fund().unwrap_or(HalfCents(0))
    }
}

impl Session {
    // Clears a kind: the members of its first ranks, one past its pairs, go into the lists, and its part onto the sheet.
    pub(crate) fn publish(
        &self,
        kind: u8,
        sheet: &mut [u8],
        at: usize,
        buyers: &mut [Ranked],
        sellers: &mut [Ranked],
    ) -> Cleared
        ensures cleared { (row : List OneEntry) → Lists row kind self.now.index → length row ≤ length buyers.old → length row ≤ length sellers.old → ClearedAs row result.outcome buyers.new sellers.new }
        ensures sheet { OneMore kind self.now.index (min (length buyers.old) (length sellers.old)) sheet.old at sheet.new result.end }
    {
        let pairs = self.pairs(kind);
        let buying = self.first_ranks(kind, Side::Buyers, pairs + 1, buyers);
        let selling = self.first_ranks(kind, Side::Sellers, pairs + 1, sellers);
        let buyers = &buyers[..buying];
        let sellers = &sellers[..selling];
        let outcome = clear(buyers, sellers);
        let listing = Listing {
            pairs,
            outcome,
            buyers,
            sellers,
        };
        let end = write_kind(sheet, at, listing).unwrap_or(at);
        Cleared { outcome, end }
    }
}
