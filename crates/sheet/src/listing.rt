// What a sheet lists of a kind.
ghost use Rattle.std.specs.Prelude.{◌≡◌, length};
ghost use Rattle.sheet.specs.Writing.{writable};

use clearing::Outcome;
use orders::HalfCents;
use ranking::{Ranked, Side};

// The pairs of a kind, its outcome, and those of its buyers and its sellers that are listed.
#[derive(Clone, Copy)]
pub struct Listing<'a> {
    pub pairs: usize,
    pub outcome: Outcome,
    pub buyers: &'a [Ranked],
    pub sellers: &'a [Ranked],
}

impl Listing<'_> {
    // Whether its numbers fit their fields, and all of it fits into the bytes from a place on.
    pub(crate) fn is_writable(self, size: usize, at: usize) -> bool
        ensures { let l = self.entry in result ≡ writable size at l.pairs l.outcome (length l.buyers.now) (length l.sellers.now) }
    {
        let HalfCents(pay) = self.outcome.price(Side::Buyers);
        let HalfCents(get) = self.outcome.price(Side::Sellers);
        let buyers = self.buyers.len();
        let sellers = self.sellers.len();
        let fits = self.pairs < 1 << 16
            && self.outcome.trades() < 1 << 16
            && pay < 1 << 32
            && get < 1 << 32
            && buyers < 1 << 16
            && sellers < 1 << 16;
        fits && at <= size && 16 + 6 * buyers + 6 * sellers <= size - at
    }
}
