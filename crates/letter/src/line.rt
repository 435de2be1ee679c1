// A line of a letter: what it tells a member of one kind.
use crate::tie::Tie;
use orders::{Cents, HalfCents};
use ranking::Side;

// The bid and the ask of a rank, 0 where there is none.
#[derive(Clone, Copy, Debug, PartialEq, Eq)]
pub struct Pair {
    pub bid: Cents,
    pub ask: Cents,
}

impl Pair {
    // Stands where there is no number.
    pub(crate) const NONE: Cents = Cents(0);
}

#[derive(Clone, Copy, Debug, PartialEq, Eq)]
pub struct Line {
    pub kind: u8,
    pub side: Side,
    pub cents: Cents,
    // at which the member traded, if it did
    pub price: Option<HalfCents>,
    // the last pair, and the numbers of the rank after it
    pub last: Pair,
    pub next: Pair,
    pub tie: Tie,
}
