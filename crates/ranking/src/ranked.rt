// A member in a ranked list, with its bid or its ask.
ghost use Rattle.std.specs.Prelude.{◌≡◌, Bool};
ghost use Rattle.ranking.specs.Ranks.{before, better, on_side, own, side_of};

use orders::{Cents, Entry};

// The two sides of a kind.
#[derive(Clone, Copy, Debug, PartialEq, Eq)]
pub enum Side {
    Buyers,
    Sellers,
}

impl Side {
    // Whether one number comes before another on this side: a higher bid, a lower ask.
    pub fn is_better(self, one: Cents, other: Cents) -> bool
        ensures { result ≡ better self one.0 other.0 }
    {
        match self {
            Side::Buyers => one > other,
            Side::Sellers => one < other,
        }
    }

    // The side on which an entry stands, and its number.
    pub fn of(entry: Entry) -> Option<(Side, Cents)>
        ensures { result ≡ side_of entry }
    {
        match entry {
            Entry::Nothing => None,
            Entry::Bid(cents) => Some((Side::Buyers, cents)),
            Entry::Ask(cents) => Some((Side::Sellers, cents)),
        }
    }

    // The number with which an entry stands on this side.
    pub fn cents_of(self, entry: Entry) -> Option<Cents>
        ensures { result ≡ on_side self entry }
    {
        match (self, entry) {
            (Side::Buyers, Entry::Bid(cents)) => Some(cents),
            (Side::Sellers, Entry::Ask(cents)) => Some(cents),
            _ => None,
        }
    }
}

#[derive(Clone, Copy, Debug, Default, PartialEq, Eq)]
pub struct Ranked {
    pub member: u16,
    pub cents: Cents,
}

impl Ranked {
    // Whether this member comes before the other on a side.
    pub fn comes_before(self, side: Side, other: Ranked) -> bool
        ensures { result ≡ before side own self other }
    {
        side.is_better(self.cents, other.cents)
            || (self.cents == other.cents && self.member < other.member)
    }
}
