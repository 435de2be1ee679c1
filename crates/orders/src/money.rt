// Money in two units that are never mixed: bids and asks are in cents, accounts and prices in half cents.
ghost use Rattle.std.specs.Prelude.{◌≡◌, ◌*◌};
ghost use Rattle.orders.specs.Range.{in_range};

#[derive(Clone, Copy, Debug, Default, PartialEq, Eq, PartialOrd, Ord)]
pub struct Cents(pub u32);

#[derive(Clone, Copy, Debug, PartialEq, Eq, PartialOrd, Ord)]
pub struct HalfCents(pub u64);

impl Cents {
    // The most that a bid or an ask may be.
    pub const MOST: u32 = 10_000_000;

    // Whether a bid or an ask may be so much.
    pub fn in_range(self) -> bool
        ensures { result ≡ in_range self.0 }
    {
        1 <= self.0 && self.0 <= Cents::MOST
    }
}

// The same money in half cents.
impl From<Cents> for HalfCents {
    ghost from_gives = { λ cents half_cents. half_cents.0 ≡ 2 * cents.0 };

    fn from(cents: Cents) -> HalfCents {
        HalfCents(2 * u64::from(cents.0))
    }
}
