// A kind's outcome, and the numbers in it.
ghost use Rattle.std.specs.Prelude.{◌≡◌};
ghost use Rattle.clearing.specs.Rule.{trades_in, price_of, fund_gets, fitting};

use orders::HalfCents;
use ranking::Side;

#[derive(Clone, Copy, Debug, PartialEq, Eq)]
pub enum Outcome {
    NoTrade,
    OnePrice {
        trades: usize,
        price: HalfCents,
    },
    TwoPrices {
        trades: usize,
        buyers: HalfCents,
        sellers: HalfCents,
    },
}

impl Outcome {
    pub fn trades(self) -> usize
        ensures { result ≡ trades_in self }
    {
        match self {
            Outcome::NoTrade => 0,
            Outcome::OnePrice { trades, .. } | Outcome::TwoPrices { trades, .. } => trades,
        }
    }

    // What each buyer who trades pays, or each seller gets; 0 where nobody does.
    pub fn price(self, side: Side) -> HalfCents
        ensures { result.0 ≡ price_of side self }
    {
        match (self, side) {
            (Outcome::NoTrade, _) => HalfCents(0),
            (Outcome::OnePrice { price, .. }, _) => price,
            (Outcome::TwoPrices { buyers, .. }, Side::Buyers) => buyers,
            (Outcome::TwoPrices { sellers, .. }, Side::Sellers) => sellers,
        }
    }

    // What the fund gets; none where that passes 64 bits, as it never does for lists of 2,000 members.
    pub fn fund(self) -> Option<HalfCents>
        ensures { result ≡ fitting (fund_gets self) }
    {
        let HalfCents(paid) = self.price(Side::Buyers);
        let HalfCents(got) = self.price(Side::Sellers);
        let takings = self.trades() as u128 * u128::from(paid.saturating_sub(got));
        u64::try_from(takings).ok().map(HalfCents)
    }
}
