// A value for each side of a kind.
ghost use Rattle.std.specs.Prelude.{◌≡◌};
ghost use Rattle.std.specs.Borrow.{sem};
ghost use Rattle.ranking.specs.Lending.{lends_side};
ghost use Rattle.ranking.specs.Sides.{of_side, with_side};

use crate::ranked::Side;

#[derive(Clone, Copy, Debug, PartialEq, Eq, Drop)]
pub struct Sides<T> {
    pub buyers: T,
    pub sellers: T,
}

impl<T> Sides<T> {
    pub fn get(&self, side: Side) -> &T
        ensures { result.now ≡ of_side side self.now }
    {
        match side {
            Side::Buyers => &self.buyers,
            Side::Sellers => &self.sellers,
        }
    }

    pub fn get_mut(&mut self, side: Side) -> &mut T
        ensures* writes_back { sem 𝓛 (lends_side T.row self.entry side result) }
        ensures value { result.now ≡ of_side side self.old }
    {
        match side {
            Side::Buyers => &mut self.buyers,
            Side::Sellers => &mut self.sellers,
        }
    }
}

impl<T: Copy> Sides<T> {
    pub fn of(self, side: Side) -> T
        ensures { result ≡ of_side side self }
    {
        *self.get(side)
    }

    // The same values but for one side's.
    pub fn with(self, side: Side, value: T) -> Sides<T>
        ensures { result ≡ with_side side value self }
    {
        match side {
            Side::Buyers => Sides {
                buyers: value,
                ..self
            },
            Side::Sellers => Sides {
                sellers: value,
                ..self
            },
        }
    }
}
