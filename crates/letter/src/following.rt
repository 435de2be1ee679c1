// What follows from a line's own numbers.
ghost use Rattle.std.specs.Prelude.{◌≡◌, ◌+◌};
ghost use Rattle.ranking.specs.Ranks.{better};
ghost use Rattle.letter.specs.Following.{of_side, both_there, meets, numbers_or_none, no_better, possible, ahead, behind, tie_holds, trades, served, due, can_stand, follows};

use crate::line::{Line, Pair};
use crate::tie::Tie;
use orders::{Cents, HalfCents};
use ranking::Side;

impl Pair {
    // The number of a side.
    fn of(self, side: Side) -> Cents
        ensures { result.0 ≡ of_side side self }
    {
        match side {
            Side::Buyers => self.bid,
            Side::Sellers => self.ask,
        }
    }

    fn both_there(self) -> bool
        ensures { result ≡ both_there self }
    {
        Pair::NONE < self.bid && Pair::NONE < self.ask
    }

    // Whether the ask is at most the bid, and both are there.
    fn meets(self) -> bool
        ensures { result ≡ meets self }
    {
        self.both_there() && self.ask <= self.bid
    }

    // Whether each is in range, or not there.
    fn numbers_or_none(self) -> bool
        ensures { result ≡ numbers_or_none self }
    {
        (self.bid == Pair::NONE || self.bid.in_range())
            && (self.ask == Pair::NONE || self.ask.in_range())
    }

    // Whether the bid is no higher and the ask no lower.
    fn no_better_than(self, last: Pair) -> bool
        ensures { result ≡ no_better self last }
    {
        self.bid <= last.bid && (self.ask == Pair::NONE || last.ask <= self.ask)
    }

    // Whether these can be the numbers after a last pair.
    fn can_follow(self, last: Pair) -> bool
        ensures { result ≡ possible last self }
    {
        last.numbers_or_none()
            && self.numbers_or_none()
            && (last.meets() || (last.bid == Pair::NONE && last.ask == Pair::NONE))
            && !self.meets()
            && (!last.meets() || self.no_better_than(last))
    }

    // The price half way between the bid and the ask.
    fn middle(self) -> HalfCents
        ensures { result.0 ≡ self.bid.0 + self.ask.0 }
    {
        HalfCents(u64::from(self.bid.0) + u64::from(self.ask.0))
    }

    // Whether the price from these numbers lies between the last pair's ask and its bid.
    fn serves(self, last: Pair) -> bool
        ensures { result ≡ served last self }
    {
        let price = self.middle();
        self.both_there()
            && HalfCents::from(last.ask) <= price
            && price <= HalfCents::from(last.bid)
    }
}

impl Line {
    // Whether the member's number is better than another on its side.
    fn is_better_than(&self, other: Cents) -> bool
        ensures { result ≡ better self.now.side self.now.cents.0 other.0 }
    {
        self.side.is_better(self.cents, other)
    }

    // Whether the member's number is better than that of the last pair.
    fn ahead(&self) -> bool
        ensures { result ≡ ahead self.now.side self.now.cents.0 self.now.last }
    {
        let last = self.last.of(self.side);
        Pair::NONE < last && self.is_better_than(last)
    }

    // Whether the next number is there and no worse than the member's.
    fn behind(&self) -> bool
        ensures { result ≡ behind self.now.side self.now.cents.0 self.now.next }
    {
        let next = self.next.of(self.side);
        Pair::NONE < next && !self.is_better_than(next)
    }

    // Whether the numbers allow the word on the tie.
    fn tie_holds(&self) -> bool
        ensures { result ≡ tie_holds self.now.side self.now.cents.0 self.now.last self.now.next self.now.tie }
    {
        let tied = self.cents == self.last.of(self.side);
        match self.tie {
            Tie::NoTie => !tied && (self.ahead() || self.behind()),
            Tie::Before | Tie::At => tied,
            Tie::After => tied && self.behind(),
        }
    }

    // Whether the member's rank is below the number of trades.
    fn trades(&self) -> bool
        ensures { result ≡ trades self.now.side self.now.cents.0 self.now.last self.now.next self.now.tie }
    {
        match self.tie {
            Tie::NoTie => self.ahead(),
            Tie::Before => true,
            Tie::At => self.next.serves(self.last),
            Tie::After => false,
        }
    }

    // The price at which the member trades by the rule, if it does.
    fn due(&self) -> Option<HalfCents>
        ensures { result ≡ due self.now.side self.now.cents.0 self.now.last self.now.next self.now.tie }
    {
        if !self.trades() {
            return None;
        }
        if self.next.serves(self.last) {
            return Some(self.next.middle());
        }
        Some(HalfCents::from(self.last.of(self.side)))
    }

    // Whether a member can stand so: its numbers are possible, and they allow its word on a tie.
    fn can_stand(&self) -> bool
        ensures { result ≡ can_stand self.now.side self.now.cents.0 self.now.last self.now.next self.now.tie }
    {
        self.cents.in_range() && self.next.can_follow(self.last) && self.tie_holds()
    }

    // Whether the line says what follows from its own numbers and its word on a tie.
    pub fn follows(&self) -> bool
        ensures { result ≡ follows self.now }
    {
        self.can_stand() && self.price == self.due()
    }
}
