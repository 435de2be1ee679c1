// An order book of a kind, whatever holds its members: what an index asks of it.
ghost use Rattle.std.specs.Prelude.{◌≡◌, ℕ, ◌+◌, ◌*◌, ◌^◌, ◌≤◌, List, [], length, IfOk, if◌then◌else◌, count_by, Some, None, Option};
ghost use Rattle.ranking.specs.Kinds.{fresh_of};
ghost use Rattle.ranking.specs.Books.{Ordered, ranked_as};
ghost use Rattle.ranking.specs.declared.ranked.Side.{Side as OneSide};
ghost use Rattle.ranking.specs.declared.ranked.Ranked.{Ranked as Rank};
ghost use Rattle.ranking.specs.Lists.{has, less};
ghost use Rattle.ranking.specs.Ranks.{before, insert as inserted, own};
ghost use Rattle.ranking.specs.Sides.{opposite};
ghost use Rattle.std.specs.List.{slice_get};

use crate::ranked::{Ranked, Side};
use orders::Cents;
use std::alloc::{AllocError, Global};

pub trait OrderBook: Drop {
    // How many members there are, on a side or not.
    ghost members: { Self → ℕ };

    // The members of a side with their numbers, the first of them first.
    ghost listed: { OneSide → Self → List Rank };

    // How many nodes stand one below the other at most.
    ghost depth: { OneSide → Self → ℕ };

    // What else is so of how a side is held, by a book or where there is none.
    ghost shape: { OneSide → Option Self → Type 0 } = { λ _ _. Unit {0} };

    // A book of so many members, with none of them on a side.
    fn new(heap: Global, count: u16) -> Result<Self, AllocError>
    where
        Self: Sized,
        ensures { IfOk result (λ b. (members b ≡ count) × ((s : OneSide) → listed s b ≡ [])) };

    // How many members are on a side.
    fn len(&self, side: Side) -> u16
        ensures count { result ≡ length (listed side self.now) }
        ensures ordered { Ordered side (listed side self.now) }
        ensures shallow { 4 ^ depth side self.now ≤ 3 ^ depth side self.now * (result + 1) }
        ensures shaped { shape side (Some self.now) };

    // Takes a member in on a side; not one that is on a side already, or that there is not.
    fn put(&mut self, side: Side, member: u16, cents: Cents) -> bool
        ensures answer { result ≡ fresh_of (members self.old) (λ s. listed s self.old) member }
        ensures this { listed side self.new ≡ (if result then inserted side own (ranked_as member cents) (listed side self.old) else listed side self.old) }
        ensures other { listed (opposite side) self.new ≡ listed (opposite side) self.old }
        ensures size { members self.new ≡ members self.old };

    // Takes a member out of a side, if it is there.
    fn take_out(&mut self, side: Side, member: u16) -> bool
        ensures answer { result ≡ has member (listed side self.old) }
        ensures this { listed side self.new ≡ less member (listed side self.old) }
        ensures other { listed (opposite side) self.new ≡ listed (opposite side) self.old }
        ensures size { members self.new ≡ members self.old };

    // How many members of a side come before a number with a tie, which need not be there.
    fn count_before(&self, side: Side, limit: Ranked) -> u16
        ensures { result ≡ count_by (λ x. before side own x limit) (listed side self.now) };

    // The member of a rank, with its number.
    fn member_at(&self, side: Side, rank: u16) -> Option<Ranked>
        ensures { result ≡ slice_get (listed side self.now) rank };

    // Where there is no book, nothing has to be done for it.
    ghost unshaped: { (s : OneSide) → shape s None };
}
