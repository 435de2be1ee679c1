// What the index is asked, and how members go in and out.
ghost use Rattle.std.specs.Prelude.{◌≡◌, ℕ, ◌+◌, ◌*◌, ◌^◌, ◌<◌, ◌≤◌, [], length, IfOk, if◌then◌else◌, count_by, ◌≢◌, nat_lt};
ghost use Rattle.ranking.specs.Books.{Ordered, ranked_as};
ghost use Rattle.ranking.specs.declared.ranked.Side.{Side as OneSide};
ghost use Rattle.ranking.specs.Kinds.{book_of, free, kind_depth, kind_list, kind_members};
ghost use Rattle.ranking.specs.Lists.{has, less};
ghost use Rattle.ranking.specs.Ranks.{before, insert as inserted, own};
ghost use Rattle.ranking.specs.Sides.{opposite};
ghost use Rattle.std.specs.List.{slice_get};
ghost use Rattle.std.specs.Option.{option_copied};

use crate::index::Index;
use crate::order_book::OrderBook;
use crate::ranked::{Ranked, Side};
use orders::{Cents, Extent};
use std::alloc::{AllocError, Global};

impl<B: OrderBook> Index<B> {
    // An index of so many kinds and members, none of them on a side. No other call asks for memory.
    pub fn new(heap: Global, extent: Extent) -> Result<Index<B>, AllocError>
        ensures { IfOk result (λ ix. ((k : ℕ) → kind_members B.members k ix ≡ (if nat_lt k extent.kinds then extent.members else 0)) × ((k : ℕ) (s : OneSide) → kind_list B.listed k s ix ≡ [])) }
    {
        let mut books = Vec::with_capacity(heap, usize::from(extent.kinds))?;
        for _kind in 0..extent.kinds {
            books.push(B::new(heap, extent.members)?)?;
        }
        Ok(Index { books })
    }

    // The book of a kind, if there is one.
    fn book(&self, kind: u8) -> Option<&B>
        ensures { option_copied result ≡ book_of kind self.now }
    {
        self.books.get(kind as usize)
    }

    // How many members are on a side of a kind.
    pub fn len(&self, kind: u8, side: Side) -> u16
        ensures count { result ≡ length (kind_list B.listed kind side self.now) }
        ensures ordered { Ordered side (kind_list B.listed kind side self.now) }
        ensures shallow { 4 ^ kind_depth B.depth kind side self.now ≤ 3 ^ kind_depth B.depth kind side self.now * (result + 1) }
        ensures shaped { B.shape side (book_of kind self.now) }
    {
        match self.book(kind) {
            Some(book) => book.len(side),
            None => 0,
        }
    }

    // Takes a member in on a side of a kind; not one that is on a side of the kind already, or that there is not.
    pub fn put(&mut self, kind: u8, side: Side, member: u16, cents: Cents) -> bool
        ensures answer { result ≡ free B.members B.listed kind member self.old }
        ensures this { kind_list B.listed kind side self.new ≡ (if result then inserted side own (ranked_as member cents) (kind_list B.listed kind side self.old) else kind_list B.listed kind side self.old) }
        ensures other { kind_list B.listed kind (opposite side) self.new ≡ kind_list B.listed kind (opposite side) self.old }
        ensures rest { (k : ℕ) (s : OneSide) → (k ≢ kind) → kind_list B.listed k s self.new ≡ kind_list B.listed k s self.old }
        ensures size { (k : ℕ) → kind_members B.members k self.new ≡ kind_members B.members k self.old }
    {
        match self.books.get_mut(kind as usize) {
            Some(book) => book.put(side, member, cents),
            None => false,
        }
    }

    // Takes a member out of a side of a kind, if it is there.
    pub fn take_out(&mut self, kind: u8, side: Side, member: u16) -> bool
        ensures answer { result ≡ has member (kind_list B.listed kind side self.old) }
        ensures this { kind_list B.listed kind side self.new ≡ less member (kind_list B.listed kind side self.old) }
        ensures other { kind_list B.listed kind (opposite side) self.new ≡ kind_list B.listed kind (opposite side) self.old }
        ensures rest { (k : ℕ) (s : OneSide) → (k ≢ kind) → kind_list B.listed k s self.new ≡ kind_list B.listed k s self.old }
        ensures size { (k : ℕ) → kind_members B.members k self.new ≡ kind_members B.members k self.old }
    {
        let Some(book) = self.books.get_mut(kind as usize) else {
            return false;
        };
        book.take_out(side, member)
    }

    // How many members of a side of a kind come before a number with a tie, which need not be there.
    pub fn count_before(&self, kind: u8, side: Side, limit: Ranked) -> u16
        ensures { result ≡ count_by (λ x. before side own x limit) (kind_list B.listed kind side self.now) }
    {
        match self.book(kind) {
            Some(book) => book.count_before(side, limit),
            None => 0,
        }
    }

    // The member of a rank on a side of a kind, with its number.
    pub fn member_at(&self, kind: u8, side: Side, rank: u16) -> Option<Ranked>
        ensures { result ≡ slice_get (kind_list B.listed kind side self.now) rank }
    {
        self.book(kind)?.member_at(side, rank)
    }
}
