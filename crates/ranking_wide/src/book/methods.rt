// What a book is asked, and how members go in and out.
ghost use Rattle.std.specs.Prelude.{◌≡◌};
ghost use Rattle.ranking_wide.specs.Books.{depth, listed, members};
ghost use Rattle.ranking_wide.specs.Indexes.{Narrow};
ghost use Rattle.std.proofs.Common.{rules};
ghost use Rattle.ranking_wide.specs.Sound.{entry_on};

use crate::book::Book;
use crate::key::Key;
use crate::tree::Tree;
use orders::{Cents, Entry};
use ranking::{OrderBook, Ranked, Side, Sides};
use std::alloc::{AllocError, Global};

// The entry with which a member stands on a side.
fn entry_on(side: Side, cents: Cents) -> Entry
    ensures { result ≡ entry_on side cents }
{
    match side {
        Side::Buyers => Entry::Bid(cents),
        Side::Sellers => Entry::Ask(cents),
    }
}

impl OrderBook for Book {
    ghost members = { members };

    ghost listed = { listed };

    ghost depth = { depth };

    ghost shape = { Narrow };

    // How many members are on a side. Its tree has leaves of 32 members at most, and not many of them.
    fn len(&self, side: Side) -> u16 {
        self.trees.get(side).len() as u16
    }

    // Takes a member in on a side; not one that is on a side already, or that there is not.
    fn put(&mut self, side: Side, member: u16, cents: Cents) -> bool {
        let slot = member as usize;
        if slot >= self.entries.len() {
            return false;
        }
        let Entry::Nothing = self.entries[slot] else {
            return false;
        };
        let key = Key::of(side, Ranked { member, cents });
        self.trees.get_mut(side).put(key);
        self.entries[slot] = entry_on(side, cents);
        true
    }

    // Takes a member out of a side, if it is there.
    fn take_out(&mut self, side: Side, member: u16) -> bool {
        let slot = member as usize;
        if slot >= self.entries.len() {
            return false;
        }
        let Some(cents) = side.cents_of(self.entries[slot]) else {
            return false;
        };
        let key = Key::of(side, Ranked { member, cents });
        self.trees.get_mut(side).take_out(key);
        self.entries[slot] = Entry::Nothing;
        true
    }

    // How many members of a side come before a number with a tie, which need not be there.
    fn count_before(&self, side: Side, limit: Ranked) -> u16 {
        self.trees.get(side).count_below(Key::of(side, limit)) as u16
    }

    // The member of a rank, with its number.
    fn member_at(&self, side: Side, rank: u16) -> Option<Ranked> {
        let key = self.trees.get(side).key_at(rank as usize)?;
        Some(key.ranked(side))
    }

    // A book of so many members, with none of them on a side.
    fn new(heap: Global, count: u16) -> Result<Book, AllocError> {
        let trees = Sides {
            buyers: Tree::new(heap, count)?,
            sellers: Tree::new(heap, count)?,
        };
        let entries = vec![in heap; Entry::Nothing; count as usize]?;
        Ok(Book { trees, entries })
    }

    ghost unshaped = { λ s. record { leaves = tt; root = Prim.search rules } };
}
