// What a book is asked, and how members go in and out.
ghost use Rattle.ranking.specs.Books.{depth, listed, members};

use crate::book::Book;
use crate::booking::{FREE, enter, leave};
use crate::lookup;
use crate::node::NONE;
use crate::order_book::OrderBook;
use crate::ranked::{Ranked, Side};
use crate::sides::Sides;
use crate::tree::size_of;
use orders::Cents;
use std::alloc::{AllocError, Global};

impl OrderBook for Book {
    ghost members = { members };

    ghost listed = { listed };

    ghost depth = { depth };

    // How many members are on a side.
    fn len(&self, side: Side) -> u16 {
        size_of(&self.nodes, self.roots.of(side))
    }

    // Takes a member in on a side; not one that is on a side already, or that there is not.
    fn put(&mut self, side: Side, member: u16, cents: Cents) -> bool {
        let Some(node) = self.nodes.get(member as usize) else {
            return false;
        };
        if node.count != 0 {
            return false;
        }
        let new = Ranked { member, cents };
        self.roots = enter(&mut self.nodes, self.roots, side, new);
        true
    }

    // Takes a member out of a side, if it is there.
    fn take_out(&mut self, side: Side, member: u16) -> bool {
        if member as usize >= self.nodes.len() {
            return false;
        }
        let before = self.len(side);
        self.roots = leave(&mut self.nodes, self.roots, side, member);
        self.len(side) < before
    }

    // How many members of a side come before a number with a tie, which need not be there.
    fn count_before(&self, side: Side, limit: Ranked) -> u16 {
        lookup::count_before(&self.nodes, side, self.roots.of(side), limit)
    }

    // The member of a rank, with its number.
    fn member_at(&self, side: Side, rank: u16) -> Option<Ranked> {
        let member = lookup::member_at(&self.nodes, self.roots.of(side), rank)?;
        Some(Ranked {
            member,
            cents: self.nodes[member as usize].cents,
        })
    }

    // A book of so many members, with none of them on a side.
    fn new(heap: Global, count: u16) -> Result<Book, AllocError> {
        let nodes = vec![in heap; FREE; count as usize]?;
        let roots = Sides {
            buyers: NONE,
            sellers: NONE,
        };
        Ok(Book { nodes, roots })
    }

    ghost unshaped = { λ _. tt };
}
