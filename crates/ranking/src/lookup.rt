// What is asked of a tree.
ghost use Rattle.std.specs.Prelude.{◌≡◌};
ghost use Rattle.ranking.specs.Balance.{passed, picked};
ghost use Rattle.ranking.specs.Keys.{follows};
ghost use Rattle.ranking.specs.Slots.{Held, Stands};
ghost use Rattle.ranking.specs.Tree.{Tree};

use crate::node::{NONE, Node};
use crate::ranked::{Ranked, Side};
use crate::tree::size_of;

// How many members of a tree come before one that need not be there.
pub(crate) fn count_before(nodes: &[Node], side: Side, root: u16, limit: Ranked) -> u16
    requires { Held nodes.now root }
    ensures { (t : Tree) → Stands nodes.now root t → result ≡ passed (follows side nodes.now limit) t }
{
    let mut count = 0;
    let mut slot = root;
    while slot != NONE {
        let top = nodes[slot as usize];
        let there = Ranked {
            member: slot,
            cents: top.cents,
        };
        if there.comes_before(side, limit) {
            count += size_of(nodes, top.left) + 1;
            slot = top.right;
        } else {
            slot = top.left;
        }
    }
    count
}

// The member of a tree at a place, from 0.
pub(crate) fn member_at(nodes: &[Node], root: u16, place: u16) -> Option<u16>
    requires { Held nodes.now root }
    ensures { (t : Tree) → Stands nodes.now root t → result ≡ picked place t }
{
    let mut left = place;
    let mut slot = root;
    while slot != NONE {
        let top = nodes[slot as usize];
        let before = size_of(nodes, top.left);
        if left < before {
            slot = top.left;
        } else if left == before {
            return Some(slot);
        } else {
            left -= before + 1;
            slot = top.right;
        }
    }
    None
}
