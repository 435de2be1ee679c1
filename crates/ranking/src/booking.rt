// A member goes into a side of a kind, or out of it.
ghost use Rattle.std.specs.Prelude.{◌≡◌, ℕ, ◌<◌, length};
ghost use Rattle.ranking.specs.Lists.{less};
ghost use Rattle.ranking.specs.Ranks.{insert as inserted, own};
ghost use Rattle.ranking.specs.Sound.{Booked, Fresh, list_of, Sound};

use crate::node::{NONE, Node};
use crate::ranked::{Ranked, Side};
use crate::sides::Sides;
use crate::tree::size_of;
use crate::walk::{insert, remove};
use orders::Cents;

// The slot of a member in neither tree.
pub const FREE: Node = Node {
    left: NONE,
    right: NONE,
    count: 0,
    cents: Cents(0),
};

// Puts a member that is on neither side into one, with its number.
pub(crate) fn enter(nodes: &mut [Node], roots: Sides<u16>, side: Side, new: Ranked) -> Sides<u16>
    requires { Fresh nodes.old roots new.member }
    ensures { Booked side nodes.old roots nodes.new result (inserted side own new (list_of side nodes.old roots)) }
{
    nodes[new.member as usize].cents = new.cents;
    let root = insert(nodes, side, roots.of(side), new);
    roots.with(side, root)
}

// Takes a member out of a side, if it is there.
pub(crate) fn leave(nodes: &mut [Node], roots: Sides<u16>, side: Side, member: u16) -> Sides<u16>
    requires sound { Sound nodes.old roots }
    requires within { member < length nodes.old }
    ensures { Booked side nodes.old roots nodes.new result (less member (list_of side nodes.old roots)) }
{
    let slot = member as usize;
    let gone = Ranked {
        member,
        cents: nodes[slot].cents,
    };
    let root = roots.of(side);
    let before = size_of(nodes, root);
    let rest = remove(nodes, side, root, gone);
    if size_of(nodes, rest) == before {
        return roots.with(side, rest);
    }
    nodes[slot] = FREE;
    roots.with(side, rest)
}
