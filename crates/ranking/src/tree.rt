// Trees in a row of slots.
ghost use Rattle.std.specs.Prelude.{◌≡◌, ℕ, ◌+◌, ◌*◌, ◌<◌, ◌≤◌, length, ◌≢◌};
ghost use Rattle.ranking.specs.Tree.{Tree, node, size};
ghost use Rattle.ranking.specs.Balance.{fork, double, lifted, balanced};
ghost use Rattle.ranking.specs.Slots.{Slot, size_at, Parts, HeldParts, Trio, HeldTrio, Became};

use crate::node::{Hand, NONE, Node};

// How many members are in a tree.
pub(crate) fn size_of(nodes: &[Node], root: u16) -> u16
    requires { Slot nodes.now root }
    ensures { result ≡ size_at nodes.now root }
{
    if root == NONE {
        return 0;
    }
    nodes[root as usize].count
}

// One more than the size of a tree.
fn weight(nodes: &[Node], root: u16) -> u32
    requires { Slot nodes.now root }
    ensures value { result ≡ size_at nodes.now root + 1 }
    ensures bound { result ≤ 65536 }
{
    u32::from(size_of(nodes, root)) + 1
}

// Makes one tree of `near` and `far` with `root` above them, `far` on a hand.
pub(crate) fn join(nodes: &mut [Node], hand: Hand, root: u16, near: u16, far: u16)
    requires { HeldParts nodes.old root near far }
    ensures { (t u : Tree) → Parts nodes.old root near far t u → Became nodes.old nodes.new root (fork hand t root u) (node t root u) }
{
    let count = size_of(nodes, near) + size_of(nodes, far) + 1;
    let slot = root as usize;
    nodes[slot] = nodes[slot].over(hand, near, far, count);
}

// Makes one tree of `near`, `inner` and `outer`, with `root` and `far` between them, and the root of `inner` on top.
fn lift_inner(
    nodes: &mut [Node],
    hand: Hand,
    root: u16,
    near: u16,
    far: u16,
    inner: u16,
    outer: u16,
) -> u16
    requires trees { HeldTrio nodes.old root far near inner outer }
    requires some { inner ≢ 65535 }
    ensures { (t u v : Tree) → Trio nodes.old root far near inner outer t u v → Became nodes.old nodes.new result (double hand t root u far v) (node (node t root u) far v) }
{
    let top = nodes[inner as usize];
    join(nodes, hand, root, near, top.inner(hand));
    join(nodes, hand, far, top.outer(hand), outer);
    join(nodes, hand, inner, root, far);
    inner
}

// Makes one tree of `near`, `root` and `far`, which is too heavy, so that its root or that of its inner child goes up.
fn lift(nodes: &mut [Node], hand: Hand, root: u16, near: u16, far: u16) -> u16
    requires trees { HeldParts nodes.old root near far }
    requires some { far ≢ 65535 }
    ensures { (t u : Tree) → Parts nodes.old root near far t u → Became nodes.old nodes.new result (lifted hand t root u) (node t root u) }
{
    let top = nodes[far as usize];
    let inner = top.inner(hand);
    let outer = top.outer(hand);
    if weight(nodes, inner) >= 2 * weight(nodes, outer) {
        return lift_inner(nodes, hand, root, near, far, inner, outer);
    }
    join(nodes, hand, root, near, inner);
    join(nodes, hand, far, root, outer);
    far
}

// Makes one tree of `near`, `root` and `far`, of which only `far` may be too heavy.
pub(crate) fn balance(nodes: &mut [Node], hand: Hand, root: u16, near: u16, far: u16) -> u16
    requires { HeldParts nodes.old root near far }
    ensures { (t u : Tree) → Parts nodes.old root near far t u → Became nodes.old nodes.new result (balanced hand t root u) (node t root u) }
{
    if weight(nodes, far) > 3 * weight(nodes, near) {
        return lift(nodes, hand, root, near, far);
    }
    join(nodes, hand, root, near, far);
    root
}
