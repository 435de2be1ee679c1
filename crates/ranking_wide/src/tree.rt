// The tree of a side: a root over leaves that hold the keys of the side's members in order. A key finds its leaf by the
// leaves' low numbers. Leaves are parted when they are full, and joined with their neighbours when there is no place for
// another.
ghost use Rattle.std.specs.Prelude.{vec_capacity};
ghost use Rattle.ranking_wide.specs.Leaves.{Grown};

mod growing;
mod lookup;

use crate::leaf::Leaf;

#[derive(Drop)]
pub struct Tree {
    leaves: Vec<Leaf>,
    // how many leaves there is place for
    most: usize,
    ghost grown: { ∥ Grown leaves.items most (vec_capacity leaves) ∥₁ },
}
