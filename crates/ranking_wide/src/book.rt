// The order book of a kind: its buyers and its sellers in the order of their ranks, each in a tree of their own, and what
// each member has. A book is made once and never grows.
ghost use Rattle.ranking_wide.specs.Sound.{Sound};

mod methods;

use crate::tree::Tree;
use orders::Entry;
use ranking::Sides;

#[derive(Drop)]
pub struct Book {
    trees: Sides<Tree>,
    // What a member has in the kind, by member.
    entries: Vec<Entry>,
    ghost sound: { ∥ Sound trees entries.items ∥₁ },
}
