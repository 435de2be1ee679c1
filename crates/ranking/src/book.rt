// The order book of a kind: its buyers and its sellers in the order of their ranks, each in a tree of their own. The two
// trees share a row of slots, one for each member, so that a book is made once and never grows.
ghost use Rattle.ranking.specs.Sound.{Sound};

mod methods;

use crate::node::Node;
use crate::sides::Sides;

#[derive(Drop)]
pub struct Book {
    // By member.
    nodes: Vec<Node>,
    roots: Sides<u16>,
    ghost sound: { ∥ Sound nodes.items roots ∥₁ },
}
