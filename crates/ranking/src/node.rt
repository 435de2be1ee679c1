// A node of a tree in its slot: slot m of a kind's row is member m's.
ghost use Rattle.std.specs.Prelude.{◌≡◌};
ghost use Rattle.ranking.specs.Balance.{node_of, inner_at, outer_at, hand_of, other};

use orders::Cents;

// No node: a number past every member.
pub const NONE: u16 = 0xffff;

// The child that is meant of the two.
#[derive(Clone, Copy)]
pub enum Hand {
    Left,
    Right,
}

impl Hand {
    // Where a member is that comes before the root, or does not.
    pub(crate) fn of(before: bool) -> Hand
        ensures { result ≡ hand_of before }
    {
        if before { Hand::Left } else { Hand::Right }
    }

    pub(crate) fn other(self) -> Hand
        ensures { result ≡ other self }
    {
        match self {
            Hand::Left => Hand::Right,
            Hand::Right => Hand::Left,
        }
    }
}

// Its children's slots, and how many members are in the tree below it, itself among them; 0 for a slot in no tree. The
// cents are those with which its member stands; of a slot in no tree, any.
#[derive(Clone, Copy)]
pub struct Node {
    pub left: u16,
    pub right: u16,
    pub count: u16,
    pub cents: Cents,
}

impl Node {
    // The same member's node with a child on a hand, `far`, and one on the other, `near`.
    pub(crate) fn over(self, hand: Hand, near: u16, far: u16, count: u16) -> Node
        ensures { result ≡ node_of hand near far count self.cents }
    {
        match hand {
            Hand::Left => Node {
                left: far,
                right: near,
                count,
                ..self
            },
            Hand::Right => Node {
                left: near,
                right: far,
                count,
                ..self
            },
        }
    }

    // The child on a hand.
    pub(crate) fn outer(self, hand: Hand) -> u16
        ensures { result ≡ outer_at hand self }
    {
        match hand {
            Hand::Left => self.left,
            Hand::Right => self.right,
        }
    }

    // The child on the other hand.
    pub(crate) fn inner(self, hand: Hand) -> u16
        ensures { result ≡ inner_at hand self }
    {
        match hand {
            Hand::Left => self.right,
            Hand::Right => self.left,
        }
    }
}
