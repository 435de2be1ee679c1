// What is asked of a tree.
ghost use Rattle.std.specs.Prelude.{◌≡◌, ℕ, ◌^◌, ◌<◌, length, count_by, nat_lt, sum_by};
ghost use Rattle.std.specs.List.{slice_get};
ghost use Rattle.std.specs.Option.{option_map};
ghost use Rattle.ranking_wide.specs.Leaves.{Found, part};
ghost use Rattle.ranking_wide.specs.Trees.{keys_of, leaves_of};

use crate::key::Key;
use crate::leaf::Leaf;
use crate::tree::Tree;

// How many keys are in a row of leaves.
fn count(leaves: &[Leaf]) -> usize
    requires { sum_by (λ l. length (part l)) leaves.now < 65536 }
    ensures { result ≡ sum_by (λ l. length (part l)) leaves.now }
{
    leaves.iter().map(|leaf| leaf.keys.len()).sum()
}

impl Tree {
    // The leaf in whose range a key is.
    pub(super) fn leaf_of(&self, key: Key) -> usize
        ensures { Found key.number (leaves_of self.now) (2 ^ 48) result }
    {
        self.leaves.partition_point(|leaf| leaf.low <= key.number) - 1
    }

    // How many keys there are.
    pub(crate) fn len(&self) -> usize
        requires { length (keys_of self.now) < 65536 }
        ensures { result ≡ length (keys_of self.now) }
    {
        count(&self.leaves)
    }

    // How many keys are below one that need not be there.
    pub(crate) fn count_below(&self, key: Key) -> usize
        requires { length (keys_of self.now) < 65536 }
        ensures { result ≡ count_by (λ k. nat_lt k key.number) (keys_of self.now) }
    {
        let at = self.leaf_of(key);
        count(&self.leaves[..at]) + self.leaves[at].count_below(key.number)
    }

    // The key at a place, from 0.
    pub(crate) fn key_at(&self, place: usize) -> Option<Key>
        ensures { option_map (λ k. k.number) result ≡ slice_get (keys_of self.now) place }
    {
        let mut left = place;
        for leaf in &self.leaves {
            match leaf.keys.get(left) {
                Some(key) => return Some(Key { number: *key }),
                None => left -= leaf.keys.len(),
            }
        }
        None
    }
}
