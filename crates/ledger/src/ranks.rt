// The ranks of a kind, as the index tells them.
ghost use Rattle.std.specs.Prelude.{◌≡◌, ◌≤◌, min, length, take};
ghost use Rattle.orders.specs.Running.{written_over};
ghost use Rattle.ranking.specs.Indexes.{kind_list};

use crate::session::Session;
use ranking::{Ranked, Side};

impl Session {
    // Writes the members of a side of a kind into `list`, in the order of their ranks, as many as there are and have room,
    // and says how many.
    pub fn ranks(&self, kind: u8, side: Side, list: &mut [Ranked]) -> usize
        ensures count { result ≡ min (length list.old) (length (kind_list kind side self.now.index)) }
        ensures list { list.new ≡ written_over (take (length list.old) (kind_list kind side self.now.index)) list.old }
    {
        self.first_ranks(kind, side, list.len(), list)
    }

    // Writes the members of the first `most` ranks of a side of a kind into `list`, as many as there are and have room, and
    // says how many.
    pub(crate) fn first_ranks(
        &self,
        kind: u8,
        side: Side,
        most: usize,
        list: &mut [Ranked],
    ) -> usize
        ensures count { result ≡ length (take (min most (length list.old)) (kind_list kind side self.now.index)) }
        ensures within { result ≤ length list.old }
        ensures list { list.new ≡ written_over (take (min most (length list.old)) (kind_list kind side self.now.index)) list.old }
    {
        let count = usize::from(self.index.len(kind, side)).min(most.min(list.len()));
        for (rank, place) in list[..count].iter_mut().enumerate() {
            if let Some(one) = self.index.member_at(kind, side, rank as u16) {
                *place = one;
            }
        }
        count
    }
}
