// The pairs of a kind, as the index tells who has a rank.
ghost use Rattle.std.specs.Prelude.{◌≡◌, ◌<◌};
ghost use Rattle.std.specs.List.{slice_get};
ghost use Rattle.ranking.specs.Indexes.{kind_list};
ghost use Rattle.ranking.specs.declared.ranked.Side.TheVariants.{Buyers, Sellers};
ghost use Rattle.clearing.specs.Rule.{cents_of, pairs as pairs_of};
ghost use Rattle.ledger.specs.Pairs.{are_pair};

use crate::session::Session;
use ranking::Side;

impl Session {
    // How many pairs a kind has.
    pub(crate) fn pairs(&self, kind: u8) -> usize
        ensures few { result < 65536 }
        ensures pairs { result ≡ pairs_of (cents_of (kind_list kind Buyers self.now.index)) (cents_of (kind_list kind Sellers self.now.index)) }
    {
        let both = self
            .index
            .len(kind, Side::Buyers)
            .min(self.index.len(kind, Side::Sellers));
        (0..both)
            .take_while(|rank| self.is_pair(kind, *rank))
            .count()
    }

    // Whether the buyer and the seller of a rank are a pair.
    fn is_pair(&self, kind: u8, rank: u16) -> bool
        ensures { result ≡ are_pair (slice_get (kind_list kind Buyers self.now.index) rank) (slice_get (kind_list kind Sellers self.now.index) rank) }
    {
        let buyer = self.index.member_at(kind, Side::Buyers, rank);
        let seller = self.index.member_at(kind, Side::Sellers, rank);
        match (buyer, seller) {
            (Some(buyer), Some(seller)) => seller.cents <= buyer.cents,
            _ => false,
        }
    }
}
