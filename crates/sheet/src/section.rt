// Reading a kind's part of a sheet from any bytes.
ghost use Rattle.std.specs.Prelude.{◌≡◌, ◌+◌, ◌*◌, ◌≤◌, length, take, drop, is_some, IfSome, nat_le};
ghost use Rattle.orders.specs.Words.{word2, word4};
ghost use Rattle.sheet.specs.Sections.{has_row, row_in, past_row, has_kind, buyers_in, sellers_in, past_kind, how_many_listed, listed};

use orders::{Cents, HalfCents, word_u16, word_u32};
use ranking::Ranked;

// The bytes of a member with its number.
const LISTED: usize = 6;

// What a sheet says of a kind.
#[derive(Clone, Copy)]
pub struct Section<'a> {
    pub pairs: u16,
    pub trades: u16,
    pub buyers_price: HalfCents,
    pub sellers_price: HalfCents,
    pub buyers: Row<'a>,
    pub sellers: Row<'a>,
}

// The members of a side that are listed, in bytes.
#[derive(Clone, Copy)]
pub struct Row<'a> {
    pub bytes: &'a [u8],
}

impl Row<'_> {
    // The row at the beginning of the bytes, after its count, and what comes after it.
    fn read(bytes: &[u8]) -> Option<(Row<'_>, &[u8])>
        ensures there { is_some result ≡ has_row bytes.now }
        ensures parts { IfSome result (λ x. (x.0.bytes.now ≡ row_in bytes.now) × (x.1.now ≡ past_row bytes.now)) }
    {
        let (count, rest) = bytes.split_at_checked(2)?;
        let (row, rest) = rest.split_at_checked(LISTED * usize::from(word_u16(count, 0)))?;
        Some((Row { bytes: row }, rest))
    }

    // How many are listed.
    pub fn len(self) -> usize
        ensures { result ≡ how_many_listed self.entry.bytes.now }
    {
        self.bytes.len() / LISTED
    }

    // The member of a rank, if one is listed.
    pub fn get(self, rank: usize) -> Option<Ranked>
        ensures { result ≡ listed self.entry.bytes.now rank }
    {
        if rank >= self.len() {
            return None;
        }
        Some(Ranked {
            member: word_u16(self.bytes, LISTED * rank),
            cents: Cents(word_u32(self.bytes, LISTED * rank + 2)),
        })
    }
}

impl Section<'_> {
    // The kind at the beginning of the bytes, and what comes after it; none where the bytes end too early.
    pub fn read(bytes: &[u8]) -> Option<(Section<'_>, &[u8])>
        ensures there { is_some result ≡ has_kind bytes.now }
        ensures pairs { IfSome result (λ x. x.0.pairs ≡ word2 bytes.now 0) }
        ensures trades { IfSome result (λ x. x.0.trades ≡ word2 bytes.now 2) }
        ensures buyers_price { IfSome result (λ x. x.0.buyers_price.0 ≡ word4 bytes.now 4) }
        ensures sellers_price { IfSome result (λ x. x.0.sellers_price.0 ≡ word4 bytes.now 8) }
        ensures buyers { IfSome result (λ x. x.0.buyers.bytes.now ≡ buyers_in bytes.now) }
        ensures sellers { IfSome result (λ x. x.0.sellers.bytes.now ≡ sellers_in bytes.now) }
        ensures rest { IfSome result (λ x. x.1.now ≡ past_kind bytes.now) }
    {
        let (_, rest) = bytes.split_at_checked(12)?;
        let (buyers, rest) = Row::read(rest)?;
        let (sellers, rest) = Row::read(rest)?;
        let section = Section {
            pairs: word_u16(bytes, 0),
            trades: word_u16(bytes, 2),
            buyers_price: HalfCents(u64::from(word_u32(bytes, 4))),
            sellers_price: HalfCents(u64::from(word_u32(bytes, 8))),
            buyers,
            sellers,
        };
        Some((section, rest))
    }
}
