// Comparing what is on a sheet with what should be there.
ghost use Rattle.std.specs.Prelude.{◌≡◌, true, length};
ghost use Rattle.orders.specs.declared.refusal.Refusal.TheVariants.{Differs};
ghost use Rattle.sheet.specs.Sheets.{row_bytes, kind_fields};
ghost use Rattle.sheet.specs.Verdicts.{step, through};
ghost use Rattle.sheet.specs.Writing.{fits};

use crate::listing::Listing;
use orders::{Field, HalfCents, Refusal};
use ranking::{Ranked, Side};

// A kind's part of a sheet.
#[derive(Clone, Copy)]
pub(crate) struct Reading<'a> {
    pub(crate) sheet: &'a [u8],
    pub(crate) kind: u8,
}

// Each of these compares from a place on, and answers where what it compared ends. The first byte that differs decides.
impl Reading<'_> {
    fn expect(self, at: usize, field: Field, bytes: &[u8]) -> Result<usize, Refusal>
        ensures { result ≡ step self.entry.sheet.now (Differs self.entry.kind field) bytes.now at }
    {
        let there = self.sheet.get(at..).unwrap_or(&[]);
        if there.starts_with(bytes) {
            return Ok(at + bytes.len());
        }
        if bytes.starts_with(there) {
            return Err(Refusal::Ends(at + there.len()));
        }
        Err(Refusal::Differs {
            kind: self.kind,
            field,
        })
    }

    fn expect_row(self, at: usize, field: Field, row: &[Ranked]) -> Result<usize, Refusal>
        ensures { result ≡ step self.entry.sheet.now (Differs self.entry.kind field) (row_bytes row.now) at }
    {
        let mut end = at;
        for one in row {
            end = self.expect(end, field, &one.member.to_le_bytes())?;
            end = self.expect(end, field, &one.cents.0.to_le_bytes())?;
        }
        Ok(end)
    }

    // Field by field.
    #[tactic(auto, unfolding(crate::specs::Words::bytes2, crate::specs::Words::bytes4))]
    pub(crate) fn expect_kind(self, at: usize, listing: Listing<'_>) -> Result<usize, Refusal>
        requires { fits listing.pairs listing.outcome (length listing.buyers.now) (length listing.sellers.now) ≡ true }
        ensures { let l = listing.entry in result ≡ through self.entry.sheet.now self.entry.kind (kind_fields l.pairs l.outcome l.buyers.now l.sellers.now) at }
    {
        let Listing {
            pairs,
            outcome,
            buyers,
            sellers,
        } = listing;
        let trades = outcome.trades();
        let HalfCents(pay) = outcome.price(Side::Buyers);
        let HalfCents(get) = outcome.price(Side::Sellers);
        let at = self.expect(at, Field::Pairs, &(pairs as u16).to_le_bytes())?;
        let at = self.expect(at, Field::Trades, &(trades as u16).to_le_bytes())?;
        let at = self.expect(at, Field::BuyersPrice, &(pay as u32).to_le_bytes())?;
        let at = self.expect(at, Field::SellersPrice, &(get as u32).to_le_bytes())?;
        let at = self.expect(at, Field::BuyersCount, &(buyers.len() as u16).to_le_bytes())?;
        let at = self.expect_row(at, Field::BuyersRow, buyers)?;
        let at = self.expect(
            at,
            Field::SellersCount,
            &(sellers.len() as u16).to_le_bytes(),
        )?;
        self.expect_row(at, Field::SellersRow, sellers)
    }
}
