// Writing a kind's part of the sheet.
ghost use Rattle.std.specs.Prelude.{◌≡◌, ◌+◌, ◌*◌, ◌<◌, ◌≤◌, true, ◌++◌, length, if◌then◌else◌, Some, None};
ghost use Rattle.clearing.specs.Rule.{trades_in, buyers_pay, sellers_get};
ghost use Rattle.sheet.specs.Words.{bytes2, bytes4};
ghost use Rattle.sheet.specs.Sheets.{row_bytes, kind_sheet};
ghost use Rattle.sheet.specs.Writing.{written_at, fits, kind_length, writable};

use crate::listing::Listing;
use orders::HalfCents;
use ranking::{Ranked, Side};

// Writes bytes at a place, and answers where they end.
pub fn put(bytes: &mut [u8], at: usize, what: &[u8]) -> usize
    requires { at + length what.now ≤ length bytes.old }
    ensures end { result ≡ at + length what.now }
    ensures bytes { bytes.new ≡ written_at at what.now bytes.old }
{
    let end = at + what.len();
    bytes[at..end].copy_from_slice(what);
    end
}

// Each member of a row with its number.
fn put_row(sheet: &mut [u8], at: usize, row: &[Ranked]) -> usize
    requires { at + 6 * length row.now ≤ length sheet.old }
    ensures end { result ≡ at + 6 * length row.now }
    ensures bytes { sheet.new ≡ written_at at (row_bytes row.now) sheet.old }
{
    let mut end = at;
    for one in row {
        end = put(sheet, end, &one.member.to_le_bytes());
        end = put(sheet, end, &one.cents.0.to_le_bytes());
    }
    end
}

// How many are listed, and the row of them.
fn put_listed(sheet: &mut [u8], at: usize, row: &[Ranked]) -> usize
    requires room { at + (2 + 6 * length row.now) ≤ length sheet.old }
    requires few { length row.now < 65536 }
    ensures end { result ≡ at + (2 + 6 * length row.now) }
    ensures bytes { sheet.new ≡ written_at at (bytes2 (length row.now) ++ row_bytes row.now) sheet.old }
{
    let end = put(sheet, at, &(row.len() as u16).to_le_bytes());
    put_row(sheet, end, row)
}

impl Listing<'_> {
    // Its numbers, which stand before its rows.
    fn put_head(self, sheet: &mut [u8], at: usize) -> usize
        requires room { at + 12 ≤ length sheet.old }
        requires fit { fits self.pairs self.outcome (length self.buyers.now) (length self.sellers.now) ≡ true }
        ensures end { result ≡ at + 12 }
        ensures bytes { let o = self.entry.outcome in sheet.new ≡ written_at at (bytes2 self.entry.pairs ++ (bytes2 (trades_in o) ++ (bytes4 (buyers_pay o) ++ bytes4 (sellers_get o)))) sheet.old }
    {
        let trades = self.outcome.trades();
        let HalfCents(pay) = self.outcome.price(Side::Buyers);
        let HalfCents(get) = self.outcome.price(Side::Sellers);
        let end = put(sheet, at, &(self.pairs as u16).to_le_bytes());
        let end = put(sheet, end, &(trades as u16).to_le_bytes());
        let end = put(sheet, end, &(pay as u32).to_le_bytes());
        put(sheet, end, &(get as u32).to_le_bytes())
    }
}

// Writes a kind at a place and answers where it ends; none, and nothing is written, where there is no room for it or a
// number does not fit its field.
pub fn write_kind(sheet: &mut [u8], at: usize, listing: Listing<'_>) -> Option<usize>
    ensures end { let l = listing.entry in result ≡ (if writable (length sheet.old) at l.pairs l.outcome (length l.buyers.now) (length l.sellers.now) then Some (at + length (kind_sheet l.pairs l.outcome l.buyers.now l.sellers.now)) else None) }
    ensures bytes { let l = listing.entry in sheet.new ≡ (if writable (length sheet.old) at l.pairs l.outcome (length l.buyers.now) (length l.sellers.now) then written_at at (kind_sheet l.pairs l.outcome l.buyers.now l.sellers.now) sheet.old else sheet.old) }
{
    if !listing.is_writable(sheet.len(), at) {
        return None;
    }
    let end = listing.put_head(sheet, at);
    let end = put_listed(sheet, end, listing.buyers);
    Some(put_listed(sheet, end, listing.sellers))
}
