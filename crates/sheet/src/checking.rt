// Checking a sheet against the entries. Whoever checks ranks for itself, and needs neither the index nor memory.
ghost use Rattle.std.specs.Prelude.{◌≡◌, ◌*◌, ◌≤◌, true, length, take};
ghost use Rattle.orders.specs.Entries.{row_of};
ghost use Rattle.sheet.specs.Standing.{lists_fields, lists_fit};
ghost use Rattle.sheet.specs.Sheets.{row_fields};
ghost use Rattle.sheet.specs.Statements.{AcceptsExactly, NamedRight, TellsRule};
ghost use Rattle.sheet.specs.Verdicts.{through, verdict, first_unknown, check_answer};

use crate::expecting::Reading;
use crate::listing::Listing;
use crate::ranks::{List, rank};
use clearing::{clear, count_pairs};
use orders::{Entry, Extent, Part, Refusal};
use ranking::{Ranked, Side};

// The first number that stands for no entry.
fn unknown(codes: &[u32]) -> Option<usize>
    ensures { result ≡ first_unknown 0 codes.now }
{
    codes
        .iter()
        .position(|code| Entry::try_from(*code).is_err())
}

// The first ranks, as far as there are so many.
fn front(list: &[Ranked], count: usize) -> &[Ranked]
    ensures { result.now ≡ take count list.now }
{
    list.get(..count).unwrap_or(list)
}

// Clears two ranked lists, and compares the kind.
fn check_lists(
    reading: Reading<'_>,
    at: usize,
    buyers: &[Ranked],
    sellers: &[Ranked],
) -> Result<usize, Refusal>
    requires { lists_fit buyers.now sellers.now ≡ true }
    ensures { result ≡ through reading.entry.sheet.now reading.entry.kind (lists_fields buyers.now sellers.now) at }
{
    let pairs = count_pairs(buyers, sellers);
    let listing = Listing {
        pairs,
        outcome: clear(buyers, sellers),
        buyers: front(buyers, pairs + 1),
        sellers: front(sellers, pairs + 1),
    };
    reading.expect_kind(at, listing)
}

// Ranks a kind's row of entries, and compares the kind. The lists are for what is ranked.
fn check_row(
    reading: Reading<'_>,
    at: usize,
    codes: &[u32],
    buyers: &mut List,
    sellers: &mut List,
) -> Result<usize, Refusal>
    requires { length codes.now ≤ 2000 }
    ensures { result ≡ through reading.entry.sheet.now reading.entry.kind (row_fields (row_of codes.now)) at }
{
    rank(buyers, Side::Buyers, codes);
    rank(sellers, Side::Sellers, codes);
    check_lists(reading, at, buyers.as_slice(), sellers.as_slice())
}

// Compares kind by kind, and sees that nothing follows.
fn check_kinds(extent: Extent, codes: &[u32], sheet: &[u8]) -> Result<(), Refusal>
    requires few { (1 ≤ extent.members) × (extent.members ≤ 2000) }
    requires there { extent.kinds * extent.members ≤ length codes.now }
    ensures { result ≡ verdict extent.kinds extent.members codes.now sheet.now }
{
    let mut buyers = List::new();
    let mut sellers = List::new();
    let mut at = 0;
    let rows = codes.chunks_exact(usize::from(extent.members));
    for (kind, row) in (0..extent.kinds).zip(rows) {
        let reading = Reading { sheet, kind };
        at = check_row(reading, at, row, &mut buyers, &mut sellers)?;
    }
    if at != sheet.len() {
        return Err(Refusal::GoesOn(at));
    }
    Ok(())
}

// What `check` answers, from the entries on.
fn answer(extent: Extent, codes: &[u32], sheet: &[u8]) -> Result<(), Refusal>
    ensures { result ≡ check_answer extent.kinds extent.members codes.now sheet.now }
{
    extent.check()?;
    let Some(entries) = codes.get(..extent.slots()) else {
        return Err(Refusal::Short(Part::Entries));
    };
    if let Some(entry) = unknown(entries) {
        return Err(Refusal::NoEntry(entry));
    }
    check_kinds(extent, codes, sheet)
}

// Accepts the sheet of the entries, and no other. Only the first kinds × members of the codes are entries.
pub fn check(extent: Extent, codes: &[u32], sheet: &[u8]) -> Result<(), Refusal>
    ensures answer { result ≡ check_answer extent.kinds extent.members codes.now sheet.now }
    ensures accepts { AcceptsExactly extent.kinds extent.members codes.now sheet.now result }
    ensures named { NamedRight extent.kinds extent.members codes.now sheet.now result }
    ensures tells { TellsRule extent.kinds extent.members codes.now sheet.now result }
{
    answer(extent, codes, sheet)
}
