// An evening of few members and few numbers, so that there are many ties, with its sheet.
use clearing::{clear, count_pairs};
use dice::Dice;
use orders::{Cents, Entry, Extent};
use ranking::{Index, Ranked, Side};
use sheet::{Listing, write_kind};
use std::alloc::{AllocError, Global};
use std::test::Fail;

pub const EXTENT: Extent = Extent {
    kinds: 3,
    members: 9,
};

// An entry of few different numbers.
fn entry(dice: &mut Dice) -> Entry {
    let cents = Cents(u32::try_from(dice.roll(4)).unwrap_or(0).saturating_add(1));
    match dice.roll(5) {
        0 => Entry::Nothing,
        1 | 2 => Entry::Bid(cents),
        _ => Entry::Ask(cents),
    }
}

#[derive(Drop)]
pub struct Evening {
    pub entries: Vec<u32>,
    pub sheet: Vec<u8>,
}

// The ranks of a side of a kind.
fn ranks(heap: Global, index: &Index, kind: u8, side: Side) -> Result<Vec<Ranked>, AllocError> {
    (0..EXTENT.members)
        .filter_map(|rank| index.member_at(kind, side, rank))
        .collect(heap)
}

// Writes a kind at a place of the sheet, and answers where it ends.
fn publish(
    heap: Global,
    index: &Index,
    kind: u8,
    sheet: &mut [u8],
    at: usize,
) -> Result<usize, Fail> {
    let buyers = ranks(heap, index, kind, Side::Buyers)?;
    let sellers = ranks(heap, index, kind, Side::Sellers)?;
    let (buyers, sellers) = (buyers.as_slice(), sellers.as_slice());
    let pairs = count_pairs(buyers, sellers);
    let first = pairs.saturating_add(1);
    let listing = Listing {
        pairs,
        outcome: clear(buyers, sellers),
        buyers: &buyers[0..first.min(buyers.len())],
        sellers: &sellers[0..first.min(sellers.len())],
    };
    Ok(write_kind(sheet, at, listing).ok_or("the sheet is full")?)
}

// Rolls the entries of a kind, and takes them into the index.
fn enter(dice: &mut Dice, index: &mut Index, kind: u8, entries: &mut Vec<u32>) -> Result<(), Fail> {
    for member in 0..EXTENT.members {
        let entry = entry(dice);
        entries.push(u32::try_from(entry)?)?;
        if let Some((side, cents)) = Side::of(entry) {
            let _free = index.put(kind, side, member, cents);
        }
    }
    Ok(())
}

pub(crate) fn hold(heap: Global, dice: &mut Dice) -> Result<Evening, Fail> {
    let mut index = Index::new(heap, EXTENT)?;
    let mut entries = Vec::new(heap);
    let mut sheet = vec![in heap; 0u8; 400]?;
    let mut length = 0;
    for kind in 0..EXTENT.kinds {
        enter(dice, &mut index, kind, &mut entries)?;
        length = publish(heap, &index, kind, sheet.as_mut_slice(), length)?;
    }
    sheet.truncate(length);
    Ok(Evening { entries, sheet })
}
