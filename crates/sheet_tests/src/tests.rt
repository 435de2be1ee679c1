use crate::making::{Dice, entries, sheet_of};
use orders::{Extent, Refusal};
use sheet::{Section, check, check_file, entries_file};
use std::alloc::Global;
use std::process::Abort;
use std::test::Fail;

// Three bids and three asks: two pairs, which trade at 13 half cents.
const CODES: [u32; 6] = [
    0x100_0009, 0x100_0007, 0x100_0005, 0x200_0004, 0x200_0005, 0x200_0008,
];

const SHEET: [u8; 52] = [
    2, 0, 2, 0, 13, 0, 0, 0, 13, 0, 0, 0, 3, 0, 0, 0, 9, 0, 0, 0, 1, 0, 7, 0, 0, 0, 2, 0, 5, 0, 0,
    0, 3, 0, 3, 0, 4, 0, 0, 0, 4, 0, 5, 0, 0, 0, 5, 0, 8, 0, 0, 0,
];

// An answer with the number and the place by which a refusal is made known.
fn known(answer: Result<(), Refusal>) -> Result<(), (u8, usize)> {
    answer.map_err(|refusal| (refusal.number(), refusal.place()))
}

// The field of a kind's byte, where so many buyers are listed.
fn field(byte: usize, buyers: usize) -> usize {
    let row = buyers.saturating_mul(6);
    match byte {
        0..=1 => 0,
        2..=3 => 1,
        4..=7 => 2,
        8..=11 => 3,
        12..=13 => 4,
        _ if byte < row.saturating_add(14) => 5,
        _ if byte < row.saturating_add(16) => 6,
        _ => 7,
    }
}

// An evening's entries, and their sheet.
#[derive(Clone, Copy)]
struct Evening<'a> {
    extent: Extent,
    codes: &'a [u32],
    sheet: &'a [u8],
}

impl Evening<'_> {
    fn known_of(self, sheet: &[u8]) -> Result<(), (u8, usize)> {
        known(check(self.extent, self.codes, sheet))
    }

    // The place by which a difference at a byte of the sheet is named.
    fn named(self, byte: usize) -> usize {
        let mut rest = self.sheet;
        let mut start = 0usize;
        for kind in 0..self.extent.kinds {
            let Some((section, after)) = Section::read(rest) else {
                break;
            };
            let end = start.saturating_add(rest.len().saturating_sub(after.len()));
            if byte < end {
                let field = field(byte.saturating_sub(start), section.buyers.len());
                return usize::from(kind).saturating_mul(8).saturating_add(field);
            }
            start = end;
            rest = after;
        }
        usize::MAX
    }

    // The sheet is accepted; with every `step`th byte changed the field is named, and cut there the length.
    fn try_all(self, rt: &impl Abort, heap: Global, step: usize) -> Result<(), Fail> {
        assert_eq!(rt; check(self.extent, self.codes, self.sheet), Ok(()));
        let mut changed = self.sheet.to_vec(heap)?;
        for (i, byte) in self.sheet.iter().enumerate().step_by(step.max(1)) {
            self.try_byte(rt, changed.as_mut_slice(), i, *byte);
            let cut = self.sheet.get(..i).unwrap_or(&[]);
            assert_eq!(rt; self.known_of(cut), Err((13, i)));
        }
        for more in 0..4u8 {
            changed.push(more)?;
            assert_eq!(rt;
                self.known_of(changed.as_slice()),
                Err((13, self.sheet.len()))
            );
        }
        Ok(())
    }

    // Changes a byte in two ways, and puts it back.
    fn try_byte(self, rt: &impl Abort, changed: &mut [u8], at: usize, byte: u8) {
        let place = self.named(at);
        for bit in [1u8, 128] {
            if at < changed.len() {
                changed[at] = byte ^ bit;
            }
            assert_eq!(rt; self.known_of(changed), Err((12, place)));
        }
        if at < changed.len() {
            changed[at] = byte;
        }
    }
}

#[test]
fn three_bids_and_asks(rt: HostRuntime) -> Result<(), Fail> {
    let evening = Evening {
        extent: extent(1, 6),
        codes: &CODES,
        sheet: &SHEET,
    };
    evening.try_all(&rt, rt.alloc(), 1)
}

fn extent(kinds: u8, members: u16) -> Extent {
    Extent { kinds, members }
}

// An evening whose numbers go up to `most`.
fn try_evening(
    rt: &impl Abort,
    heap: Global,
    dice: &mut Dice,
    extent: Extent,
    most: u32,
    step: usize,
) -> Result<(), Fail> {
    let codes = entries(heap, dice, extent.slots(), most)?;
    let sheet = sheet_of(heap, extent, codes.as_slice())?;
    let evening = Evening {
        extent,
        codes: codes.as_slice(),
        sheet: sheet.as_slice(),
    };
    evening.try_all(rt, heap, step)
}

#[test]
fn small_evenings(rt: HostRuntime) -> Result<(), Fail> {
    let mut dice = Dice(1);
    for members in 1..17u16 {
        for kinds in 1..4u8 {
            try_evening(&rt, rt.alloc(), &mut dice, extent(kinds, members), 12, 1)?;
        }
    }
    Ok(())
}

#[test]
fn middling_evening(rt: HostRuntime) -> Result<(), Fail> {
    try_evening(&rt, rt.alloc(), &mut Dice(2), extent(6, 60), 100, 1)
}

#[test]
fn large_evening(rt: HostRuntime) -> Result<(), Fail> {
    let extent = extent(64, 2000);
    let codes = entries(rt.alloc(), &mut Dice(3), extent.slots(), 10_000_000)?;
    let sheet = sheet_of(rt.alloc(), extent, codes.as_slice())?;
    assert!(rt; sheet.len() > 300_000);
    let evening = Evening {
        extent,
        codes: codes.as_slice(),
        sheet: sheet.as_slice(),
    };
    evening.try_all(&rt, rt.alloc(), 9973)
}

#[test]
fn out_of_range(rt: HostRuntime) {
    assert_eq!(rt; known(check(extent(0, 6), &CODES, &SHEET)), Err((9, 0)));
    assert_eq!(rt; known(check(extent(65, 2000), &CODES, &SHEET)), Err((9, 0)));
    assert_eq!(rt; known(check(extent(1, 0), &CODES, &SHEET)), Err((9, 1)));
    assert_eq!(rt; known(check(extent(1, 2001), &CODES, &SHEET)), Err((9, 1)));
    assert_eq!(rt; known(check(extent(1, 7), &CODES, &SHEET)), Err((11, 0)));
    assert_eq!(rt;
        known(check(extent(64, 2000), &CODES, &SHEET)),
        Err((11, 0))
    );
    let codes = [0, 0x100_0001, 0x100_0000, 1];
    assert_eq!(rt; known(check(extent(2, 2), &codes, &SHEET)), Err((7, 2)));
    assert_eq!(rt; known(check(extent(1, 1), &codes, &SHEET)), Err((12, 0)));
}

#[test]
fn entries_in_a_file(rt: HostRuntime) -> Result<(), Fail> {
    let mut file = entries_file(rt.alloc(), extent(1, 6), &CODES)?;
    assert_eq!(rt; file.len(), 27);
    assert_eq!(rt; check_file(rt.alloc(), file.as_slice(), &SHEET), Ok(()));
    for i in 0..file.len() {
        let cut = file.as_slice().get(..i).unwrap_or(&[]);
        let answer = match i {
            0 => (9, 0),
            1 | 2 => (9, 1),
            _ => (11, 0),
        };
        assert_eq!(rt; known(check_file(rt.alloc(), cut, &SHEET)), Err(answer));
    }
    file.push(0)?;
    assert_eq!(rt;
        known(check_file(rt.alloc(), file.as_slice(), &SHEET)),
        Err((13, 27))
    );
    Ok(())
}
