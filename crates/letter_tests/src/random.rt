// Every letter of random evenings is accepted, and with one thing changed it is refused at the right place.
use crate::evening::{EXTENT, Evening, hold};
use crate::known;
use dice::Dice;
use letter::{Line, Published, check as judge};
use std::alloc::Global;
use std::process::Abort;
use std::test::Fail;

// The answer to a letter with one byte changed.
fn with_byte(
    rt: &impl Abort,
    heap: Global,
    letter: &[u8],
    at: usize,
    byte: u8,
    line: usize,
) -> Result<(), Fail> {
    let mut changed = letter.to_vec(heap)?;
    if let Some(place) = changed.get_mut(at) {
        *place = byte;
    }
    assert_eq!(rt; known(judge(changed.as_slice())), Err((14, line)));
    Ok(())
}

// The trade turned, the price changed by half a cent, and the word on a tie contradicted.
fn change_line(rt: &impl Abort, heap: Global, letter: &[u8], line: usize) -> Result<(), Fail> {
    let at = line.saturating_mul(Line::BYTES).saturating_add(Line::HEAD);
    let place = at.saturating_add(6);
    let traded = letter.get(place).copied().ok_or("no word on a trade")?;
    with_byte(rt, heap, letter, place, 1 - traded.min(1), line)?;
    let place = at.saturating_add(7);
    let price = letter.get(place).copied().ok_or("no price")?;
    with_byte(rt, heap, letter, place, price ^ 1, line)?;
    let place = at.saturating_add(27);
    let tie = letter.get(place).copied().ok_or("no word on a tie")?;
    with_byte(rt, heap, letter, place, if tie == 0 { 2 } else { 0 }, line)?;
    with_byte(rt, heap, letter, place, 4, line)
}

// Cut at every place, and extended.
fn change_length(rt: &impl Abort, heap: Global, letter: &[u8]) -> Result<(), Fail> {
    for end in 0..letter.len() {
        assert_eq!(rt; known(judge(&letter[0..end])), Err((13, end)));
    }
    let mut longer = letter.to_vec(heap)?;
    longer.push(0)?;
    assert_eq!(rt; known(judge(longer.as_slice())), Err((13, letter.len())));
    Ok(())
}

// How many lines the member's letter has.
fn try_letter(
    rt: &impl Abort,
    heap: Global,
    evening: &Evening,
    member: u16,
) -> Result<usize, Fail> {
    let published = Published {
        extent: EXTENT,
        entries: evening.entries.as_slice(),
        sheet: evening.sheet.as_slice(),
    };
    let mut letter = [0u8; 87];
    let length = published.write_letter(member, &mut letter)?;
    assert!(rt; length <= letter.len());
    let letter = &letter[0..length];
    assert_eq!(rt; judge(letter), Ok(()));
    change_length(rt, heap, letter)?;
    let lines = usize::from(letter.get(2).copied().ok_or("no head")?);
    for line in 0..lines {
        change_line(rt, heap, letter, line)?;
    }
    Ok(lines)
}

#[test]
fn letters_of_random_evenings(rt: HostRuntime) -> Result<(), Fail> {
    let mut dice = Dice(2026);
    let mut lines = 0usize;
    for _evening in 0..200 {
        let evening = hold(rt.alloc(), &mut dice)?;
        for member in 0..EXTENT.members {
            lines = lines.saturating_add(try_letter(&rt, rt.alloc(), &evening, member)?);
        }
    }
    assert!(rt; 4000 < lines);
    Ok(())
}
