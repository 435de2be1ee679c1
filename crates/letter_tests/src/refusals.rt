// What the writer refuses, with nothing changed, and the bytes of one letter.
use crate::known;
use letter::Published;
use orders::Extent;
use std::process::Abort;

// One kind, a buyer of 7 and a seller of 5: one pair, no next numbers, no trade.
const ENTRIES: [u32; 2] = [16777216 + 7, 33554432 + 5];

const SHEET: [u8; 28] = [
    1, 0, 0, 0, 0, 0, 0, 0, 0, 0, 0, 0, 1, 0, 0, 0, 7, 0, 0, 0, 1, 0, 1, 0, 5, 0, 0, 0,
];

fn answer<'x>(
    rt: &impl Abort,
    kinds: u8,
    members: u16,
    entries: &'x [u32],
    sheet: &'x [u8],
    member: u16,
    room: usize,
) -> Result<usize, (u8, usize)> {
    let published = Published {
        extent: Extent { kinds, members },
        entries,
        sheet,
    };
    let mut letter = [9u8; 31];
    assert!(rt; room <= letter.len());
    let answer = known(published.write_letter(member, &mut letter[0..room]));
    assert!(rt; answer.is_ok() || letter == [9u8; 31]);
    answer
}

#[test]
fn refused_letters(rt: HostRuntime) {
    assert_eq!(rt; answer(&rt, 0, 2, &ENTRIES, &SHEET, 0, 31), Err((9, 0)));
    assert_eq!(rt; answer(&rt, 65, 2, &ENTRIES, &SHEET, 0, 31), Err((9, 0)));
    assert_eq!(rt; answer(&rt, 1, 0, &ENTRIES, &SHEET, 0, 31), Err((9, 1)));
    assert_eq!(rt; answer(&rt, 1, 2001, &ENTRIES, &SHEET, 0, 31), Err((9, 1)));
    assert_eq!(rt; answer(&rt, 1, 2, &ENTRIES, &SHEET, 2, 31), Err((3, 0)));
    assert_eq!(rt;
        answer(&rt, 1, 2, &ENTRIES[0..1], &SHEET, 0, 31),
        Err((11, 0))
    );
    assert_eq!(rt; answer(&rt, 1, 2, &ENTRIES, &SHEET, 0, 30), Err((11, 3)));
    assert_eq!(rt;
        answer(&rt, 1, 2, &ENTRIES, &SHEET[0..27], 0, 31),
        Err((13, 27))
    );
}

#[test]
fn letter_in_bytes(rt: HostRuntime) {
    let published = Published {
        extent: Extent {
            kinds: 1,
            members: 2,
        },
        entries: &ENTRIES,
        sheet: &SHEET,
    };
    let mut letter = [9u8; 33];
    assert_eq!(rt; known(published.write_letter(1, &mut letter)), Ok(31));
    let wanted = [
        1, 0, 1, 0, 2, 5, 0, 0, 0, 0, 0, 0, 0, 0, 7, 0, 0, 0, 5, 0, 0, 0, 0, 0, 0, 0, 0, 0, 0, 0,
        2, 9, 9,
    ];
    assert!(rt; letter == wanted);
}
