// The index of a kind beside its row of entries: every rank and every count is looked for by a scan of the row. Each trial
// is held with either kind of book.
use dice::Dice;
use orders::{Cents, Entry, Extent};
use ranking::{Book, Index, OrderBook, Ranked, Side};
use std::alloc::Global;
use std::process::Abort;
use std::test::Fail;

// The kind that is tried, in the middle of three.
const KIND: u8 = 1;

#[derive(Drop)]
struct Trial<B> {
    index: Index<B>,
    row: Vec<Entry>,
}

fn fresh_trial<B: OrderBook>(heap: Global, members: u16) -> Result<Trial<B>, Fail> {
    let index = Index::new(heap, Extent { kinds: 3, members })?;
    let row = vec![in heap; Entry::Nothing; members as usize]?;
    Ok(Trial { index, row })
}

// Whether a number comes before a member's on a side, by the rule itself.
fn comes_before(side: Side, member: u16, cents: Cents, who: Ranked) -> bool {
    let better = match side {
        Side::Buyers => cents > who.cents,
        Side::Sellers => cents < who.cents,
    };
    better || (cents == who.cents && member < who.member)
}

// How many of the row come before a member on a side.
fn scan(row: &[Entry], side: Side, who: Ranked) -> usize {
    (0..u16::MAX)
        .zip(row)
        .filter(|(member, entry)| {
            side.cents_of(**entry)
                .is_some_and(|cents| comes_before(side, *member, cents, who))
        })
        .count()
}

// Takes an entry in the place of what the member had.
fn replace<B: OrderBook>(rt: &impl Abort, trial: &mut Trial<B>, member: u16, entry: Entry) {
    let slot = member as usize;
    assert!(rt; slot < trial.row.len());
    if let Some((side, _cents)) = Side::of(trial.row[slot]) {
        assert!(rt; trial.index.take_out(KIND, side, member));
    }
    if let Some((side, cents)) = Side::of(entry) {
        assert!(rt; trial.index.put(KIND, side, member, cents));
    }
    trial.row[slot] = entry;
}

// One member's rank, by the index and by the scan.
fn compare_member<B: OrderBook>(
    rt: &impl Abort,
    trial: &Trial<B>,
    side: Side,
    who: Ranked,
) -> Result<(), Fail> {
    let rank = trial.index.count_before(KIND, side, who);
    assert!(rt; rank as usize == scan(&trial.row, side, who));
    let found = trial
        .index
        .member_at(KIND, side, rank)
        .ok_or("no member at a rank")?;
    assert!(rt; found == who);
    Ok(())
}

// Every rank and every count of a side.
fn compare_side<B: OrderBook>(rt: &impl Abort, trial: &Trial<B>, side: Side) -> Result<(), Fail> {
    let row = trial.row.as_slice();
    for (member, entry) in (0..u16::MAX).zip(row) {
        if let Some(cents) = side.cents_of(*entry) {
            compare_member(rt, trial, side, Ranked { member, cents })?;
        }
    }
    let count = trial.index.len(KIND, side);
    let entered = row.iter().filter(|entry| side.cents_of(**entry).is_some());
    assert!(rt; count as usize == entered.count());
    assert!(rt; trial.index.member_at(KIND, side, count).is_none());
    assert!(rt; trial.index.len(0, side) == 0);
    assert!(rt; trial.index.len(2, side) == 0);
    Ok(())
}

fn compare<B: OrderBook>(rt: &impl Abort, trial: &Trial<B>) -> Result<(), Fail> {
    compare_side(rt, trial, Side::Buyers)?;
    compare_side(rt, trial, Side::Sellers)
}

// A random entry of few different numbers, so that many are equal.
fn random_entry(dice: &mut Dice) -> Entry {
    let cents = Cents(dice.roll(40) as u32);
    match dice.roll(5) {
        0 => Entry::Nothing,
        1 | 2 => Entry::Bid(cents),
        _ => Entry::Ask(cents),
    }
}

fn try_random_messages<B: OrderBook>(rt: &impl Abort, heap: Global) -> Result<(), Fail> {
    let mut trial = fresh_trial::<B>(heap, 90)?;
    let mut dice = Dice(20261117);
    for round in 0..4000u32 {
        let member = dice.roll(90) as u16;
        replace(rt, &mut trial, member, random_entry(&mut dice));
        if round % 100 == 0 {
            compare(rt, &trial)?;
        }
    }
    compare(rt, &trial)
}

#[test]
fn random_messages(rt: HostRuntime) -> Result<(), Fail> {
    try_random_messages::<Book>(&rt, rt.alloc())?;
    try_random_messages::<ranking_wide::Book>(&rt, rt.alloc())
}

// How the numbers of a full kind go with the members.
#[derive(Clone, Copy)]
enum Shape {
    Ascending,
    Descending,
    Equal,
    Alternating,
}

fn shaped(shape: Shape, member: u16) -> Cents {
    let number = member as u32;
    match shape {
        Shape::Ascending => Cents(number + 1),
        Shape::Descending => Cents(65536 - number),
        Shape::Equal => Cents(7),
        Shape::Alternating => {
            if number % 2 == 0 {
                Cents(1000 + number)
            } else {
                Cents(1000000 - number)
            }
        }
    }
}

// A full kind on one side, and then half of it on the other.
fn fill<B: OrderBook>(rt: &impl Abort, heap: Global, shape: Shape) -> Result<(), Fail> {
    let mut trial = fresh_trial::<B>(heap, 2000)?;
    for member in 0..2000u16 {
        replace(rt, &mut trial, member, Entry::Bid(shaped(shape, member)));
    }
    compare(rt, &trial)?;
    for member in 0..1000u16 {
        replace(rt, &mut trial, member, Entry::Ask(shaped(shape, member)));
    }
    compare(rt, &trial)
}

#[test]
fn ascending(rt: HostRuntime) -> Result<(), Fail> {
    fill::<Book>(&rt, rt.alloc(), Shape::Ascending)?;
    fill::<ranking_wide::Book>(&rt, rt.alloc(), Shape::Ascending)
}

#[test]
fn descending(rt: HostRuntime) -> Result<(), Fail> {
    fill::<Book>(&rt, rt.alloc(), Shape::Descending)?;
    fill::<ranking_wide::Book>(&rt, rt.alloc(), Shape::Descending)
}

#[test]
fn all_equal(rt: HostRuntime) -> Result<(), Fail> {
    fill::<Book>(&rt, rt.alloc(), Shape::Equal)?;
    fill::<ranking_wide::Book>(&rt, rt.alloc(), Shape::Equal)
}

#[test]
fn alternating(rt: HostRuntime) -> Result<(), Fail> {
    fill::<Book>(&rt, rt.alloc(), Shape::Alternating)?;
    fill::<ranking_wide::Book>(&rt, rt.alloc(), Shape::Alternating)
}

fn try_one_member<B: OrderBook>(rt: &impl Abort, heap: Global) -> Result<(), Fail> {
    let mut trial = fresh_trial::<B>(heap, 200)?;
    let mut dice = Dice(4);
    for member in 0..200u16 {
        replace(rt, &mut trial, member, random_entry(&mut dice));
    }
    for round in 0..1000u32 {
        replace(rt, &mut trial, 77, random_entry(&mut dice));
        if round % 50 == 0 {
            compare(rt, &trial)?;
        }
    }
    compare(rt, &trial)
}

#[test]
fn one_member_a_thousand_times(rt: HostRuntime) -> Result<(), Fail> {
    try_one_member::<Book>(&rt, rt.alloc())?;
    try_one_member::<ranking_wide::Book>(&rt, rt.alloc())
}

fn try_refusals<B: OrderBook>(rt: &impl Abort, heap: Global) -> Result<(), Fail> {
    let mut trial = fresh_trial::<B>(heap, 10)?;
    replace(rt, &mut trial, 3, Entry::Bid(Cents(5)));
    assert!(rt; !trial.index.put(KIND, Side::Buyers, 3, Cents(6)));
    assert!(rt; !trial.index.put(KIND, Side::Sellers, 3, Cents(6)));
    assert!(rt; !trial.index.put(KIND, Side::Sellers, 10, Cents(6)));
    assert!(rt; !trial.index.put(3, Side::Sellers, 4, Cents(6)));
    assert!(rt; !trial.index.take_out(KIND, Side::Sellers, 3));
    assert!(rt; !trial.index.take_out(KIND, Side::Buyers, 4));
    assert!(rt; !trial.index.take_out(0, Side::Buyers, 3));
    assert!(rt; !trial.index.take_out(3, Side::Buyers, 3));
    compare(rt, &trial)
}

#[test]
fn refusals(rt: HostRuntime) -> Result<(), Fail> {
    try_refusals::<Book>(&rt, rt.alloc())?;
    try_refusals::<ranking_wide::Book>(&rt, rt.alloc())
}

// A book by itself, without an index around it.
fn try_book<B: OrderBook>(rt: &impl Abort, heap: Global) -> Result<(), Fail> {
    let mut book = B::new(heap, 4)?;
    assert!(rt; book.put(Side::Sellers, 2, Cents(9)));
    assert!(rt; book.put(Side::Sellers, 0, Cents(8)));
    assert!(rt; !book.put(Side::Buyers, 4, Cents(8)));
    assert!(rt; book.len(Side::Sellers) == 2 && book.len(Side::Buyers) == 0);
    assert!(rt; book.take_out(Side::Sellers, 0));
    let last = book
        .member_at(Side::Sellers, 0)
        .ok_or("no member at a rank")?;
    let wanted = Ranked {
        member: 2,
        cents: Cents(9),
    };
    assert!(rt; last == wanted);
    assert!(rt; book.count_before(Side::Sellers, last) == 0);
    Ok(())
}

#[test]
fn books(rt: HostRuntime) -> Result<(), Fail> {
    try_book::<Book>(&rt, rt.alloc())?;
    try_book::<ranking_wide::Book>(&rt, rt.alloc())
}
