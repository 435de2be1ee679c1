// What a sheet tells a member of a kind.
ghost use Rattle.std.specs.Prelude.{◌≡◌};
ghost use Rattle.std.specs.Option.{option_to_list};
ghost use Rattle.letter.specs.Telling.{listed_before, cents_or_0, tie_beside, price_beside, line_in_section, entry_in_section};

use crate::line::{Line, Pair};
use crate::tie::Tie;
use orders::{Cents, Entry, HalfCents};
use ranking::{Ranked, Side};
use sheet::{Row, Section};
use std::cmp::Ordering;

// The member listed at the rank before, if there is one.
fn listed_before(row: Row, rank: u16) -> Option<Ranked>
    ensures { result ≡ listed_before row.entry.bytes.now rank }
{
    row.get(usize::from(rank.checked_sub(1)?))
}

fn cents_or_0(listed: Option<Ranked>) -> Cents
    ensures { result.0 ≡ cents_or_0 listed }
{
    listed.map_or(Pair::NONE, |one| one.cents)
}

// Where a member stands beside the one listed in the last pair, if it has the same number.
fn tie_beside(member: Ranked, last: Option<Ranked>) -> Tie
    ensures { result ≡ tie_beside member last }
{
    match last {
        Some(last) if member.cents == last.cents => match member.member.cmp(&last.member) {
            Ordering::Less => Tie::Before,
            Ordering::Equal => Tie::At,
            Ordering::Greater => Tie::After,
        },
        Some(_) | None => Tie::NoTie,
    }
}

// The price, if a member does not come after the last one listed that trades.
fn price_beside(
    side: Side,
    member: Ranked,
    price: HalfCents,
    last: Option<Ranked>,
) -> Option<HalfCents>
    ensures { result ≡ price_beside side member price last }
{
    if last?.comes_before(side, member) {
        return None;
    }
    Some(price)
}

impl Line {
    // The line of a member on a side of a kind.
    fn told(kind: u8, side: Side, member: Ranked, section: Section) -> Line
        ensures { result ≡ line_in_section kind side member section.entry }
    {
        let (row, price) = match side {
            Side::Buyers => (section.buyers, section.buyers_price),
            Side::Sellers => (section.sellers, section.sellers_price),
        };
        Line {
            kind,
            side,
            cents: member.cents,
            price: price_beside(side, member, price, listed_before(row, section.trades)),
            last: Pair {
                bid: cents_or_0(listed_before(section.buyers, section.pairs)),
                ask: cents_or_0(listed_before(section.sellers, section.pairs)),
            },
            next: Pair {
                bid: cents_or_0(section.buyers.get(usize::from(section.pairs))),
                ask: cents_or_0(section.sellers.get(usize::from(section.pairs))),
            },
            tie: tie_beside(member, listed_before(row, section.pairs)),
        }
    }

    // The line of a member's entry in a kind, if it has one.
    pub(crate) fn of_entry(kind: u8, member: u16, entry: Entry, section: Section) -> Option<Line>
        ensures { option_to_list result ≡ entry_in_section kind member entry section.entry }
    {
        let (side, cents) = Side::of(entry)?;
        Some(Line::told(kind, side, Ranked { member, cents }, section))
    }
}
