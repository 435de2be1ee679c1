// The bytes of a line.
ghost use Rattle.std.specs.Prelude.{◌≡◌, ◌+◌, ◌≤◌, length};
ghost use Rattle.sheet.specs.Writing.{written_at};
ghost use Rattle.letter.specs.Lines.{side_byte, entry_bytes, trade_bytes, pair_bytes, line_bytes};

use crate::line::{Line, Pair};
use orders::HalfCents;
use ranking::Side;
use sheet::put;

fn side_byte(side: Side) -> u8
    ensures { result ≡ side_byte side }
{
    match side {
        Side::Buyers => 1,
        Side::Sellers => 2,
    }
}

// The kind, the side and the number of the member's entry.
fn entry_bytes(line: &Line) -> [u8; 6]
    ensures { result ≡ entry_bytes line.now }
{
    let [c0, c1, c2, c3] = line.cents.0.to_le_bytes();
    [line.kind, side_byte(line.side), c0, c1, c2, c3]
}

// Whether there was a trade, and its price.
fn trade_bytes(price: Option<HalfCents>) -> [u8; 5]
    ensures { result ≡ trade_bytes price }
{
    match price {
        Some(HalfCents(price)) => {
            let [p0, p1, p2, p3, ..] = price.to_le_bytes();
            [1, p0, p1, p2, p3]
        }
        None => [0; 5],
    }
}

fn pair_bytes(pair: Pair) -> [u8; 8]
    ensures { result ≡ pair_bytes pair }
{
    let [b0, b1, b2, b3] = pair.bid.0.to_le_bytes();
    let [a0, a1, a2, a3] = pair.ask.0.to_le_bytes();
    [b0, b1, b2, b3, a0, a1, a2, a3]
}

// Writes a line at a place.
pub(crate) fn put_line(letter: &mut [u8], at: usize, line: &Line)
    requires { at + 28 ≤ length letter.old }
    ensures { letter.new ≡ written_at at (line_bytes line.now) letter.old }
{
    let end = put(letter, at, &entry_bytes(line));
    let end = put(letter, end, &trade_bytes(line.price));
    let end = put(letter, end, &pair_bytes(line.last));
    let end = put(letter, end, &pair_bytes(line.next));
    let _end = put(letter, end, &[u8::from(line.tie)]);
}
