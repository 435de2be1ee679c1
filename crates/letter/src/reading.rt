// Reading a line from its bytes.
ghost use Rattle.std.specs.Prelude.{◌≡◌, ◌+◌, ◌≤◌, length};
ghost use Rattle.letter.specs.Checks.{line_place};
ghost use Rattle.letter.specs.Lines.{cents_at, side_in, line_in};

use crate::line::{Line, Pair};
use crate::tie::Tie;
use orders::{Cents, HalfCents, word_u32};
use ranking::Side;

fn side(byte: u8) -> Option<Side>
    ensures { result ≡ side_in byte }
{
    match byte {
        1 => Some(Side::Buyers),
        2 => Some(Side::Sellers),
        _ => None,
    }
}

fn cents(bytes: &[u8], at: usize) -> Cents
    requires { at + 4 ≤ length bytes.now }
    ensures { result ≡ cents_at bytes.now at }
{
    Cents(word_u32(bytes, at))
}

fn pair(bytes: &[u8], at: usize) -> Pair
    requires { at + 8 ≤ length bytes.now }
    ensures { result ≡ record { bid = cents_at bytes.now at; ask = cents_at bytes.now (at + 4) } }
{
    Pair {
        bid: cents(bytes, at),
        ask: cents(bytes, at + 4),
    }
}

impl Line {
    // How long a line is, and the head of a letter.
    pub const BYTES: usize = 28;

    pub const HEAD: usize = 3;

    // Where a letter's line begins, after so many others.
    pub(crate) fn place(lines: u8) -> usize
        ensures { result ≡ line_place lines }
    {
        Line::HEAD + Line::BYTES * usize::from(lines)
    }

    // The line that 28 bytes are; none where there are more or fewer, or a word in them is not known.
    pub fn read(bytes: &[u8]) -> Option<Line>
        ensures { result ≡ line_in bytes.now }
    {
        if bytes.len() != Line::BYTES {
            return None;
        }
        let side = side(bytes[1])?;
        let tie = Tie::try_from(bytes[27]).ok()?;
        let price = match (bytes[6], word_u32(bytes, 7)) {
            (1, price) => Some(HalfCents(u64::from(price))),
            (0, 0) => None,
            _ => return None,
        };
        Some(Line {
            kind: bytes[0],
            side,
            cents: cents(bytes, 2),
            price,
            last: pair(bytes, 11),
            next: pair(bytes, 19),
            tie,
        })
    }
}
