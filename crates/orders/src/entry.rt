// What a member has in a kind: nothing, a bid or an ask.
ghost use Rattle.std.specs.Prelude.{◌≡◌, ◌++◌, Some, codes, decimal};
ghost use Rattle.orders.specs.Entries.{entry_of, bid_in, Encodes, Decodes};

use crate::money::Cents;
use crate::refusal::Refusal;
use std::error::Error;
use std::fmt;

// The sort of an entry stands above its cents.
const SORT: u32 = 0x100_0000;

#[derive(Clone, Copy, Debug, PartialEq, Eq)]
pub enum Entry {
    Nothing,
    Bid(Cents),
    Ask(Cents),
}

// A number that stands for no entry.
#[derive(Clone, Copy, Debug, PartialEq, Eq)]
pub struct UnknownCode(pub u32);

impl fmt::Display for UnknownCode {
    ghost output = { λ code. Some (codes "no entry has the number " ++ decimal code.0) };

    fn fmt<W: fmt::Write>(&self, f: &mut fmt::Formatter<W>) -> fmt::Result {
        write!(f, "no entry has the number {}", self.0)
    }
}

impl Error for UnknownCode {}

// The entry as one number, sort × 2^24 + cents; refused where the cents are out of range.
impl TryFrom<Entry> for u32 {
    type Error = Refusal;

    ghost try_from_gives = { Encodes };

    fn try_from(entry: Entry) -> Result<u32, Refusal> {
        match entry {
            Entry::Nothing => Ok(0),
            Entry::Bid(c) if c.in_range() => Ok(SORT + c.0),
            Entry::Ask(c) if c.in_range() => Ok(2 * SORT + c.0),
            Entry::Bid(_) | Entry::Ask(_) => Err(Refusal::OutOfRange),
        }
    }
}

// The entry that a number stands for.
impl TryFrom<u32> for Entry {
    type Error = UnknownCode;

    ghost try_from_gives = { Decodes };

    fn try_from(code: u32) -> Result<Entry, UnknownCode> {
        if code == 0 {
            return Ok(Entry::Nothing);
        }
        if SORT < code && code <= SORT + Cents::MOST {
            return Ok(Entry::Bid(Cents(code - SORT)));
        }
        if 2 * SORT < code && code <= 2 * SORT + Cents::MOST {
            return Ok(Entry::Ask(Cents(code - 2 * SORT)));
        }
        Err(UnknownCode(code))
    }
}

impl Entry {
    // The entry that a number in a row stands for; a number that stands for no entry is read as nothing.
    pub fn standing(code: u32) -> Entry
        ensures { result ≡ entry_of code }
    {
        Entry::try_from(code).unwrap_or(Entry::Nothing)
    }

    // What the entry bids, in cents.
    pub fn bid(self) -> u32
        ensures { result ≡ bid_in self }
    {
        match self {
            Entry::Bid(Cents(c)) => c,
            Entry::Nothing | Entry::Ask(_) => 0,
        }
    }
}
