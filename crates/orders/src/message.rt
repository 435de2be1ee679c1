// A message as it comes: twelve bytes, integers low byte first.
ghost use Rattle.std.specs.Prelude.{◌≡◌};
ghost use Rattle.orders.specs.Messages.{message_of};
ghost use Rattle.orders.specs.Sorts.{sort_of};
ghost use Rattle.orders.specs.Taking.{asked};

use crate::entry::Entry;
use crate::money::Cents;
use crate::refusal::Refusal;

// Nothing is known yet of the fields of a message but that they are there.
#[derive(Clone, Copy, Debug, PartialEq, Eq)]
pub struct Message {
    pub member: u16,
    pub number: u32,
    pub kind: u8,
    pub sort: u8,
    pub cents: u32,
}

// What a message asks for: that there be nothing, a bid or an ask.
#[derive(Clone, Copy, Debug, PartialEq, Eq)]
pub enum Sort {
    Nothing,
    Bid,
    Ask,
}

impl TryFrom<u8> for Sort {
    type Error = Refusal;

    ghost try_from_gives = { λ byte r. r ≡ sort_of byte };

    fn try_from(byte: u8) -> Result<Sort, Refusal> {
        match byte {
            0 => Ok(Sort::Nothing),
            1 => Ok(Sort::Bid),
            2 => Ok(Sort::Ask),
            _ => Err(Refusal::NoSort),
        }
    }
}

impl Message {
    pub fn read(bytes: &[u8]) -> Result<Message, Refusal>
        ensures { result ≡ message_of bytes.now }
    {
        let [m0, m1, n0, n1, n2, n3, kind, sort, c0, c1, c2, c3] = bytes else {
            return Err(Refusal::Length(bytes.len()));
        };
        Ok(Message {
            member: u16::from_le_bytes([*m0, *m1]),
            number: u32::from_le_bytes([*n0, *n1, *n2, *n3]),
            kind: *kind,
            sort: *sort,
            cents: u32::from_le_bytes([*c0, *c1, *c2, *c3]),
        })
    }

    // The entry that the message asks for, by its sort and its cents.
    pub fn entry(self) -> Result<Entry, Refusal>
        ensures { result ≡ asked self.sort self.cents }
    {
        let cents = Cents(self.cents);
        match Sort::try_from(self.sort)? {
            Sort::Nothing if self.cents == 0 => Ok(Entry::Nothing),
            Sort::Bid if cents.in_range() => Ok(Entry::Bid(cents)),
            Sort::Ask if cents.in_range() => Ok(Entry::Ask(cents)),
            Sort::Nothing | Sort::Bid | Sort::Ask => Err(Refusal::OutOfRange),
        }
    }
}
