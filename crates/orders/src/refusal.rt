// Why something is not taken. Each case has the number and the place by which it is made known.
ghost use Rattle.std.specs.Prelude.{◌≡◌, Some};
ghost use Rattle.orders.specs.Refusals.{number, place, refusal_text};
ghost use Rattle.orders.specs.declared.refusal.Refusal.TheVariants.{Memory};

use std::alloc::{AllocError, AllocFailed};
use std::error::Error;
use std::fmt;

// The parts of the memory that a caller lends, in the order of their places.
#[derive(Clone, Copy, Debug, PartialEq, Eq)]
pub enum Part {
    Entries,
    Accounts,
    Berths,
    Sheet,
}

// The fields of a kind on the published sheet, in their order.
#[derive(Clone, Copy, Debug, PartialEq, Eq)]
pub enum Field {
    Pairs,
    Trades,
    BuyersPrice,
    SellersPrice,
    BuyersCount,
    BuyersRow,
    SellersCount,
    SellersRow,
}

#[derive(Clone, Copy, Debug, PartialEq, Eq)]
pub enum Refusal {
    // the evening is closed
    Closed,
    // a message of another length than 12 bytes
    Length(usize),
    // a message of no member, with no new number, for no kind, of no known sort, with cents out of range
    NoMember,
    OldNumber,
    NoKind,
    NoSort,
    OutOfRange,
    // a bid that the account doesn't cover, a bid for more berths of a kind than are counted, an ask without a berth
    Uncovered,
    Full,
    Unbacked,
    // an opening with too few or too many kinds or members
    Kinds,
    Members,
    // an opening with an account or a fund out of range
    Account(u16),
    Fund,
    // lent memory that is too short
    Short(Part),
    // a number among the entries to be checked that stands for no entry
    NoEntry(usize),
    // a sheet on which a kind's field differs from what the entries say
    Differs { kind: u8, field: Field },
    // a sheet or a letter that ends too early, or goes on
    Ends(usize),
    GoesOn(usize),
    // a letter with an entry of which it says what is not by the rule
    NotByRule(usize),
    // no memory
    Memory,
}

impl Refusal {
    pub fn number(self) -> u8
        ensures { result ≡ number self }
    {
        match self {
            Refusal::Closed => 1,
            Refusal::Length(_) => 2,
            Refusal::NoMember => 3,
            Refusal::OldNumber => 4,
            Refusal::NoKind => 5,
            Refusal::NoSort => 6,
            Refusal::OutOfRange | Refusal::NoEntry(_) => 7,
            Refusal::Uncovered | Refusal::Full | Refusal::Unbacked => 8,
            Refusal::Kinds | Refusal::Members => 9,
            Refusal::Account(_) | Refusal::Fund => 10,
            Refusal::Short(_) => 11,
            Refusal::Differs { .. } => 12,
            Refusal::Ends(_) | Refusal::GoesOn(_) => 13,
            Refusal::NotByRule(_) => 14,
            Refusal::Memory => 255,
        }
    }

    pub fn place(self) -> usize
        ensures { result ≡ place self }
    {
        match self {
            Refusal::Closed | Refusal::NoMember | Refusal::Kinds | Refusal::Memory => 0,
            Refusal::Length(length) => length,
            Refusal::OldNumber => 2,
            Refusal::NoKind => 6,
            Refusal::NoSort => 7,
            Refusal::OutOfRange | Refusal::Uncovered | Refusal::Full | Refusal::Unbacked => 8,
            Refusal::Members => 1,
            Refusal::Account(member) => usize::from(member),
            Refusal::Fund => 2000,
            Refusal::Short(part) => part as usize,
            Refusal::NoEntry(entry) | Refusal::NotByRule(entry) => entry,
            Refusal::Differs { kind, field } => usize::from(kind) * 8 + field as usize,
            Refusal::Ends(at) | Refusal::GoesOn(at) => at,
        }
    }
}

impl fmt::Display for Refusal {
    ghost output = { λ refusal. Some (refusal_text refusal) };

    fn fmt<W: fmt::Write>(&self, f: &mut fmt::Formatter<W>) -> fmt::Result {
        write!(f, "refused {} at {}", self.number(), self.place())
    }
}

impl Error for Refusal {}

impl From<AllocError> for Refusal {
    ghost from_gives = { λ _ refusal. refusal ≡ Memory };

    fn from(_error: AllocError) -> Refusal {
        Refusal::Memory
    }
}

impl<T: Drop> From<AllocFailed<T>> for Refusal {
    ghost from_gives = { λ _ refusal. refusal ≡ Memory };

    fn from(error: AllocFailed<T>) -> Refusal {
        Refusal::from(AllocError::from(error))
    }
}
