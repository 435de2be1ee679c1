// A message that may be taken: its member and kind exist, and its entry is allowed.
use crate::entry::Entry;
use crate::money::HalfCents;

// A member of the evening.
#[derive(Clone, Copy, Debug, PartialEq, Eq)]
pub struct Member(pub u16);

// A kind of berth of the evening.
#[derive(Clone, Copy, Debug, PartialEq, Eq)]
pub struct Kind(pub u8);

#[derive(Clone, Copy, Debug, PartialEq, Eq)]
pub struct Order {
    pub member: Member,
    pub number: u32,
    pub kind: Kind,
    pub entry: Entry,
    // what the member had in the kind
    pub replaced: Entry,
    // what the member bids with it in all kinds together
    pub committed: HalfCents,
}
