// How large an evening is, and how its memory is laid out.
ghost use Rattle.std.specs.Prelude.{◌≡◌, ◌+◌, ◌*◌, ltb, if◌then◌else◌, Some, None};
ghost use Rattle.std.specs.Result.{result_err};
ghost use Rattle.orders.specs.Lent.{held, lacking};
ghost use Rattle.orders.specs.Opening.{extent_refused, short_part};

use crate::books::Books;
use crate::order::{Kind, Member};
use crate::refusal::{Part, Refusal};

#[derive(Clone, Copy, Debug, PartialEq, Eq)]
pub struct Extent {
    pub kinds: u8,
    pub members: u16,
}

impl Extent {
    // The most kinds and members that an evening may have.
    pub const KINDS_MOST: u8 = 64;

    pub const MEMBERS_MOST: u16 = 2000;

    // How many entries there are: one for each member in each kind.
    pub fn slots(self) -> usize
        ensures { result ≡ self.kinds * self.members }
    {
        usize::from(self.kinds) * usize::from(self.members)
    }

    // Whether an evening may be so large.
    pub fn check(self) -> Result<(), Refusal>
        ensures { result_err result ≡ extent_refused self.kinds self.members }
    {
        if self.kinds < 1 || self.kinds > Extent::KINDS_MOST {
            return Err(Refusal::Kinds);
        }
        if self.members < 1 || self.members > Extent::MEMBERS_MOST {
            return Err(Refusal::Members);
        }
        Ok(())
    }

    // Whether the lent memory is long enough for an evening so large. A refusal names the first part that is too short.
    pub fn check_books(self, books: &Books) -> Result<(), Refusal>
        ensures { result_err result ≡ short_part (lacking self.kinds self.members (held books.now)) }
    {
        let members = usize::from(self.members);
        if books.entries.len() < self.slots()
            || books.numbers.len() < members
            || books.committed.len() < members
        {
            return Err(Refusal::Short(Part::Entries));
        }
        if books.accounts.len() < members {
            return Err(Refusal::Short(Part::Accounts));
        }
        if books.berths.len() < self.slots() {
            return Err(Refusal::Short(Part::Berths));
        }
        Ok(())
    }

    // The member of a number, if there is one.
    pub(crate) fn member(self, number: u16) -> Option<Member>
        ensures { result ≡ (if ltb number self.members then Some (record { 0 = number }) else None) }
    {
        (number < self.members).then_some(Member(number))
    }

    // The kind of a number, if there is one.
    pub(crate) fn kind(self, number: u8) -> Option<Kind>
        ensures { result ≡ (if ltb number self.kinds then Some (record { 0 = number }) else None) }
    {
        (number < self.kinds).then_some(Kind(number))
    }

    // Where a kind's row of entries begins.
    pub(crate) fn row(self, kind: Kind) -> usize
        ensures { result ≡ kind.0 * self.members }
    {
        usize::from(kind.0) * usize::from(self.members)
    }

    // Where a member's entry in a kind stands.
    pub(crate) fn slot(self, kind: Kind, member: Member) -> usize
        ensures { result ≡ kind.0 * self.members + member.0 }
    {
        self.row(kind) + usize::from(member.0)
    }

    // Where a member's berths of a kind stand.
    pub(crate) fn berth(self, kind: Kind, member: Member) -> usize
        ensures { result ≡ member.0 * self.kinds + kind.0 }
    {
        usize::from(member.0) * usize::from(self.kinds) + usize::from(kind.0)
    }
}
