// A member's position in a kind decides on its message.
ghost use Rattle.std.specs.Prelude.{◌≡◌, ◌<◌};
ghost use Rattle.orders.specs.Taking.{allowed, entering, ruling};
ghost use Rattle.orders.specs.Lent.{held, entry_at, position, Fits};

use crate::books::Books;
use crate::entry::Entry;
use crate::extent::Extent;
use crate::message::Message;
use crate::money::HalfCents;
use crate::order::{Kind, Member, Order};
use crate::refusal::Refusal;

// Lent memory that is long enough for an evening.
#[derive(Clone, Copy)]
pub(crate) struct Fitting<'a, 'b> {
    pub extent: Extent,
    pub books: &'a Books<'b>,
    ghost fits: { Fits extent.kinds extent.members (held books.now) },
}

// A member's position in a kind.
#[derive(Clone, Copy)]
struct Position<'a, 'b> {
    lent: Fitting<'a, 'b>,
    member: Member,
    kind: Kind,
    ghost member_exists: { member.0 < lent.extent.members },
    ghost kind_exists: { kind.0 < lent.extent.kinds },
}

impl Fitting<'_, '_> {
    // The order that a message is, or why it is not taken.
    pub(crate) fn judge(&self, message: Message) -> Result<Order, Refusal>
        ensures { result ≡ ruling self.now.extent.kinds self.now.extent.members (position self.now.extent.kinds self.now.extent.members (held self.now.books.now)) message }
    {
        let Some(member) = self.extent.member(message.member) else {
            return Err(Refusal::NoMember);
        };
        if message.number <= self.books.numbers[usize::from(member.0)] {
            return Err(Refusal::OldNumber);
        }
        let Some(kind) = self.extent.kind(message.kind) else {
            return Err(Refusal::NoKind);
        };
        Position {
            lent: *self,
            member,
            kind,
        }
        .order(message)
    }
}

impl Position<'_, '_> {
    // What the member has in the kind.
    fn standing(&self) -> Entry
        ensures { result ≡ entry_at self.now.lent.extent.members self.now.lent.books.now.entries.now self.now.member.0 self.now.kind.0 }
    {
        Entry::standing(self.lent.books.entries[self.lent.extent.slot(self.kind, self.member)])
    }

    // What the member bids in all kinds with an entry in place of that in the kind, if its account and its berths allow it.
    fn allows(&self, entry: Entry) -> Result<u64, Refusal>
        ensures { result ≡ allowed (position self.now.lent.extent.kinds self.now.lent.extent.members (held self.now.lent.books.now) self.now.member.0) self.now.kind.0 entry }
    {
        let at = usize::from(self.member.0);
        let replaced = 2 * u64::from(self.standing().bid());
        let elsewhere = self.lent.books.committed[at].saturating_sub(replaced);
        let berths = self.lent.books.berths[self.lent.extent.berth(self.kind, self.member)];
        let account = self.lent.books.accounts[at];
        let bid = 2 * u64::from(entry.bid());
        match entry {
            Entry::Bid(_) if account < bid || account - bid < elsewhere => Err(Refusal::Uncovered),
            Entry::Bid(_) if berths == u8::MAX => Err(Refusal::Full),
            Entry::Bid(_) => Ok(elsewhere + bid),
            Entry::Ask(_) if berths == 0 => Err(Refusal::Unbacked),
            Entry::Ask(_) | Entry::Nothing => Ok(elsewhere),
        }
    }

    // The order that a message of the member and for the kind is, or why it is not taken.
    fn order(&self, message: Message) -> Result<Order, Refusal>
        ensures { result
            ≡ entering (position self.now.lent.extent.kinds self.now.lent.extent.members (held self.now.lent.books.now) self.now.member.0)
            (record message { member = self.now.member.0; kind = self.now.kind.0 }) }
    {
        let entry = message.entry()?;
        let committed = self.allows(entry)?;
        Ok(Order {
            member: self.member,
            number: message.number,
            kind: self.kind,
            entry,
            replaced: self.standing(),
            committed: HalfCents(committed),
        })
    }
}
