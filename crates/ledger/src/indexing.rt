// Keeping the index beside the entries.
ghost use Rattle.std.specs.Prelude.{◌≡◌, ℕ, ◌<◌, List, length, ◌≢◌, slice_index_or, slice_set};
ghost use Rattle.orders.specs.declared.entry.Entry.{Entry as OneEntry};
ghost use Rattle.orders.specs.declared.entry.Entry.TheVariants.{Nothing};
ghost use Rattle.ranking.specs.declared.ranked.Side.{Side as OneSide};
ghost use Rattle.ranking.specs.Indexes.{kind_list, kind_members};
ghost use Rattle.ledger.specs.Indexed.{Lists};

use orders::{Entry, Order};
use ranking::{Book, Index, Side};

// Takes a member's entry out of a kind.
pub(crate) fn leave(index: &mut Index<Book>, kind: u8, member: u16, entry: Entry)
    ensures row { (row : List OneEntry) → member < length row → slice_index_or row member Nothing ≡ entry → Lists row kind index.old → Lists (slice_set row member Nothing) kind index.new }
    ensures rest { (k : ℕ) (s : OneSide) → (k ≢ kind) → kind_list k s index.new ≡ kind_list k s index.old }
    ensures size { (k : ℕ) → kind_members k index.new ≡ kind_members k index.old }
{
    if let Some((side, _cents)) = Side::of(entry) {
        let _there = index.take_out(kind, side, member);
    }
}

// Takes a member's entry into a kind.
pub(crate) fn join(index: &mut Index<Book>, kind: u8, member: u16, entry: Entry)
    ensures row { (row : List OneEntry) → member < length row → slice_index_or row member Nothing ≡ Nothing → Lists row kind index.old → Lists (slice_set row member entry) kind index.new }
    ensures rest { (k : ℕ) (s : OneSide) → (k ≢ kind) → kind_list k s index.new ≡ kind_list k s index.old }
    ensures size { (k : ℕ) → kind_members k index.new ≡ kind_members k index.old }
{
    if let Some((side, cents)) = Side::of(entry) {
        let _free = index.put(kind, side, member, cents);
    }
}

// Puts an order's entry in the place of what its member had in the kind.
pub(crate) fn replace(index: &mut Index<Book>, order: Order)
    ensures row { (row : List OneEntry) → order.member.0 < length row → slice_index_or row order.member.0 Nothing ≡ order.replaced → Lists row order.kind.0 index.old → Lists (slice_set row order.member.0 order.entry) order.kind.0 index.new }
    ensures rest { (k : ℕ) (s : OneSide) → (k ≢ order.kind.0) → kind_list k s index.new ≡ kind_list k s index.old }
    ensures size { (k : ℕ) → kind_members k index.new ≡ kind_members k index.old }
{
    leave(index, order.kind.0, order.member.0, order.replaced);
    join(index, order.kind.0, order.member.0, order.entry);
}
