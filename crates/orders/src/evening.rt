// An evening: it opens, takes messages, and is closed. Its state is handed on by value, so that whoever closed an evening
// no longer has it open.
ghost use Rattle.std.specs.Prelude.{◌≤◌};

use crate::extent::Extent;
use crate::money::HalfCents;

// An evening that takes messages.
#[derive(Drop)]
pub struct Open {
    pub extent: Extent,
    pub fund: HalfCents,
    ghost kinds_least: { 1 ≤ extent.kinds },
    ghost kinds_most: { extent.kinds ≤ 64 },
    ghost members_least: { 1 ≤ extent.members },
    ghost members_most: { extent.members ≤ 2000 },
}

// An evening that takes nothing any more.
#[derive(Drop)]
pub struct Closed {
    pub extent: Extent,
    pub fund: HalfCents,
}
