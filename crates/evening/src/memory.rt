// All the memory of an evening, got before it opens.
ghost use Rattle.std.specs.Prelude.{◌≤◌};

use orders::{Extent, Input, Refusal};
use ranking::Ranked;
use std::alloc::{AllocError, Global};

#[derive(Drop)]
pub struct Memory {
    pub entries: Vec<u32>,
    pub numbers: Vec<u32>,
    pub committed: Vec<u64>,
    pub accounts: Vec<u64>,
    pub berths: Vec<u8>,
    pub answers: Vec<Result<(), Refusal>>,
    pub standing: Vec<u32>,
    pub sheet: Vec<u8>,
    pub buyers: Vec<Ranked>,
    pub sellers: Vec<Ranked>,
}

impl Memory {
    pub(crate) fn for_input(heap: Global, input: &Input) -> Result<Memory, AllocError> {
        let extent = Memory::extent(input);
        let slots = extent.slots();
        let members = usize::from(extent.members);
        let nobody = Ranked::default();
        Ok(Memory {
            entries: vec![in heap; 0u32; slots]?,
            numbers: vec![in heap; 0u32; members]?,
            committed: vec![in heap; 0u64; members]?,
            accounts: input.half_cents(heap)?,
            berths: input.berths.to_vec(heap)?,
            answers: vec![in heap; Ok(()); input.messages.len().div_ceil(12)]?,
            standing: vec![in heap; 0u32; slots]?,
            sheet: vec![in heap; 0u8; usize::from(extent.kinds) * (16 + 6 * members)]?,
            buyers: vec![in heap; nobody; members]?,
            sellers: vec![in heap; nobody; members]?,
        })
    }

    // For how many kinds and members memory is wanted: for none where the opening refuses so many.
    fn extent(input: &Input) -> Extent
        ensures { (result.kinds ≤ 64) × (result.members ≤ 2000) }
    {
        match input.extent.check() {
            Ok(()) => input.extent,
            Err(_) => Extent {
                kinds: 0,
                members: 0,
            },
        }
    }
}
