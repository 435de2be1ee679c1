// The bytes of an evening.
ghost use Rattle.std.specs.Prelude.{◌≡◌, ◌/◌, length, take, drop, IfOk};
ghost use Rattle.orders.specs.Inputs.{kinds_in, members_in, fund_in, accounts_in, berths_in, messages_in, half_cents};

use crate::extent::Extent;
use crate::money::HalfCents;
use std::alloc::{AllocError, Global};

// What is missing is read as out of range, so that opening an evening refuses it.
#[derive(Clone, Copy)]
pub struct Input<'a> {
    pub extent: Extent,
    pub fund: HalfCents,
    // the bytes of the accounts, of the berths and of the messages
    pub accounts: &'a [u8],
    pub berths: &'a [u8],
    pub messages: &'a [u8],
}

fn members(bytes: &[u8]) -> u16
    ensures { result ≡ members_in bytes.now }
{
    bytes
        .get(1..)
        .and_then(|rest| rest.first_chunk())
        .map_or(0, |word| u16::from_le_bytes(*word))
}

fn fund(bytes: &[u8]) -> u64
    ensures { result ≡ fund_in bytes.now }
{
    bytes
        .get(3..)
        .and_then(|rest| rest.first_chunk())
        .map_or(u64::MAX, |word| u64::from_le_bytes(*word))
}

// The first `count` bytes, or as many as there are, and the others.
fn cut(bytes: &[u8], count: usize) -> (&[u8], &[u8])
    ensures front { result.0.now ≡ take count bytes.now }
    ensures back { result.1.now ≡ drop count bytes.now }
{
    bytes.split_at(bytes.len().min(count))
}

impl Input<'_> {
    pub fn read(bytes: &[u8]) -> Input<'_>
        ensures kinds { result.extent.kinds ≡ kinds_in bytes.now }
        ensures members { result.extent.members ≡ members_in bytes.now }
        ensures fund { result.fund.0 ≡ fund_in bytes.now }
        ensures accounts { result.accounts.now ≡ accounts_in bytes.now }
        ensures berths { result.berths.now ≡ berths_in bytes.now }
        ensures messages { result.messages.now ≡ messages_in bytes.now }
    {
        let extent = Extent {
            kinds: bytes.first().copied().unwrap_or(0),
            members: members(bytes),
        };
        let (_, rest) = cut(bytes, 11);
        let (accounts, rest) = cut(rest, 4 * usize::from(extent.members));
        let (berths, messages) = cut(rest, extent.slots());
        Input {
            extent,
            fund: HalfCents(fund(bytes)),
            accounts,
            berths,
            messages,
        }
    }

    // The accounts that are there, in half cents.
    pub fn half_cents(&self, heap: Global) -> Result<Vec<u64>, AllocError>
        ensures { IfOk result (λ v. v.items ≡ half_cents self.now.accounts.now (length self.now.accounts.now / 4)) }
    {
        let (words, _) = self.accounts.as_chunks();
        words
            .iter()
            .map(|word| 2 * u64::from(u32::from_le_bytes(*word)))
            .collect(heap)
    }
}
