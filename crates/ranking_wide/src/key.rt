// A member and its number as one number, its key: of two members of a side the one with the lower key comes first.
ghost use Rattle.std.specs.Prelude.{◌≡◌, ℕ, ◌^◌, ◌<◌};
ghost use Rattle.ranking_wide.specs.Keys.{key_of, ranked_of, worth};

use orders::Cents;
use ranking::{Ranked, Side};

// A number past every member: the cents of a key stand above its member.
const MEMBERS: u64 = 0x1_0000;

// A number that is lower the better the cents are on a side; and the cents again from that.
fn worth(side: Side, cents: u32) -> u32
    ensures { result ≡ worth side cents }
{
    match side {
        Side::Buyers => u32::MAX - cents,
        Side::Sellers => cents,
    }
}

#[derive(Clone, Copy)]
pub struct Key {
    pub number: u64,
    ghost below: { number < 2 ^ 48 },
}

impl Key {
    pub(crate) fn of(side: Side, ranked: Ranked) -> Key
        ensures value { result.number ≡ key_of side ranked }
        ensures back { ranked_of side result.number ≡ ranked }
    {
        let Cents(cents) = ranked.cents;
        Key {
            number: u64::from(worth(side, cents)) * MEMBERS + u64::from(ranked.member),
        }
    }

    // The member and its number again.
    pub(crate) fn ranked(self, side: Side) -> Ranked
        ensures { result ≡ ranked_of side self.number }
    {
        Ranked {
            member: (self.number % MEMBERS) as u16,
            cents: Cents(worth(side, (self.number / MEMBERS) as u32)),
        }
    }
}
