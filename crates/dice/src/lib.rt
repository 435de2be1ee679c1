// Numbers that look random, for tests: a linear congruential generator, the same on every run.
#![tactic(auto)]

ghost use Rattle.std.specs.Prelude.{◌≡◌, ◌+◌, ◌*◌, ◌/◌, ◌%◌, ◌^◌, cond, ◌==◌};

#[derive(Drop)]
pub struct Dice(pub u64);

impl Dice {
    // The next number below `below`; 0 where no number is.
    pub fn roll(&mut self, below: u64) -> u64
        ensures state { self.new.0 ≡ (self.old.0 * 6364136223846793005 + 1442695040888963407) % 2 ^ 64 }
        ensures roll { result ≡ cond (below == 0) 0 ((self.new.0 / 2 ^ 40) % below) }
    {
        self.0 = self
            .0
            .wrapping_mul(6364136223846793005)
            .wrapping_add(1442695040888963407);
        (self.0 >> 40).checked_rem(below).unwrap_or(0)
    }
}
