// The word on a tie, and the byte that stands for it.
ghost use Rattle.std.specs.Prelude.{◌≡◌, ◌++◌, Some, codes, decimal};
ghost use Rattle.std.specs.Option.{ok_or};
ghost use Rattle.letter.specs.Lines.{tie_byte, tie_in};

use std::error::Error;
use std::fmt;

// Where a member stands whose number is that of the last pair: before it, in it, or after it.
#[derive(Clone, Copy, Debug, PartialEq, Eq)]
pub enum Tie {
    NoTie,
    Before,
    At,
    After,
}

// A byte that stands for no word on a tie.
#[derive(Clone, Copy, Debug, PartialEq, Eq)]
pub struct UnknownTie(pub u8);

impl fmt::Display for UnknownTie {
    ghost output = { λ tie. Some (codes "no word on a tie has the byte " ++ decimal tie.0) };

    fn fmt<W: fmt::Write>(&self, f: &mut fmt::Formatter<W>) -> fmt::Result {
        write!(f, "no word on a tie has the byte {}", self.0)
    }
}

impl Error for UnknownTie {}

impl From<Tie> for u8 {
    ghost from_gives = { λ tie byte. byte ≡ tie_byte tie };

    fn from(tie: Tie) -> u8 {
        match tie {
            Tie::NoTie => 0,
            Tie::Before => 1,
            Tie::At => 2,
            Tie::After => 3,
        }
    }
}

impl TryFrom<u8> for Tie {
    type Error = UnknownTie;

    ghost try_from_gives = { λ byte answer. answer ≡ ok_or (tie_in byte) (record { 0 = byte }) };

    fn try_from(byte: u8) -> Result<Tie, UnknownTie> {
        match byte {
            0 => Ok(Tie::NoTie),
            1 => Ok(Tie::Before),
            2 => Ok(Tie::At),
            3 => Ok(Tie::After),
            _ => Err(UnknownTie(byte)),
        }
    }
}
