// Checking a letter from anybody.
ghost use Rattle.std.specs.Prelude.{◌≡◌, ◌≤◌, length};
ghost use Rattle.letter.specs.Checks.{right, checked_from, checked, Exactly};
ghost use Rattle.letter.specs.Statements.{EveningsAccepted, ReliedOn};

use crate::line::Line;
use orders::Refusal;
use std::cmp::Ordering;

// Whether each line of a letter says what follows from its own numbers.
pub fn check(letter: &[u8]) -> Result<(), Refusal>
    ensures answer { result ≡ checked letter.now }
    ensures accepted { Exactly letter.now result }
    ensures evenings { EveningsAccepted letter.now result }
    ensures relied { ReliedOn letter.now result }
{
    let Some(lines) = letter.get(2) else {
        return Err(Refusal::Ends(letter.len()));
    };
    check_lines(letter, *lines)
}

// Checks so many lines, and that nothing comes after them.
fn check_lines(letter: &[u8], lines: u8) -> Result<(), Refusal>
    requires { 3 ≤ length letter.now }
    ensures { result ≡ checked_from letter.now 0 lines }
{
    let whole = letter[Line::HEAD..].chunks_exact(Line::BYTES);
    for (line, bytes) in (0..lines).zip(whole) {
        if !is_right(bytes) {
            return Err(Refusal::NotByRule(usize::from(line)));
        }
    }
    let end = Line::place(lines);
    match letter.len().cmp(&end) {
        Ordering::Less => Err(Refusal::Ends(letter.len())),
        Ordering::Equal => Ok(()),
        Ordering::Greater => Err(Refusal::GoesOn(end)),
    }
}

// Whether bytes are a line that says what follows.
fn is_right(bytes: &[u8]) -> bool
    ensures { result ≡ right bytes.now }
{
    Line::read(bytes).is_some_and(|line| line.follows())
}
