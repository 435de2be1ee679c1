// Checks a letter: whether each of its lines says what follows from its own numbers.
#![tactic(auto)]

use letter::check;
use std::process::ExitCode;
use std::{env, fs};

const USAGE: &str = "check_letter: checks a member's letter

  check_letter FILE     prints `accepted`, or why the letter is refused: `refused 14 at 2`
  check_letter --help   prints this

A letter is refused with 14 at a line, from 0, that does not say what follows from its own numbers, and with 13 at the
byte at which it ends too early or goes on. Whether its numbers are those of the evening, the published sheet shows.
The status is 0, or 1 where the letter is refused or can't be read, or the command is wrong.
";

// Checks the letter in a file, and prints what is found.
fn judge(rt: &HostRuntime, path: &str) -> anyhow::Result<ExitCode> {
    let letter = match fs::read(rt, path) {
        Ok(letter) => letter,
        Err(e) => {
            eprintln!(rt; "check_letter: can't read {path}: {e}")?;
            return Ok(ExitCode::FAILURE);
        }
    };
    match check(letter.as_slice()) {
        Ok(()) => {
            println!(rt; "accepted")?;
            Ok(ExitCode::SUCCESS)
        }
        Err(refusal) => {
            println!(rt; "{refusal}")?;
            Ok(ExitCode::FAILURE)
        }
    }
}

fn main(rt: HostRuntime) -> anyhow::Result<ExitCode> {
    let mut args = env::args(&rt)?;
    let _program = args.next();
    let (Some(path), None) = (args.next(), args.next()) else {
        eprintln!(rt; "check_letter: one file is wanted; check_letter --help says how it is used")?;
        return Ok(ExitCode::FAILURE);
    };
    if path.as_str() == "--help" {
        rt.print(USAGE)?;
        return Ok(ExitCode::SUCCESS);
    }
    judge(&rt, path.as_str())
}
