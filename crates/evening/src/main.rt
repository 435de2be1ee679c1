// Holds an evening: reads it from standard input, takes its messages, closes it, and prints the result. Writes the files
// from which everybody can check it, if asked.
#![tactic(auto)]

mod files;
mod memory;
mod report;

use files::Files;
use ledger::{Space, hold};
use letter::Published;
use memory::Memory;
use orders::{Books, Input, Refusal};
use report::Report;
use std::alloc::AllocError;
use std::io::Read;
use std::process::ExitCode;
use std::{env, io};
use thiserror::Error;

const USAGE: &str = "evening: holds an evening of berths

  evening < INPUT              takes the messages of INPUT, closes the evening and prints its result
  evening --out DIR < INPUT    and writes entries.bin, sheet.bin, letter-M.bin for each member M with an entry, and what
                               each member has afterwards: accounts.bin (in half cents, 8 bytes each) and berths.bin
  evening --help               prints this

INPUT has kinds (1 byte), members (2), the fund in half cents (8), each member's account in cents (4 each), each
member's berths of each kind (1 each), and then messages of 12 bytes to the end. Prices are printed in half cents.
DIR is made if it isn't there. The status is 0, or 1 where the evening does not open, a file can't be written or the
command is wrong.
";

// How much memory input is first read into.
const ROOM: usize = 0x10_0000;

// Why an evening was not held to its end.
#[derive(Debug, Drop, Error)]
enum Fault {
    #[error("{0}")]
    Refused(#[from] Refusal),
    #[error("{0}")]
    Io(#[from] io::Error),
}

// A want of memory is a refusal like any other.
impl From<AllocError> for Fault {
    fn from(e: AllocError) -> Fault {
        Fault::Refused(e.into())
    }
}

fn read_from(rt: &HostRuntime, memory: &mut [u8], start: usize) -> io::Result<usize> {
    if start >= memory.len() {
        return Ok(0);
    }
    rt.stdin().read(&mut memory[start..])
}

// Reads standard input to its end, into memory that doubles. One read has all the memory that is left, so that no packet is
// cut short while it fits, and what the system says while reading is told as the system's.
fn read_all(rt: &HostRuntime) -> Result<Vec<u8>, Fault> {
    let mut bytes = vec![in rt.alloc(); 0u8; ROOM]?;
    let mut end = 0;
    for _ in 0..u64::MAX {
        if end == bytes.len() {
            bytes.resize(end.saturating_mul(2), 0)?;
        }
        match read_from(rt, bytes.as_mut_slice(), end) {
            Ok(0) => break,
            Ok(count) => end = end.saturating_add(count),
            Err(e) if e.kind() == io::ErrorKind::Interrupted => {}
            Err(e) => return Err(e.into()),
        }
    }
    bytes.truncate(end);
    Ok(bytes)
}

// Holds the evening, prints it, and writes its files, if there is a directory for them. Answers whether all was written.
fn run(rt: &HostRuntime, out: Option<&str>) -> Result<bool, Fault> {
    let heap = rt.alloc();
    let bytes = read_all(rt)?;
    let input = Input::read(bytes.as_slice());
    let mut memory = Memory::for_input(heap, &input)?;
    let mut report = Report::new(rt)?;
    let mut books = Books {
        entries: memory.entries.as_mut_slice(),
        numbers: memory.numbers.as_mut_slice(),
        committed: memory.committed.as_mut_slice(),
        accounts: memory.accounts.as_mut_slice(),
        berths: memory.berths.as_mut_slice(),
    };
    let mut space = Space {
        sheet: memory.sheet.as_mut_slice(),
        buyers: memory.buyers.as_mut_slice(),
        sellers: memory.sellers.as_mut_slice(),
    };
    let closing = hold(
        heap,
        &input,
        &mut books,
        memory.answers.as_mut_slice(),
        memory.standing.as_mut_slice(),
        &mut space,
    )?;
    let sheet = &memory.sheet.as_slice()[0..closing.sheet.min(memory.sheet.len())];
    report.answers(memory.answers.as_slice())?;
    report.kinds(input.extent.kinds, sheet)?;
    report.fund(closing.evening.fund)?;
    let Some(directory) = out else {
        return Ok(true);
    };
    let published = Published {
        extent: input.extent,
        entries: memory.standing.as_slice(),
        sheet,
    };
    let files = Files {
        directory,
        accounts: memory.accounts.as_slice(),
        berths: memory.berths.as_slice(),
    };
    Ok(files.write(rt, published)?)
}

// Holds an evening, and ends with the status that tells how it went.
fn conclude(rt: &HostRuntime, out: Option<&str>) -> anyhow::Result<ExitCode> {
    match run(rt, out) {
        Ok(true) => Ok(ExitCode::SUCCESS),
        Ok(false) => Ok(ExitCode::FAILURE),
        Err(Fault::Io(e)) => Err(e.into()),
        Err(Fault::Refused(refusal)) => {
            println!(rt; "{refusal}")?;
            Ok(ExitCode::FAILURE)
        }
    }
}

fn misused(rt: &HostRuntime, mistake: &str, arg: &str) -> anyhow::Result<ExitCode> {
    eprintln!(rt; "evening: {mistake} {arg}; evening --help says how it is used")?;
    Ok(ExitCode::FAILURE)
}

fn main(rt: HostRuntime) -> anyhow::Result<ExitCode> {
    let mut args = env::args(&rt)?;
    let _program = args.next();
    let Some(option) = args.next() else {
        return conclude(&rt, None);
    };
    if option.as_str() == "--help" {
        rt.print(USAGE)?;
        return Ok(ExitCode::SUCCESS);
    }
    if option.as_str() != "--out" {
        return misused(&rt, "unknown argument", option.as_str());
    }
    let Some(directory) = args.next() else {
        return misused(&rt, "no directory after", "--out");
    };
    if directory.is_empty() {
        return misused(&rt, "an empty name after", "--out");
    }
    if let Some(extra) = args.next() {
        return misused(&rt, "unknown argument", extra.as_str());
    }
    conclude(&rt, Some(directory.as_str()))
}
