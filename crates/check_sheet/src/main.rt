// Checks a published sheet against the entries of its evening.
#![tactic(auto)]

use sheet::check_file;
use std::process::ExitCode;
use std::{env, fs};

const USAGE: &str = "check_sheet: checks a published sheet against the entries of its evening

  check_sheet ENTRIES SHEET    prints 'accepted', or what is wrong first, as 'refused 12 at 5'
  check_sheet --help           prints this

ENTRIES has kinds (1 byte), members (2), and for each kind the entry of each member (4 each): 0 for nothing, 2^24 + cents
for a bid, 2 x 2^24 + cents for an ask. SHEET has for each kind eight fields: pairs (2), trades (2), the buyers' and the
sellers' price in half cents (4, 4), how many buyers are listed (2), each with its member (2) and cents (4), and the same
of the sellers. The number 12 names a field that differs, by kind x 8 + field; 13 the byte at which the sheet ends too
early, or goes on; 9, 11, 13 and 7 what is wrong with ENTRIES. The status is 0 where the sheet is accepted, else 1.
";

// The bytes of a file, if they can be read; where they can't, that is said.
fn read(rt: &HostRuntime, path: &str) -> anyhow::Result<Option<Vec<u8>>> {
    match fs::read(rt, path) {
        Ok(bytes) => Ok(Some(bytes)),
        Err(e) => {
            eprintln!(rt; "check_sheet: {path} can't be read: {e}")?;
            Ok(None)
        }
    }
}

fn run(rt: &HostRuntime, entries: &str, sheet: &str) -> anyhow::Result<ExitCode> {
    let Some(entries) = read(rt, entries)? else {
        return Ok(ExitCode::FAILURE);
    };
    let Some(sheet) = read(rt, sheet)? else {
        return Ok(ExitCode::FAILURE);
    };
    match check_file(rt.alloc(), entries.as_slice(), sheet.as_slice()) {
        Ok(()) => {
            println!(rt; "accepted")?;
            Ok(ExitCode::SUCCESS)
        }
        Err(refusal) => {
            println!(rt; "{refusal}")?;
            Ok(ExitCode::FAILURE)
        }
    }
}

fn misused(rt: &HostRuntime) -> anyhow::Result<ExitCode> {
    eprintln!(rt;
        "check_sheet: takes a file of entries and a sheet; check_sheet --help says how it is used"
    )?;
    Ok(ExitCode::FAILURE)
}

fn main(rt: HostRuntime) -> anyhow::Result<ExitCode> {
    let mut args = env::args(&rt)?;
    let _program = args.next();
    let Some(entries) = args.next() else {
        return misused(&rt);
    };
    if entries.as_str() == "--help" {
        rt.print(USAGE)?;
        return Ok(ExitCode::SUCCESS);
    }
    let Some(sheet) = args.next() else {
        return misused(&rt);
    };
    if args.next().is_some() {
        return misused(&rt);
    }
    run(&rt, entries.as_str(), sheet.as_str())
}
