// Prints a day file for a person: each record in words, and what a listing makes of the prices before it.
#![tactic(auto)]

mod lines;
mod moves;
mod numbers;
mod runs;

use anyhow::anyhow;
use lines::{InWords, Malformed};
use record::{Quote, Record};
use runs::{NoRow, listed_run};
use std::io::Read;
use std::process::ExitCode;
use std::{env, fs, io};

/// Prints one record, and leaves the run of prices as it is after it.
fn print_record(
    rt: &HostRuntime,
    run: &mut Vec<Quote>,
    index: usize,
    bytes: &[u8],
) -> io::Result<()> {
    let Some(said) = Record::read(bytes) else {
        let malformed = Malformed {
            length: bytes.len(),
        };
        run.clear();
        return println!(rt; "record {index}: {malformed}");
    };
    let words = InWords(said);
    println!(rt; "record {index}: {words}")?;
    match said {
        Record::Price(quote) => run.push(quote)?,
        Record::Listing { code } => {
            match listed_run(rt.alloc(), run, code) {
                Ok(row) => println!(rt; "    {row}")?,
                Err(NoRow::Memory(e)) => return Err(e.into()),
                Err(cause) => println!(rt; "    {cause}")?,
            }
            run.clear();
        }
        _ => run.clear(),
    }
    Ok(())
}

fn print_file(rt: &HostRuntime, bytes: &[u8]) -> io::Result<()> {
    let mut run = Vec::new(rt.alloc());
    for (index, record) in bytes.chunks(32).enumerate() {
        print_record(rt, &mut run, index, record)?;
    }
    Ok(())
}

/// The bytes of the file that is named, or else of standard input.
fn read_input(rt: &HostRuntime) -> anyhow::Result<Vec<u8>> {
    let mut args = env::args(rt)?;
    let _program = args.next();
    let Some(path) = args.next() else {
        let mut bytes = Vec::new(rt.alloc());
        rt.stdin().read_to_end(&mut bytes)?;
        return Ok(bytes);
    };
    if args.next().is_some() {
        return Err(anyhow!("one day file at most: statement [DAY-FILE]"));
    }
    fs::read(rt, path.as_str()).map_err(|e| anyhow!("{path}: {e}"))
}

fn run(rt: &HostRuntime) -> anyhow::Result<()> {
    let bytes = read_input(rt)?;
    print_file(rt, bytes.as_slice())?;
    Ok(())
}

fn main(rt: HostRuntime) -> io::Result<ExitCode> {
    match run(&rt) {
        Ok(()) => Ok(ExitCode::SUCCESS),
        Err(e) => {
            eprintln!(rt; "statement: {e}")?;
            Ok(ExitCode::FAILURE)
        }
    }
}
