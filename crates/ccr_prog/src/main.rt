//! `ccr replay` reads a script from standard input, and writes an answer line for each command. `ccr sample SEED WRITES`
//! does a script that is made from the seed, and writes one line that sums it up.
#![tactic(auto)]

ghost use Rattle.std.specs.Prelude.{◌≡◌, option_copied};
ghost use Rattle.ccr_prog.specs.Complaint.{complaint_of};

use ccr_io::{Failed, StdSink, StdSource};
use ccr_policy::{MergePolicy, Oldest};
use ccr_run::{Status, replay};
use std::alloc::AllocError;
use std::io::{BufWriter, IsTerminal};
use std::process::ExitCode;
use std::rt::Env;
use std::{env, io};

/// How many leader shards a script can create: each has a policy of its own.
const MOST_WORLDS: usize = 64;

/// A merge joins so many of the oldest parts of a copy's store.
const MERGED_PARTS: usize = 8;

// The words behind the program's own name.
fn words(rt: &(impl Env + AllocGlobal)) -> Result<Vec<String>, AllocError> {
    let mut words = Vec::new(rt.alloc());
    let Ok(args) = env::args(rt) else {
        return Err(AllocError);
    };
    for (place, word) in args.enumerate() {
        if place > 0 {
            words.push(word)?;
        }
    }
    Ok(words)
}

// Runs the program over standard input and output. A terminal is written each answer line at once; any other output
// goes through a buffer, which is written out at the end.
fn run(
    rt: &(impl Env + Input + Print + AllocGlobal),
    is_terminal: bool,
) -> Result<Status, AllocError> {
    let words = words(rt)?;
    let mut policies: Vec<Box<dyn MergePolicy>> = Vec::with_capacity(rt.alloc(), MOST_WORLDS)?;
    for _ in 0..MOST_WORLDS {
        policies.push(Box::new(rt.alloc(), Oldest::new(MERGED_PARTS))?)?;
    }
    let mut script = StdSource::new(rt.reader());
    if is_terminal {
        let mut out = StdSink::new(io::writer(rt));
        let report = replay(rt.alloc(), &words, &mut script, &mut out, policies);
        return Ok(report.status);
    }
    let Ok(buffer) = BufWriter::new(rt.alloc(), io::writer(rt)) else {
        return Err(AllocError);
    };
    let mut out = StdSink::new(buffer);
    let report = replay(rt.alloc(), &words, &mut script, &mut out, policies);
    match out.flush() {
        Ok(()) => Ok(report.status),
        Err(Failed) => Ok(Status::WriteFault),
    }
}

// What is said of a run on standard error, where it did not end as it should.
fn complaint(status: Status) -> Option<&'static str>
    ensures { option_copied result ≡ complaint_of status }
{
    match status {
        Status::Done | Status::BadLine { .. } => None,
        Status::ReadFault => Some("ccr: read failed"),
        Status::WriteFault => Some("ccr: write failed"),
        Status::OutOfMemory => Some("ccr: out of memory"),
        Status::Usage => Some("usage: ccr replay | sample SEED WRITES"),
    }
}

fn main(rt: HostRuntime) -> ExitCode {
    let is_terminal = rt.stdout().is_terminal();
    let status = match run(&rt, is_terminal) {
        Ok(status) => status,
        Err(AllocError) => Status::OutOfMemory,
    };
    if let Some(text) = complaint(status) {
        let _ = eprintln!(rt; "{text}");
    }
    ExitCode::from(status.code())
}
