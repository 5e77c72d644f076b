//! The lines of output.
ghost use Rattle.std.specs.Prelude.{◌≡◌, ◌≢◌, ◌-◌, ◌<◌, ◌^◌, IfOk, string_bytes};
ghost use Rattle.ccr_playing.specs.Printed.{bad_text, line_of};
ghost use Rattle.ccr_playing.specs.Written.{EndsBad, IsWritten};

use crate::statuses::Status;
use ccr_io::{Failed, Sink, write_all};
use ccr_script::BadLine;
use std::alloc::{AllocError, Global};

/// Writes the answer to the command on the line of this number, counted from 1, or says how the run
/// ends: by `WriteFault` where a part of the line was written, and never all of it, or by `OutOfMemory`
/// where nothing was.
pub fn answer_left<K: Sink>(alloc: Global, number: u32, text: &str, out: &mut K) -> Option<Status>
    requires { K.faults out.old < 2 ^ 64 - 1 }
    ensures { IsWritten result (line_of number text.now) (K.taken out.old) (K.taken out.new) (K.faults out.old) (K.faults out.new) }
{
    let Ok(line) = whole_line(alloc, number, text) else {
        return Some(Status::OutOfMemory);
    };
    match write_all(out, line.as_bytes()) {
        Ok(()) => None,
        Err(Failed) => Some(Status::WriteFault),
    }
}

fn whole_line(alloc: Global, number: u32, text: &str) -> Result<String, AllocError>
    ensures { IfOk result (λ line. string_bytes line ≡ line_of number text.now) }
{
    format!(in alloc; "{number} {text}\n")
}

/// Ends the run at a bad line: writes its answer.
pub(crate) fn end_at<K: Sink>(alloc: Global, line: u32, why: BadLine, out: &mut K) -> Status
    requires cause { why ≢ BadLine.Memory }
    requires countable { K.faults out.old < 2 ^ 64 - 1 }
    ensures { EndsBad result line why (K.taken out.old) (K.taken out.new) (K.faults out.old) (K.faults out.new) }
{
    match answer_left(alloc, line, bad_word(why), out) {
        None => Status::BadLine {
            line: u64::from(line),
            why,
        },
        Some(status) => status,
    }
}

fn bad_word(why: BadLine) -> &'static str
    requires { why ≢ BadLine.Memory }
    ensures { result.now ≡ bad_text why }
{
    match why {
        BadLine::NotJson => "bad NotJson",
        BadLine::NoOp => "bad NoOp",
        BadLine::BadField => "bad BadField",
        BadLine::TooLong => "bad TooLong",
        BadLine::TooMany => "bad TooMany",
        BadLine::Memory => unreachable!(),
    }
}
