ghost use Rattle.std.specs.Prelude.{ℕ, [], Some, None, ◌≡◌, ◌≢◌, ◌+◌, ◌-◌, ◌<◌, ◌^◌, false, true, IfSome, IfNone};
ghost use Rattle.ccr_lines.specs.Reader.{EndIsTrue};
ghost use Rattle.ccr_playing.specs.Runs.{AreToldAt, Comes, Halts, IfLeft, Playing, Start};
ghost use Rattle.ccr_playing.specs.Steps.{CountsReads, IfLine, IsStep, MayBeRead};
ghost use Rattle.ccr_playing.specs.Tells.{AreQuiet, AreTold, Tells};
ghost use Rattle.ccr_playing.specs.Written.{IsPerformed};

use crate::answering::{answer_left, end_at};
use crate::players::{Player, Whole};
use crate::statuses::Status;
use ccr_io::{Sink, Source};
use ccr_lines::{LineFault, Lines};
use ccr_script::BadLine;
use std::alloc::Global;

/// How far a run came by itself.
#[derive(Debug, Drop)]
pub enum Halt<C> {
    Ended(Status),
    /// The line of this number asks for a command that its player leaves to the caller: nothing of it was
    /// done or written.
    Left { number: u32, command: C },
}

// What comes next of a script.
#[derive(Drop)]
enum Step<C> {
    End,
    // A line that isn't bad asks for this command, or for none.
    Line { number: u32, command: Option<C> },
    // Why is never `Memory`.
    Bad { number: u32, why: BadLine },
    ReadFault,
    OutOfMemory,
}

fn next_step<P: Player, S: Source>(
    alloc: Global,
    lines: &mut Lines,
    script: &mut S,
) -> Step<P::Command>
    requires source { S.faults script.old < 2 ^ 64 - 1 }
    requires lines { MayBeRead lines.old (S.left script.old) }
    ensures step { IsStep P.asks P.fault result lines.old (S.left script.old) lines.new (S.left script.new) }
    ensures goes_on { IfLine result (MayBeRead lines.new (S.left script.new)) }
    ensures faults { CountsReads result (S.faults script.old) (S.faults script.new) }
{
    let number = lines.number() + 1;
    match lines.next(alloc, script) {
        Ok(None) => Step::End,
        Ok(Some(line)) => match P::read(alloc, line.text()) {
            Ok(command) => Step::Line { number, command },
            Err(BadLine::Memory) => Step::OutOfMemory,
            Err(why) => Step::Bad { number, why },
        },
        Err(LineFault::Read) => Step::ReadFault,
        Err(LineFault::TooLong) => Step::Bad {
            number,
            why: BadLine::TooLong,
        },
        Err(LineFault::TooMany) => Step::Bad {
            number,
            why: BadLine::TooMany,
        },
        Err(LineFault::Memory) => Step::OutOfMemory,
    }
}

// Does a command that isn't left, and writes its answer.
fn perform<P: Player, K: Sink>(
    alloc: Global,
    player: &mut P,
    number: u32,
    command: P::Command,
    out: &mut K,
) -> Option<Status>
    requires sink { K.faults out.old < 2 ^ 64 - 1 }
    requires stays { P.is_left command ≡ false }
    ensures { IsPerformed P.does P.begins result number command (P.journal player.old) (P.journal player.new) (K.taken out.old) (K.taken out.new) (K.faults out.old) (K.faults out.new) }
{
    let Ok(text) = player.perform(command) else {
        return Some(Status::OutOfMemory);
    };
    answer_left(alloc, number, text.as_str(), out)
}

// Does a command that is left, and writes its answer.
fn perform_left<P: Whole, K: Sink>(
    alloc: Global,
    player: &mut P,
    number: u32,
    command: P::Command,
    out: &mut K,
) -> Option<Status>
    requires sink { K.faults out.old < 2 ^ 64 - 1 }
    requires left { P.is_left command ≡ true }
    ensures { IsPerformed P.does P.begins result number command (P.journal player.old) (P.journal player.new) (K.taken out.old) (K.taken out.new) (K.faults out.old) (K.faults out.new) }
{
    let Ok(text) = player.perform_left(command) else {
        return Some(Status::OutOfMemory);
    };
    answer_left(alloc, number, text.as_str(), out)
}

// Reads the next line, does its command and writes its answer; or says how the run comes to a halt.
fn turn<P: Player, S: Source, K: Sink>(
    alloc: Global,
    player: &mut P,
    lines: &mut Lines,
    script: &mut S,
    out: &mut K,
) -> Option<Halt<P::Command>>
    requires source { S.faults script.old < 2 ^ 64 - 1 }
    requires sink { K.faults out.old < 2 ^ 64 - 1 }
    requires lines { MayBeRead lines.old (S.left script.old) }
    ensures comes { (start : Start P.Journal)
        → Playing P.asks P.fault P.does start (record { lines = lines.old; left = S.left script.old; journal = P.journal player.old; taken = K.taken out.old })
        → Comes P.asks P.fault P.does P.begins result start (record { lines = lines.new; left = S.left script.new; journal = P.journal player.new; taken = K.taken out.new }) }
    ensures goes_on { IfNone result (MayBeRead lines.new (S.left script.new)) }
    ensures quiet { IfNone result (AreQuiet (S.faults script.old) (S.faults script.new) (K.faults out.old) (K.faults out.new)) }
    ensures left { IfSome result (λ halt. IfLeft halt (λ command. (P.is_left command ≡ true) × MayBeRead lines.new (S.left script.new))) }
    ensures faults { IfSome result (λ halt. AreToldAt halt (S.faults script.old) (S.faults script.new) (K.faults out.old) (K.faults out.new)) }
{
    let (number, command) = match next_step::<P, S>(alloc, lines, script) {
        Step::End => return Some(Halt::Ended(Status::Done)),
        Step::Line { command: None, .. } => return None,
        Step::Line {
            number,
            command: Some(command),
        } => (number, command),
        Step::Bad { number, why } => return Some(Halt::Ended(end_at(alloc, number, why, out))),
        Step::ReadFault => return Some(Halt::Ended(Status::ReadFault)),
        Step::OutOfMemory => return Some(Halt::Ended(Status::OutOfMemory)),
    };
    if P::is_left(&command) {
        return Some(Halt::Left { number, command });
    }
    match perform(alloc, player, number, command, out) {
        None => None,
        Some(status) => Some(Halt::Ended(status)),
    }
}

/// Plays the next lines of a script: until the run ends, or until a line asks for a command that the
/// player leaves to the caller. That line was read, and nothing of it was done or written: the caller
/// does the command, writes its answer by [`answer_left`], and plays on.
///
/// From whatever start a run had come to here (`Playing`), it has then come to the halt (`Halts`).
pub fn play_on<P: Player, S: Source, K: Sink>(
    alloc: Global,
    player: &mut P,
    lines: &mut Lines,
    script: &mut S,
    out: &mut K,
) -> Halt<P::Command>
    requires source { S.faults script.old < 2 ^ 64 - 1 }
    requires sink { K.faults out.old < 2 ^ 64 - 1 }
    requires lines { MayBeRead lines.old (S.left script.old) }
    ensures halts { (start : Start P.Journal)
        → Playing P.asks P.fault P.does start (record { lines = lines.old; left = S.left script.old; journal = P.journal player.old; taken = K.taken out.old })
        → Halts P.asks P.fault P.does P.begins result start (record { lines = lines.new; left = S.left script.new; journal = P.journal player.new; taken = K.taken out.new }) }
    ensures left { IfLeft result (λ command. (P.is_left command ≡ true) × MayBeRead lines.new (S.left script.new)) }
    ensures faults { AreToldAt result (S.faults script.old) (S.faults script.new) (K.faults out.old) (K.faults out.new) }
{
    'lines: for _ in 0..u64::MAX {
        if let Some(halt) = turn(alloc, player, lines, script, out) {
            return halt;
        }
    }
    Halt::Ended(Status::OutOfMemory)
}

/// Plays a script, from its first line to its end, its first bad line or the first failure, on one
/// thread.
///
/// Every status says what was done of the script and what was written, where the source and the sink
/// tell their bytes (`Tells`), and which of the two failed (`AreTold`). It is never `Usage`.
pub fn play<P: Whole, S: Source, K: Sink>(
    alloc: Global,
    player: &mut P,
    script: &mut S,
    out: &mut K,
) -> Status
    requires source { S.faults script.old < 2 ^ 64 - 1 }
    requires sink { K.faults out.old < 2 ^ 64 - 1 }
    ensures told { Tells P.asks P.fault P.does P.begins result (S.left script.old) (S.left script.new) (P.journal player.old) (P.journal player.new) (K.taken out.old) (K.taken out.new) }
    ensures faults { AreTold result (S.faults script.old) (S.faults script.new) (K.faults out.old) (K.faults out.new) }
    ensures usage { result ≢ Status.Usage }
{
    let mut lines = Lines::new();
    'halts: for _ in 0..u64::MAX {
        match play_on(alloc, player, &mut lines, script, out) {
            Halt::Ended(status) => return status,
            Halt::Left { number, command } => {
                if let Some(status) = perform_left(alloc, player, number, command, out) {
                    return status;
                }
            }
        }
    }
    Status::OutOfMemory
}
