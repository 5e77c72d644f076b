// How a line is read as a command.
ghost use Rattle.std.specs.Prelude.{◌≡◌, ◌≢◌, Some, None, IfOk, IfErr, OnOk};
ghost use Rattle.serde_json.specs.View.{view};
ghost use Rattle.ccr_doc.specs.Sources.{value_of};
ghost use Rattle.ccr_script.specs.Grammar.{fields_of};
ghost use Rattle.ccr_script.specs.Checking.{has_fields as has_fields_of};
ghost use Rattle.ccr_script.specs.Commands.{AsksFor, IsMade, fault_of, fault_of_op, fault_of_value, is_blank as is_blank_of, op_in as op_in_of};

use crate::bad_lines::BadLine;
use crate::building::build;
use crate::checking::has_fields;
use crate::commands::Command;
use crate::grammar::{Op, op_named};
use ccr_doc::{BadSource, parse};
use serde_json::Value;
use std::alloc::Global;

/// The command of a line, or `None` for a line of spaces and tabs alone. The line stands without its
/// line feed and without the carriage return before it. Its JSON is read as `serde_json` reads it: of
/// members of one name the last counts.
///
/// It answers `NotJson`, `NoOp` and `BadField`, the first that holds, and `Memory`. Takes time and
/// memory by the line's length.
pub fn read_command(alloc: Global, line: &[u8]) -> Result<Option<Command>, BadLine>
    ensures ok { IfOk result (λ command. AsksFor line.now command) }
    ensures no_fault { OnOk result (fault_of line.now ≡ None) }
    ensures err { IfErr result (λ why. why ≢ BadLine.Memory → fault_of line.now ≡ Some why) }
{
    if is_blank(line) {
        return Ok(None);
    }
    let value = read_value(alloc, line)?;
    let Some(op) = op_in(&value) else {
        return Err(BadLine::NoOp);
    };
    if !has_fields(op, &value) {
        return Err(BadLine::BadField);
    }
    let command = build(alloc, op, &value)?;
    Ok(Some(command))
}

fn is_blank(line: &[u8]) -> bool
    ensures { result ≡ is_blank_of line.now }
{
    line.iter().all(|byte| *byte == b' ' || *byte == b'\t')
}

fn read_value(alloc: Global, line: &[u8]) -> Result<Value, BadLine>
    ensures ok { IfOk result (λ value. value_of line.now ≡ Some (view value)) }
    ensures err { IfErr result (λ why. why ≢ BadLine.Memory
        → (why ≡ BadLine.NotJson) × (value_of line.now ≡ None)) }
{
    match parse(alloc, line) {
        Ok(value) => Ok(value),
        Err(BadSource::Memory) => Err(BadLine::Memory),
        Err(_) => Err(BadLine::NotJson),
    }
}

fn op_in(value: &Value) -> Option<Op>
    ensures { result ≡ op_in_of (view value.now) }
{
    op_named(value.get("op").and_then(Value::as_str)?)
}
