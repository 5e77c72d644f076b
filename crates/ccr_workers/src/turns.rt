// One cell is settled through one pass.
ghost use Rattle.std.specs.Prelude.{◌≡◌, true, false, IfOk, OnOk};
ghost use Rattle.ccr_cell.specs.Passes.{view_of, IsOf};
ghost use Rattle.ccr_workers.specs.Settles.{IsChosen, IsIdleAt};
ghost use Rattle.ccr_workers.specs.Lending.{Went};

use ccr_cell::{Cell, Machine, Pass};
use std::alloc::AllocError;
use std::sync::Wait;

/// Lets what is chosen in the cell happen, until nothing is left there. At `Err` the machine was refused memory, or is
/// broken.
pub(crate) fn settle_one<X: Machine, R: Wait>(
    rt: &R,
    cell: &Cell<X>,
    pass: &mut Pass<X>,
) -> Result<(), AllocError>
    requires own { IsOf cell.now pass.old }
    ensures went { Went (IsChosen X.entry_of X.may_reply X.may_choose X.is_idle) 0 0 pass.old pass.new }
    ensures idle { OnOk result (IsIdleAt X.is_idle (view_of pass.new)) }
{
    for _ in rt.forever() {
        if !take_turn(rt, cell, pass)? {
            return Ok(());
        }
    }
    unreachable!()
}

// One turn of it. Whether something happened: if not, nothing is left.
fn take_turn<X: Machine, R: Wait>(
    rt: &R,
    cell: &Cell<X>,
    pass: &mut Pass<X>,
) -> Result<bool, AllocError>
    requires own { IsOf cell.now pass.old }
    ensures went { Went (IsChosen X.entry_of X.may_reply X.may_choose X.is_idle) 0 0 pass.old pass.new }
    ensures idle { IfOk result (λ happened. happened ≡ false → IsIdleAt X.is_idle (view_of pass.new)) }
{
    let next = cell.act_next(rt, pass, 0)?;
    match next {
        Some(_) => Ok(true),
        None => Ok(false),
    }
}
