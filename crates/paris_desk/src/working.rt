//! Work: a seat takes orders, executes them and brings what came of them.

ghost use Rattle.std.specs.Prelude.{List, [], IfOk, IfErr};
ghost use Rattle.paris_records.specs.declared.records.Receipt.{Receipt};
ghost use Rattle.paris_desk.specs.Calls.{Excused};
ghost use Rattle.paris_desk.specs.Work.{Left, MovesBy, Turn, Worked, Stopped};

use crate::desk::Desk;
use crate::office::Office;
use crate::seat::Seat;
use paris_book::execute_inside;
use paris_exec::Gate;
use paris_names::Fault;
use std::alloc::Global;
use std::sync::Wait;

/// Runs one order, if a row is ready, and says whether one was. The lock is free while the order is executed.
fn run_one<L: Office, R: Wait, G: Gate>(
    rt: &R,
    alloc: Global,
    desk: &Desk<L>,
    seat: &mut Seat<L>,
    gate: &G,
) -> Result<bool, Fault>
    ensures turn { IfOk result (λ ran. Turn ran seat.old seat.new) }
    ensures stopped { IfErr result (λ fault. Excused L.limit seat.new.front fault × ((rs : List Receipt) × Left rs × MovesBy seat.old seat.new rs)) }
{
    let Some(order) = desk.take(rt, seat)? else {
        return Ok(false);
    };
    let Some(done) = execute_inside(alloc, gate, order) else {
        return Err(Fault::NoMemory);
    };
    if let Err((_, fault)) = desk.bring(rt, seat, done) {
        return Err(fault);
    }
    Ok(true)
}

/// Takes an order, executes it inside a gate and brings the result, again and again, until no row is ready or so many orders were
/// run. The answer is how many. The seat's past ends with its last call then, whose number is its front. At an error the calls that
/// were recorded stand, and an order may be out, for `release`.
pub fn work<L: Office, R: Wait, G: Gate>(
    rt: &R,
    alloc: Global,
    desk: &Desk<L>,
    seat: &mut Seat<L>,
    gate: &G,
    limit: u64,
) -> Result<u64, Fault>
    ensures worked { IfOk result (λ ran. Worked limit ran seat.old seat.new) }
    ensures stopped { IfErr result (λ fault. Stopped limit L.limit seat.old seat.new fault) }
{
    for ran in 0..limit {
        if !run_one(rt, alloc, desk, seat, gate)? {
            return Ok(ran);
        }
    }
    Ok(limit)
}
