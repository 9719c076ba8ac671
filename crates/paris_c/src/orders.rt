//! The calls from C for orders, results and snapshots.

ghost use Rattle.std.specs.Prelude.{◌≡◌, ◌≢◌, ◌⊎◌, None};
ghost use Rattle.paris_c.specs.OrderCalls.{result_in, IsTaken, HasNoneReady, IsExecuted, IsToExecute, IsBrought, HasVerdict, HasEdition, IsOrderOf, IsSnapshot, IsReleased};
ghost use Rattle.paris_c.specs.TurnCalls.{HasReady};
ghost use Rattle.paris_c.specs.declared.statuses.TheConstants.{OK, NO_MEMORY, CLOSED, NOTHING, NOT_RUN};

use crate::handle::Handle;
use crate::order_handle::OrderHandle;
use crate::order_state::OrderState;
use crate::statuses::{CLOSED, NO_MEMORY, OK};
use std::alloc::Global;

/// Drops what an order's handle holds, and puts an order for the first ready row into it.
#[unsafe(no_mangle)]
pub extern "C" fn paris_take(alloc: Global, handle: &mut Handle, order: &mut OrderHandle) -> u32
    ensures taken { result ≡ OK → IsTaken handle.old.kept.value handle.new.kept.value order.new.kept.value }
    ensures nothing { result ≡ NOTHING → HasNoneReady handle.old.kept.value }
    ensures memory { result ≡ NO_MEMORY → HasReady handle.old.kept.value }
    ensures kept { result ≢ OK → handle.new.kept.value ≡ handle.old.kept.value }
    ensures dropped { result ≢ OK → order.new.kept.value ≡ None }
    ensures closed { handle.old.kept.value ≡ None → result ≡ CLOSED }
    ensures was_closed { result ≡ CLOSED → handle.old.kept.value ≡ None }
    ensures status { (result ≡ OK) ⊎ ((result ≡ CLOSED) ⊎ ((result ≡ NO_MEMORY) ⊎ (result ≡ NOTHING))) }
{
    drop(order.take(alloc));
    let Some(mut contents) = handle.take(alloc) else {
        return CLOSED;
    };
    // The box comes first, so that no order is lost for want of one.
    let Ok(mut state) = Box::new(alloc, OrderState::Nothing) else {
        let status = contents.without_box();
        handle.put(contents);
        return status;
    };
    let status = contents.take(&mut state);
    handle.put(contents);
    if status == OK {
        order.put(state);
    }
    status
}

/// Executes an order in its place, unless it is executed. It needs no session.
#[unsafe(no_mangle)]
pub extern "C" fn paris_execute(alloc: Global, order: &mut OrderHandle) -> u32
    ensures executed { result ≡ OK → IsExecuted order.old.kept.value order.new.kept.value }
    ensures kept { result ≢ OK → order.new.kept.value ≡ order.old.kept.value }
    ensures memory { result ≡ NO_MEMORY → IsToExecute order.old.kept.value }
    ensures closed { order.old.kept.value ≡ None → result ≡ CLOSED }
    ensures was_closed { result ≡ CLOSED → order.old.kept.value ≡ None }
    ensures status { (result ≡ OK) ⊎ ((result ≡ CLOSED) ⊎ (result ≡ NO_MEMORY)) }
{
    let Some(mut state) = order.take(alloc) else {
        return CLOSED;
    };
    let is_executed = state.execute(alloc);
    order.put(state);
    if is_executed { OK } else { NO_MEMORY }
}

/// Brings the result of an order, and says what became of it. The order keeps it.
#[unsafe(no_mangle)]
pub extern "C" fn paris_bring(
    alloc: Global,
    handle: &mut Handle,
    order: &mut OrderHandle,
    verdict: &mut u32,
    edition: &mut u64,
) -> u32
    ensures brought { result ≡ OK → IsBrought handle.old.kept.value handle.new.kept.value (result_in order.old.kept.value) }
    ensures verdict { result ≡ OK → HasVerdict handle.old.kept.value (result_in order.old.kept.value) verdict.new }
    ensures edition { result ≡ OK → HasEdition handle.old.kept.value (result_in order.old.kept.value) edition.new }
    ensures order { order.new.kept.value ≡ order.old.kept.value }
    ensures kept { result ≢ OK → handle.new.kept.value ≡ handle.old.kept.value }
    ensures not_run { result ≡ NOT_RUN → result_in order.old.kept.value ≡ None }
    ensures closed { (order.old.kept.value ≡ None) ⊎ (handle.old.kept.value ≡ None) → result ≡ CLOSED }
    ensures was_closed { result ≡ CLOSED → (order.old.kept.value ≡ None) ⊎ (handle.old.kept.value ≡ None) }
    ensures status { (result ≡ OK) ⊎ ((result ≡ CLOSED) ⊎ ((result ≡ NO_MEMORY) ⊎ (result ≡ NOT_RUN))) }
{
    let Some(state) = order.take(alloc) else {
        return CLOSED;
    };
    let Some(mut contents) = handle.take(alloc) else {
        order.put(state);
        return CLOSED;
    };
    let status = contents.bring(&state, verdict, edition);
    handle.put(contents);
    order.put(state);
    status
}

/// Says the row and the edition of an order, and whether it is executed.
#[unsafe(no_mangle)]
pub extern "C" fn paris_order_row(
    alloc: Global,
    order: &mut OrderHandle,
    row: &mut u64,
    edition: &mut u64,
    is_run: &mut bool,
) -> u32
    ensures told { result ≡ OK → IsOrderOf order.old.kept.value row.new edition.new is_run.new }
    ensures kept { order.new.kept.value ≡ order.old.kept.value }
    ensures closed { order.old.kept.value ≡ None → result ≡ CLOSED }
    ensures was_closed { result ≡ CLOSED → order.old.kept.value ≡ None }
    ensures status { (result ≡ OK) ⊎ (result ≡ CLOSED) }
{
    let Some(state) = order.take(alloc) else {
        return CLOSED;
    };
    *row = state.order().id().0;
    *edition = state.order().edition().0;
    *is_run = state.is_executed();
    order.put(state);
    OK
}

/// Drops what an order's handle holds, and leaves it closed.
#[unsafe(no_mangle)]
pub extern "C" fn paris_order_close(alloc: Global, order: &mut OrderHandle) -> u32
    ensures closed { order.new.kept.value ≡ None }
    ensures was_closed { result ≡ CLOSED → order.old.kept.value ≡ None }
    ensures was_open { result ≡ OK → order.old.kept.value ≢ None }
    ensures status { (result ≡ OK) ⊎ (result ≡ CLOSED) }
{
    match order.take(alloc) {
        Some(state) => {
            drop(state);
            OK
        }
        None => CLOSED,
    }
}

/// Drops what a second handle holds, and opens a session in it that is in the state of the first one's.
#[unsafe(no_mangle)]
pub extern "C" fn paris_snapshot(alloc: Global, handle: &mut Handle, into: &mut Handle) -> u32
    ensures opened { result ≡ OK → IsSnapshot handle.old.kept.value into.new.kept.value }
    ensures dropped { result ≢ OK → into.new.kept.value ≡ None }
    ensures kept { handle.new.kept.value ≡ handle.old.kept.value }
    ensures closed { handle.old.kept.value ≡ None → result ≡ CLOSED }
    ensures was_closed { result ≡ CLOSED → handle.old.kept.value ≡ None }
    ensures status { (result ≡ OK) ⊎ ((result ≡ CLOSED) ⊎ (result ≡ NO_MEMORY)) }
{
    drop(into.take(alloc));
    let Some(contents) = handle.take(alloc) else {
        return CLOSED;
    };
    let copy = contents.snapshot(alloc);
    handle.put(contents);
    match copy {
        Ok(copy) => {
            into.put(copy);
            OK
        }
        Err(_) => NO_MEMORY,
    }
}

/// Gives up the orders that are out.
#[unsafe(no_mangle)]
pub extern "C" fn paris_release(alloc: Global, handle: &mut Handle) -> u32
    ensures released { result ≡ OK → IsReleased handle.old.kept.value handle.new.kept.value }
    ensures closed { result ≡ CLOSED → (handle.old.kept.value ≡ None) × (handle.new.kept.value ≡ None) }
    ensures status { (result ≡ OK) ⊎ (result ≡ CLOSED) }
{
    let Some(mut contents) = handle.take(alloc) else {
        return CLOSED;
    };
    contents.release();
    handle.put(contents);
    OK
}
