//! The calls from C of a seat alone. They need no desk, and no lock.

ghost use Rattle.std.specs.Prelude.{◌≡◌, ◌≢◌, ◌⊎◌, ◌≤◌, None, Some, false, length, IsSome, IfOk, IfErr, IfSome};
ghost use Rattle.paris_text.specs.Words.{key_word};
ghost use Rattle.paris_c.specs.Calls.{IsShown, ShowsNumbers, ShowsCount, ShowsPending, ShowsFault, ShowsWide};
ghost use Rattle.paris_c.specs.DeskCalls.{seat_looked, seat_order_for, state_looked, state_order_for, HasFront, IsNoRefusal, IsOrderFor, IsSeatReply, IsSeatSnapshot};
ghost use Rattle.paris_c.specs.OrderCalls.{is_spent};
ghost use Rattle.paris_c.specs.declared.statuses.TheConstants.{OK, NO_MEMORY, CLOSED, NO_KEY, PENDING, WRONG_ROOM, TOO_WIDE, NOTHING};

use crate::desk_work::session_of;
use crate::handle::Handle;
use crate::looks::{put_value, spot_at};
use crate::order_handle::OrderHandle;
use crate::order_state::OrderState;
use crate::rooms::fill;
use crate::seat_handle::SeatHandle;
use crate::statuses::{self, CLOSED, NO_KEY, NO_MEMORY, NOTHING, OK, PENDING};
use paris_book::{Book, Look};
use paris_text::key_of_word;
use std::alloc::Global;

/// Copies the reply that a seat keeps to a room, as much of it as there is room for.
#[unsafe(no_mangle)]
pub extern "C" fn paris_seat_reply(alloc: Global, seat: &mut SeatHandle, room: &mut [u8]) -> u32
    ensures reply { result ≡ OK → IsSeatReply seat.old.kept.value room.old room.new }
    ensures closed { result ≢ OK → (result ≡ CLOSED) × (seat.old.kept.value ≡ None) }
    ensures room { result ≢ OK → room.new ≡ room.old }
    ensures kept { seat.new.kept.value ≡ seat.old.kept.value }
{
    let Some(sitting) = seat.take(alloc) else {
        return CLOSED;
    };
    fill(room, sitting.reply.as_slice());
    seat.put(sitting);
    OK
}

/// Puts the numbers that the key of a word holds at a place of a book into a room of as many words, and says how many they are. Where a row is
/// pending, it says its id.
fn get_from(book: &Book, key: &[u8], place: u64, room: &mut [u64], told: &mut u64) -> u32
    ensures numbers { result ≡ OK → ShowsNumbers (state_looked book.now (key_word key.now) place) room.new }
    ensures count { (result ≡ OK) ⊎ (result ≡ WRONG_ROOM) → ShowsCount (state_looked book.now (key_word key.now) place) told.new }
    ensures pending { result ≡ PENDING → ShowsPending (state_looked book.now (key_word key.now) place) told.new }
    ensures fault { 1 ≤ result → result ≤ 23 → result ≢ NO_MEMORY → ShowsFault (state_looked book.now (key_word key.now) place) result }
    ensures memory { result ≡ NO_MEMORY → IsShown (state_looked book.now (key_word key.now) place) }
    ensures key { result ≡ NO_KEY → key_word key.now ≡ None }
    ensures few { result ≡ WRONG_ROOM → length room.old ≢ told.new }
    ensures wide { result ≡ TOO_WIDE → ShowsWide (state_looked book.now (key_word key.now) place) }
    ensures kept { result ≢ OK → room.new ≡ room.old }
    ensures status { (result ≤ 23) ⊎ ((result ≡ NO_KEY) ⊎ ((result ≡ PENDING) ⊎ ((result ≡ WRONG_ROOM) ⊎ (result ≡ TOO_WIDE)))) }
    ensures open { result ≢ CLOSED }
{
    let Some(key) = key_of_word(key) else {
        return NO_KEY;
    };
    match book.show(key, spot_at(place)) {
        Ok(Look::Settled(value)) => put_value(value, room, told),
        Ok(Look::Pending(id)) => {
            *told = id.0;
            PENDING
        }
        Err(fault) => statuses::of_fault(fault),
    }
}

/// Puts the numbers that the key of a word holds at a place of the program that a seat looks at into a room of as many words, and says how many
/// they are. Where a row is pending, it says its id.
#[unsafe(no_mangle)]
pub extern "C" fn paris_seat_get(
    alloc: Global,
    seat: &mut SeatHandle,
    key: &[u8],
    place: u64,
    room: &mut [u64],
    told: &mut u64,
) -> u32
    ensures numbers { result ≡ OK → ShowsNumbers (seat_looked seat.old.kept.value (key_word key.now) place) room.new }
    ensures count { (result ≡ OK) ⊎ (result ≡ WRONG_ROOM) → ShowsCount (seat_looked seat.old.kept.value (key_word key.now) place) told.new }
    ensures pending { result ≡ PENDING → ShowsPending (seat_looked seat.old.kept.value (key_word key.now) place) told.new }
    ensures fault { 1 ≤ result → result ≤ 23 → result ≢ NO_MEMORY →
        ShowsFault (seat_looked seat.old.kept.value (key_word key.now) place) result }
    ensures memory { result ≡ NO_MEMORY → IsShown (seat_looked seat.old.kept.value (key_word key.now) place) }
    ensures closed { seat.old.kept.value ≡ None → result ≡ CLOSED }
    ensures was_closed { result ≡ CLOSED → seat.old.kept.value ≡ None }
    ensures key { result ≡ NO_KEY → key_word key.now ≡ None }
    ensures few { result ≡ WRONG_ROOM → length room.old ≢ told.new }
    ensures wide { result ≡ TOO_WIDE → ShowsWide (seat_looked seat.old.kept.value (key_word key.now) place) }
    ensures status { (result ≤ 23) ⊎ ((result ≡ CLOSED) ⊎ ((result ≡ NO_KEY) ⊎ ((result ≡ PENDING) ⊎ ((result ≡ WRONG_ROOM) ⊎ (result ≡ TOO_WIDE))))) }
    ensures room { result ≢ OK → room.new ≡ room.old }
    ensures kept { seat.new.kept.value ≡ seat.old.kept.value }
{
    let Some(sitting) = seat.take(alloc) else {
        return CLOSED;
    };
    let status = get_from(&sitting.still, key, place, room, told);
    seat.put(sitting);
    status
}

/// The status by which the key of a word can't be looked at, at a place of a book, if it can't.
fn refusal_at(book: &Book, key: &[u8], place: u64) -> Option<u32>
    ensures looked { result ≡ None → IsNoRefusal (state_looked book.now (key_word key.now) place) }
    ensures fault { IfSome result (λ status. status ≢ NO_KEY → ShowsFault (state_looked book.now (key_word key.now) place) status) }
    ensures memory { IfSome result (λ status. status ≢ NO_MEMORY) }
    ensures key { IfSome result (λ status. status ≡ NO_KEY → key_word key.now ≡ None) }
    ensures status { IfSome result (λ status. ((1 ≤ status) × (status ≤ 23)) ⊎ (status ≡ NO_KEY)) }
{
    let Some(key) = key_of_word(key) else {
        return Some(NO_KEY);
    };
    match book.show(key, spot_at(place)) {
        Ok(_) => None,
        Err(fault) => Some(statuses::of_fault(fault)),
    }
}

/// An order, in a box, for the first ready row of those that the key of a word stands on at a place of a book, or the status that says why there
/// is none. The book is as it was, so an order that there is no box for is lost to nobody.
fn order_from(alloc: Global, book: &Book, key: &[u8], place: u64) -> Result<Box<OrderState>, u32>
    ensures ordered { IfOk result (λ state. IsOrderFor (state_order_for book.now (key_word key.now) place) (Some state.value)) }
    ensures whole { IfOk result (λ state. is_spent state.value ≡ false) }
    ensures nothing { IfErr result (λ status. status ≡ NOTHING → state_order_for book.now (key_word key.now) place ≡ None) }
    ensures looked { IfErr result (λ status. status ≡ NOTHING → IsNoRefusal (state_looked book.now (key_word key.now) place)) }
    ensures memory { IfErr result (λ status. status ≡ NO_MEMORY → IsSome (state_order_for book.now (key_word key.now) place)) }
    ensures fault { IfErr result (λ status. 1 ≤ status → status ≤ 23 → status ≢ NO_MEMORY → ShowsFault (state_looked book.now (key_word key.now) place) status) }
    ensures key { IfErr result (λ status. status ≡ NO_KEY → key_word key.now ≡ None) }
    ensures status { IfErr result (λ status. ((1 ≤ status) × (status ≤ 23)) ⊎ ((status ≡ NOTHING) ⊎ (status ≡ NO_KEY))) }
{
    if let Some(status) = refusal_at(book, key, place) {
        return Err(status);
    }
    let Some(key) = key_of_word(key) else {
        return Err(NO_KEY);
    };
    match book.order_for(key, spot_at(place)) {
        Ok(Some(order)) => match Box::new(alloc, OrderState::Order(order)) {
            Ok(state) => Ok(state),
            Err(_) => Err(NO_MEMORY),
        },
        Ok(None) => Err(NOTHING),
        Err(_) => Err(NO_MEMORY),
    }
}

/// Drops what an order's handle holds, and puts an order into it for the first ready row of those that a value stands on, in the book that a seat
/// looks at. It is a look: no row is out by it.
#[unsafe(no_mangle)]
pub extern "C" fn paris_seat_order_for(
    alloc: Global,
    seat: &mut SeatHandle,
    key: &[u8],
    place: u64,
    order: &mut OrderHandle,
) -> u32
    ensures ordered { result ≡ OK → IsOrderFor (seat_order_for seat.old.kept.value (key_word key.now) place) order.new.kept.value }
    ensures nothing { result ≡ NOTHING → seat_order_for seat.old.kept.value (key_word key.now) place ≡ None }
    ensures looked { result ≡ NOTHING → IsNoRefusal (seat_looked seat.old.kept.value (key_word key.now) place) }
    ensures memory { result ≡ NO_MEMORY → IsSome (seat_order_for seat.old.kept.value (key_word key.now) place) }
    ensures fault { 1 ≤ result → result ≤ 23 → result ≢ NO_MEMORY → ShowsFault (seat_looked seat.old.kept.value (key_word key.now) place) result }
    ensures dropped { result ≢ OK → order.new.kept.value ≡ None }
    ensures kept { seat.new.kept.value ≡ seat.old.kept.value }
    ensures key { result ≡ NO_KEY → key_word key.now ≡ None }
    ensures closed { seat.old.kept.value ≡ None → result ≡ CLOSED }
    ensures was_closed { result ≡ CLOSED → seat.old.kept.value ≡ None }
    ensures status { (result ≤ 23) ⊎ ((result ≡ CLOSED) ⊎ ((result ≡ NOTHING) ⊎ (result ≡ NO_KEY))) }
{
    drop(order.take(alloc));
    let Some(sitting) = seat.take(alloc) else {
        return CLOSED;
    };
    let made = order_from(alloc, &sitting.still, key, place);
    seat.put(sitting);
    match made {
        Ok(state) => {
            order.put(state);
            OK
        }
        Err(status) => status,
    }
}

/// Drops what a session's handle holds, and opens a session in it with the book that a seat looks at.
#[unsafe(no_mangle)]
pub extern "C" fn paris_seat_snapshot(
    alloc: Global,
    seat: &mut SeatHandle,
    into: &mut Handle,
) -> u32
    ensures opened { result ≡ OK → IsSeatSnapshot seat.old.kept.value into.new.kept.value }
    ensures dropped { result ≢ OK → into.new.kept.value ≡ None }
    ensures kept { seat.new.kept.value ≡ seat.old.kept.value }
    ensures closed { seat.old.kept.value ≡ None → result ≡ CLOSED }
    ensures was_closed { result ≡ CLOSED → seat.old.kept.value ≡ None }
    ensures status { (result ≡ OK) ⊎ ((result ≡ CLOSED) ⊎ (result ≡ NO_MEMORY)) }
{
    drop(into.take(alloc));
    let Some(sitting) = seat.take(alloc) else {
        return CLOSED;
    };
    let copy = session_of(alloc, &sitting.still);
    seat.put(sitting);
    match copy {
        Ok(copy) => {
            into.put(copy);
            OK
        }
        Err(_) => NO_MEMORY,
    }
}

/// Says how many entries of the history a seat knows.
#[unsafe(no_mangle)]
pub extern "C" fn paris_seat_front(alloc: Global, seat: &mut SeatHandle, front: &mut u64) -> u32
    ensures front { result ≡ OK → HasFront seat.old.kept.value front.new }
    ensures kept { seat.new.kept.value ≡ seat.old.kept.value }
    ensures closed { seat.old.kept.value ≡ None → result ≡ CLOSED }
    ensures was_closed { result ≡ CLOSED → seat.old.kept.value ≡ None }
    ensures status { (result ≡ OK) ⊎ (result ≡ CLOSED) }
{
    let Some(sitting) = seat.take(alloc) else {
        return CLOSED;
    };
    *front = sitting.front;
    seat.put(sitting);
    OK
}

/// Drops what a seat's handle holds, and leaves it closed.
#[unsafe(no_mangle)]
pub extern "C" fn paris_seat_close(alloc: Global, seat: &mut SeatHandle) -> u32
    ensures closed { seat.new.kept.value ≡ None }
    ensures was_closed { result ≡ CLOSED → seat.old.kept.value ≡ None }
    ensures was_open { result ≡ OK → seat.old.kept.value ≢ None }
    ensures status { (result ≡ OK) ⊎ (result ≡ CLOSED) }
{
    match seat.take(alloc) {
        Some(sitting) => {
            drop(sitting);
            OK
        }
        None => CLOSED,
    }
}
