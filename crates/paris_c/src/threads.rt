//! That what C holds may go to another thread. What the functions take is what they say.

use crate::desk_handle::DeskHandle;
use crate::handle::Handle;
use crate::order_handle::OrderHandle;
use crate::seat_handle::SeatHandle;

fn needs_send<T: Send>(_value: &T) {}

/// A handle of a session and one of an order may go to another thread.
pub(crate) fn may_cross(handle: &Handle, order: &OrderHandle) {
    needs_send(handle);
    needs_send(order);
}

/// A handle of a desk and one of a seat may go to another thread.
pub(crate) fn seats_may_cross(desk: &DeskHandle, seat: &SeatHandle) {
    needs_send(desk);
    needs_send(seat);
}
