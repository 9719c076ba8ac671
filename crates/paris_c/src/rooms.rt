//! Rooms of the caller's.

ghost use Rattle.std.specs.Prelude.{◌≡◌};
ghost use Rattle.paris_book.specs.Unsettled.{filled};

/// Copies items to a room, as many of them as there is room for.
pub(crate) fn fill<T: Copy>(room: &mut [T], items: &[T])
    ensures { room.new ≡ filled room.old items.now }
{
    let fit = items.len().min(room.len());
    room[..fit].copy_from_slice(&items[..fit]);
}
