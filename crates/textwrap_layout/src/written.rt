//! Writing into lent room from a place on.
ghost use Rattle.std.specs.Prelude.{List, ◌++◌};
ghost use Rattle.textwrap_layout.specs.Written.{HasWritten};

/// Writes some items after the first `len` that were written into the room, as many of them as there is
/// room for, and returns how many were to be written with them, or the greatest number if they are more.
pub fn write_at<T: Copy>(room: &mut [T], len: usize, items: &[T]) -> usize
    ensures { (written before : List T) → HasWritten room.old len written before
        → HasWritten room.new result (written ++ items.now) before }
{
    let end = len.saturating_add(items.len());
    if len >= room.len() {
        // There is no room for any of them.
        return end;
    }
    let count = items.len().min(room.len() - len);
    room[len..len + count].copy_from_slice(&items[..count]);
    end
}
