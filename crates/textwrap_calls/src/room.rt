//! Writing into room that a caller lends.
ghost use Rattle.std.specs.Prelude.{◌≡◌, ◌<◌, ◌⊎◌, ◌↔◌, length};
ghost use Rattle.textwrap_calls.specs.Room.{WritesText};
ghost use Rattle.textwrap_calls.specs.Status.{done, too_small};
ghost use Rattle.textwrap_text.specs.LentText.{written_over};

use crate::status::{DONE, TOO_SMALL};

/// Writes the items to the front of the room, as many as it has room for, and how many they are.
pub fn put<T: Copy>(items: &[T], room: &mut [T], len: &mut usize) -> u32
    ensures text { WritesText (λ answer. answer ≡ items.now) result room.old room.new len.old len.new }
    ensures len { len.new ≡ length items.now }
    ensures statuses { (result ≡ done) ⊎ (result ≡ too_small) }
{
    put_front(items, room);
    report(items.len(), room.len(), len)
}

/// Writes the items to the front of the room, as many as it has room for.
fn put_front<T: Copy>(items: &[T], room: &mut [T])
    ensures { room.new ≡ written_over room.old items.now }
{
    let count = items.len().min(room.len());
    room[..count].copy_from_slice(&items[..count]);
}

/// Says how long an answer is, and whether it has room.
pub fn report(answer: usize, room: usize, len: &mut usize) -> u32
    ensures len { len.new ≡ answer }
    ensures small { result ≡ too_small ↔ room < answer }
    ensures statuses { (result ≡ done) ⊎ (result ≡ too_small) }
{
    *len = answer;
    if room < answer { TOO_SMALL } else { DONE }
}
