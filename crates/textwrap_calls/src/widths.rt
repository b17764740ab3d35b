//! The columns of a text, and the text without its escape sequences.
ghost use Rattle.std.specs.Prelude.{◌≡◌, ◌≢◌, ◌≤◌, ◌↔◌, IsUtf8};
ghost use Rattle.textwrap.specs.Units.{stripped, text_width};
ghost use Rattle.textwrap_calls.specs.Room.{WritesText};
ghost use Rattle.textwrap_calls.specs.Status.{done, not_utf8, too_small};

use crate::known::known_text;
use crate::room::put;
use crate::status::{DONE, NOT_UTF8, OUT_OF_MEMORY};
use simdutf8::basic::from_utf8;
use std::alloc::Global;
use textwrap::words::{display_width, strip_ansi_escape_sequences};

/// Writes the columns of a text, which are 4 for `Café`. It answers `DONE` or `NOT_UTF8`.
pub fn textwrap_display_width(text: &[u8], columns: &mut usize) -> u32
    ensures written { result ≡ done → columns.new ≡ text_width text.now }
    ensures done { result ≡ done ↔ IsUtf8 text.now }
    ensures not_utf8 { result ≢ done → result ≡ not_utf8 }
    ensures kept { result ≢ done → columns.new ≡ columns.old }
{
    let Ok(text) = from_utf8(text) else {
        return NOT_UTF8;
    };
    *columns = display_width(text);
    DONE
}

/// [`textwrap_display_width`] for a text that is known to be UTF-8. It is not tested.
pub fn textwrap_display_width_utf8(text: &[u8], columns: &mut usize) -> u32
    requires { IsUtf8 text.now }
    ensures written { columns.new ≡ text_width text.now }
    ensures done { result ≡ done }
{
    *columns = display_width(known_text(text));
    DONE
}

/// Writes the text without its escape sequences, as `textwrap_fill` writes a filled one: `ab` for
/// `a\x1b[1mb`.
pub fn textwrap_strip_ansi_escape_sequences(
    alloc: Global,
    text: &[u8],
    room: &mut [u8],
    len: &mut usize,
) -> u32
    ensures stripped { WritesText (λ answer. answer ≡ stripped text.now)
        result room.old room.new len.old len.new }
    ensures not_utf8 { result ≡ not_utf8 ↔ ¬ IsUtf8 text.now }
    ensures statuses { result ≤ too_small }
{
    let Ok(text) = from_utf8(text) else {
        return NOT_UTF8;
    };
    match strip_ansi_escape_sequences(alloc, text) {
        Ok(plain) => put(plain.as_bytes(), room, len),
        Err(_) => OUT_OF_MEMORY,
    }
}
