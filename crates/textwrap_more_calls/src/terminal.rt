//! The columns of a text as a terminal reads it, and the text without the sequences that only a terminal
//! takes as such.
ghost use Rattle.std.specs.Prelude.{◌≡◌, ◌≢◌, ◌≤◌, ◌↔◌, IsUtf8};
ghost use Rattle.textwrap_calls.specs.Room.{WritesText};
ghost use Rattle.textwrap_calls.specs.Status.{done, not_utf8, too_small};
ghost use Rattle.textwrap_terminal.specs.TerminalUnits.{terminal_width, without_other_sequences};

use simdutf8::basic::from_utf8;
use std::alloc::Global;
use textwrap_calls::room::put;
use textwrap_calls::status::{DONE, NOT_UTF8, OUT_OF_MEMORY};
use textwrap_terminal::{strip_other_sequences, terminal_width};

/// Writes the columns that a text takes on a terminal, with all its sequences: 2 for `\x1b(Bab`, which
/// has 3 by `textwrap_display_width`. It answers `DONE` or `NOT_UTF8`.
pub fn textwrap_terminal_width(text: &[u8], columns: &mut usize) -> u32
    ensures written { result ≡ done → columns.new ≡ terminal_width text.now }
    ensures done { result ≡ done ↔ IsUtf8 text.now }
    ensures not_utf8 { result ≢ done → result ≡ not_utf8 }
    ensures kept { result ≢ done → columns.new ≡ columns.old }
{
    let Ok(text) = from_utf8(text) else {
        return NOT_UTF8;
    };
    *columns = terminal_width(text);
    DONE
}

/// Writes the text without the sequences that a terminal takes as such and the other calls do not, as
/// `textwrap_fill` writes a filled text: `a\x1b[1mb` for `a\x1b(B\x1b[1mb`.
pub fn textwrap_strip_other_sequences(
    alloc: Global,
    text: &[u8],
    room: &mut [u8],
    len: &mut usize,
) -> u32
    ensures stripped { WritesText (λ answer. answer ≡ without_other_sequences text.now)
        result room.old room.new len.old len.new }
    ensures not_utf8 { result ≡ not_utf8 ↔ ¬ IsUtf8 text.now }
    ensures statuses { result ≤ too_small }
{
    let Ok(text) = from_utf8(text) else {
        return NOT_UTF8;
    };
    match strip_other_sequences(alloc, text) {
        Ok(plain) => put(plain.as_bytes(), room, len),
        Err(_) => OUT_OF_MEMORY,
    }
}
