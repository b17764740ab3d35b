//! Filling a text.
ghost use Rattle.std.specs.Prelude.{◌≡◌, ◌≢◌, ◌≤◌, ◌↔◌, ◌⊎◌, IsUtf8, IfOk, IfErr, length};
ghost use Rattle.std.specs.Prelude.{string_bytes};
ghost use Rattle.textwrap.specs.InPlace.{IsFilledInPlace};
ghost use Rattle.textwrap_calls.specs.Options.{AreKnown, TellsFaults, AreTexts, NeedsNoMemory};
ghost use Rattle.textwrap_calls.specs.Options.{IsFilledByOptions};
ghost use Rattle.textwrap_calls.specs.Room.{WritesLong};
ghost use Rattle.textwrap_calls.specs.Status.{done, not_utf8, out_of_memory};

use crate::known::known_text;
use crate::options::{TextwrapOptions, read_options, refusal};
use crate::printable::{only_known_line, only_line};
use crate::room::{put, report};
use crate::status::{DONE, NOT_UTF8, OUT_OF_MEMORY};
use simdutf8::basic::from_utf8;
use std::alloc::Global;
use textwrap::fill_inplace;
use textwrap_plain::fill_into;

/// Writes the filled text to the front of the room, and its length to `len`. Where the room is too
/// short it holds the beginning of the text, and `len` says what room a second call has to bring. At
/// blanks, by first fit and without a dictionary nothing is allocated, unless `split_at_hyphens` is 2.
pub fn textwrap_fill(
    alloc: Global,
    text: &[u8],
    options: &TextwrapOptions<'_>,
    room: &mut [u8],
    len: &mut usize,
) -> u32
    ensures filled { WritesLong (IsFilledByOptions options.now text.now)
        result room.old room.new len.old len.new }
    ensures faults { TellsFaults result (AreKnown options.now)
        (IsUtf8 text.now × AreTexts options.now) }
    ensures no_memory { NeedsNoMemory result options.now }
{
    if let Some(line) = only_line(text, options) {
        return put(line, room, len);
    }
    let Ok(text) = from_utf8(text) else {
        return refusal(options);
    };
    fill_text(alloc, text, options, room, len)
}

/// [`textwrap_fill`] for a text that is known to be UTF-8. It is not tested.
pub fn textwrap_fill_utf8(
    alloc: Global,
    text: &[u8],
    options: &TextwrapOptions<'_>,
    room: &mut [u8],
    len: &mut usize,
) -> u32
    requires { IsUtf8 text.now }
    ensures filled { WritesLong (IsFilledByOptions options.now text.now)
        result room.old room.new len.old len.new }
    ensures faults { TellsFaults result (AreKnown options.now) (AreTexts options.now) }
    ensures no_memory { NeedsNoMemory result options.now }
{
    if let Some(line) = only_known_line(text, options) {
        return put(line, room, len);
    }
    fill_text(alloc, known_text(text), options, room, len)
}

/// [`textwrap_fill`] for a text.
fn fill_text(
    alloc: Global,
    text: &str,
    options: &TextwrapOptions<'_>,
    room: &mut [u8],
    len: &mut usize,
) -> u32
    ensures filled { WritesLong (IsFilledByOptions options.now text.now)
        result room.old room.new len.old len.new }
    ensures faults { TellsFaults result (AreKnown options.now) (AreTexts options.now) }
    ensures no_memory { NeedsNoMemory result options.now }
{
    let options = match read_options(options) {
        Ok(options) => options,
        Err(status) => return status,
    };
    match fill_into(alloc, text, &options, room) {
        Ok(answer) => report(answer, room.len(), len),
        Err(_) => OUT_OF_MEMORY,
    }
}

/// Fills a text in its own place: blanks of it become line feeds. It answers `DONE`, `NOT_UTF8` or
/// `OUT_OF_MEMORY`, and but for `DONE` the text is as it was.
pub fn textwrap_fill_inplace(alloc: Global, text: &mut [u8], width: usize) -> u32
    ensures filled { result ≡ done → IsFilledInPlace width text.old text.new }
    ensures kept { result ≢ done → text.new ≡ text.old }
    ensures not_utf8 { result ≡ not_utf8 ↔ ¬ IsUtf8 text.old }
    ensures statuses { result ≤ out_of_memory }
{
    match filled_in_place(alloc, text, width) {
        Ok(filled) => {
            text.copy_from_slice(filled.as_bytes());
            DONE
        }
        Err(status) => status,
    }
}

/// A copy of the text, filled in its place.
fn filled_in_place(alloc: Global, text: &[u8], width: usize) -> Result<String, u32>
    ensures filled { IfOk result (λ filled. IsFilledInPlace width text.now (string_bytes filled)) }
    ensures len { IfOk result (λ filled. length (string_bytes filled) ≡ length text.now) }
    ensures utf8 { IfOk result (λ _. IsUtf8 text.now) }
    ensures refused { IfErr result (λ status. ((status ≡ not_utf8) × ¬ IsUtf8 text.now)
        ⊎ ((status ≡ out_of_memory) × IsUtf8 text.now)) }
{
    let Ok(text) = from_utf8(text) else {
        return Err(NOT_UTF8);
    };
    let Ok(mut filled) = String::from_str(alloc, text) else {
        return Err(OUT_OF_MEMORY);
    };
    match fill_inplace(alloc, &mut filled, width) {
        Ok(()) => Ok(filled),
        Err(_) => Err(OUT_OF_MEMORY),
    }
}
