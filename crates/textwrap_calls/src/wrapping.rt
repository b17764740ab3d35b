//! The lines of a text.
ghost use Rattle.std.specs.Prelude.{IsUtf8};
ghost use Rattle.textwrap_calls.specs.Options.{AreKnown, TellsFaults, AreTexts, NeedsNoMemory};
ghost use Rattle.textwrap_calls.specs.Options.{ArePlacedBy};
ghost use Rattle.textwrap_calls.specs.Wrapping.{WritesLongLines};

use crate::known::known_text;
use crate::options::{TextwrapOptions, read_options, refusal};
use crate::printable::{only_known_line, only_line};
pub use crate::reported::TextwrapLine;
use crate::reported::{put_line, report_counts};
use crate::status::OUT_OF_MEMORY;
use simdutf8::basic::from_utf8;
use std::alloc::Global;
use textwrap_plain::placed::place_into;

/// Writes where the lines of the text stand, and how many they are to `count`. A line that is a
/// slice of the text is reported at the place that it was cut from. A line with an indent is a text of
/// its own: these go to the front of the room, one after another, and `len` is that of all. Where
/// the lines or the room are too short for them, they hold the first of them, and `count` and `len` say
/// what a second call has to bring. At blanks, by first fit and without a dictionary
/// nothing is allocated, unless `split_at_hyphens` is 2.
pub fn textwrap_wrap(
    alloc: Global,
    text: &[u8],
    options: &TextwrapOptions<'_>,
    lines: &mut [TextwrapLine],
    count: &mut usize,
    room: &mut [u8],
    len: &mut usize,
) -> u32
    ensures wrapped { WritesLongLines (ArePlacedBy options.now text.now)
        text.now result lines.old lines.new count.old count.new room.old room.new len.old len.new }
    ensures faults { TellsFaults result (AreKnown options.now)
        (IsUtf8 text.now × AreTexts options.now) }
    ensures no_memory { NeedsNoMemory result options.now }
{
    if let Some(line) = only_line(text, options) {
        return put_line(line, lines, count, room, len);
    }
    let Ok(text) = from_utf8(text) else {
        return refusal(options);
    };
    wrap_text(alloc, text, options, lines, count, room, len)
}

/// [`textwrap_wrap`] for a text that is known to be UTF-8. It is not tested.
pub fn textwrap_wrap_utf8(
    alloc: Global,
    text: &[u8],
    options: &TextwrapOptions<'_>,
    lines: &mut [TextwrapLine],
    count: &mut usize,
    room: &mut [u8],
    len: &mut usize,
) -> u32
    requires { IsUtf8 text.now }
    ensures wrapped { WritesLongLines (ArePlacedBy options.now text.now)
        text.now result lines.old lines.new count.old count.new room.old room.new len.old len.new }
    ensures faults { TellsFaults result (AreKnown options.now) (AreTexts options.now) }
    ensures no_memory { NeedsNoMemory result options.now }
{
    if let Some(line) = only_known_line(text, options) {
        return put_line(line, lines, count, room, len);
    }
    wrap_text(alloc, known_text(text), options, lines, count, room, len)
}

/// [`textwrap_wrap`] for a text.
fn wrap_text(
    alloc: Global,
    text: &str,
    options: &TextwrapOptions<'_>,
    lines: &mut [TextwrapLine],
    count: &mut usize,
    room: &mut [u8],
    len: &mut usize,
) -> u32
    ensures wrapped { WritesLongLines (ArePlacedBy options.now text.now)
        text.now result lines.old lines.new count.old count.new room.old room.new len.old len.new }
    ensures faults { TellsFaults result (AreKnown options.now) (AreTexts options.now) }
    ensures no_memory { NeedsNoMemory result options.now }
{
    let options = match read_options(options) {
        Ok(options) => options,
        Err(status) => return status,
    };
    match place_into(alloc, text, &options, lines, room) {
        Ok(counts) => report_counts(counts, lines.len(), room.len(), count, len),
        Err(_) => OUT_OF_MEMORY,
    }
}
