//! What is written for a caller in C.
ghost use Rattle.textwrap_calls.specs.Options.{IsFilledByOptions, ArePlacedBy};
ghost use Rattle.textwrap_calls.specs.Room.{WritesLong};
ghost use Rattle.textwrap_calls.specs.Wrapping.{WritesLongLines};

use std::alloc::Global;
use textwrap_calls::filling::textwrap_fill;
use textwrap_calls::options::TextwrapOptions;
use textwrap_calls::wrapping::{TextwrapLine, textwrap_wrap};

/// As `textwrap_fill`.
pub fn written_text(
    alloc: Global,
    text: &[u8],
    options: &TextwrapOptions<'_>,
    room: &mut [u8],
    len: &mut usize,
) -> u32
    ensures filled { WritesLong (IsFilledByOptions options.now text.now)
        result room.old room.new len.old len.new }
{
    textwrap_fill(alloc, text, options, room, len)
}

/// As `textwrap_wrap`.
pub fn written_lines(
    alloc: Global,
    text: &[u8],
    options: &TextwrapOptions<'_>,
    lines: &mut [TextwrapLine],
    count: &mut usize,
    room: &mut [u8],
    len: &mut usize,
) -> u32
    ensures wrapped { WritesLongLines (ArePlacedBy options.now text.now)
        text.now result lines.old lines.new count.old count.new room.old room.new len.old len.new }
{
    textwrap_wrap(alloc, text, options, lines, count, room, len)
}
