//! Texts of many paragraphs, in which marks stand before the words.
ghost use Rattle.std.specs.Prelude.{IsUtf8};
ghost use Rattle.textwrap_calls.specs.Options.{TellsFaults};
ghost use Rattle.textwrap_calls.specs.Reflowing.{AreKnown, AreTexts, IsReflowedBy};
ghost use Rattle.textwrap_calls.specs.Room.{WritesText};

use std::alloc::Global;
use textwrap_calls::reflowing;
use textwrap_calls::reflowing::TextwrapReflowOptions;

/// Exports [`textwrap_calls::reflowing::textwrap_reflow`].
#[unsafe(no_mangle)]
pub extern "C" fn textwrap_reflow(
    alloc: Global,
    text: &[u8],
    options: &TextwrapReflowOptions<'_>,
    room: &mut [u8],
    len: &mut usize,
) -> u32
    ensures reflowed { WritesText (IsReflowedBy options.now text.now)
        result room.old room.new len.old len.new }
    ensures faults { TellsFaults result (AreKnown options.now)
        (IsUtf8 text.now × AreTexts options.now) }
{
    reflowing::textwrap_reflow(alloc, text, options, room, len)
}
