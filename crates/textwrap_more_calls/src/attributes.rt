//! Lists of lines with styles carried over their ends, by a second name.
ghost use Rattle.std.specs.Prelude.{◌≡◌, [], map, All};
ghost use Rattle.textwrap.specs.Paragraph.{line_bytes};
ghost use Rattle.textwrap_calls.specs.Columns.{AreRows};
ghost use Rattle.textwrap_calls.specs.Options.{options_settings, AreKnown, AreTexts, TellsFaults};
ghost use Rattle.textwrap_calls.specs.Texts.{bytes_of, IsText};
ghost use Rattle.textwrap_calls.specs.Wrapping.{WritesLines};
ghost use Rattle.textwrap_display.specs.Styles.{carried_lines};

use std::alloc::Global;
use textwrap_calls::line_lists::textwrap_carry_styles;
use textwrap_calls::options::TextwrapOptions;
use textwrap_calls::reported::TextwrapLine;
use textwrap_calls::texts::TextwrapText;

/// The same as `textwrap_carry_styles`, by a second name.
pub fn textwrap_carry_attributes(
    alloc: Global,
    lines: &[TextwrapText<'_>],
    options: &TextwrapOptions<'_>,
    places: &mut [TextwrapLine],
    count: &mut usize,
    room: &mut [u8],
    len: &mut usize,
) -> u32
    ensures carried { let settings = options_settings options.now in
        WritesLines (λ answer _. AreRows (λ rows. rows ≡ map line_bytes (carried_lines
        settings.initial_indent settings.subsequent_indent [] (bytes_of lines.now))) answer)
        [] result places.old places.new count.old count.new room.old room.new len.old len.new }
    ensures faults { TellsFaults result (AreKnown options.now)
        (All IsText lines.now × AreTexts options.now) }
{
    textwrap_carry_styles(alloc, lines, options, places, count, room, len)
}
