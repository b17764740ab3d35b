//! Texts, wrapped and filled by options without functions.
ghost use Rattle.std.specs.Prelude.{◌≡◌, ℕ, List, length, Some, IfErr, IfOk, IsOk, map};
ghost use Rattle.std.specs.Prelude.{string_bytes, true};
ghost use Rattle.textwrap.specs.Filling.{IsFilled};
ghost use Rattle.textwrap.specs.Paragraph.{line_view};
ghost use Rattle.textwrap.specs.Text.{ArePrintedWithin, CanKeepToWidth, IsWrapped, LinesKeepToWidth};
ghost use Rattle.textwrap.specs.WrapAlgorithms.{ByFirstFit};
ghost use Rattle.textwrap_plain.specs.Options.{plain_algorithm, DividesPlainly, plain_settings};
ghost use Rattle.textwrap_plain.specs.Options.{AreDirect, HasRoomForHyphen, adds_as};
ghost use Rattle.textwrap_plain.specs.Hyphenated.{AddOnlyHyphens, AreTheText, LinesKeepButHyphens};
ghost use Rattle.textwrap_text.specs.LentText.{as_len, written_over};
ghost use Rattle.textwrap_base.specs.Errors.{OnlyMemoryRunsOut};

use crate::options::PlainOptions;
use std::alloc::Global;
use std::borrow::CowStr;
use textwrap::WrapError;
use textwrap_layout::line_sinks::LentLines;
use textwrap_lines::inner::{fill_by, fill_to, wrap_by};
use textwrap_text::lent_text::LentText;

/// Wraps a text and returns its lines, as `wrap` of `textwrap` does it.
///
/// At 8 columns `これは「ペン」です。` has the lines `これは`, `「ペン」` and `です。`, none of which begins
/// with the closing bracket. Only blanks at line ends are lost, and only the indents are added. By
/// first fit, where words are broken, lines keep to the widths that they are divided for.
///
/// # Errors
/// [`WrapError::Memory`] where memory runs out.
pub fn wrap<'t>(
    alloc: Global,
    text: &'t str,
    options: &PlainOptions<'_>,
) -> Result<Vec<CowStr<'t>>, WrapError>
    ensures lines { IfOk result (λ lines. IsWrapped (plain_settings options.now)
        (adds_as options.now.word_splitter) (Some (plain_algorithm options.now))
        (DividesPlainly options.now (plain_settings options.now)) text.now
        (map line_view lines.items)) }
    // Where paragraphs are even, lines keep to the width with their indents and hyphens, if they can.
    ensures even { HasRoomForHyphen options.now → options.now.layout.even_paragraphs ≡ true
        → plain_algorithm options.now ≡ ByFirstFit → options.now.layout.break_words ≡ true → IfOk result (λ lines. LinesKeepToWidth
        (plain_settings options.now) (DividesPlainly options.now (plain_settings options.now)) text.now
        (map line_view lines.items)) }
    // And so they do in the columns that they are printed in, if no blanks are preserved and neither
    // an indent nor a piece cuts an escape sequence; a text of one paragraph need not be even.
    ensures printed { HasRoomForHyphen options.now → plain_algorithm options.now ≡ ByFirstFit
        → CanKeepToWidth (plain_settings options.now) text.now → IfOk result (λ lines. ArePrintedWithin
        (plain_settings options.now) (DividesPlainly options.now (plain_settings options.now)) text.now
        (map line_view lines.items)) }
    // Nothing is printed behind a line but a hyphen of the dictionary.
    ensures hyphens { IfOk result (λ lines. AddOnlyHyphens
        (plain_settings options.now) (DividesPlainly options.now (plain_settings options.now)) text.now
        (map line_view lines.items)) }
    // Indents, hyphens and blanks at line ends apart, the lines are the text.
    ensures spelled { IfOk result (λ lines. AreTheText
        (plain_settings options.now) text.now (map line_view lines.items)) }
    // And by first fit, where words are broken, a line passes its width only where it is one piece, by
    // its hyphen or as one character that takes columns.
    ensures keeps { plain_algorithm options.now ≡ ByFirstFit
        → options.now.layout.break_words ≡ true → IfOk result (λ lines. LinesKeepButHyphens
        (plain_settings options.now) (DividesPlainly options.now (plain_settings options.now)) text.now
        (map line_view lines.items)) }
    ensures only_memory { OnlyMemoryRunsOut result }
{
    wrap_by(alloc, text, options.layout(), &options.parts(alloc))
}

/// Wraps a text and joins its lines by the line ending, as `fill` of `textwrap` does it.
///
/// # Errors
/// [`WrapError::Memory`] where memory runs out.
pub fn fill(alloc: Global, text: &str, options: &PlainOptions<'_>) -> Result<String, WrapError>
    ensures filled { IfOk result (λ filled. IsFilled (plain_settings options.now)
        (DividesPlainly options.now (plain_settings options.now)) text.now (string_bytes filled)) }
    ensures only_memory { OnlyMemoryRunsOut result }
{
    fill_by(alloc, text, options.layout(), &options.parts(alloc))
}

/// Writes the text of [`fill`] into lent room, as much of it as there is room for, and returns how many
/// bytes it has, or the greatest number if they are more. The rest of the room stays as it was. At
/// blanks, by first fit and by a built-in splitter nothing is allocated. By other options the text is made
/// before any of it is written, since an error changes nothing.
///
/// # Errors
/// [`WrapError::Memory`] where memory runs out. Then the room is as it was.
pub fn fill_into(
    alloc: Global,
    text: &str,
    options: &PlainOptions<'_>,
    room: &mut [u8],
) -> Result<usize, WrapError>
    ensures filled { IfOk result (λ len. (filled : List ℕ) × IsFilled (plain_settings options.now)
        (DividesPlainly options.now (plain_settings options.now)) text.now filled
        × (len ≡ as_len (length filled)) × (room.new ≡ written_over room.old filled)) }
    ensures done { AreDirect options.now → IsOk result }
    ensures kept { IfErr result (λ _. room.new ≡ room.old) }
    ensures only_memory { OnlyMemoryRunsOut result }
{
    if let Some(parts) = options.direct_parts() {
        let mut filled = LentText::new(room);
        let mut lines = LentLines {
            text: &mut filled,
            line_ending: options.layout.line_ending,
            has_lines: false,
        };
        fill_to(alloc, text, options.layout(), &parts, &mut lines)?;
        return Ok(filled.len());
    }
    let filled = fill(alloc, text, options)?;
    Ok(write_over(room, &filled))
}

/// Writes a text over the front of the room, as much of it as there is room for. Returns its bytes.
fn write_over(room: &mut [u8], text: &str) -> usize
    ensures len { result ≡ as_len (length text.now) }
    ensures room { room.new ≡ written_over room.old text.now }
{
    let mut written = LentText::new(room);
    written.push(text.as_bytes());
    written.len()
}
