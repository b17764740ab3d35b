//! Filling: a wrapped text as one text.
ghost use Rattle.std.specs.Prelude.{◌≡◌, map, string_bytes};
ghost use Rattle.std.specs.Prelude.{IfOk};
ghost use Rattle.textwrap_layout.specs.Paragraph.{DividesWith, MayPass64BitsWith};
ghost use Rattle.textwrap_text.specs.LineEnding.{ending_bytes, join_with};
ghost use Rattle.textwrap_layout.specs.Options.{Settings, settings_view, HasParts, MayOverflow};
ghost use Rattle.textwrap_words.specs.WordSplitters.{Splitter};
ghost use Rattle.textwrap_words.specs.WrapAlgorithms.{Algorithm};
ghost use Rattle.textwrap_layout.specs.Paragraph.{DividesAs, DividesBy, line_bytes, line_view};
ghost use Rattle.textwrap_layout.specs.Filling.{IsFilled};
ghost use Rattle.textwrap_layout.specs.Options.{layout_view};
ghost use Rattle.textwrap_layout.specs.Text.{HasParagraphThat, SomeMayPass64Bits};
ghost use Rattle.textwrap_base.specs.Errors.{OnlyMemoryRunsOut};

use crate::wrapping::{fill_to, push_text};
use std::alloc::{AllocError, Allocator};
use std::borrow::CowStr;
use textwrap_layout::layout::Layout;
use textwrap_layout::line_sinks::{JoinedLines, ListedLines};
use textwrap_layout::options::Options;
use textwrap_layout::parts::Parts;
use textwrap_text::line_ending::LineEnding;
use textwrap_words::wrap_algorithms::WrapError;

/// The lines of [`wrap`](crate::wrap), joined by the line ending. At 10 columns `foo bar baz` becomes `foo bar`,
/// a line feed and `baz`.
///
/// # Errors
/// Those of [`wrap`](crate::wrap).
pub fn fill<A: Allocator + Copy>(
    alloc: A,
    text: &str,
    options: Options<'_>,
) -> Result<String<A>, WrapError>
    ensures filled { IfOk result (λ filled. IsFilled (settings_view options.entry)
        (DividesBy options.entry) text.now (string_bytes filled)) }
    // The same text, where all parts are built in and can be named.
    ensures built_in { IfOk result (λ filled.
        (settings : Settings) (splitter : Splitter) (algorithm : Algorithm)
        → HasParts options.entry settings splitter algorithm → IsFilled settings
        (DividesAs splitter algorithm settings) text.now (string_bytes filled)) }
    ensures only_memory { ¬ MayOverflow options.entry → OnlyMemoryRunsOut result }
    // Overflow needs a paragraph whose pieces are together wider than 64 bits can say.
    ensures no_overflow { ¬ SomeMayPass64Bits options.entry text.now → OnlyMemoryRunsOut result }
{
    fill_by(alloc, text, Layout::of(&options), &options)
}

/// The same by this layout and any parts.
///
/// # Errors
/// Those of [`wrap`](crate::wrap).
pub fn fill_by<A: Allocator + Copy, P: Parts<A>>(
    alloc: A,
    text: &str,
    layout: Layout<'_>,
    parts: &P,
) -> Result<String<A>, WrapError>
    ensures filled { IfOk result (λ filled. IsFilled (layout_view layout.entry)
        (DividesWith (P.may parts.now) (layout_view layout.entry)) text.now (string_bytes filled)) }
    ensures only_memory { ¬ P.may_overflow parts.now → OnlyMemoryRunsOut result }
    ensures no_overflow { ¬ HasParagraphThat (MayPass64BitsWith (P.may parts.now)
        (layout_view layout.entry)) (layout_view layout.entry).line_ending text.now
        → OnlyMemoryRunsOut result }
{
    // This is enough but where lines end inside words or have indents, or the ending is CRLF.
    let filled = String::with_capacity(alloc, text.len())?;
    let mut lines = JoinedLines {
        text: filled,
        line_ending: layout.line_ending,
        has_lines: false,
    };
    fill_to(alloc, text, layout, parts, &mut lines)?;
    Ok(lines.text)
}

/// The same text as [`fill`](crate::fill), always by lists of words, of pieces and of lines, but
/// where a paragraph is one line as a whole. At 5 columns
/// `"ab\ncdefghijkl"` becomes `"ab\ncdefg\nhijkl"`.
///
/// # Errors
/// Those of [`wrap`](crate::wrap).
pub fn fill_slow_path<A: Allocator + Copy>(
    alloc: A,
    text: &str,
    options: Options<'_>,
) -> Result<String<A>, WrapError>
    ensures filled { IfOk result (λ filled. IsFilled (settings_view options.entry)
        (DividesBy options.entry) text.now (string_bytes filled)) }
    // The same text, where all parts are built in and can be named.
    ensures built_in { IfOk result (λ filled.
        (settings : Settings) (splitter : Splitter) (algorithm : Algorithm)
        → HasParts options.entry settings splitter algorithm → IsFilled settings
        (DividesAs splitter algorithm settings) text.now (string_bytes filled)) }
    ensures only_memory { ¬ MayOverflow options.entry → OnlyMemoryRunsOut result }
    // Overflow needs a paragraph whose pieces are together wider than 64 bits can say.
    ensures no_overflow { ¬ SomeMayPass64Bits options.entry text.now → OnlyMemoryRunsOut result }
{
    let mut list = Vec::new(alloc);
    let mut lines = ListedLines { lines: &mut list };
    push_text(
        alloc,
        text,
        Layout::of(&options),
        &options,
        None,
        &mut lines,
    )?;
    Ok(join_lines(alloc, &list, options.line_ending)?)
}

/// The lines with the line ending between each two.
fn join_lines<A: Allocator>(
    alloc: A,
    lines: &[CowStr<'_, A>],
    line_ending: LineEnding,
) -> Result<String<A>, AllocError>
    ensures { IfOk result (λ joined. string_bytes joined
        ≡ join_with (ending_bytes line_ending) (map line_bytes (map line_view lines.now))) }
{
    let mut joined = String::new(alloc);
    for (i, line) in lines.iter().enumerate() {
        if i > 0 {
            joined.push_str(line_ending.as_str())?;
        }
        joined.push_str(line.as_str())?;
    }
    Ok(joined)
}
