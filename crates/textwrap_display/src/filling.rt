//! A text filled with its lines justified.
ghost use Rattle.std.specs.Prelude.{string_bytes, IfOk};
ghost use Rattle.textwrap_display.specs.JustifiedText.{IsJustifiedText};
ghost use Rattle.textwrap_layout.specs.Options.{layout_view};
ghost use Rattle.textwrap_layout.specs.Paragraph.{DividesWith, MayPass64BitsWith};
ghost use Rattle.textwrap_layout.specs.Text.{HasParagraphThat};
ghost use Rattle.textwrap_base.specs.Errors.{OnlyMemoryRunsOut};

use crate::justified_lines::JustifiedLines;
use std::alloc::Allocator;
use textwrap::WrapError;
use textwrap_layout::layout::Layout;
use textwrap_layout::parts::Parts;
use textwrap_lines::inner::push_paragraph_by;
use textwrap_lines::parts::split_paragraph;

/// The text that [`fill`](textwrap::fill) gives by this layout and these parts, with its lines justified
/// to the width of the layout, as [`justify`](crate::justify) does: all but the last of each paragraph.
/// The gaps of an indent stay as they are.
///
/// ```rust
/// let options = Options::new(10);
/// let filled = fill_justified(alloc, "one two three four", Layout::of(&options), &options)?;
/// ```
///
/// The text is `"one    two"`, a line feed and `"three four"`.
///
/// # Errors
/// Those of [`wrap`](textwrap::wrap).
pub fn fill_justified<A: Allocator + Copy, P: Parts<A>>(
    alloc: A,
    text: &str,
    layout: Layout<'_>,
    parts: &P,
) -> Result<String<A>, WrapError>
    ensures filled { IfOk result (λ filled. IsJustifiedText (layout_view layout.entry)
        (DividesWith (P.may parts.now) (layout_view layout.entry)) text.now
        (string_bytes filled)) }
    ensures only_memory { ¬ P.may_overflow parts.now → OnlyMemoryRunsOut result }
    ensures no_overflow { ¬ HasParagraphThat (MayPass64BitsWith (P.may parts.now)
        (layout_view layout.entry)) (layout_view layout.entry).line_ending text.now
        → OnlyMemoryRunsOut result }
{
    let filled = String::with_capacity(alloc, text.len())?;
    let mut lines = JustifiedLines {
        text: filled,
        has_lines: false,
        line: String::new(alloc),
        waits: false,
        layout,
    };
    let mut rest = Some(text);
    while let Some(text) = rest {
        let (paragraph, after) = split_paragraph(text, layout.line_ending);
        let is_later = lines.has_lines;
        push_paragraph_by(alloc, paragraph, layout, parts, is_later, &mut lines)?;
        lines.end_paragraph()?;
        rest = after;
    }
    Ok(lines.text)
}
