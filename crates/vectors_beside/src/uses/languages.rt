//! Texts of any language, cut into lines by the Unicode line breaking algorithm.
ghost use Rattle.std.specs.Prelude.{◌≡◌, List, map, All, IfOk};
ghost use Rattle.std.specs.List.{flat_map};
ghost use Rattle.textwrap.specs.LineEnding.{paragraphs_of};
ghost use Rattle.textwrap.specs.Paragraph.{LineParts, line_view, line_from};
ghost use Rattle.textwrap.specs.Text.{covered_by, LeavesOffBlanks};
ghost use Rattle.textwrap.specs.declared.LineEnding.TheVariants.{LF};

use std::alloc::Global;
use std::borrow::CowStr;
use textwrap::WrapError;
use textwrap_plain::{PlainOptions, wrap};

/// The lines of a text at this width, which end where UAX #14 allows it: at 8 columns
/// `これは「ペン」です。` has the lines `これは`, `「ペン」` and `です。`, none of which begins with the
/// closing bracket.
pub fn lines_in_any_language<'t>(
    alloc: Global,
    text: &'t str,
    width: usize,
) -> Result<Vec<CowStr<'t>>, WrapError>
    // Together with what is left off at their ends, which is blanks, the lines are the text: nothing
    // is lost.
    ensures whole { IfOk result (λ lines. (groups : List (List LineParts))
        × (map line_view lines.items ≡ map line_from (flat_map (λ parts. parts) groups))
        × (map covered_by groups ≡ paragraphs_of LF text.now)
        × All LeavesOffBlanks (flat_map (λ parts. parts) groups)) }
{
    let lines = wrap(alloc, text, &PlainOptions::new(width))?;
    Ok(lines)
}
