//! Lines that end where a function of the caller says.
ghost use Rattle.std.specs.Prelude.{◌≡◌, ℕ, List, map, IfOk};
ghost use Rattle.textwrap_words.specs.LineEnds.{AreEnds, lines_between};
ghost use Rattle.textwrap_words.specs.WrapAlgorithms.{MayEnd};
ghost use Rattle.textwrap_words.specs.Words.{word_view};

use super::line_ends::LineEnds;
use crate::words::Word;
use std::alloc::{AllocError, Allocator};

/// Divides the words into the lines whose ends the caller's function gives. Words after the last
/// end are in no line.
///
/// # Errors
/// Out of memory, also where the function says so.
pub(super) fn wrap_at_ends<'a, 'b, A: Allocator>(
    alloc: A,
    words: &'b [Word<'a>],
    line_widths: &[usize],
    line_ends: LineEnds,
) -> Result<Vec<&'b [Word<'a>], A>, AllocError>
    ensures divided { IfOk result (λ lines. (ends : List ℕ)
        × MayEnd line_ends (map word_view words.now) line_widths.now ends
        × (map (λ line. line.now) lines.items ≡ lines_between ends words.now)) }
{
    let ends = (line_ends.function)(line_ends.alloc, words, line_widths)?;
    let lines = lines_between(alloc, words, &ends)?;
    Ok(lines)
}

/// The lines between the ends. Elements after the last end are in no line.
pub fn lines_between<'b, A: Allocator, X>(
    alloc: A,
    xs: &'b [X],
    ends: &[usize],
) -> Result<Vec<&'b [X], A>, AllocError>
    requires { AreEnds xs.now ends.now }
    ensures lines { IfOk result (λ lines.
        map (λ line. line.now) lines.items ≡ lines_between ends.now xs.now) }
{
    let mut lines = Vec::new(alloc);
    let mut start = 0;
    for end in ends {
        lines.push(&xs[start..*end])?;
        start = *end;
    }
    Ok(lines)
}
