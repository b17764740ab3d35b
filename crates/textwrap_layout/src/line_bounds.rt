//! Lines of a paragraph by where they stand in it.
ghost use Rattle.std.specs.Prelude.{◌≡◌, [], ◌∷◌, IsOk, OnOk};
ghost use Rattle.textwrap_layout.specs.LineSinks.{Pushed};
ghost use Rattle.textwrap_layout.specs.LineBounds.{AreBounds, line_between};

use crate::layout::Layout;
use crate::line_sinks::LineSink;
use std::alloc::{AllocError, Allocator};

/// Where a line stands in its paragraph.
#[derive(Clone, Copy)]
pub struct LineBounds {
    /// Where it begins.
    pub start: usize,
    /// Where its last word ends.
    pub word_end: usize,
    /// Where the whitespace after that ends.
    pub end: usize,
}

/// Pushes the line that stands there, with the indent before it and the penalty after it. It goes up
/// to its end where blanks are kept, unless a penalty stands in their place, and else up to the end
/// of its last word.
///
/// # Errors
/// [`AllocError`] where memory runs out.
pub fn push_between<'t, A: Allocator + Copy, S: LineSink<'t, A>>(
    alloc: A,
    paragraph: &'t str,
    bounds: LineBounds,
    layout: &Layout<'_>,
    indent: &str,
    penalty: &str,
    lines: &mut S,
) -> Result<(), AllocError>
    requires { AreBounds paragraph.now bounds }
    ensures name { S.name lines.new ≡ S.name lines.old }
    ensures done { S.never_fails → IsOk result }
    ensures pushed { OnOk result (Pushed S.holds lines.old lines.new
        (line_between layout.now.preserve_trailing_space paragraph.now indent.now penalty.now bounds
        ∷ [])) }
{
    let end = if penalty.is_empty() && layout.preserve_trailing_space {
        bounds.end
    } else {
        bounds.word_end
    };
    let slice = &paragraph[bounds.start..end];
    lines.push_line(alloc, indent, bounds.start, slice, penalty)
}
