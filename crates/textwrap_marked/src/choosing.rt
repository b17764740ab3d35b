//! Whether a text has marks that are filled.
ghost use Rattle.std.specs.Prelude.{◌≡◌, IfOk, Some};
ghost use Rattle.std.specs.List.{list_any};
ghost use Rattle.textwrap_marked.specs.Choosing.{has_chosen};
ghost use Rattle.textwrap_marked_lines.specs.Reading.{lines_ahead};

use std::alloc::{AllocError, Global};
use textwrap_marked_lines::reading::LinesAhead;
use textwrap_marks::options::ReflowOptions;
use textwrap_text::starts::without_start;

/// Whether the marks of some line begin with one of the prefixes of the options, so that it could be
/// filled. Without a prefix each line is such.
///
/// `"// one\n"` has such a line at the prefix `"//"`, and none at `"#"`.
///
/// # Errors
/// [`AllocError`] where memory runs out.
pub fn has_chosen(
    alloc: Global,
    text: &str,
    options: &ReflowOptions<'_>,
) -> Result<bool, AllocError>
    ensures { IfOk result (λ has. has ≡ has_chosen options.now text.now) }
{
    let all = match without_start(text, "\u{feff}") {
        Some(rest) => LinesAhead::new(alloc, rest, options)?,
        None => LinesAhead::new(alloc, text, options)?,
    };
    any_chosen(alloc, all, options)
}

/// Whether one of the lines is such.
fn any_chosen(
    alloc: Global,
    all: LinesAhead<'_>,
    options: &ReflowOptions<'_>,
) -> Result<bool, AllocError>
    ensures { IfOk result (λ any. any
        ≡ list_any (λ line. line.chosen) (lines_ahead options.now (Some all.entry))) }
{
    let mut ahead = Some(all);
    while let Some(left) = ahead {
        let (line, after) = left.next(alloc, options)?;
        if line.chosen {
            return Ok(true);
        }
        ahead = after;
    }
    Ok(false)
}
