//! Paths of files, cut into lines after their slashes.
ghost use Rattle.std.specs.Prelude.{◌≡◌, List, map, All, IfOk};
ghost use Rattle.std.specs.List.{flat_map};
ghost use Rattle.textwrap.specs.Cuts.{AreInnerCuts};
ghost use Rattle.textwrap.specs.LineEnding.{paragraphs_of};
ghost use Rattle.textwrap.specs.Paragraph.{LineParts, line_view, line_from};
ghost use Rattle.textwrap.specs.Text.{covered_by, LeavesOffBlanks};
ghost use Rattle.textwrap.specs.declared.LineEnding.TheVariants.{LF};

use std::alloc::{AllocError, Global};
use std::borrow::CowStr;
use textwrap::word_separators::LineCuts;
use textwrap::{LineEnding, Options, WordSeparator, WrapError, wrap};

/// The lines of a path at this width. It is cut after slashes, and where it has to be, in a name:
/// at 10 columns `/usr/local/share/doc` has the lines `/usr/`, `local/` and `share/doc`.
pub fn path_lines<'p>(
    alloc: Global,
    path: &'p str,
    width: usize,
) -> Result<Vec<CowStr<'p>>, WrapError>
    // Together with what is left off at their ends, which is blanks, the lines are the path: nothing
    // is lost.
    ensures whole { IfOk result (λ lines. (groups : List (List LineParts))
        × (map line_view lines.items ≡ map line_from (flat_map (λ parts. parts) groups))
        × (map covered_by groups ≡ paragraphs_of LF path.now)
        × All LeavesOffBlanks (flat_map (λ parts. parts) groups)) }
{
    let line_cuts = LineCuts::new(alloc, cuts_after_slashes);
    let options = Options::new(width)
        .line_ending(LineEnding::LF)
        .word_separator(WordSeparator::Custom(line_cuts));
    let lines = wrap(alloc, path, options)?;
    Ok(lines)
}

/// The offsets after the slashes inside the path.
fn cuts_after_slashes(alloc: Global, path: &str) -> Result<Vec<usize>, AllocError>
    ensures { IfOk result (λ cuts. AreInnerCuts path.now cuts.items) }
{
    let mut cuts = Vec::new(alloc);
    for cut in 1..path.len() {
        if path.as_bytes()[cut - 1] == b'/' {
            cuts.push(cut)?;
        }
    }
    Ok(cuts)
}
