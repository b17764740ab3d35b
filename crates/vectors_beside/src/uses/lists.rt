//! Words one below another, each split after its prefix.
ghost use Rattle.std.specs.Prelude.{IfOk};
ghost use Rattle.textwrap.specs.Cuts.{AreCuts};
ghost use Rattle.textwrap.specs.LineEnds.{AreEnds};
ghost use Rattle.textwrap.specs.Errors.{OnlyMemoryRunsOut};

use std::alloc::{AllocError, Global};
use std::borrow::CowStr;
use textwrap::word_splitters::WordCuts;
use textwrap::words::Word;
use textwrap::wrap_algorithms::LineEnds;
use textwrap::{Options, WordSplitter, WrapAlgorithm, WrapError, wrap};

/// The lines of a text: a paragraph that does not fit on one line has one word, or a part of one,
/// on each. At 8 columns `a superset` has the lines `a`, `super-` and `set`.
pub fn listed_lines<'t>(
    alloc: Global,
    text: &'t str,
    width: usize,
) -> Result<Vec<CowStr<'t>>, WrapError>
    ensures only_memory { OnlyMemoryRunsOut result }
{
    let options = Options::new(width)
        .word_splitter(WordSplitter::Custom(WordCuts::new(alloc, point_after_super)))
        .wrap_algorithm(WrapAlgorithm::Custom(LineEnds::new(alloc, end_after_each)));
    let lines = wrap(alloc, text, options)?;
    Ok(lines)
}

/// The end of the prefix `super`, where more follows.
fn point_after_super(alloc: Global, word: &str) -> Result<Vec<usize>, AllocError>
    ensures { IfOk result (λ points. AreCuts word.now points.items) }
{
    let mut points = Vec::new(alloc);
    if word.len() > 5 && word.starts_with("super") {
        points.push(5)?;
    }
    Ok(points)
}

/// An end after each word.
fn end_after_each(
    alloc: Global,
    words: &[Word<'_>],
    _line_widths: &[usize],
) -> Result<Vec<usize>, AllocError>
    ensures { IfOk result (λ ends. AreEnds words.now ends.items) }
{
    let mut ends = Vec::new(alloc);
    for before in 0..words.len() {
        ends.push(before + 1)?;
    }
    Ok(ends)
}
