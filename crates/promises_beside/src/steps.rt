//! A paragraph in steps.
ghost use Rattle.std.specs.Prelude.{◌≡◌, map, IfOk};
ghost use Rattle.textwrap_layout.specs.Options.{settings_view};
ghost use Rattle.textwrap_lines.specs.Steps.{pieces_at};
ghost use Rattle.textwrap_words.specs.Cuts.{AreInnerCuts};
ghost use Rattle.textwrap_words.specs.Words.{word_view};

use std::alloc::{AllocError, Global};
use textwrap::Options;
use textwrap::words::Word;
use textwrap_lines::steps::pieces_at;

/// As `pieces_at`.
pub fn pieces_of_paragraph<'t>(
    alloc: Global,
    paragraph: &'t str,
    cuts: &[usize],
    points: &[usize],
    options: &Options<'_>,
) -> Result<Vec<Word<'t>>, AllocError>
    requires cuts { AreInnerCuts paragraph.now cuts.now }
    requires points { AreInnerCuts paragraph.now points.now }
    ensures pieces { IfOk result (λ pieces. map word_view pieces.items
        ≡ pieces_at (settings_view options.now) cuts.now points.now paragraph.now) }
{
    let pieces = pieces_at(alloc, paragraph, cuts, points, options)?;
    Ok(pieces)
}
