//! Hyphens by a dictionary.
ghost use Rattle.std.specs.Prelude.{◌≡◌, IfOk, Some, map};
ghost use Rattle.textwrap_plain.specs.Options.{DividesPlainly, plain_algorithm, plain_settings};
ghost use Rattle.textwrap_plain.specs.Options.{adds_as};
ghost use Rattle.textwrap_hyphens.specs.Parsed.{IsParsed};
ghost use Rattle.textwrap_hyphens.specs.Points.{hyphenation_points};
ghost use Rattle.textwrap_hyphens.specs.Table.{held};
ghost use Rattle.textwrap_layout.specs.Paragraph.{line_view};
ghost use Rattle.textwrap_layout.specs.Text.{IsWrapped};
ghost use Rattle.textwrap_dictionaries.specs.Parsing.{parsed};

use std::alloc::{AllocError, Global};
use std::borrow::CowStr;
use textwrap::WrapError;
use textwrap_dictionaries::errors::ParseError;
use textwrap_hyphens::dictionary::Patterns;
use textwrap_hyphens::points::points;
use textwrap_hyphens::table::PatternTable;
use textwrap_plain::{PlainOptions, wrap};

/// As `Patterns::parse`.
pub fn dictionary_of_text(alloc: Global, text: &str) -> Result<Patterns, ParseError>
    ensures { IsParsed (parsed text.now) result }
{
    Patterns::parse(alloc, text)
}

/// As `points`.
pub fn points_of_word(
    alloc: Global,
    word: &str,
    patterns: &PatternTable<'_>,
) -> Result<Vec<usize>, AllocError>
    ensures { IfOk result (λ points. points.items ≡ hyphenation_points (held patterns.now) word.now) }
{
    let found = points(alloc, word, patterns)?;
    Ok(found)
}

/// As `wrap` of `textwrap_plain`.
pub fn hyphenated_lines<'t>(
    alloc: Global,
    text: &'t str,
    options: &PlainOptions<'_>,
) -> Result<Vec<CowStr<'t>>, WrapError>
    ensures lines { IfOk result (λ lines. IsWrapped (plain_settings options.now)
        (adds_as options.now.word_splitter) (Some (plain_algorithm options.now))
        (DividesPlainly options.now (plain_settings options.now)) text.now
        (map line_view lines.items)) }
{
    let lines = wrap(alloc, text, options)?;
    Ok(lines)
}
