//! What texts become by a dictionary of hyphenation.
ghost use Rattle.std.specs.Prelude.{◌≡◌, ◌++◌, IfOk, OnOk, string_bytes, true};
ghost use Rattle.textwrap_words.specs.Cuts.{AreInnerCuts};
ghost use Rattle.textwrap_layout.specs.Options.{settings_at};
ghost use Rattle.textwrap_hyphens.specs.Table.{held};
ghost use Rattle.textwrap_plain.specs.Options.{plain_algorithm, plain_settings};
ghost use Rattle.filter_programs.specs.HyphenateTexts.{IsFilledWith, IsMade, algorithm_by, hyphenated_at};
ghost use Rattle.filter_programs.specs.HyphenateTexts.{hyphenated_word, hyphenated_words, hyphenating};
ghost use Rattle.filter_programs.specs.HyphenateTexts.{separator_by};

use std::alloc::{AllocError, Global};
use text_filters::filter::{Filter, Made};
use textwrap::wrap_algorithms::Penalties;
use textwrap_hyphens::points::points;
use textwrap_hyphens::table::PatternTable;
use textwrap_layout::layout::Layout;
use textwrap_plain::{BuiltInAlgorithm, PlainOptions, PlainSeparator, PlainSplitter, fill};
use textwrap_unicode::Numbers;

/// What a text is hyphenated by.
///
/// If that is asked for, its paragraphs are filled, with hyphens at the points of the dictionary. If not,
/// each of its lines is a word, and gets a hyphen `-` at each of its points: `hyphenation` becomes
/// `hy-phen-ation` by the patterns `hy3ph`, `he2n`, `hena4`, `hen5at`, `1na`, `n2at`, `1tio`, `2io` and
/// `o2n`. A line feed stands behind each word, also behind the last.
#[derive(Clone, Copy)]
pub struct Hyphenating<'p> {
    /// How the text is filled, if it is.
    pub filling: Option<Filling>,
    /// The dictionary.
    pub patterns: PatternTable<'p>,
}

/// How a text is filled.
#[derive(Clone, Copy)]
pub struct Filling {
    /// The columns of a line.
    pub width: usize,
    /// Whether the lines are the least ragged ones, and not by first fit.
    pub least_cost: bool,
    /// Whether lines end where Unicode lets them, and not between blanks alone.
    pub breaks: bool,
}

impl Filter for Hyphenating<'_> {
    ghost work = { λ how. hyphenating how };

    fn filter(&self, alloc: Global, text: &str) -> Result<Made, AllocError> {
        let text = made_by(alloc, text, self.filling, &self.patterns)?;
        Ok(Made {
            text,
            applies: true,
        })
    }
}

/// What a text becomes by a dictionary: filled, if that is asked for, else its words with their hyphens.
fn made_by(
    alloc: Global,
    text: &str,
    filling: Option<Filling>,
    patterns: &PatternTable<'_>,
) -> Result<String, AllocError>
    ensures { IfOk result (λ made. IsMade filling (held patterns.now) text.now (string_bytes made)) }
{
    match filling {
        Some(how) => filled(alloc, text, how, patterns),
        None => hyphenated_words(alloc, text, patterns),
    }
}

/// The text, filled with hyphens.
fn filled(
    alloc: Global,
    text: &str,
    how: Filling,
    patterns: &PatternTable<'_>,
) -> Result<String, AllocError>
    ensures { IfOk result (λ filled. IsFilledWith how (held patterns.now) text.now
        (string_bytes filled)) }
{
    match fill(alloc, text, &filling_options(how, patterns)) {
        Ok(filled) => Ok(filled),
        Err(_) => Err(AllocError),
    }
}

/// The options that fill a text so.
fn filling_options<'p>(how: Filling, patterns: &PatternTable<'p>) -> PlainOptions<'p>
    ensures settings { plain_settings result
        ≡ record (settings_at how.width) { room_for_hyphens = true } }
    ensures separator { result.word_separator ≡ separator_by how.breaks }
    ensures splitter { result.word_splitter ≡ PlainSplitter.Dictionary patterns.now }
    ensures algorithm { plain_algorithm result ≡ algorithm_by how.least_cost }
{
    PlainOptions {
        layout: Layout::new(how.width),
        word_separator: if how.breaks {
            PlainSeparator::AtBreaks(Numbers::ByPairs)
        } else {
            PlainSeparator::AtBlanks
        },
        word_splitter: PlainSplitter::Dictionary(*patterns),
        wrap_algorithm: if how.least_cost {
            BuiltInAlgorithm::OptimalFit(Penalties::new())
        } else {
            BuiltInAlgorithm::FirstFit
        },
    }
}

/// The lines of a text, each as a word with its hyphens, and a line feed behind it.
fn hyphenated_words(
    alloc: Global,
    text: &str,
    patterns: &PatternTable<'_>,
) -> Result<String, AllocError>
    ensures { IfOk result (λ made. string_bytes made
        ≡ hyphenated_words (held patterns.now) text.now) }
{
    let mut made = String::new(alloc);
    for word in text.lines() {
        push_word(alloc, &mut made, word, patterns)?;
    }
    Ok(made)
}

/// Adds a word with its hyphens, and a line feed behind it.
fn push_word(
    alloc: Global,
    made: &mut String,
    word: &str,
    patterns: &PatternTable<'_>,
) -> Result<(), AllocError>
    ensures { OnOk result (string_bytes made.new
        ≡ string_bytes made.old ++ hyphenated_word (held patterns.now) word.now) }
{
    let points = points(alloc, word, patterns)?;
    push_parts(made, word, &points)?;
    made.push('\n')
}

/// Adds the parts of a word between these points, with a hyphen between each two.
fn push_parts(made: &mut String, word: &str, points: &[usize]) -> Result<(), AllocError>
    requires { AreInnerCuts word.now points.now }
    ensures { OnOk result (string_bytes made.new
        ≡ string_bytes made.old ++ hyphenated_at points.now word.now) }
{
    let mut start = 0;
    for point in points {
        made.push_str(&word[start..*point])?;
        made.push('-')?;
        start = *point;
    }
    made.push_str(&word[start..])
}
