//! How a text is wrapped, as C has it.
ghost use Rattle.std.specs.Prelude.{◌≡◌, ◌≢◌, ◌⊎◌, ◌↔◌, false, None, true, IfOk, IfErr, IsUtf8, MatchOption};
ghost use Rattle.textwrap_calls.specs.Options.{options_algorithm, AreKnown, AreRead, AreTexts};
ghost use Rattle.textwrap_calls.specs.Options.{have_dictionary, step_settings, options_points};
ghost use Rattle.textwrap_calls.specs.Status.{not_utf8, unknown_options};
ghost use Rattle.textwrap_layout.specs.Direct.{as_algorithm};
ghost use Rattle.textwrap_layout.specs.Options.{layout_view, settings_view};
ghost use Rattle.textwrap_plain.specs.Options.{is_dictionary, port_splitter, points_by};

use crate::dictionary::{TextwrapDictionary, is_whole, read_unchecked};
use crate::status::{NOT_UTF8, UNKNOWN_OPTIONS};
use simdutf8::basic::from_utf8;
use textwrap::wrap_algorithms::Penalties;
use textwrap::{LineEnding, Options};
use textwrap_layout::layout::Layout;
use textwrap_layout::options::DEFAULTS;
use textwrap_plain::{
    BuiltInAlgorithm, BuiltInSplitter, PlainOptions, PlainSeparator, PlainSplitter,
};
use textwrap_unicode::Numbers;

/// The version of [`TextwrapOptions`].
pub const VERSION: u32 = 2;

/// How a text is wrapped: what the library's `Options` say, in numbers. A text is a pointer and a
/// length, and a number that says yes or no is 1 or 0.
#[repr(C)]
#[derive(Clone, Copy)]
pub struct TextwrapOptions<'a> {
    /// [`VERSION`].
    pub version: u32,
    /// Whether lines have the least cost, at the penalties below, in place of first fit.
    pub optimal_fit: u32,
    /// Whether words are split after hyphens between letters or digits: 0 or 1, or 2 for those alone that
    /// stand within no escape sequence, as in the address of a link.
    pub split_at_hyphens: u32,
    /// Whether words that are too wide for a line are broken.
    pub break_words: u32,
    /// Whether blanks at line ends are kept.
    pub preserve_trailing_space: u32,
    /// Whether the first lines of later paragraphs are divided for the width of the other lines.
    pub even_paragraphs: u32,
    /// Whether CRLF ends a paragraph and joins lines, in place of LF.
    pub crlf: u32,
    /// Where words end: at blanks (0), or where Unicode lets a line end (UAX #14), with numbers kept
    /// together by pairs of characters (1) or by the expression of numbers (2).
    pub unicode_breaks: u32,
    /// The columns of a line.
    pub width: usize,
    /// What is printed before the first line, in UTF-8.
    pub initial_indent: &'a [u8],
    /// What is printed before each later line, in UTF-8.
    pub subsequent_indent: &'a [u8],
    /// What each line costs.
    pub nline_penalty: usize,
    /// What each column past the width costs.
    pub overflow_penalty: usize,
    /// A last line of one piece is short if it takes less than the width divided by this. An empty
    /// piece before the first word of an indented text counts.
    pub short_last_line_fraction: usize,
    /// What a short last line costs.
    pub short_last_line_penalty: usize,
    /// What a line costs more that ends in an added hyphen, as a dictionary adds it.
    pub hyphen_penalty: usize,
    /// The dictionary that splits words: where it has hyphens, and behind hyphens of their own that stand
    /// within no escape sequence, whatever `split_at_hyphens` says. A hyphen is printed where a line ends
    /// at a point of the dictionary. Without numbers there is none.
    pub dictionary: TextwrapDictionary<'a>,
    /// 0 each, until a later option takes one, for which 0 will change nothing.
    pub reserved_sizes: [usize; 4],
}

/// The library's options that these mean.
///
/// # Errors
/// The status `UNKNOWN_OPTIONS` or `NOT_UTF8`.
pub fn read_options<'a>(given: &TextwrapOptions<'a>) -> Result<PlainOptions<'a>, u32>
    ensures read { IfOk result (λ options. AreRead given.now options) }
    ensures known { IfOk result (λ _. AreKnown given.now) }
    ensures texts { IfOk result (λ _. AreTexts given.now) }
    ensures refused { IfErr result (λ status.
        ((status ≡ unknown_options) × ¬ AreKnown given.now)
        ⊎ ((status ≡ not_utf8) × AreKnown given.now × ¬ AreTexts given.now)) }
{
    if !are_known(given) {
        return Err(UNKNOWN_OPTIONS);
    }
    let (Some(initial_indent), Some(subsequent_indent)) = (
        read_indent(given.initial_indent),
        read_indent(given.subsequent_indent),
    ) else {
        return Err(NOT_UTF8);
    };
    Ok(PlainOptions {
        layout: Layout {
            width: given.width,
            line_ending: if given.crlf == 0 {
                LineEnding::LF
            } else {
                LineEnding::CRLF
            },
            initial_indent,
            subsequent_indent,
            break_words: given.break_words != 0,
            preserve_trailing_space: given.preserve_trailing_space != 0,
            even_paragraphs: given.even_paragraphs != 0,
            room_for_hyphens: false,
        },
        word_separator: match given.unicode_breaks {
            0 => PlainSeparator::AtBlanks,
            1 => PlainSeparator::AtBreaks(Numbers::ByPairs),
            _ => PlainSeparator::AtBreaks(Numbers::ByExpression),
        },
        word_splitter: read_splitter(given),
        wrap_algorithm: read_algorithm(given),
    })
}

/// The library's options with the layout that these mean, for a call that cuts no text into words. The
/// separator, the splitter and the algorithm are the defaults.
///
/// # Errors
/// The status `UNKNOWN_OPTIONS` or `NOT_UTF8`.
pub fn read_layout<'a>(given: &TextwrapOptions<'a>) -> Result<Options<'a>, u32>
    ensures read { IfOk result (λ options. settings_view options ≡ step_settings given.now) }
    ensures known { IfOk result (λ _. AreKnown given.now) }
    ensures texts { IfOk result (λ _. AreTexts given.now) }
    ensures refused { IfErr result (λ status.
        ((status ≡ unknown_options) × ¬ AreKnown given.now)
        ⊎ ((status ≡ not_utf8) × AreKnown given.now × ¬ AreTexts given.now)) }
{
    match read_options(given) {
        Ok(options) => Ok(with_layout(options.layout())),
        Err(status) => Err(status),
    }
}

/// The default options with this layout, which ask for no room for hyphens.
pub fn with_layout<'a>(layout: Layout<'a>) -> Options<'a>
    ensures { settings_view result ≡ record (layout_view layout.entry) { room_for_hyphens = false } }
{
    let Layout {
        width,
        line_ending,
        initial_indent,
        subsequent_indent,
        break_words,
        preserve_trailing_space,
        even_paragraphs,
        ..
    } = layout;
    Options {
        width,
        line_ending,
        initial_indent,
        subsequent_indent,
        break_words,
        preserve_trailing_space,
        even_paragraphs,
        ..DEFAULTS
    }
}

/// The text of an indent, if it is one. Most indents are empty.
fn read_indent(indent: &[u8]) -> Option<&str>
    ensures { MatchOption result (¬ IsUtf8 indent.now)
        (λ text. (text.now ≡ indent.now) × IsUtf8 indent.now) }
{
    if indent.is_empty() {
        return Some("");
    }
    match from_utf8(indent) {
        Ok(text) => Some(text),
        Err(_) => None,
    }
}

/// The status of a call that is handed a text that is no UTF-8.
pub fn refusal(given: &TextwrapOptions<'_>) -> u32
    ensures unknown { result ≡ unknown_options ↔ ¬ AreKnown given.now }
    ensures not_utf8 { result ≡ not_utf8 ↔ AreKnown given.now }
    ensures statuses { (result ≡ unknown_options) ⊎ (result ≡ not_utf8) }
{
    if are_known(given) {
        NOT_UTF8
    } else {
        UNKNOWN_OPTIONS
    }
}

/// Whether the version is known, each number means something, and the dictionary was not damaged, if there
/// is one.
pub fn are_known(given: &TextwrapOptions<'_>) -> bool
    ensures { result ≡ true ↔ AreKnown given.now }
{
    given.version == VERSION
        && given.optimal_fit <= 1
        && given.split_at_hyphens <= 2
        && given.break_words <= 1
        && given.preserve_trailing_space <= 1
        && given.even_paragraphs <= 1
        && given.crlf <= 1
        && given.unicode_breaks <= 2
        && given.reserved_sizes == [0; 4]
        && is_whole(&given.dictionary)
}

/// The algorithm that is asked for.
fn read_algorithm(given: &TextwrapOptions<'_>) -> BuiltInAlgorithm
    ensures { as_algorithm result ≡ options_algorithm given.now }
{
    if given.optimal_fit == 0 {
        return BuiltInAlgorithm::FirstFit;
    }
    BuiltInAlgorithm::OptimalFit(Penalties {
        nline_penalty: given.nline_penalty,
        overflow_penalty: given.overflow_penalty,
        short_last_line_fraction: given.short_last_line_fraction,
        short_last_line_penalty: given.short_last_line_penalty,
        hyphen_penalty: given.hyphen_penalty,
    })
}

/// The splitter that is asked for.
fn read_splitter<'a>(given: &TextwrapOptions<'a>) -> PlainSplitter<'a>
    ensures points { points_by result ≡ options_points given.now }
    ensures dictionary { is_dictionary result ≡ have_dictionary given.now }
    ensures built_in { have_dictionary given.now ≡ false → given.now.split_at_hyphens ≢ 2
        → port_splitter result ≢ None }
{
    if !given.dictionary.numbers.is_empty() {
        return PlainSplitter::Dictionary(read_unchecked(&given.dictionary));
    }
    match given.split_at_hyphens {
        0 => PlainSplitter::BuiltIn(BuiltInSplitter::NoHyphenation),
        2 => PlainSplitter::OutsideSequences,
        _ => PlainSplitter::BuiltIn(BuiltInSplitter::HyphenSplitter),
    }
}
