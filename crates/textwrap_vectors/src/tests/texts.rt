//! What the tests on texts share: options that a constant can hold, and the calls that give a text,
//! lines or rows, each with what it takes beside its text.
use super::given::{Found, has_lines, has_rows, is_text};
use super::plain::{
    plain_append, plain_columns, plain_dedent, plain_fill, plain_fill_inplace, plain_fill_slowly,
    plain_indent, plain_refill, plain_strip, plain_wrap,
};
use std::alloc::Allocator;
use std::borrow::CowStr;
use textwrap::wrap_algorithms::Penalties;
use textwrap::{
    LineEnding, Options, WordSeparator, WordSplitter, WrapAlgorithm, WrapError, unfill,
};

/// The options of a row but for its width: built-in parts, which a constant can hold.
#[derive(Clone, Copy)]
pub(super) struct Layout<'a> {
    pub(super) line_ending: LineEnding,
    pub(super) initial_indent: &'a str,
    pub(super) subsequent_indent: &'a str,
    pub(super) break_words: bool,
    /// Whether words are split after hyphens.
    pub(super) split_words: bool,
    /// The penalties of optimal fit, or none for first fit.
    pub(super) penalties: Option<Penalties>,
    pub(super) preserve_trailing_space: bool,
    pub(super) even_paragraphs: bool,
}

/// The penalties of a row that names none.
pub(super) const PENALTIES: Penalties = Penalties {
    nline_penalty: 1000,
    overflow_penalty: 2500,
    short_last_line_fraction: 4,
    short_last_line_penalty: 25,
    hyphen_penalty: 25,
};

/// Optimal fit, with all else at its default.
pub(super) const OPTIMAL_FIT: Layout<'static> = Layout {
    line_ending: LineEnding::LF,
    initial_indent: "",
    subsequent_indent: "",
    break_words: true,
    split_words: true,
    penalties: Some(PENALTIES),
    preserve_trailing_space: false,
    even_paragraphs: false,
};

/// First fit, with all else at its default.
pub(super) const FIRST_FIT: Layout<'static> = Layout {
    penalties: None,
    ..OPTIMAL_FIT
};

/// First fit, or optimal fit by these penalties.
pub(super) fn algorithm_of(penalties: Option<Penalties>) -> WrapAlgorithm {
    match penalties {
        Some(penalties) => WrapAlgorithm::OptimalFit(penalties),
        None => WrapAlgorithm::FirstFit,
    }
}

/// The splitter at hyphens, or at nothing.
fn splitter_of(split_words: bool) -> WordSplitter {
    if split_words {
        WordSplitter::HyphenSplitter
    } else {
        WordSplitter::NoHyphenation
    }
}

/// The options of this width.
pub(super) fn options_of<'a>(width: usize, layout: &Layout<'a>) -> Options<'a> {
    Options {
        width,
        line_ending: layout.line_ending,
        initial_indent: layout.initial_indent,
        subsequent_indent: layout.subsequent_indent,
        break_words: layout.break_words,
        wrap_algorithm: algorithm_of(layout.penalties),
        word_separator: WordSeparator::AsciiSpace,
        word_splitter: splitter_of(layout.split_words),
        preserve_trailing_space: layout.preserve_trailing_space,
        even_paragraphs: layout.even_paragraphs,
    }
}

/// Whether the options have this width, these indents and this ending.
pub(super) fn have_layout(
    options: &Options<'_>,
    width: usize,
    indents: [&str; 2],
    ending: LineEnding,
) -> bool {
    options.width == width
        && options.initial_indent == indents[0]
        && options.subsequent_indent == indents[1]
        && options.line_ending == ending
}

/// Whether `unfill` gives this text, and options with this width, these indents and this ending.
/// (The options are not handed out: the merge gate refuses that of options that another crate made.)
fn is_unfilled<A: Allocator + Copy>(
    alloc: A,
    text: &str,
    unfilled: &str,
    width: usize,
    indents: [&str; 2],
    ending: LineEnding,
) -> Found {
    let (given, options) = unfill(alloc, text)?;
    Ok(given.as_str() == unfilled && have_layout(&options, width, indents, ending))
}

/// The lines of a text, one paragraph after the other.
fn appended<'t, A: Allocator + Copy>(
    alloc: A,
    text: &'t str,
    options: &Options<'_>,
) -> Result<Vec<CowStr<'t, A>, A>, WrapError> {
    let mut lines = Vec::new(alloc);
    for paragraph in text.split('\n') {
        plain_append(alloc, paragraph, options, false, &mut lines)?;
    }
    Ok(lines)
}

/// A call that gives a text, lines or rows, with what it takes beside the text.
#[derive(Clone, Copy)]
pub(super) enum Call<'a> {
    /// The lines, as `given::are_lines` has them.
    Wrap(usize, Layout<'a>),
    /// The lines of `wrap_single_line` for one paragraph after the other.
    Append(usize, Layout<'a>),
    Fill(usize, Layout<'a>),
    FillSlowly(usize, Layout<'a>),
    FillInplace(usize),
    Refill(usize, Layout<'a>),
    /// The rows of so many columns with these gaps, each with a line feed after it.
    Columns(usize, usize, Layout<'a>, &'a str, &'a str, &'a str),
    /// The text, and the width, the indents and the ending of its options.
    Unfill(usize, &'a str, &'a str, LineEnding),
    Indent(&'a str),
    Dedent,
    /// The text without escape sequences.
    Strip,
}

use Call::{
    Append, Columns, Dedent, Fill, FillInplace, FillSlowly, Indent, Refill, Strip, Unfill, Wrap,
};

/// Whether a call gives this.
pub(super) fn gives<A: Allocator + Copy>(
    alloc: A,
    call: Call<'_>,
    text: &str,
    expected: &str,
) -> Found {
    match call {
        Wrap(width, layout) => {
            let options = options_of(width, &layout);
            has_lines(plain_wrap(alloc, text, options), expected)
        }
        Append(width, layout) => {
            let lines = appended(alloc, text, &options_of(width, &layout));
            has_lines(lines, expected)
        }
        Fill(width, layout) => {
            let options = options_of(width, &layout);
            is_text(plain_fill(alloc, text, options), expected)
        }
        FillSlowly(width, layout) => {
            let options = options_of(width, &layout);
            is_text(plain_fill_slowly(alloc, text, options), expected)
        }
        FillInplace(width) => is_text(plain_fill_inplace(alloc, text, width), expected),
        Refill(width, layout) => {
            let options = options_of(width, &layout);
            is_text(plain_refill(alloc, text, options), expected)
        }
        Columns(columns, width, layout, left, middle, right) => {
            let options = options_of(width, &layout);
            let gaps = [left, middle, right];
            has_rows(plain_columns(alloc, text, columns, options, gaps), expected)
        }
        Unfill(width, initial, subsequent, ending) => {
            is_unfilled(alloc, text, expected, width, [initial, subsequent], ending)
        }
        Indent(prefix) => is_text(plain_indent(alloc, text, prefix), expected),
        Dedent => is_text(plain_dedent(alloc, text), expected),
        Strip => is_text(plain_strip(alloc, text), expected),
    }
}
