//! The calls of the library without their clauses.
//!
//! A clause of what a function calls is read in the proof of that function, and a value that lives
//! there has to be let go at each `?`. So each call of the library stands here once.
use super::given::are_offsets;
use std::alloc::{Allocator, Global};
use std::borrow::CowStr;
use std::process::Abort;
use textwrap::fuzzing::{fill_slow_path, wrap_single_line, wrap_single_line_slow_path};
use textwrap::minima::{Minimum, Steps, is_queue_case, queue_minima, table_minima};
use textwrap::word_separators::find_words_at;
use textwrap::word_splitters::split_words;
use textwrap::words::{Fragment, Word, break_words, strip_ansi_escape_sequences};
use textwrap::wrap_algorithms::{
    Penalties, wrap_first_fit, wrap_optimal_fit, wrap_optimal_fit_counted,
};
use textwrap::{
    Options, WordSeparator, WordSplitter, WrapAlgorithm, WrapError, dedent, fill, fill_inplace,
    indent, refill, wrap, wrap_columns,
};

/// The visible characters of a text.
pub(super) fn plain_strip<A: Allocator + Copy>(
    alloc: A,
    text: &str,
) -> Result<String<A>, WrapError> {
    Ok(strip_ansi_escape_sequences(alloc, text)?)
}

/// The words of these texts, as they are.
pub(super) fn plain_words<'t>(
    alloc: Global,
    texts: &[&'t str],
) -> Result<Vec<Word<'t>>, WrapError> {
    let mut words = Vec::new(alloc);
    for text in texts {
        words.push(Word::from(*text))?;
    }
    Ok(words)
}

/// The words of a line, in a list of `alloc`. What the call itself allocates is of `of_call`.
pub(super) fn plain_find_words<'t, A: Allocator + Copy>(
    alloc: Global,
    of_call: A,
    separator: WordSeparator,
    line: &'t str,
) -> Result<Vec<Word<'t>>, WrapError> {
    let words = separator.find_words(of_call, line)?;
    Ok(words.collect(alloc)?)
}

/// The words of a line at offsets, which are asserted to be some of its visible text.
pub(super) fn plain_find_words_at<'t, A: Allocator + Copy>(
    rt: &(impl Abort + AllocGlobal),
    alloc: A,
    line: &'t str,
    offsets: &[usize],
) -> Result<Vec<Word<'t>, A>, WrapError> {
    let visible = strip_ansi_escape_sequences(rt.alloc(), line)?;
    assert!(rt; are_offsets(&visible, offsets));
    Ok(find_words_at(alloc, line, offsets)?)
}

/// Where a word may be split.
pub(super) fn plain_points<A: Allocator + Copy>(
    alloc: A,
    splitter: &WordSplitter,
    word: &str,
) -> Result<Vec<usize, A>, WrapError> {
    Ok(splitter.split_points(alloc, word)?)
}

/// The pieces that words are split into.
pub(super) fn plain_split<'t, A: Allocator + Copy>(
    alloc: A,
    words: &[Word<'t>],
    splitter: &WordSplitter,
) -> Result<Vec<Word<'t>, A>, WrapError> {
    Ok(split_words(alloc, words.iter().copied(), splitter)?)
}

/// The words and pieces that words are broken into at a limit.
pub(super) fn plain_break<'t, A: Allocator + Copy>(
    alloc: A,
    words: &[Word<'t>],
    line_width: usize,
) -> Result<Vec<Word<'t>, A>, WrapError> {
    Ok(break_words(alloc, words.iter().copied(), line_width)?)
}

/// The lines that an algorithm divides words into.
pub(super) fn plain_divide<'a, 'b, A: Allocator + Copy>(
    alloc: A,
    algorithm: WrapAlgorithm,
    words: &'b [Word<'a>],
    line_widths: &[usize],
) -> Result<Vec<&'b [Word<'a>], A>, WrapError> {
    algorithm.wrap(alloc, words, line_widths)
}

/// The lines of fragments by first fit.
pub(super) fn plain_first_fit<'a, A: Allocator + Copy, T: Fragment>(
    alloc: A,
    fragments: &'a [T],
    line_widths: &[usize],
) -> Result<Vec<&'a [T], A>, WrapError> {
    Ok(wrap_first_fit(alloc, fragments, line_widths)?)
}

/// The lines of fragments at the least cost.
pub(super) fn plain_optimal_fit<'a, A: Allocator + Copy, T: Fragment>(
    alloc: A,
    fragments: &'a [T],
    line_widths: &[usize],
    penalties: &Penalties,
) -> Result<Vec<&'a [T], A>, WrapError> {
    wrap_optimal_fit(alloc, fragments, line_widths, penalties)
}

/// The lines of fragments at the least cost, and the line costs that were asked for.
pub(super) fn plain_optimal_fit_counted<'a, A: Allocator + Copy, T: Fragment>(
    alloc: A,
    fragments: &'a [T],
    line_widths: &[usize],
    penalties: &Penalties,
) -> (Result<Vec<&'a [T], A>, WrapError>, u128) {
    let mut steps = Steps::new();
    let lines = wrap_optimal_fit_counted(alloc, fragments, line_widths, penalties, &mut steps);
    (lines, steps.count())
}

/// The table of least costs, and the line costs that it asked for.
pub(super) fn plain_table<A: Allocator + Copy, T: Fragment>(
    alloc: A,
    fragments: &[T],
    line_widths: &[usize],
    penalties: &Penalties,
) -> (Result<Vec<Minimum, A>, WrapError>, u128) {
    let mut steps = Steps::new();
    let minima = table_minima(alloc, fragments, line_widths, penalties, &mut steps);
    (minima, steps.count())
}

/// Whether the search may be used.
pub(super) fn plain_is_queue_case<T: Fragment>(
    fragments: &[T],
    line_widths: &[usize],
    penalties: &Penalties,
) -> bool {
    is_queue_case(fragments, line_widths, penalties)
}

/// The least costs by the search, and the line costs that it asked for. Asserts that it may be used.
pub(super) fn plain_queue<A: Allocator + Copy, T: Fragment>(
    rt: &impl Abort,
    alloc: A,
    fragments: &[T],
    line_widths: &[usize],
    penalties: &Penalties,
) -> (Result<Vec<Minimum, A>, WrapError>, u128) {
    assert!(rt; is_queue_case(fragments, line_widths, penalties));
    let mut steps = Steps::new();
    match queue_minima(alloc, fragments, line_widths, penalties, &mut steps) {
        Ok(minima) => (Ok(minima), steps.count()),
        Err(error) => (Err(WrapError::from(error)), steps.count()),
    }
}

/// The lines of a text.
pub(super) fn plain_wrap<'t, A: Allocator + Copy>(
    alloc: A,
    text: &'t str,
    options: Options<'_>,
) -> Result<Vec<CowStr<'t, A>, A>, WrapError> {
    wrap(alloc, text, options)
}

/// Appends the lines of a paragraph, with the shortcut for a short one or without it.
pub(super) fn plain_append<'t, A: Allocator + Copy>(
    alloc: A,
    paragraph: &'t str,
    options: &Options<'_>,
    slowly: bool,
    lines: &mut Vec<CowStr<'t, A>, A>,
) -> Result<(), WrapError> {
    if slowly {
        return wrap_single_line_slow_path(alloc, paragraph, options, lines);
    }
    wrap_single_line(alloc, paragraph, options, lines)
}

/// A text, filled.
pub(super) fn plain_fill<A: Allocator + Copy>(
    alloc: A,
    text: &str,
    options: Options<'_>,
) -> Result<String<A>, WrapError> {
    fill(alloc, text, options)
}

/// A text, filled without the shortcut for a short one.
pub(super) fn plain_fill_slowly<A: Allocator + Copy>(
    alloc: A,
    text: &str,
    options: Options<'_>,
) -> Result<String<A>, WrapError> {
    fill_slow_path(alloc, text, options)
}

/// A text, filled in place.
pub(super) fn plain_fill_inplace<A: Allocator + Copy>(
    alloc: A,
    text: &str,
    width: usize,
) -> Result<String<A>, WrapError> {
    let mut filled = String::from_str(alloc, text)?;
    fill_inplace(alloc, &mut filled, width)?;
    Ok(filled)
}

/// A text, refilled.
pub(super) fn plain_refill<A: Allocator + Copy>(
    alloc: A,
    text: &str,
    options: Options<'_>,
) -> Result<String<A>, WrapError> {
    refill(alloc, text, options)
}

/// A text, indented.
pub(super) fn plain_indent<A: Allocator + Copy>(
    alloc: A,
    text: &str,
    prefix: &str,
) -> Result<String<A>, WrapError> {
    Ok(indent(alloc, text, prefix)?)
}

/// A text, dedented.
pub(super) fn plain_dedent<A: Allocator + Copy>(
    alloc: A,
    text: &str,
) -> Result<String<A>, WrapError> {
    Ok(dedent(alloc, text)?)
}

/// The rows of a text in columns with these gaps. The call wants one column at least.
pub(super) fn plain_columns<A: Allocator + Copy>(
    alloc: A,
    text: &str,
    columns: usize,
    options: Options<'_>,
    gaps: [&str; 3],
) -> Result<Vec<String<A>, A>, WrapError> {
    let [left, middle, right] = gaps;
    wrap_columns(alloc, text, columns.max(1), options, left, middle, right)
}
