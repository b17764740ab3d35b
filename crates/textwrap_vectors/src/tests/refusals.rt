//! Each call with each of its allocations refused in turn.
use super::given::{Found, assert_found, has_lens, has_lines, has_minima, has_numbers, has_words};
use super::plain::{
    plain_append, plain_break, plain_divide, plain_find_words, plain_find_words_at,
    plain_first_fit, plain_optimal_fit, plain_optimal_fit_counted, plain_points, plain_queue,
    plain_split, plain_table, plain_wrap,
};
use super::texts::Call::{Columns, Dedent, Fill, FillSlowly, Indent, Refill, Strip, Unfill, Wrap};
use super::texts::{
    Call, FIRST_FIT, Layout, OPTIMAL_FIT, PENALTIES, algorithm_of, gives, options_of,
};
use crate::functions::{cut_everywhere, end_all, split_in_middle};
use crate::heap::Heap;
use std::alloc::AllocError;
use std::borrow::CowStr;
use std::process::Abort;
use textwrap::minima::{CostSource, LineCosts};
use textwrap::word_separators::LineCuts;
use textwrap::word_splitters::WordCuts;
use textwrap::words::Word;
use textwrap::wrap_algorithms::{LineEnds, Penalties};
use textwrap::{LineEnding, Options, WordSeparator, WordSplitter, WrapAlgorithm, WrapError};

/// A call on an input of its own.
pub(super) trait Refusable {
    /// Whether the call gives what it should. All that it allocates by itself comes from `heap`.
    fn is_right<R: Abort + AllocGlobal>(&self, rt: &R, heap: &Heap) -> Found;
}

/// Calls with no allocation allowed, then with one more each time, until none is refused. Every
/// refused call has to be out of memory. How many these are, if the last call gives what it should.
pub(super) fn refusals_of<C: Refusable>(
    rt: &(impl Abort + AllocGlobal),
    call: &C,
    heap: &Heap,
) -> Option<usize> {
    for allowed in 0..100 {
        heap.allow(allowed);
        match call.is_right(rt, heap) {
            Ok(is_right) => return is_right.then_some(allowed),
            Err(WrapError::Memory(_)) => {}
            Err(WrapError::Overflow(_)) => return None,
        }
    }
    None
}

/// Asserts that a call is refused so many times, before it gives what it should and makes all the
/// allocations that are allowed.
fn assert_refused<C: Refusable>(rt: &(impl Abort + AllocGlobal), call: &C, refusals: usize) {
    let heap = Heap::new(rt.alloc(), 0);
    let counted = refusals_of(rt, call, &heap);
    let left = heap.left();
    let is_right = counted == Some(refusals) && left == 0;
    assert!(rt; is_right, "{refusals} are {counted:?}");
}

/// A call that gives a text, lines or rows, its text, and what it gives.
struct Given<'a>(Call<'a>, &'a str, &'a str);

impl Refusable for Given<'_> {
    fn is_right<R: Abort + AllocGlobal>(&self, _rt: &R, heap: &Heap) -> Found {
        gives(heap, self.0, self.1, self.2)
    }
}

/// A paragraph of several lines, and a short one.
const TEXT: &str = "To be, or not to be: that is the question\nHamlet";

/// The text with its indents, filled.
const FILLED: &str = "* To be,\n  or not\n  to be:\n  that\n  is the\n  question\n  Hamlet";

/// Paragraphs that need no indent.
const PARAGRAPHS: &str = "foo bar\né foo\nfoobarbaz";

/// Two indents of two columns.
const INDENTED: Layout<'_> = Layout {
    initial_indent: "* ",
    subsequent_indent: "  ",
    ..OPTIMAL_FIT
};

/// The same by first fit.
const INDENTED_FIRST_FIT: Layout<'_> = Layout {
    penalties: None,
    ..INDENTED
};

/// What the calls give, and how often they are refused.
#[rattlefmt::skip]
const ON_TEXTS: &[(Given<'_>, usize)] = &[
    // What gives lines.
    (Given(Wrap(10, INDENTED_FIRST_FIT), TEXT, "+* To be,|+  or not|+  to be:|+  that is|+  the|+  question|+  Hamlet|"), 11),
    // Without indents nothing is allocated but the list of lines.
    (Given(Wrap(5, FIRST_FIT), PARAGRAPHS, "foo|bar|é foo|fooba|rbaz|"), 2),
    (Given(Wrap(10, INDENTED), TEXT, "+* To be,|+  or not|+  to be:|+  that|+  is the|+  question|+  Hamlet|"), 21),
    (Given(Wrap(10, OPTIMAL_FIT), "foo", "foo|"), 1),
    // What fills.
    (Given(Fill(10, INDENTED), TEXT, FILLED), 13),
    (Given(Fill(10, OPTIMAL_FIT), "foo", "foo"), 1),
    // Without indents no list of all lines is needed.
    (Given(Fill(5, FIRST_FIT), PARAGRAPHS, "foo\nbar\né foo\nfooba\nrbaz"), 2),
    (Given(Fill(5, OPTIMAL_FIT), PARAGRAPHS, "foo\nbar\né foo\nfooba\nrbaz"), 14),
    (Given(FillSlowly(10, INDENTED), TEXT, FILLED), 31),
    // What indents, refills, makes columns or strips.
    (Given(Indent("    "), "foo\n\nbar\n", "    foo\n\n    bar\n"), 2),
    (Given(Dedent, "  foo\n    bar\n\n   baz\n", "foo\n  bar\n\n baz\n"), 1),
    (Given(Unfill(5, "* ", "  ", LineEnding::LF), "* foo\n  bar\n  baz\n", "foo bar baz\n"), 1),
    (Given(Refill(10, INDENTED), "* foo\n  bar\n", "* foo bar\n"), 7),
    (Given(Columns(2, 24, OPTIMAL_FIT, "|", "|", "|"), TEXT, "|To be,    |is the     |\n|or not to |question   |\n|be: that  |Hamlet     |\n"), 13),
    (Given(Strip, "To be, \x1b[1mor not to be", "To be, or not to be"), 3),
];

/// The words of `a-b-c foobar`.
const WORDS: [Word<'_>; 2] = [LETTERS, FOOBAR];

const LETTERS: Word<'_> = Word {
    word: "a-b-c",
    whitespace: " ",
    penalty: "",
    width: 5,
};

const FOOBAR: Word<'_> = Word {
    word: "foobar",
    whitespace: "",
    penalty: "",
    width: 6,
};

/// A word of two columns.
const TWO: Word<'_> = Word {
    word: "a-",
    width: 2,
    ..FOOBAR
};

/// A word of three.
const THREE: Word<'_> = Word {
    word: "bar",
    width: 3,
    ..FOOBAR
};

/// The pieces at the hyphens.
#[rattlefmt::skip]
const AT_HYPHENS: &[Word<'_>] = &[TWO, Word { word: "b-", ..TWO }, Word { word: "c", whitespace: " ", width: 1, ..FOOBAR }, FOOBAR];

/// The pieces at the points of a caller: there `foo` gets a hyphen if it ends its line.
#[rattlefmt::skip]
const IN_MIDDLE: &[Word<'_>] = &[LETTERS, Word { word: "foo", penalty: "-", ..THREE }, THREE];

/// A call on words.
enum OnWords {
    Break,
    FindAtCuts,
    FindAtOffsets,
    Hyphens,
    Points,
    SplitAtHyphens,
    SplitAtPoints,
}

impl Refusable for OnWords {
    fn is_right<R: Abort + AllocGlobal>(&self, rt: &R, heap: &Heap) -> Found {
        let alloc = rt.alloc();
        match self {
            OnWords::Break => has_words(plain_break(heap, &WORDS, 1), BROKEN),
            OnWords::FindAtCuts => {
                let separator = WordSeparator::Custom(LineCuts::new(alloc, cut_everywhere));
                has_words(plain_find_words(alloc, heap, separator, "abcde"), FIVE)
            }
            OnWords::FindAtOffsets => {
                let words = plain_find_words_at(rt, heap, "abcdef", &[1, 2, 3, 4, 5]);
                has_words(words, SIX)
            }
            OnWords::Hyphens => {
                let points = plain_points(heap, &WordSplitter::HyphenSplitter, "a-b-c-d-e-f");
                has_numbers(points, &[2, 4, 6, 8, 10])
            }
            OnWords::Points => {
                let splitter = WordSplitter::Custom(WordCuts::new(alloc, split_in_middle));
                has_numbers(plain_points(heap, &splitter, "foobar"), &[3])
            }
            OnWords::SplitAtHyphens => {
                let pieces = plain_split(heap, &WORDS, &WordSplitter::HyphenSplitter);
                are_pieces(pieces, AT_HYPHENS)
            }
            OnWords::SplitAtPoints => {
                let splitter = WordSplitter::Custom(WordCuts::new(alloc, split_in_middle));
                are_pieces(plain_split(heap, &WORDS, &splitter), IN_MIDDLE)
            }
        }
    }
}

/// The letters of the words.
const BROKEN: &[&str] = &["a", "-", "b", "-", "c ", "f", "o", "o", "b", "a", "r"];

const FIVE: &[&str] = &["a", "b", "c", "d", "e"];

const SIX: &[&str] = &["a", "b", "c", "d", "e", "f"];

/// Whether the pieces are these, also their penalties.
fn are_pieces(given: Result<Vec<Word<'_>, &Heap>, WrapError>, expected: &[Word<'_>]) -> Found {
    let pieces = given?;
    Ok(pieces.as_slice() == expected)
}

#[rattlefmt::skip]
const ON_WORDS: &[(OnWords, usize)] = &[
    (OnWords::Break, 3), (OnWords::FindAtCuts, 2), (OnWords::FindAtOffsets, 4), (OnWords::Hyphens, 2),
    (OnWords::Points, 1), (OnWords::SplitAtHyphens, 2), (OnWords::SplitAtPoints, 2),
];

/// A call that divides, or one that finds least costs.
enum OnLines {
    FirstFit,
    OptimalFitByQueue,
    OptimalFitByTable,
    /// By the algorithm of these penalties, or by first fit, six words.
    By(Option<Penalties>),
    ByEnds,
    NewCosts,
    Table,
    Queue,
}

/// A word of three columns and a blank, nine times.
#[rattlefmt::skip]
const NINE: [Word<'_>; 9] = [Word { word: "abc", whitespace: " ", penalty: "", width: 3 }; 9];

/// Widths by which the table is asked.
const WIDTHS: &[usize] = &[7, 3, 7];

/// The words on lines of 7 columns.
const TWO_ON_EACH: &[usize] = &[2, 2, 2, 2, 1];

/// The least costs of these words on lines of 7, 3 and again 7 columns.
#[rattlefmt::skip]
const BY_TABLE: &[(usize, u128)] = &[(0, 0), (0, 1016), (0, 1000), (2, 2000), (3, 3016), (3, 3000), (4, 4016), (5, 4000), (6, 5016), (7, 5000)];

/// Those on lines of 7 columns.
#[rattlefmt::skip]
const BY_QUEUE: &[(usize, u128)] = &[(0, 0), (0, 1016), (0, 1000), (1, 2016), (2, 2000), (3, 3016), (4, 3000), (5, 4016), (6, 4000), (8, 5000)];

impl Refusable for OnLines {
    fn is_right<R: Abort + AllocGlobal>(&self, rt: &R, heap: &Heap) -> Found {
        match self {
            OnLines::FirstFit => has_lens(plain_first_fit(heap, &NINE, &[7]), TWO_ON_EACH),
            OnLines::OptimalFitByQueue => {
                let lines = plain_optimal_fit(heap, &NINE, &[7], &PENALTIES);
                has_lens(lines, TWO_ON_EACH)
            }
            OnLines::OptimalFitByTable => {
                let (lines, _asked) = plain_optimal_fit_counted(heap, &NINE, WIDTHS, &PENALTIES);
                has_lens(lines, &[2, 1, 2, 2, 2])
            }
            OnLines::By(penalties) => divides(heap, algorithm_of(*penalties), &[1; 6]),
            OnLines::ByEnds => {
                let ends = LineEnds::new(rt.alloc(), end_all);
                divides(heap, WrapAlgorithm::Custom(ends), &[1, 2, 3])
            }
            OnLines::NewCosts => Ok(LineCosts::new(heap, &NINE, &[7, 5], &PENALTIES)?.ends() == 9),
            OnLines::Table => {
                let (minima, _asked) = plain_table(heap, &NINE, WIDTHS, &PENALTIES);
                has_minima(minima, BY_TABLE)
            }
            OnLines::Queue => {
                let (minima, _asked) = plain_queue(rt, heap, &NINE, &[7], &PENALTIES);
                has_minima(minima, BY_QUEUE)
            }
        }
    }
}

/// Whether six words are divided into lines of so many each by this algorithm.
fn divides(heap: &Heap, algorithm: WrapAlgorithm, lens: &[usize]) -> Found {
    has_lens(plain_divide(heap, algorithm, &NINE[..6], &[3]), lens)
}

#[rattlefmt::skip]
const ON_LINES: &[(OnLines, usize)] = &[
    (OnLines::FirstFit, 2), (OnLines::OptimalFitByQueue, 8), (OnLines::OptimalFitByTable, 10), (OnLines::By(None), 2),
    (OnLines::By(Some(PENALTIES)), 7), (OnLines::ByEnds, 1), (OnLines::NewCosts, 4), (OnLines::Table, 8),
    (OnLines::Queue, 6),
];

/// What finds, splits, breaks and divides words, or finds least costs, is out of memory wherever one of its
/// lists cannot grow.
#[test]
fn refused_words_and_divisions_are_no_others(rt: HostRuntime) {
    for (call, refusals) in ON_WORDS {
        assert_refused(&rt, call, *refusals);
    }
    for (call, refusals) in ON_LINES {
        assert_refused(&rt, call, *refusals);
    }
}

/// A call that gives lines, but not by options or to a list that a constant can hold.
enum OnOthers {
    /// By points of a caller, the one way that could overflow.
    WrapAtPoints,
    /// To a list that holds a line, with the shortcut or without.
    Append { slowly: bool },
}

impl Refusable for OnOthers {
    fn is_right<R: Abort + AllocGlobal>(&self, rt: &R, heap: &Heap) -> Found {
        match self {
            OnOthers::WrapAtPoints => {
                let points = WordCuts::new(rt.alloc(), split_in_middle);
                let options = Options {
                    word_splitter: WordSplitter::Custom(points),
                    ..options_of(7, &INDENTED)
                };
                let lines = plain_wrap(heap, "one foobar\nfo-bar foobar", options);
                has_lines(lines, "+* one|+  foo-|+  bar|+  fo-|+  bar|+  foo-|+  bar|")
            }
            OnOthers::Append { slowly } => appends(heap, *slowly),
        }
    }
}

/// A list that holds a line. Afterwards the heap allows what it allowed before.
fn list_of_one<'h>(heap: &'h Heap) -> Result<Vec<CowStr<'static, &'h Heap>, &'h Heap>, AllocError> {
    let allowed = heap.left();
    heap.allow(1);
    let mut lines = Vec::new(heap);
    lines.push(CowStr::Borrowed("x"))?;
    heap.allow(allowed);
    Ok(lines)
}

/// The first paragraph alone.
const PARAGRAPH: &str = "To be, or not to be: that is the question";

/// Its lines after another line.
const APPENDED: &str = "x|+  To be,|+  or not|+  to be:|+  that|+  is the|+  question|";

/// Whether the lines of a paragraph are appended to a list that holds a line. A refused call has to
/// leave that list as it was.
fn appends(heap: &Heap, slowly: bool) -> Found {
    let mut lines = list_of_one(heap)?;
    let options = options_of(10, &INDENTED);
    let appended = plain_append(heap, PARAGRAPH, &options, slowly, &mut lines);
    let expected = if appended.is_ok() { APPENDED } else { "x|" };
    let is_right = has_lines(Ok(lines), expected)?;
    if is_right {
        appended?;
    }
    Ok(is_right)
}

#[rattlefmt::skip]
const ON_OTHERS: &[(OnOthers, usize)] = &[(OnOthers::WrapAtPoints, 26), (OnOthers::Append { slowly: false }, 17), (OnOthers::Append { slowly: true }, 21)];

/// What gives a text, lines or rows is out of memory wherever one of its lists or texts cannot grow.
#[test]
fn refused_texts_and_lines_are_no_others(rt: HostRuntime) {
    for (call, refusals) in ON_TEXTS {
        assert_refused(&rt, call, *refusals);
    }
    for (call, refusals) in ON_OTHERS {
        assert_refused(&rt, call, *refusals);
    }
}

/// Whether the list can grow no more once it is full.
fn is_full_at_its_end(mut lines: Vec<CowStr<'_, &Heap>, &Heap>) -> Found {
    for _ in 0..lines.capacity().saturating_sub(lines.len()) {
        lines.push(CowStr::Borrowed("x"))?;
    }
    Ok(lines.push(CowStr::Borrowed("x")).is_err())
}

/// Appends the lines of a text to a list of a heap that allows one allocation. Whether it was made,
/// each line was allocated by the heap that was passed, and the list can grow no more.
fn is_lent(of_lines: &Heap, of_list: &Heap, slowly: bool) -> Found {
    let mut lines = Vec::new(of_list);
    let options = options_of(10, &INDENTED);
    plain_append(of_lines, TEXT, &options, slowly, &mut lines)?;
    let is_made = of_list.left() == 0;
    let are_allocated = of_lines.left() < 100_usize.saturating_sub(lines.len());
    Ok(is_full_at_its_end(lines)? && is_made && are_allocated)
}

/// Appended lines lie in the allocator that is passed, and the list stays in its own: it can grow no
/// more where that refuses.
#[test]
fn a_lent_list_keeps_its_allocator(rt: HostRuntime) {
    let alloc = rt.alloc();
    for slowly in [false, true] {
        let of_lines = Heap::new(alloc, 100);
        let of_list = Heap::new(alloc, 1);
        assert_found(&rt, slowly, is_lent(&of_lines, &of_list, slowly));
    }
}
