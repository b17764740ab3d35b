//! Words, points and lines by functions of the caller.
ghost use Rattle.std.specs.Prelude.{IfOk};
ghost use Rattle.textwrap.specs.Cuts.{AreInnerCuts};

use super::given::{Found, assert_found, assert_out_of_memory, assert_row, has_lines};
use super::plain::{plain_append, plain_split, plain_wrap};
use super::texts::{Layout, OPTIMAL_FIT, options_of};
use crate::functions::{
    cut_everywhere, cut_foobar, cut_nowhere, end_all, end_early, end_nowhere, end_twice,
    refuse_line, refuse_word, refuse_words, split_in_middle,
};
use crate::heap::Heap;
use std::alloc::{AllocError, Global};
use std::borrow::CowStr;
use std::fmt::Debug;
use std::process::Abort;
use textwrap::word_separators::LineCuts;
use textwrap::word_splitters::WordCuts;
use textwrap::words::Word;
use textwrap::wrap_algorithms::LineEnds;
use textwrap::{Options, WordSeparator, WordSplitter, WrapAlgorithm, WrapError};

/// Words that are not broken.
const WHOLE_WORDS: Layout<'_> = Layout {
    break_words: false,
    ..OPTIMAL_FIT
};

/// Options of this width, cutting lines into words here.
fn cut_at<'a>(width: usize, layout: &Layout<'a>, line_cuts: LineCuts) -> Options<'a> {
    Options {
        word_separator: WordSeparator::Custom(line_cuts),
        ..options_of(width, layout)
    }
}

/// Options of this width, splitting words here.
fn split_at<'a>(width: usize, layout: &Layout<'a>, word_cuts: WordCuts) -> Options<'a> {
    Options {
        word_splitter: WordSplitter::Custom(word_cuts),
        ..options_of(width, layout)
    }
}

/// Options of this width, ending lines here.
fn ended_at<'a>(width: usize, layout: &Layout<'a>, line_ends: LineEnds) -> Options<'a> {
    Options {
        wrap_algorithm: WrapAlgorithm::Custom(line_ends),
        ..options_of(width, layout)
    }
}

/// Whether a text has these lines, as `given::are_lines` has them.
fn wraps(alloc: Global, text: &str, options: Options<'_>, expected: &str) -> Found {
    has_lines(plain_wrap(alloc, text, options), expected)
}

/// A text, a width and the lines.
type Rows<'a> = &'a [(&'a str, usize, &'a str)];

#[rattlefmt::skip]
const CUT_IN_MIDDLE: Rows<'_> = &[("foobar", 5, "foo|bar|"), ("foobar\nfoobaz", 5, "foo|bar|fooba|z|")];

const CUT_NOWHERE: Rows<'_> = &[("foo bar", 5, "foo b|ar|")];

#[rattlefmt::skip]
const CUT_EVERYWHERE: Rows<'_> = &[("añb", 1, "a|ñ|b|"), ("a안b", 2, "a|안|b|"), ("안 b", 3, "안| b|")];

/// Asserts that the texts have these lines if they are cut into words here.
fn assert_cut(rt: &(impl Abort + AllocGlobal), line_cuts: LineCuts, rows: Rows<'_>) {
    for &(text, width, expected) in rows {
        let options = cut_at(width, &OPTIMAL_FIT, line_cuts);
        assert_found(rt, text, wraps(rt.alloc(), text, options, expected));
    }
}

/// The words of a line are its parts between the cuts of the caller.
#[test]
fn a_line_is_cut_where_the_function_says(rt: HostRuntime) {
    let alloc = rt.alloc();
    assert_cut(&rt, LineCuts::new(alloc, cut_foobar), CUT_IN_MIDDLE);
    assert_cut(&rt, LineCuts::new(alloc, cut_nowhere), CUT_NOWHERE);
    assert_cut(&rt, LineCuts::new(alloc, cut_everywhere), CUT_EVERYWHERE);
}

/// The texts and the penalties of pieces.
const SPLIT_IN_MIDDLE: &[(&str, &str)] = &[("fo-", ""), ("bar", ""), ("foo", "-"), ("bar  ", "")];

/// Whether the pieces have these texts and penalties.
fn are_pieces(pieces: &[Word<'_>], expected: &[(&str, &str)]) -> bool {
    for (piece, &(text, penalty)) in pieces.iter().zip(expected) {
        let expected = Word {
            penalty,
            ..Word::from(text)
        };
        if *piece != expected {
            return false;
        }
    }
    pieces.len() == expected.len()
}

/// The pieces of a word lie between the points of the caller, with a hyphen as penalty where the
/// word has none.
#[test]
fn a_word_is_split_where_the_function_says(rt: HostRuntime) {
    let alloc = rt.alloc();
    let splitter = WordSplitter::Custom(WordCuts::new(alloc, split_in_middle));
    let words = [Word::from("fo-bar"), Word::from("foobar  ")];
    let pieces = plain_split(alloc, &words, &splitter).expect(&rt, "pieces");
    assert_row(&rt, "foobar", are_pieces(&pieces, SPLIT_IN_MIDDLE));
}

#[rattlefmt::skip]
const HYPHENED: Rows<'_> = &[("foobar", 4, "+foo-|bar|"), ("fo-bar", 4, "fo-|bar|"), ("foobar", 6, "foobar|")];

/// A line that ends at a point of the caller shows the hyphen, and is no slice of the text then.
#[test]
fn a_split_word_has_a_hyphen_at_the_end_of_its_line(rt: HostRuntime) {
    let alloc = rt.alloc();
    let in_middle = WordCuts::new(alloc, split_in_middle);
    for &(text, width, expected) in HYPHENED {
        let options = split_at(width, &OPTIMAL_FIT, in_middle);
        assert_found(&rt, text, wraps(alloc, text, options, expected));
    }
}

/// Asserts that a text of six words has these lines if they end here.
fn assert_ended(rt: &(impl Abort + AllocGlobal), line_ends: LineEnds, expected: &str) {
    let text = "First, second, third, fourth, fifth, sixth";
    let options = ended_at(10, &OPTIMAL_FIT, line_ends);
    let holds = wraps(rt.alloc(), text, options, expected);
    assert_found(rt, expected, holds);
}

const ENDED_ALL: &str = "First,|second, third,|fourth, fifth, sixth|";

const ENDED_EARLY: &str = "First,|second, third,|";

const ENDED_TWICE: &str = "First,||second, third, fourth, fifth, sixth|";

/// The lines end where the caller says; words after the last end are lost, and equal ends make an
/// empty line.
#[test]
fn lines_end_where_the_function_says(rt: HostRuntime) {
    let alloc = rt.alloc();
    assert_ended(&rt, LineEnds::new(alloc, end_all), ENDED_ALL);
    assert_ended(&rt, LineEnds::new(alloc, end_early), ENDED_EARLY);
    assert_ended(&rt, LineEnds::new(alloc, end_nowhere), "");
    assert_ended(&rt, LineEnds::new(alloc, end_twice), ENDED_TWICE);
}

/// Whether a list of the line `x` is as it was after `baz` has been refused.
fn keeps_lines(alloc: Global, options: &Options<'_>) -> Found {
    let mut lines = Vec::new(alloc);
    lines.push(CowStr::Borrowed("x"))?;
    let refused = plain_append(alloc, "baz", options, true, &mut lines);
    let is_refused = matches!(refused, Err(WrapError::Memory(_)));
    Ok(is_refused & has_lines(Ok(lines), "x|")?)
}

const REFUSED: &[&str] = &["baz", "foo\nbaz"];

/// Asserts that with these options `baz` is refused, alone, after another paragraph, and where a
/// list of lines is lent, and that other words are not.
fn assert_refuses_baz(rt: &(impl Abort + AllocGlobal), options: Options<'_>) {
    for &text in REFUSED {
        let refused = wraps(rt.alloc(), text, Options::from(&options), "");
        assert_out_of_memory(rt, text, refused);
    }
    assert_found(rt, "baz after x", keeps_lines(rt.alloc(), &options));
    let text = "foo\nbar";
    assert_found(rt, text, wraps(rt.alloc(), text, options, "foo|bar|"));
}

/// Where a function of the caller is out of memory, so is the call, and what was lent stays as it
/// was.
#[test]
fn a_function_may_refuse(rt: HostRuntime) {
    let alloc = rt.alloc();
    let cuts = LineCuts::new(alloc, refuse_line);
    assert_refuses_baz(&rt, cut_at(2, &WHOLE_WORDS, cuts));
    let points = WordCuts::new(alloc, refuse_word);
    assert_refuses_baz(&rt, split_at(2, &WHOLE_WORDS, points));
    let ends = LineEnds::new(alloc, refuse_words);
    assert_refuses_baz(&rt, ended_at(2, &WHOLE_WORDS, ends));
}

/// Refuses each line that has a character.
fn refuse_each(alloc: Global, line: &str) -> Result<Vec<usize>, AllocError>
    ensures { IfOk result (λ cuts. AreInnerCuts line.now cuts.items) }
{
    if line.is_empty() {
        return cut_nowhere(alloc, line);
    }
    Err(AllocError)
}

/// Notes each line in a list of its own, which cannot grow, and cuts no line.
fn grow_refused(alloc: Global, line: &str) -> Result<Vec<usize>, AllocError>
    ensures { IfOk result (λ cuts. AreInnerCuts line.now cuts.items) }
{
    let heap = Heap::new(alloc, 0);
    let mut lens = Vec::new(&heap);
    lens.push(line.len())?;
    cut_nowhere(alloc, line)
}

/// A call is out of memory too where a function of the caller says at once that it is, and where a
/// list that the function makes for itself cannot grow.
#[test]
fn a_refusal_is_passed_on(rt: HostRuntime) {
    let alloc = rt.alloc();
    let refused = LineCuts::new(alloc, refuse_each);
    let stuck = LineCuts::new(alloc, grow_refused);
    for cuts in [refused, stuck] {
        let options = cut_at(5, &OPTIMAL_FIT, cuts);
        let given = wraps(alloc, "foobar", options, "");
        assert_out_of_memory(&rt, "foobar", given);
    }
}

/// Whether a part that holds a function equals nothing, not even itself, on either side of built-in
/// parts, of which the first equals itself.
fn equals_nothing<T: PartialEq>(custom: &T, first: &T, second: &T) -> bool {
    *custom != *custom && *custom != *first && *second != *custom && *first == *first
}

/// A function of the caller equals nothing, not even itself. Parts that are built in equal themselves.
#[test]
fn only_built_in_parts_are_equal(rt: HostRuntime) {
    let alloc = rt.alloc();
    let cuts = WordSeparator::Custom(LineCuts::new(alloc, cut_nowhere));
    let blanks = WordSeparator::AsciiSpace;
    assert_row(&rt, "separators", equals_nothing(&cuts, &blanks, &blanks));
    let points = WordSplitter::Custom(WordCuts::new(alloc, split_in_middle));
    let hyphens = WordSplitter::HyphenSplitter;
    let none = WordSplitter::NoHyphenation;
    assert_row(&rt, "splitters", equals_nothing(&points, &hyphens, &none));
    let ends = WrapAlgorithm::Custom(LineEnds::new(alloc, end_all));
    let first_fit = WrapAlgorithm::FirstFit;
    let least_cost = WrapAlgorithm::new();
    let holds = equals_nothing(&ends, &first_fit, &least_cost);
    assert_row(&rt, "algorithms", holds);
}

/// Whether the debug text of a value is this one.
fn is_shown(alloc: Global, value: &impl Debug, expected: &str) -> Found {
    let shown = format!(in alloc; "{value:?}")?;
    Ok(shown.as_str() == expected)
}

/// A debug text shows the type alone.
#[test]
fn functions_are_shown_by_their_types(rt: HostRuntime) {
    let alloc = rt.alloc();
    let cuts = LineCuts::new(alloc, cut_nowhere);
    assert_found(&rt, "cuts", is_shown(alloc, &cuts, "LineCuts"));
    let points = WordCuts::new(alloc, split_in_middle);
    assert_found(&rt, "points", is_shown(alloc, &points, "WordCuts"));
    let ends = LineEnds::new(alloc, end_all);
    assert_found(&rt, "ends", is_shown(alloc, &ends, "LineEnds"));
}
