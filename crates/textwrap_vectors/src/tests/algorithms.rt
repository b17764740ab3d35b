//! The division of words into lines, by each algorithm.
ghost use Rattle.std.specs.Prelude.{IfOk};
ghost use Rattle.textwrap.specs.LineEnds.{AreEnds};

use super::divisions::STRICT;
use super::given::{Found, assert_found, assert_out_of_memory, has_lens, have_lens};
use super::plain::{plain_divide, plain_words};
use std::alloc::{AllocError, Global};
use std::process::Abort;
use textwrap::words::Word;
use textwrap::wrap_algorithms::{LineEnds, Penalties};
use textwrap::{WrapAlgorithm, WrapError};

const MAX: usize = usize::MAX;

/// Whether the algorithm divides the words of these texts into lines of so many each.
fn divides(
    alloc: Global,
    algorithm: WrapAlgorithm,
    texts: &[&str],
    line_widths: &[usize],
    lens: &[usize],
) -> Found {
    let words = plain_words(alloc, texts)?;
    let lines = plain_divide(alloc, algorithm, &words, line_widths)?;
    Ok(have_lens(&lines, lens))
}

#[rattlefmt::skip]
const HAMLET: &[&str] = &["To ", "be, ", "or ", "not ", "to ", "be: ", "that ", "is ", "the ", "question"];

/// Texts of words, the widths of their lines, and how many each line has: at the least cost, and by
/// first fit.
#[rattlefmt::skip]
const DIVIDED_TEXTS: &[(&[&str], &[usize], &[usize], &[usize])] = &[
    (&[], &[10], &[0], &[0]),
    (&["To ", "be, "], &[3], &[1, 1], &[1, 1]),
    (&["foo ", "bar"], &[3], &[1, 1], &[1, 1]),
    (&["foo ", "bar"], &[3, 3], &[1, 1], &[1, 1]),
    (HAMLET, &[10, 10], &[2, 3, 2, 2, 1], &[3, 3, 2, 1, 1]),
];

/// `WrapAlgorithm::wrap` divides words by first fit, or at the least cost.
#[test]
fn algorithms_divide_words(rt: HostRuntime) {
    let alloc = rt.alloc();
    for &(texts, line_widths, least, first) in DIVIDED_TEXTS {
        let divided = divides(alloc, WrapAlgorithm::new(), texts, line_widths, least);
        assert_found(&rt, texts, divided);
        let divided = divides(alloc, WrapAlgorithm::FirstFit, texts, line_widths, first);
        assert_found(&rt, texts, divided);
    }
}

/// A word of one column.
const WORD: Word<'_> = Word {
    word: "x",
    whitespace: "",
    penalty: "",
    width: 1,
};

/// The same with a blank after it.
const BLANK: Word<'_> = Word {
    whitespace: " ",
    ..WORD
};

/// The same with a hyphen, if it ends its line.
const HYPHENED: Word<'_> = Word {
    penalty: "-",
    ..WORD
};

/// Two words, each with the width that it is given, the width of the lines, and how many words each
/// line has.
#[rattlefmt::skip]
const DIVIDED_WORDS: &[(Word<'_>, usize, Word<'_>, usize, usize, &[usize])] = &[
    (WORD, 0, WORD, 0, 0, &[2]),
    (WORD, 1, WORD, 1, 0, &[1, 1]),
    (WORD, 1, WORD, 1, 1, &[1, 1]),
    (WORD, 1, WORD, 1, MAX - 1, &[2]),
    (WORD, 1, WORD, 1, MAX, &[2]),
    (WORD, MAX - 1, WORD, 1, MAX - 1, &[1, 1]),
    (WORD, MAX - 1, WORD, 1, MAX, &[2]),
    (BLANK, MAX - 1, WORD, 0, MAX - 1, &[1, 1]),
    (BLANK, MAX - 1, WORD, 0, MAX, &[2]),
    (WORD, MAX, WORD, 0, MAX, &[2]),
    (WORD, MAX, HYPHENED, 0, MAX, &[1, 1]),
    (WORD, MAX, WORD, MAX, MAX, &[1, 1]),
    (WORD, MAX, WORD, MAX, 0, &[1, 1]),
];

/// Asserts that an algorithm divides two words into lines of so many each.
fn assert_divided(
    rt: &(impl Abort + AllocGlobal),
    algorithm: WrapAlgorithm,
    words: [Word<'_>; 2],
    line_width: usize,
    lens: &[usize],
) {
    let lines = plain_divide(rt.alloc(), algorithm, &words, &[line_width]);
    assert_found(rt, (line_width, lens), has_lens(lines, lens));
}

/// Words of any field `width` are divided on lines of any width. In these rows both algorithms agree.
#[test]
fn words_of_any_width_are_divided(rt: HostRuntime) {
    for &(first, width, second, second_width, line_width, lens) in DIVIDED_WORDS {
        let first = Word { width, ..first };
        let width = second_width;
        let words = [first, Word { width, ..second }];
        assert_divided(&rt, WrapAlgorithm::FirstFit, words, line_width, lens);
        assert_divided(&rt, WrapAlgorithm::new(), words, line_width, lens);
    }
}

/// Takes the widths of the lines for their ends, but for those that fall or pass the words. Refuses
/// a single word.
fn widths_as_ends(
    alloc: Global,
    words: &[Word<'_>],
    line_widths: &[usize],
) -> Result<Vec<usize>, AllocError>
    ensures { IfOk result (λ ends. AreEnds words.now ends.items) }
{
    if words.len() == 1 {
        return Err(AllocError);
    }
    let mut ends = Vec::new(alloc);
    let mut last = 0;
    for end in line_widths {
        if *end >= last && *end <= words.len() {
            ends.push(*end)?;
            last = *end;
        }
    }
    Ok(ends)
}

/// Whether the words of these texts are divided so where the widths of the lines are their ends.
fn divides_at_widths(
    alloc: Global,
    texts: &[&str],
    line_widths: &[usize],
    lens: &[usize],
) -> Found {
    let algorithm = WrapAlgorithm::Custom(LineEnds::new(alloc, widths_as_ends));
    divides(alloc, algorithm, texts, line_widths, lens)
}

const NUMBERS: &[&str] = &["one ", "two ", "three ", "four ", "five ", "six"];

#[rattlefmt::skip]
const LINES_AT_ENDS: &[(&[usize], &[usize])] = &[(&[1, 3, 6], &[1, 2, 3]), (&[2, 2], &[2, 0]), (&[], &[]), (&[0, 6], &[0, 6]), (&[4, 3, 7, 5], &[4, 1])];

/// A function of the caller gets the words and the line widths, and its lines lie between its ends;
/// where it refuses, so does the call.
#[test]
fn lines_lie_between_the_ends_of_the_caller(rt: HostRuntime) {
    for &(line_widths, lens) in LINES_AT_ENDS {
        let divided = divides_at_widths(rt.alloc(), NUMBERS, line_widths, lens);
        assert_found(&rt, line_widths, divided);
    }
    let refused = divides_at_widths(rt.alloc(), &["one "], &[1], &[]);
    assert_out_of_memory(&rt, "one word", refused);
}

/// A word of the greatest width.
const WIDEST: Word<'_> = Word { width: MAX, ..WORD };

const TWO_WIDEST: [Word<'_>; 2] = [WIDEST; 2];

/// Words that are too wide for the costs are refused at the least cost alone: first fit has none.
#[test]
fn words_too_wide_for_128_bits_are_refused_by_cost_alone(rt: HostRuntime) {
    let strict = WrapAlgorithm::OptimalFit(STRICT);
    let refused = plain_divide(rt.alloc(), strict, &TWO_WIDEST, &[0]);
    assert!(rt; matches!(refused, Err(WrapError::Overflow(_))));
    assert_divided(&rt, WrapAlgorithm::FirstFit, TWO_WIDEST, 0, &[1, 1]);
}

/// Equal are first fit to itself, and optimal fit to itself at equal penalties.
#[test]
fn algorithms_are_equal_by_their_penalties(rt: HostRuntime) {
    let optimal = WrapAlgorithm::OptimalFit(Penalties::new());
    let are_right = [
        optimal == WrapAlgorithm::new(),
        WrapAlgorithm::default() == WrapAlgorithm::new_optimal_fit(),
        WrapAlgorithm::FirstFit == WrapAlgorithm::FirstFit,
        WrapAlgorithm::OptimalFit(STRICT) != optimal,
        WrapAlgorithm::FirstFit != optimal,
    ];
    assert!(rt; are_right == [true; 5]);
}
