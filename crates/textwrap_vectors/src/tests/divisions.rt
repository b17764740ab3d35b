//! The division of fragments into lines.

use super::given::{Found, assert_found, assert_row, has_lens, have_lens};
use super::plain::{plain_first_fit, plain_optimal_fit, plain_optimal_fit_counted};
use super::texts::PENALTIES;
use std::alloc::{AllocError, AllocFailed, Global};
use std::fmt::Display;
use textwrap::WrapError;
use textwrap::words::{Fragment, Word};
use textwrap::wrap_algorithms::{OverflowError, Penalties};

/// A fragment with its width, its whitespace width and its penalty width.
#[derive(Clone, Copy, Debug)]
pub(super) struct Block(pub(super) usize, pub(super) usize, pub(super) usize);

impl Fragment for Block {
    ghost sizes = { λ block. record { width = block.0; whitespace = block.1; penalty = block.2 } };

    fn width(&self) -> usize {
        self.0
    }

    fn whitespace_width(&self) -> usize {
        self.1
    }

    fn penalty_width(&self) -> usize {
        self.2
    }

    fn break_penalty(&self, penalties: &Penalties) -> usize {
        penalties.usual_break_penalty(self.penalty_width())
    }
}

/// Fragments whose closed width falls: the fourth has none, and the third a penalty.
#[rattlefmt::skip]
pub(super) const FALLING: &[Block] = &[Block(10, 0, 0), Block(5, 0, 0), Block(5, 0, 5), Block(0, 0, 0), Block(10, 0, 0)];

/// Four fragments of five columns.
#[rattlefmt::skip]
const FIVES: &[Block] = &[Block(5, 0, 0), Block(5, 0, 0), Block(5, 0, 0), Block(5, 0, 0)];

const MAX: usize = usize::MAX;

/// Two of these cost more than 128 bits hold, where each column past the width costs the most.
const WIDEST: Block = Block(MAX, 0, 0);

/// The default penalties, but for the largest one on each column past the width.
pub(super) const STRICT: Penalties = Penalties {
    overflow_penalty: MAX,
    ..PENALTIES
};

/// The largest penalty on columns past the width, and no other.
const COLUMNS_ALONE: Penalties = Penalties {
    nline_penalty: 0,
    overflow_penalty: MAX,
    short_last_line_fraction: 0,
    short_last_line_penalty: 0,
    hyphen_penalty: 0,
};

/// The largest penalties.
const STRICTEST: Penalties = Penalties {
    nline_penalty: MAX,
    overflow_penalty: MAX,
    short_last_line_fraction: MAX,
    short_last_line_penalty: MAX,
    hyphen_penalty: MAX,
};

#[rattlefmt::skip]
const FIRST_FITS: &[(&[Block], &[usize], &[usize])] = &[
    (&[], &[10], &[0]),
    (&[], &[], &[0]),
    // All three close within the width, but the first two do not.
    (&[Block(5, 0, 0), Block(5, 0, 5), Block(0, 0, 0)], &[10], &[1, 2]),
    (&[Block(MAX, MAX, MAX), Block(MAX, MAX, MAX)], &[MAX], &[1, 1]),
    (FIVES, &[10], &[2, 2]),
    (FIVES, &[5, 10, 5], &[1, 2, 1]),
    (FIVES, &[10, 5], &[2, 1, 1]),
    (FIVES, &[], &[1, 1, 1, 1]),
    // At 0 and 1, only fragments that add nothing stand beside another.
    (&[Block(0, 0, 0), Block(0, 0, 0)], &[0], &[2]),
    (&[Block(1, 0, 0), Block(1, 0, 0)], &[0], &[1, 1]),
    (&[Block(1, 0, 0), Block(1, 0, 0)], &[1], &[1, 1]),
    (&[Block(1, 0, 0), Block(0, 0, 0)], &[1], &[2]),
    (&[Block(0, 1, 0), Block(0, 0, 0)], &[0], &[1, 1]),
    (&[Block(0, 1, 0), Block(0, 0, 0)], &[1], &[2]),
    (&[Block(0, 0, 1), Block(0, 0, 1)], &[0], &[1, 1]),
    (&[Block(0, 0, 1), Block(0, 0, 1)], &[1], &[2]),
    // A sum that is the greatest width fits it, and one above it does not come back to 0.
    (&[Block(MAX - 1, 0, 0), Block(1, 0, 0)], &[MAX], &[2]),
    (&[Block(MAX - 1, 0, 0), Block(1, 0, 0)], &[MAX - 1], &[1, 1]),
    (&[Block(MAX - 1, 1, 0), Block(0, 0, 0)], &[MAX], &[2]),
    (&[Block(MAX - 1, 1, 0), Block(0, 0, 0)], &[MAX - 1], &[1, 1]),
    (&[Block(MAX, 0, 0), Block(0, 0, 0)], &[MAX], &[2]),
    (&[Block(MAX, 0, 0), Block(1, 0, 0)], &[MAX], &[1, 1]),
    (&[Block(MAX, 0, 0), Block(0, 0, 1)], &[MAX], &[1, 1]),
    (&[Block(0, 0, MAX), Block(0, 0, MAX)], &[MAX], &[2]),
    (&[Block(0, 0, MAX), Block(0, 0, MAX)], &[MAX - 1], &[1, 1]),
    (&[Block(0, MAX, 0), Block(0, MAX, 0), Block(0, MAX, 0)], &[MAX], &[2, 1]),
    (&[Block(MAX, MAX, MAX), Block(MAX, MAX, MAX)], &[], &[1, 1]),
    (FIVES, &[0, MAX], &[1, 3]),
    (FIVES, &[MAX, 0], &[4]),
];

/// A line takes fragments while they fit, and its first in any case; the last line width serves all
/// later lines, and without any width it is 0.
#[test]
fn each_line_takes_what_fits(rt: HostRuntime) {
    for &(blocks, line_widths, lens) in FIRST_FITS {
        let lines = plain_first_fit(rt.alloc(), blocks, line_widths);
        assert_found(&rt, (blocks, line_widths), has_lens(lines, lens));
    }
}

/// A word of three columns and a blank.
const FOO: Word<'_> = Word {
    word: "foo",
    whitespace: " ",
    penalty: "",
    width: 3,
};

const BAR: Word<'_> = Word { word: "bar", ..FOO };

const BAZ: Word<'_> = Word {
    word: "baz",
    whitespace: "",
    ..FOO
};

/// The lines are slices of the list that was given.
#[test]
fn words_are_divided(rt: HostRuntime) {
    let lines = plain_first_fit(rt.alloc(), &[FOO, BAR, BAZ], &[10]).expect(&rt, "lines");
    let expected: [&[Word<'_>]; 2] = [&[FOO, BAR], &[BAZ]];
    assert!(rt; lines.as_slice() == expected.as_slice());
}

#[rattlefmt::skip]
const OPTIMAL_FITS: &[(&[Block], &[usize], &[usize])] = &[
    (&[], &[], &[0]),
    (&[Block(10, 0, 0)], &[10], &[1]),
    (&[Block(3, 1, 0), Block(50, 0, 0)], &[54], &[2]),
    // 3500 against 4500, and 6000 against 4401.
    (&[Block(3, 1, 0), Block(50, 0, 0)], &[53], &[2]),
    (&[Block(3, 1, 0), Block(50, 0, 0)], &[52], &[1, 1]),
    (FALLING, &[10], &[1, 3, 1]),
    // Line widths that differ after the second.
    (&[Block(5, 0, 0), Block(5, 0, 0), Block(20, 0, 0)], &[10, 5, 100], &[2, 1]),
    // A width of 0 is taken for one of 1.
    (&[Block(0, 0, 0), Block(0, 0, 0)], &[0], &[2]),
    (&[Block(0, 1, 0), Block(0, 0, 0)], &[0], &[2]),
    (&[Block(0, 0, 1), Block(0, 0, 1)], &[0], &[2]),
    (&[Block(1, 0, 0), Block(1, 0, 0)], &[0], &[1, 1]),
    (&[Block(1, 0, 0), Block(1, 0, 0)], &[1], &[1, 1]),
    // Sums, products and squares at the end of 64 bits and past it.
    (&[Block(MAX - 1, 0, 0), Block(1, 0, 0)], &[MAX], &[2]),
    (&[Block(MAX - 1, 0, 0), Block(1, 0, 0)], &[MAX - 1], &[1, 1]),
    (&[Block(MAX, 0, 0), Block(0, 0, 0)], &[MAX - 1], &[2]),
    (&[Block(MAX, 0, 0), Block(0, 0, 1)], &[MAX], &[1, 1]),
    (&[Block(0, 0, MAX), Block(0, 0, MAX)], &[MAX - 1], &[2]),
    (&[Block(0, MAX, 0), Block(0, MAX, 0), Block(0, MAX, 0)], &[MAX - 1], &[2, 1]),
    (&[Block(MAX, MAX, MAX), Block(MAX, MAX, MAX)], &[], &[1, 1]),
    (FIVES, &[0, MAX], &[1, 3]),
    (FIVES, &[MAX, 0], &[4]),
];

/// Each line costs 1000, a gap before a later line its square, and a column past the width 2500;
/// the sum decides, and a line may be wider than it should where that is cheaper.
#[test]
fn fragments_are_divided_at_least_cost(rt: HostRuntime) {
    for &(blocks, line_widths, lens) in OPTIMAL_FITS {
        let lines = plain_optimal_fit(rt.alloc(), blocks, line_widths, &PENALTIES);
        assert_found(&rt, (blocks, line_widths), has_lens(lines, lens));
    }
}

/// Whether the call gives one line, where the costs fit, and else is refused as one whose costs do
/// not; and whether it asks for so many line costs.
fn is_divided(
    alloc: Global,
    blocks: &[Block],
    width: usize,
    penalties: &Penalties,
    fits: bool,
    count: u128,
) -> bool {
    let (lines, asked) = plain_optimal_fit_counted(alloc, blocks, &[width], penalties);
    let is_as_expected = match lines {
        Ok(lines) => fits && have_lens(&lines, &[1]),
        Err(WrapError::Overflow(_)) => !fits,
        Err(WrapError::Memory(_)) => false,
    };
    is_as_expected && asked == count
}

const REFUSED_COSTS: &[(&[Block], usize, Penalties, bool, u128)] = &[
    (&[WIDEST], 0, STRICT, true, 1),
    (&[WIDEST, WIDEST], 0, STRICT, false, 3),
    (&[Block(MAX, 0, MAX), Block(0, 0, 0)], 0, STRICT, false, 1),
    // Each costs nearly 2^126, so that five of them are too much.
    (&[Block(1 << 62, 0, 0); 5], 0, COLUMNS_ALONE, false, 15),
    // The first costs 2^128 - 1, and one column more is too much.
    (&[Block(MAX, 0, 1)], 1, STRICTEST, true, 1),
    (&[Block(MAX, 0, 2)], 1, STRICTEST, false, 1),
    (&[Block(MAX, 0, MAX)], MAX, STRICTEST, true, 1),
    (&[Block(MAX, 0, MAX)], MAX - 1, STRICTEST, false, 1),
];

/// A least cost that does not fit 128 bits is refused, also that of a prefix; the line costs asked
/// for until then are counted.
#[test]
fn costs_past_128_bits_are_refused(rt: HostRuntime) {
    for (blocks, width, penalties, fits, count) in REFUSED_COSTS {
        let holds = is_divided(rt.alloc(), blocks, *width, penalties, *fits, *count);
        assert_row(&rt, *blocks, holds);
    }
}

/// The default penalties are the new ones.
#[test]
fn the_default_penalties_are_the_new_ones(rt: HostRuntime) {
    assert!(rt; Penalties::default() == PENALTIES);
    assert!(rt; Penalties::new() == PENALTIES);
}

/// Whether this is what an error says.
fn is_shown(alloc: Global, error: &impl Display, text: &str) -> Found {
    let shown = format!(in alloc; "{error}")?;
    Ok(shown.as_str() == text)
}

/// An error says what it is, and each failed allocation is out of memory.
#[test]
fn errors_have_their_texts(rt: HostRuntime) {
    let alloc = rt.alloc();
    let text = "wrap_optimal_fit cost computation overflowed";
    assert_found(&rt, "itself", is_shown(alloc, &OverflowError, text));
    let overflow = WrapError::Overflow(OverflowError);
    assert_found(&rt, "overflow", is_shown(alloc, &overflow, text));
    let memory = WrapError::Memory(AllocError);
    assert_found(&rt, "memory", is_shown(alloc, &memory, "out of memory"));
    let refused = WrapError::from(AllocFailed { value: "foo" });
    assert!(rt; matches!(refused, WrapError::Memory(_)));
    assert!(rt; matches!(WrapError::from(AllocError), WrapError::Memory(_)));
}
