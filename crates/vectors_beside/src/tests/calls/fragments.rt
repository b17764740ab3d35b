//! Fragments of the caller's own, divided into lines.
use super::places::{NO_OFFSET, OffsetsRow, assert_offsets};
use super::plain::{BEFORE, OffsetsCall};
use textwrap_calls::status::{DONE, OVERFLOW, TOO_SMALL, UNKNOWN_OPTIONS};
use textwrap_more_calls::fragments::{TextwrapFragment, TextwrapPenalties};

/// A fragment of 5.
const FIVE: TextwrapFragment = TextwrapFragment {
    width: 5,
    whitespace_width: 0,
    penalty_width: 0,
    break_penalty: 0,
};

/// A card of 4, with space after it.
const CARD: TextwrapFragment = TextwrapFragment {
    width: 4,
    whitespace_width: 1,
    ..FIVE
};

/// As wide as may be.
const WIDE: TextwrapFragment = TextwrapFragment {
    width: usize::MAX,
    ..FIVE
};

/// The library's default penalties.
pub(super) const PENALTIES: TextwrapPenalties = TextwrapPenalties {
    nline_penalty: 1000,
    overflow_penalty: 2500,
    short_last_line_fraction: 4,
    short_last_line_penalty: 25,
    reserved_sizes: [0; 4],
};

/// Lines take fragments while they fit, and no fragments are one empty line.
#[rattlefmt::skip]
const FIRST_FIT: &[OffsetsRow] = &[
    (OffsetsCall::FirstFit(&[FIVE, FIVE, FIVE, FIVE], &[10, 5]), (DONE, 3), &[2, 3, 4, NO_OFFSET]),
    (OffsetsCall::FirstFit(&[FIVE, FIVE, FIVE, FIVE], &[5]), (TOO_SMALL, 4), &[1, 2]),
    (OffsetsCall::FirstFit(&[], &[10]), (DONE, 1), &[0, NO_OFFSET, NO_OFFSET, NO_OFFSET]),
];

/// A break penalty moves a line end, widths that are too large overflow, and penalties that are not
/// known are refused before that.
#[rattlefmt::skip]
const OPTIMAL_FIT: &[OffsetsRow] = &[
    (OffsetsCall::OptimalFit(&[CARD, CARD, CARD], &[9], PENALTIES), (DONE, 2), &[2, 3, NO_OFFSET]),
    (OffsetsCall::OptimalFit(&[CARD, TextwrapFragment { break_penalty: 30, ..CARD }, CARD], &[9], PENALTIES), (DONE, 2), &[1, 3, NO_OFFSET]),
    (OffsetsCall::OptimalFit(&[WIDE, WIDE], &[0], TextwrapPenalties { overflow_penalty: usize::MAX, ..PENALTIES }),
        (OVERFLOW, BEFORE), &[NO_OFFSET, NO_OFFSET]),
    (OffsetsCall::OptimalFit(&[WIDE, WIDE], &[0], TextwrapPenalties { overflow_penalty: usize::MAX, reserved_sizes: [1, 0, 0, 0], ..PENALTIES }),
        (UNKNOWN_OPTIONS, BEFORE), &[NO_OFFSET, NO_OFFSET]),
];

#[test]
fn fragments_are_divided_by_first_fit_and_by_least_cost(rt: HostRuntime) {
    assert_offsets(&rt, FIRST_FIT);
    assert_offsets(&rt, OPTIMAL_FIT);
}
