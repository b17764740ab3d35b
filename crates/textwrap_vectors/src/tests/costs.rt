//! Costs of lines and divisions at the ends of the numbers.
use super::divisions::Block;
use super::given::{assert_found, assert_row, has_lens, has_minima};
use super::minima::{
    Candidate, LIMIT, all_penalties, assert_agreed, has_candidates, least_cost, penalties_of,
    searched,
};
use super::plain::{plain_is_queue_case, plain_optimal_fit, plain_table};
use std::process::Abort;
use textwrap::WrapError;
use textwrap::minima::Minimum;
use textwrap::wrap_algorithms::Penalties;

const MAX: usize = usize::MAX;

/// The greatest width as a cost.
const WIDEST: u128 = 18_446_744_073_709_551_615;

#[rattlefmt::skip]
const GREATEST_CANDIDATES: &[Candidate] = &[
    // The line closes at 2^64, or 2^64 - 1 above its width.
    (0, 1, 0, 0, Some(u128::MAX)),
    (0, 1, 0, 1, None),
    (0, 1, 0, u128::MAX, None),
    // One column above the width, and two: three and four times the greatest penalty.
    (0, 1, 1, 0, Some(55_340_232_221_128_654_845)),
    (0, 1, 1, u128::MAX - 55_340_232_221_128_654_845, Some(u128::MAX)),
    (0, 1, 1, u128::MAX - 55_340_232_221_128_654_844, None),
    (0, 1, 2, 0, Some(73_786_976_294_838_206_460)),
    (0, 1, MAX - 1, 0, Some(73_786_976_294_838_206_460)),
    (0, 1, MAX, 0, Some(73_786_976_294_838_206_460)),
    // A gap of one column, and one of the greatest width.
    (1, 2, 0, 0, Some(18_446_744_073_709_551_616)),
    (1, 2, 0, u128::MAX - 18_446_744_073_709_551_616, Some(u128::MAX)),
    (1, 2, 1, 0, Some(340_282_366_920_938_463_444_927_863_358_058_659_840)),
    (1, 2, 1, u128::MAX, None),
    // The last line closes at twice the greatest width, or three times.
    (2, 3, 1, 0, Some(u128::MAX)),
    (2, 3, 0, 0, None),
    (0, 3, 1, 0, None),
];

/// A candidate may cost 2^128 - 1 and no more, with what stands before it. Its line may have any
/// number, and each candidate that is asked for counts, also one that does not fit.
#[test]
fn candidates_reach_the_end_of_128_bits(rt: HostRuntime) {
    let blocks = [Block(MAX, 0, 1), Block(0, 0, 0), Block(MAX, MAX, MAX)];
    let penalties = all_penalties(MAX);
    let widths = [1, MAX, MAX - 1];
    let alloc = rt.alloc();
    let holds = has_candidates(alloc, &blocks, &widths, &penalties, GREATEST_CANDIDATES);
    assert_found(&rt, "candidates", holds);
}

/// What the search finds over line costs of these fragments.
fn found_by_search(
    rt: &(impl Abort + AllocGlobal),
    blocks: &[Block],
    line_widths: &[usize],
    penalties: &Penalties,
) -> Result<Vec<Minimum>, WrapError> {
    let (minima, _steps) = searched(rt, rt.alloc(), blocks, line_widths, penalties)?;
    Ok(minima)
}

/// Asserts that the fragments have these entries: by the table, and by the search where it may be
/// used.
fn assert_entries(
    rt: &(impl Abort + AllocGlobal),
    blocks: &[Block],
    line_widths: &[usize],
    penalties: &Penalties,
    expected: &[(usize, u128)],
) {
    let (minima, _asked) = plain_table(rt.alloc(), blocks, line_widths, penalties);
    assert_found(rt, blocks, has_minima(minima, expected));
    if plain_is_queue_case(blocks, line_widths, penalties) {
        assert_agreed(rt, blocks, line_widths, penalties);
        let minima = found_by_search(rt, blocks, line_widths, penalties);
        assert_found(rt, blocks, has_minima(minima, expected));
    }
}

#[rattlefmt::skip]
const TABLES_OF_ANY_NUMBERS: &[(&[Block], &[usize], usize, &[(usize, u128)], &[usize])] = &[
    // The least widths and penalties, all queue cases.
    (&[], &[], 0, &[(0, 0)], &[0]),
    (&[Block(0, 0, 0); 3], &[], 0, &[(0, 0), (0, 1), (0, 1), (0, 0)], &[3]),
    (&[Block(0, 0, 0); 3], &[0], 1, &[(0, 0), (0, 2), (0, 2), (0, 1)], &[3]),
    (&[Block(1, 1, 0); 3], &[0], 0, &[(0, 0), (0, 0), (0, 0), (0, 0)], &[3]),
    (&[Block(1, 1, 0); 3], &[1], 1, &[(0, 0), (0, 1), (1, 2), (2, 3)], &[1, 1, 1]),
    (&[Block(1, 1, 0); 3], &[3], 1, &[(0, 0), (0, 5), (0, 1), (0, 3)], &[3]),
    (&[Block(1, 0, 1); 2], &[1, 0], 1, &[(0, 0), (0, 3), (0, 4)], &[2]),
    // The greatest line width and penalties of a queue case, and the greatest widths: a tie.
    (&[Block(0, 0, 0); 2], &[LIMIT], LIMIT, &[(0, 0), (0, 21_267_647_932_558_653_971_072_598_982_912_901_120), (0, 4_611_686_018_427_387_904)], &[2]),
    (&[Block(LIMIT - 1, 0, 0), Block(1, 0, 0)], &[0], LIMIT,
        &[(0, 0), (0, 21_267_647_932_558_653_961_849_226_946_058_125_312), (0, 21_267_647_932_558_653_966_460_912_964_485_513_216)], &[2]),
    // The greatest line width.
    (&[Block(0, 0, 0)], &[MAX], MAX, &[(0, 0), (0, 2 * WIDEST)], &[1]),
    // The second as a line of its own would cost more than 2^128 - 1.
    (&[Block(0, 0, 0); 2], &[MAX], MAX, &[(0, 0), (0, 340_282_366_920_938_463_444_927_863_358_058_659_840), (0, WIDEST)], &[2]),
    (&[Block(0, 0, 0); 2], &[MAX - 1], MAX - 1, &[(0, 0), (0, 340_282_366_920_938_463_408_034_375_210_639_556_610), (0, WIDEST - 1)], &[2]),
    (&[Block(1, 0, 0); 2], &[MAX], 0, &[(0, 0), (0, 340_282_366_920_938_463_389_587_631_136_930_004_996), (0, 0)], &[2]),
    // The greatest widths, beside one another and past the line.
    (&[Block(MAX, 0, 1)], &[1], MAX, &[(0, 0), (0, u128::MAX)], &[1]),
    (&[Block(MAX, MAX, MAX)], &[MAX], MAX, &[(0, 0), (0, u128::MAX)], &[1]),
    (&[Block(MAX, 0, 0); 2], &[0], 0, &[(0, 0), (0, 0), (0, 0)], &[2]),
    (&[Block(MAX, 0, 0); 2], &[0], 1, &[(0, 0), (0, WIDEST), (0, 2 * WIDEST)], &[2]),
    (&[Block(MAX, 0, 0); 2], &[MAX - 1], MAX - 1, &[(0, 0), (0, 2 * WIDEST - 2), (1, 4 * WIDEST - 4)], &[1, 1]),
    (&[Block(MAX, 0, 0); 2], &[MAX], MAX, &[(0, 0), (0, WIDEST), (1, 2 * WIDEST)], &[1, 1]),
    (&[Block(MAX, MAX, MAX); 2], &[MAX], 1, &[(0, 0), (0, WIDEST + 2), (1, 2 * WIDEST + 4)], &[1, 1]),
    (&[Block(0, 0, MAX); 2], &[MAX - 1], 1, &[(0, 0), (0, 3), (0, 3)], &[2]),
];

/// Widths and penalties may be any numbers: sums past 64 bits are exact, and a candidate past 128
/// bits is passed over. The same number is each of the five penalties.
#[test]
fn widths_and_penalties_may_be_any_numbers(rt: HostRuntime) {
    for &(blocks, line_widths, each, expected, lens) in TABLES_OF_ANY_NUMBERS {
        let penalties = all_penalties(each);
        assert_entries(&rt, blocks, line_widths, &penalties, expected);
        let lines = plain_optimal_fit(rt.alloc(), blocks, line_widths, &penalties);
        assert_found(&rt, (blocks, line_widths), has_lens(lines, lens));
    }
}

const GREATEST_PENALTIES: &[([usize; 5], u128, u128)] = &[
    ([100, 10, 1, 7, 3], 110, 120),
    ([0, 10, 1, 7, 3], 10, 20),
    ([1, 10, 1, 7, 3], 11, 21),
    ([MAX - 1, 10, 1, 7, 3], WIDEST + 9, WIDEST + 19),
    ([MAX, 10, 1, 7, 3], WIDEST + 10, WIDEST + 20),
    ([100, 0, 1, 7, 3], 110, 100),
    ([100, 1, 1, 7, 3], 110, 102),
    ([100, MAX - 1, 1, 7, 3], 110, 2 * WIDEST + 98),
    ([100, MAX, 1, 7, 3], 110, 2 * WIDEST + 100),
    ([100, 10, 0, 7, 3], 110, 120),
    ([100, 10, 2, 7, 3], 103, 120),
    ([100, 10, MAX - 1, 7, 3], 103, 120),
    ([100, 10, MAX, 7, 3], 103, 120),
    ([100, 10, 1, 0, 3], 103, 120),
    ([100, 10, 1, 1, 3], 104, 120),
    ([100, 10, 1, MAX - 1, 3], WIDEST + 102, 120),
    ([100, 10, 1, MAX, 3], WIDEST + 103, 120),
    ([100, 10, 1, 7, 0], 107, 120),
    ([100, 10, 1, 7, 1], 108, 120),
    ([100, 10, 1, 7, MAX - 1], WIDEST + 106, 120),
    ([100, 10, 1, 7, MAX], WIDEST + 107, 120),
    ([MAX, MAX, 1, MAX, MAX], 3 * WIDEST, 3 * WIDEST),
];

/// Each penalty counts up to its end. A line of two columns with a hyphen costs that of a line, that
/// of a short last line where twice the fraction is below the width, and that of a hyphen. A line of
/// six columns costs that of a line, and twice that of a column past the width.
#[test]
fn each_penalty_counts_up_to_its_end(rt: HostRuntime) {
    for &(numbers, hyphened, wide) in GREATEST_PENALTIES {
        let penalties = penalties_of(numbers);
        let cost = least_cost(&rt, &[Block(1, 0, 1)], 4, &penalties);
        assert_row(&rt, (numbers, cost), cost == Some(hyphened));
        let cost = least_cost(&rt, &[Block(6, 0, 0)], 4, &penalties);
        assert_row(&rt, (numbers, cost), cost == Some(wide));
    }
}
