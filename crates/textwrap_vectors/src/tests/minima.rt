//! The table of least costs, the search for the same by a queue, the line costs that they ask for,
//! and the queue case.
use super::divisions::{Block, FALLING};
use super::given::{Found, assert_found, assert_out_of_memory, assert_row, has_minima};
use super::plain::{plain_is_queue_case, plain_optimal_fit_counted, plain_queue, plain_table};
use crate::heap::Heap;
use std::alloc::{AllocError, Allocator, Global};
use std::process::Abort;
use textwrap::WrapError;
use textwrap::minima::{
    CostSource, LineCosts, Minimum, Steps, is_queue_case, queue_search, table_minima,
};
use textwrap::words::Fragment;
use textwrap::wrap_algorithms::Penalties;

#[rattlefmt::skip]
const TABLES: &[(&[Block], &[usize], usize, &[(usize, u128)], u128)] = &[
    (&[Block(10, 0, 0)], &[10], 4, &[(0, 0), (0, 1000)], 1),
    (&[Block(10, 0, 0)], &[10], 0, &[(0, 0), (0, 1025)], 1),
    (FALLING, &[10], 4, &[(0, 0), (0, 1000), (1, 2025), (2, 3050), (1, 2000), (4, 3000)], 15),
    (&[Block(5, 0, 0), Block(5, 0, 0), Block(20, 0, 0)], &[10, 5, 100], 4, &[(0, 0), (0, 1025), (0, 1000), (2, 39500)], 6),
];

/// Entry j of the table is the least cost of the first j fragments, and the earliest start of a
/// last line that reaches it. A table of n fragments asks for n(n + 1)/2 line costs.
#[test]
fn tables_have_the_least_costs_and_the_earliest_starts(rt: HostRuntime) {
    for &(blocks, line_widths, fraction, expected, count) in TABLES {
        let penalties = Penalties {
            short_last_line_fraction: fraction,
            ..Penalties::new()
        };
        let (minima, asked) = plain_table(rt.alloc(), blocks, line_widths, &penalties);
        assert_row(&rt, blocks, asked == count);
        assert_found(&rt, blocks, has_minima(minima, expected));
    }
}

/// The least cost of all fragments: that of the last prefix.
pub(super) fn least_cost<T: Fragment>(
    rt: &(impl Abort + AllocGlobal),
    fragments: &[T],
    line_width: usize,
    penalties: &Penalties,
) -> Option<u128> {
    let (minima, _asked) = plain_table(rt.alloc(), fragments, &[line_width], penalties);
    Some(minima.expect(rt, "memory").last()?.cost)
}

/// Where a line starts and ends, its number, what stands before it, and what the candidate costs.
pub(super) type Candidate = (usize, usize, usize, u128, Option<u128>);

/// Whether these line costs have these candidates, of which each counts as one step.
fn are_candidates(costs: &mut LineCosts<Global>, candidates: &[Candidate]) -> bool {
    for (asked, &(start, end, line_number, before, expected)) in candidates.iter().enumerate() {
        if start >= end || end > costs.ends() {
            return false;
        }
        let candidate = costs.candidate(start, end, line_number, before);
        if candidate != expected || costs.steps() != asked as u128 + 1 {
            return false;
        }
    }
    true
}

/// Whether the line costs of these fragments have these candidates, and each that is asked for
/// counts.
pub(super) fn has_candidates(
    alloc: Global,
    blocks: &[Block],
    line_widths: &[usize],
    penalties: &Penalties,
    candidates: &[Candidate],
) -> Found {
    let mut costs = LineCosts::new(alloc, blocks, line_widths, penalties)?;
    let is_new = costs.steps() == 0 && costs.ends() == blocks.len();
    Ok(is_new && are_candidates(&mut costs, candidates))
}

#[rattlefmt::skip]
const CANDIDATES: &[Candidate] = &[
    (0, 1, 0, 0, Some(1000)), (0, 2, 0, 0, Some(13500)), (1, 2, 1, 1000, Some(2025)), (0, 3, 0, 0, Some(38525)),
    (1, 3, 1, 1000, Some(14525)), (2, 3, 2, 2025, Some(3050)), (0, 4, 0, 0, Some(26000)), (1, 4, 1, 1000, Some(2000)),
    (2, 4, 2, 2025, Some(3050)), (3, 4, 3, 3050, Some(4150)), (3, 5, 3, 3050, Some(4050)), (4, 5, 2, 2000, Some(3000)),
    (1, 3, 1, u128::MAX, None),
];

/// A candidate is what stands before a line and the cost of the line, and each that is asked for
/// counts.
#[test]
fn a_source_counts_what_it_is_asked(rt: HostRuntime) {
    let holds = has_candidates(rt.alloc(), FALLING, &[10], &Penalties::new(), CANDIDATES);
    assert_found(&rt, "candidates", holds);
}

#[rattlefmt::skip]
const COUNTS: &[(u128, u128, u128, u128)] = &[
    (0, 0, 0, 3), (0, 1, 1, 4), (1, 0, 1, 4), (0, u128::MAX, u128::MAX, u128::MAX),
    (1, u128::MAX - 1, u128::MAX, u128::MAX), (1, u128::MAX, u128::MAX, u128::MAX),
    (u128::MAX - 4, 0, u128::MAX - 4, u128::MAX - 1), (u128::MAX - 1, 0, u128::MAX - 1, u128::MAX),
    (u128::MAX - 1, 1, u128::MAX, u128::MAX), (u128::MAX - 1, 2, u128::MAX, u128::MAX),
    (u128::MAX, 0, u128::MAX, u128::MAX), (u128::MAX, u128::MAX, u128::MAX, u128::MAX),
];

/// The count to which this much and more was added, and the count after a table that went on with it.
/// A table of two fragments takes three steps.
fn counts_of(rt: &(impl Abort + AllocGlobal), count: u128, more: u128) -> (u128, u128) {
    let blocks = [Block(1, 0, 0), Block(1, 0, 0)];
    let mut steps = Steps::new();
    steps.add(count);
    steps.add(more);
    let before = steps.count();
    let table = table_minima(rt.alloc(), &blocks, &[10], &Penalties::new(), &mut steps);
    assert!(rt; table.is_ok());
    (before, steps.count())
}

/// A count that reaches the largest number stays there, also where a table goes on with it.
#[test]
fn a_count_stays_at_its_end(rt: HostRuntime) {
    for &(count, more, expected, after_table) in COUNTS {
        let counts = counts_of(&rt, count, more);
        assert_row(&rt, (count, more), counts == (expected, after_table));
    }
}

/// The greatest number of a queue case.
pub(super) const LIMIT: usize = 1 << 62;

const CASES_BY_WIDTHS: &[(&[Block], &[usize], bool)] = &[
    (&[], &[], true),
    (&[Block(5, 0, 0), Block(5, 0, 0)], &[10, 20], true),
    (&[Block(5, 0, 0), Block(5, 0, 0)], &[10, 20, 20], true),
    (&[Block(5, 0, 0), Block(5, 0, 0)], &[10, 20, 30], false),
    (&[Block(5, 0, 0), Block(5, 0, 0)], &[20, 10, 10, 20], false),
    // Two of them close at 5, and the first alone at 10.
    (&[Block(5, 0, 5), Block(0, 0, 0)], &[10], false),
    // Here both close at 10 too.
    (&[Block(5, 0, 5), Block(5, 0, 0)], &[10], true),
    (&[Block(5, 5, 5), Block(0, 0, 0)], &[10], true),
    (&[Block(5, 0, 5), Block(0, 0, 5)], &[10], true),
    (FALLING, &[10], false),
    (&[Block(1, 0, 0)], &[LIMIT], true),
    (&[Block(1, 0, 0)], &[LIMIT + 1], false),
    (&[Block(1, 0, 0)], &[10, LIMIT + 1], false),
    (&[Block(LIMIT - 2, 0, 0), Block(0, 1, 1)], &[10], true),
    (&[Block(LIMIT - 2, 0, 0), Block(1, 1, 1)], &[10], false),
    (&[Block(0, usize::MAX, 0)], &[10], false),
    // The least widths, and the greatest: a sum of them does not come back to 0.
    (&[Block(0, 0, 0)], &[0], true),
    (&[Block(1, 1, 1), Block(0, 0, 0)], &[1], true),
    (&[Block(1, 0, 0)], &[usize::MAX - 1], false),
    (&[Block(1, 0, 0)], &[usize::MAX], false),
    (&[Block(1, 0, 0)], &[10, usize::MAX], false),
    (&[], &[usize::MAX], false),
    (&[Block(usize::MAX - 1, 0, 0)], &[10], false),
    (&[Block(usize::MAX, 1, 0)], &[10], false),
    (&[Block(0, 0, usize::MAX), Block(1, 0, 0)], &[10], false),
];

/// These penalties, in the order of the fields.
pub(super) fn penalties_of(numbers: [usize; 5]) -> Penalties {
    Penalties {
        nline_penalty: numbers[0],
        overflow_penalty: numbers[1],
        short_last_line_fraction: numbers[2],
        short_last_line_penalty: numbers[3],
        hyphen_penalty: numbers[4],
    }
}

#[rattlefmt::skip]
const CASES_BY_PENALTIES: &[([usize; 5], bool)] = &[
    ([0, 0, 0, 0, 0], true), ([1, 1, 1, 1, 1], true), ([LIMIT, LIMIT, LIMIT, LIMIT, LIMIT], true),
    ([LIMIT + 1, 2500, 4, 25, 25], false), ([1000, LIMIT + 1, 4, 25, 25], false),
    ([1000, 2500, LIMIT + 1, 25, 25], false), ([1000, 2500, 4, LIMIT + 1, 25], false),
    ([1000, 2500, 4, 25, LIMIT + 1], false), ([usize::MAX, 2500, 4, 25, 25], false),
    ([1000, 2500, 4, 25, usize::MAX - 1], false),
];

/// In a queue case all line widths from the second on are the same, closed widths never fall, and
/// neither a line width nor the sum of all widths passes 2^62. Each penalty may be 2^62, and none may
/// be more.
#[test]
fn queue_cases_are_told_by_their_numbers(rt: HostRuntime) {
    for &(blocks, line_widths, expected) in CASES_BY_WIDTHS {
        let is_case = plain_is_queue_case(blocks, line_widths, &Penalties::new());
        assert_row(&rt, (blocks, line_widths), is_case == expected);
    }
    for &(numbers, expected) in CASES_BY_PENALTIES {
        let is_case = plain_is_queue_case(&[Block(1, 0, 0)], &[10], &penalties_of(numbers));
        assert_row(&rt, numbers, is_case == expected);
    }
}

/// Whether two calls gave the same minima.
fn are_same(
    first: Result<Vec<Minimum>, WrapError>,
    second: Result<Vec<Minimum>, WrapError>,
) -> Found {
    let first = first?;
    let second = second?;
    Ok(first.as_slice() == second.as_slice())
}

/// Asserts that these are a queue case, in which the search gives the list of the table: each start
/// and each cost.
pub(super) fn assert_agreed<T: Fragment>(
    rt: &(impl Abort + AllocGlobal),
    fragments: &[T],
    line_widths: &[usize],
    penalties: &Penalties,
) {
    let (table, _asked) = plain_table(rt.alloc(), fragments, line_widths, penalties);
    let (minima, _asked) = plain_queue(rt, rt.alloc(), fragments, line_widths, penalties);
    assert_found(rt, line_widths, are_same(minima, table));
}

/// A fragment of the state of a small generator: each width is drawn up to its mask, and the first
/// raised.
fn drawn_block(state: u64, masks: [usize; 3], raised: usize) -> Block {
    let drawn = (state >> 32) as usize;
    let [width, whitespace, penalty] = masks;
    Block(
        (drawn & width).saturating_add(raised),
        (drawn >> 8) & whitespace,
        (drawn >> 16) & penalty,
    )
}

/// Fragments of a small generator.
pub(super) fn drawn_blocks(
    alloc: Global,
    seed: u64,
    count: usize,
    masks: [usize; 3],
    raised: usize,
) -> Result<Vec<Block>, AllocError> {
    let mut blocks = Vec::new(alloc);
    let mut state = seed;
    for _ in 0..count {
        state = state
            .wrapping_mul(6_364_136_223_846_793_005)
            .wrapping_add(1_442_695_040_888_963_407);
        blocks.push(drawn_block(state, masks, raised))?;
    }
    Ok(blocks)
}

/// The same number for each penalty.
pub(super) fn all_penalties(each: usize) -> Penalties {
    penalties_of([each; 5])
}

#[rattlefmt::skip]
const MASKS: &[([usize; 3], usize)] = &[([7, 1, 1], 1), ([15, 0, 1], 1), ([0, 0, 0], 3), ([0, 0, 0], 0), ([3, 1, 0], 0)];

const WIDTHS: &[&[usize]] = &[&[80], &[20], &[5, 20], &[20, 5], &[0, 9], &[], &[7, 7, 7]];

/// Asserts that the search and the table agree on these fragments, whatever the line widths.
fn assert_agreed_at_all(rt: &(impl Abort + AllocGlobal), blocks: &[Block], penalties: &Penalties) {
    for line_widths in WIDTHS {
        assert_agreed(rt, blocks, line_widths, penalties);
    }
}

/// Asserts that the search and the table agree on so many fragments with these masks.
fn assert_agreed_on_drawn(
    rt: &(impl Abort + AllocGlobal),
    count: usize,
    masks: [usize; 3],
    raised: usize,
) {
    let blocks = drawn_blocks(rt.alloc(), 7, count, masks, raised).expect(rt, "blocks");
    assert_agreed_at_all(rt, &blocks, &Penalties::new());
    assert_agreed_at_all(rt, &blocks, &all_penalties(0));
    assert_agreed_at_all(rt, &blocks, &all_penalties(LIMIT));
}

/// In the queue case the search gives the list of the table, ties included, whatever the first line
/// width.
#[test]
fn the_search_agrees_with_the_table(rt: HostRuntime) {
    for count in [0, 1, 2, 3, 4, 40] {
        for &(masks, raised) in MASKS {
            assert_agreed_on_drawn(&rt, count, masks, raised);
        }
    }
}

/// What the search finds over line costs of these fragments, which are a queue case, and its steps.
/// The list of what it finds, and no other, is allocated by `alloc`.
pub(super) fn searched<A: Allocator + Copy>(
    rt: &(impl Abort + AllocGlobal),
    alloc: A,
    blocks: &[Block],
    line_widths: &[usize],
    penalties: &Penalties,
) -> Result<(Vec<Minimum, A>, u128), WrapError> {
    assert!(rt; is_queue_case(blocks, line_widths, penalties));
    let mut costs = LineCosts::new(rt.alloc(), blocks, line_widths, penalties)?;
    let minima = queue_search(alloc, &mut costs)?;
    Ok((minima, costs.steps()))
}

/// Nine fragments of three columns and a blank.
const NINE: [Block; 9] = [Block(3, 1, 0); 9];

/// Whether the search finds ten minima for nine fragments.
fn finds_ten(rt: &(impl Abort + AllocGlobal), heap: &Heap) -> Found {
    let (minima, _steps) = searched(rt, heap, &NINE, &[7], &Penalties::new())?;
    Ok(minima.len() == 10)
}

/// The search is out of memory where either of its lists is refused: the one of what it finds, and
/// the one of its stretches.
#[test]
fn a_refused_search_finds_nothing_else(rt: HostRuntime) {
    let heap = Heap::new(rt.alloc(), 0);
    for allowed in 0..2 {
        heap.allow(allowed);
        assert_out_of_memory(&rt, allowed, finds_ten(&rt, &heap));
    }
    heap.allow(2);
    assert_found(&rt, "allowed", finds_ten(&rt, &heap));
    assert_row(&rt, "left", heap.left() == 0);
}

/// Whether the search is asked, or the table, how many allocations are allowed, and the line costs that
/// were asked for when the next was refused. The first are made before any is asked for.
#[rattlefmt::skip]
const STEPS_UNTIL_REFUSED: &[(bool, usize, u128)] = &[
    (false, 0, 0), (false, 1, 0), (false, 2, 0), (false, 3, 0), (false, 4, 0), (false, 5, 10), (false, 6, 36),
    (false, 7, 45), (true, 0, 0), (true, 1, 0), (true, 2, 0), (true, 3, 0), (true, 4, 0), (true, 5, 1),
];

/// The line costs that the search or the table asked for until it was refused.
fn steps_until_refused(rt: &impl Abort, heap: &Heap, by_search: bool) -> Option<u128> {
    let (minima, asked) = if by_search {
        plain_queue(rt, heap, &NINE, &[7], &Penalties::new())
    } else {
        plain_table(heap, &NINE, &[7, 3, 7], &Penalties::new())
    };
    minima.is_err().then_some(asked)
}

/// Where memory runs out, the line costs that were asked for until then have been counted.
#[test]
fn steps_are_counted_until_memory_runs_out(rt: HostRuntime) {
    let heap = Heap::new(rt.alloc(), 0);
    for &(by_search, allowed, expected) in STEPS_UNTIL_REFUSED {
        heap.allow(allowed);
        let asked = steps_until_refused(&rt, &heap, by_search);
        assert_row(&rt, (by_search, allowed), asked == Some(expected));
    }
}

/// The line costs that the search or the table asks for, on lines of 80, if it gives these minima.
fn steps_for(
    rt: &(impl Abort + AllocGlobal),
    blocks: &[Block],
    minima: &[Minimum],
    by_search: bool,
) -> Option<u128> {
    let (found, asked) = if by_search {
        plain_queue(rt, rt.alloc(), blocks, &[80], &Penalties::new())
    } else {
        plain_table(rt.alloc(), blocks, &[80], &Penalties::new())
    };
    (found.ok()?.as_slice() == minima).then_some(asked)
}

/// The steps of a division into lines of this width.
fn steps_of_division(rt: &(impl Abort + AllocGlobal), blocks: &[Block], line_width: usize) -> u128 {
    let penalties = Penalties::new();
    let (lines, asked) = plain_optimal_fit_counted(rt.alloc(), blocks, &[line_width], &penalties);
    assert!(rt; lines.is_ok());
    asked
}

/// Of 1000 fragments the search asks for at most 30,000 line costs, where the table asks for
/// 500,500. That all three calls by the search count the same shows that none searches uncounted.
#[test]
fn the_search_asks_for_few_line_costs(rt: HostRuntime) {
    let blocks = [Block(3, 1, 0); 1000];
    let found = searched(&rt, rt.alloc(), &blocks, &[80], &Penalties::new());
    let (minima, steps) = found.expect(&rt, "memory");
    let by_table = steps_for(&rt, &blocks, &minima, false);
    let by_search = steps_for(&rt, &blocks, &minima, true);
    let by_division = steps_of_division(&rt, &blocks, 80);
    assert_row(&rt, steps, (1000..=30_000).contains(&steps));
    assert_row(&rt, by_table, by_table == Some(500_500));
    assert_row(&rt, by_search, by_search == Some(steps));
    assert_row(&rt, by_division, by_division == steps);
}

#[rattlefmt::skip]
const STEPS: &[(&[Block], u128, u128)] = &[(FALLING, 15, 15), (&[], 0, 0), (&[Block(3, 1, 0)], 1, 12)];

/// Outside the queue case the table is asked: 15 line costs of five fragments. No fragments need
/// none, and one needs at most 12.
#[test]
fn steps_are_those_of_the_case(rt: HostRuntime) {
    for &(blocks, least, most) in STEPS {
        let count = steps_of_division(&rt, blocks, 10);
        assert_row(&rt, (blocks, count), count >= least && count <= most);
    }
}

/// Lines that cost the square of how many fragments they have, and a count of what was asked.
#[derive(Drop)]
struct Squares {
    ends: usize,
    asked: u128,
}

impl CostSource for Squares {
    ghost use Rattle.std.specs.Prelude.{◌*◌, ◌-◌};

    ghost costs = { λ s. record {
      ends = s.ends;
      cost = λ start end number. (end - start) * (end - start);
    } };

    ghost steps = { λ s. s.asked };

    fn ends(&self) -> usize {
        self.ends
    }

    fn candidate(
        &mut self,
        start: usize,
        end: usize,
        _line_number: usize,
        before: u128,
    ) -> Option<u128> {
        self.asked = self.asked.saturating_add(1);
        let len = (end - start) as u128;
        before.checked_add(len * len)
    }
}

/// Whether entry j starts at j - 1 and costs j, for each j up to 1000.
fn are_of_one_fragment_each(minima: &[Minimum]) -> bool {
    let Some((first, later)) = minima.split_first() else {
        return false;
    };
    for (before, minimum) in later.iter().enumerate() {
        if minimum.start != before || minimum.cost != before as u128 + 1 {
            return false;
        }
    }
    *first == Minimum { start: 0, cost: 0 } && later.len() == 1000
}

/// Where a line costs the square of its length, lines of one fragment are the cheapest: entry j
/// starts at j - 1 and costs j. A table of 1000 fragments would ask for 500500 line costs.
#[test]
fn a_queue_searches_any_source_that_suits_it(rt: HostRuntime) {
    let mut squares = Squares {
        ends: 1000,
        asked: 0,
    };
    let minima = queue_search(rt.alloc(), &mut squares).expect(&rt, "minima");
    assert_row(&rt, "minima", are_of_one_fragment_each(&minima));
    assert_row(&rt, squares.asked, squares.asked <= 30_000);
}
