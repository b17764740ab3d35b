//! Fragments with break penalties of their own.
use super::given::{assert_found, assert_row, has_lens, has_minima};
use super::minima::{LIMIT, all_penalties, assert_agreed, drawn_blocks, least_cost};
use super::plain::{plain_is_queue_case, plain_optimal_fit, plain_table};
use super::texts::PENALTIES;
use crate::Card;
use std::alloc::{AllocError, Global};
use std::process::Abort;
use textwrap::WrapError;
use textwrap::words::Fragment;
use textwrap::wrap_algorithms::Penalties;

/// A card with a space after it, of which a break costs nothing.
const FREE: Card = Card {
    width: 4,
    whitespace: 1,
    penalty: 0,
    keep: 0,
};

#[rattlefmt::skip]
const VERSES: &[(usize, &[usize], u128, bool)] = &[
    (0, &[2, 1], 2000, true), (24, &[2, 1], 2024, true), (25, &[1, 2], 2025, true), (30, &[1, 2], 2025, true),
    (LIMIT, &[1, 2], 2025, true), (LIMIT + 1, &[1, 2], 2025, false), (usize::MAX, &[1, 2], 2025, false),
];

/// The second of three cards stays at the end of a row until that costs as much as the other
/// division; at a tie the last row begins earlier. A break penalty above 2^62 is no queue case.
#[test]
fn a_dear_break_keeps_two_cards_together(rt: HostRuntime) {
    for &(keep, lens, cost, is_case) in VERSES {
        let cards = [FREE, Card { keep, ..FREE }, FREE];
        let lines = plain_optimal_fit(rt.alloc(), &cards, &[9], &PENALTIES);
        assert_found(&rt, keep, has_lens(lines, lens));
        let least = least_cost(&rt, &cards, 9, &PENALTIES);
        let case = plain_is_queue_case(&cards, &[9], &PENALTIES);
        assert_row(&rt, keep, least == Some(cost) && case == is_case);
    }
}

/// A card with all numbers at their greatest but its width.
const GREATEST: Card = Card {
    width: 0,
    whitespace: 0,
    penalty: 0,
    keep: usize::MAX,
};

/// With all numbers at their greatest, one card costs 2^128 - 1 and two on one line less than that.
#[test]
fn the_greatest_break_penalties_fit(rt: HostRuntime) {
    let alloc = rt.alloc();
    let penalties = all_penalties(usize::MAX);
    let cards = [GREATEST; 2];
    let (minima, _asked) = plain_table(alloc, &cards, &[usize::MAX], &penalties);
    let expected = [(0, 0), (0, u128::MAX), (0, 36_893_488_147_419_103_230)];
    assert_found(&rt, "cards", has_minima(minima, &expected));
    let lines = plain_optimal_fit(alloc, &cards, &[usize::MAX], &penalties);
    assert_found(&rt, "cards", has_lens(lines, &[2]));
    assert!(rt; !plain_is_queue_case(&cards, &[usize::MAX], &penalties));
}

/// The line of a poem: to end with a line that leads on costs as much as a line of its own.
#[derive(Clone, Copy, Debug)]
struct Verse {
    width: usize,
    leads_on: bool,
}

impl Fragment for Verse {
    ghost use Rattle.std.specs.Prelude.{Some, if◌then◌else◌};

    ghost sizes = { λ verse. record { width = verse.width; whitespace = 1; penalty = 1 } };

    ghost own_break_penalty = { λ verse penalties.
        Some (if verse.leads_on then penalties.nline_penalty else 0) };

    fn width(&self) -> usize {
        self.width
    }

    fn whitespace_width(&self) -> usize {
        1
    }

    fn penalty_width(&self) -> usize {
        1
    }

    fn break_penalty(&self, penalties: &Penalties) -> usize {
        if self.leads_on {
            penalties.nline_penalty
        } else {
            0
        }
    }
}

/// The penalty of a line, how many of three verses each line has, and what they cost.
#[rattlefmt::skip]
const VERSES_BY_PENALTY: &[(usize, [usize; 2], u128)] = &[(0, [2, 1], 0), (24, [2, 1], 72), (25, [1, 2], 75), (26, [1, 2], 77)];

/// Three verses, of which the second leads on.
#[rattlefmt::skip]
const POEM: [Verse; 3] = [Verse { width: 4, leads_on: false }, Verse { width: 4, leads_on: true }, Verse { width: 4, leads_on: false }];

/// A break penalty may depend on the penalties. The usual hyphen penalty counts for none of these,
/// though each has a penalty width.
#[test]
fn a_break_penalty_may_come_from_the_penalties(rt: HostRuntime) {
    for (nline_penalty, lens, cost) in VERSES_BY_PENALTY {
        let penalties = Penalties {
            nline_penalty: *nline_penalty,
            short_last_line_penalty: 0,
            ..PENALTIES
        };
        let least = least_cost(&rt, &POEM, 10, &penalties);
        assert_row(&rt, *nline_penalty, least == Some(*cost));
        let lines = plain_optimal_fit(rt.alloc(), &POEM, &[10], &penalties);
        assert_found(&rt, *nline_penalty, has_lens(lines, lens));
    }
}

/// Cards of a small generator, with break penalties up to a mask.
fn drawn_cards(alloc: Global, count: usize, mask: usize) -> Result<Vec<Card>, AllocError> {
    let mut cards = Vec::new(alloc);
    let blocks = drawn_blocks(alloc, 5, count, [7, 1, 1], 1)?;
    let keeps = drawn_blocks(alloc, 9, count, [mask, 0, 0], 0)?;
    for (block, keep) in blocks.iter().zip(&keeps) {
        cards.push(Card {
            width: block.0,
            whitespace: block.1,
            penalty: block.2,
            keep: keep.0,
        })?;
    }
    Ok(cards)
}

/// Asserts that the search and the table agree on so many cards with break penalties up to a mask.
fn assert_agreed_on_cards(
    rt: &(impl Abort + AllocGlobal),
    count: usize,
    mask: usize,
    penalties: &Penalties,
) {
    let cards = drawn_cards(rt.alloc(), count, mask).expect(rt, "cards");
    assert_agreed(rt, &cards, &[9], penalties);
    assert_agreed(rt, &cards, &[5, 20], penalties);
}

/// The search gives the list of the table for cards too, ties included.
#[test]
fn the_search_agrees_with_the_table_on_cards(rt: HostRuntime) {
    for count in [1, 2, 5, 40] {
        for mask in [0, 1, 31, 1023] {
            assert_agreed_on_cards(&rt, count, mask, &PENALTIES);
            assert_agreed_on_cards(&rt, count, mask, &all_penalties(0));
        }
    }
}
