//! The queue case: fragments, line widths and penalties whose line costs are convex and small.
ghost use Rattle.std.specs.Prelude.{ℕ, ◌<◌, ◌≤◌, ◌↔◌, All, IsTrue, length, slice_index};
ghost use Rattle.textwrap_base.specs.Cost.{priced_by, total_width, AreEqualFromSecond};
ghost use Rattle.textwrap_base.specs.Problem.{problem_of};
ghost use Rattle.textwrap_base.specs.Queue.{IsQueueCase, AreConvex, SuitQueue, AreAtMost, NeverFalls};
ghost use Rattle.textwrap_base.specs.Queue.{queue_limit};
ghost use Rattle.textwrap_base.specs.Table.{fragment_costs};

use super::line_costs::total_width;
use crate::fragments::Fragment;
use crate::penalties::Penalties;

/// The greatest number of the queue case. A line then costs at most 2^125.
const LIMIT: usize = 1 << 62;

/// Whether these fragments are a queue case at these line widths and penalties: one in which a
/// search by a queue finds the least costs, and asks for far fewer line costs than the table does.
/// That is so where
///
/// - all line widths from the second on are the same,
/// - the closed width of the first j fragments never falls as j grows, and
/// - each line width, each penalty, the break penalty of each fragment, and all widths of the
///   fragments together are at most 2^62.
///
/// The closed width of some fragments is what they take as a line: their widths, the whitespace
/// between them, and the penalty width of the last. So it falls where a penalty width is greater
/// than the whitespace that takes its place and the next fragment together.
///
/// In a queue case two lines that overlap cost no more than the line of both and the line of what
/// they share, if they neither start first nor end last.
///
/// For example, take fragments (width, whitespace width, penalty width) and the default penalties:
/// (5, 0, 0) and (5, 0, 0) are a queue case at the line widths 10, 20, 20, but not at 10, 20, 30.
/// (5, 0, 5) and (0, 0, 0) are none at any width, because the first alone closes at 10, and both
/// together at 5.
///
/// The call always succeeds and needs no memory.
pub fn is_queue_case<T: Fragment>(
    fragments: &[T],
    line_widths: &[usize],
    penalties: &Penalties,
) -> bool
    ensures case { IsTrue result
        ↔ IsQueueCase (problem_of T.Fragment.own penalties.now line_widths.now fragments.now) }
    ensures convex { IsTrue result
        → AreConvex (fragment_costs
        (problem_of T.Fragment.own penalties.now line_widths.now fragments.now)) }
    // So their costs suit `queue_search`.
    ensures suits { IsTrue result
        → SuitQueue (fragment_costs
        (problem_of T.Fragment.own penalties.now line_widths.now fragments.now)) }
{
    line_widths_suit(line_widths)
        && penalties_suit(penalties)
        && total_width_suits(fragments)
        && break_penalties_suit(fragments, penalties)
        && closed_widths_never_fall(fragments)
}

/// Whether all line widths from the second on are the same, and none passes the limit.
fn line_widths_suit(line_widths: &[usize]) -> bool
    ensures { IsTrue result ↔ (AreEqualFromSecond line_widths.now
        × ((l : ℕ) → l < length line_widths.now
        → slice_index line_widths.now l ≤ queue_limit)) }
{
    for (number, width) in line_widths.iter().enumerate() {
        if *width > LIMIT || (number > 1 && *width != line_widths[1]) {
            return false;
        }
    }
    true
}

/// Whether none of the penalties passes the limit.
fn penalties_suit(penalties: &Penalties) -> bool
    ensures { IsTrue result ↔ AreAtMost queue_limit penalties.now }
{
    penalties.nline_penalty <= LIMIT
        && penalties.overflow_penalty <= LIMIT
        && penalties.short_last_line_fraction <= LIMIT
        && penalties.short_last_line_penalty <= LIMIT
        && penalties.hyphen_penalty <= LIMIT
}

/// Whether all widths of the fragments together keep to the limit.
fn total_width_suits<T: Fragment>(fragments: &[T]) -> bool
    ensures { IsTrue result ↔ (total_width T.sizes fragments.now ≤ queue_limit) }
{
    total_width(fragments).is_some_and(|total| total <= LIMIT as u128)
}

/// Whether the break penalty of no fragment passes the limit.
fn break_penalties_suit<T: Fragment>(fragments: &[T], penalties: &Penalties) -> bool
    ensures { IsTrue result ↔ All (λ x.
        (priced_by T.sizes T.own_break_penalty penalties.now x).break_penalty ≤ queue_limit)
        fragments.now }
{
    for fragment in fragments {
        if fragment.break_penalty(penalties) > LIMIT {
            return false;
        }
    }
    true
}

/// Whether the closed width of the first j fragments never falls as j grows. With one fragment
/// more, the whitespace before it and its own widths come in place of the penalty before it.
fn closed_widths_never_fall<T: Fragment>(fragments: &[T]) -> bool
    ensures { IsTrue result ↔ NeverFalls T.sizes fragments.now }
{
    for last in 1..fragments.len() {
        let (before, fragment) = (&fragments[last - 1], &fragments[last]);
        let gained = before.whitespace_width() as u128
            + fragment.width() as u128
            + fragment.penalty_width() as u128;
        if gained < before.penalty_width() as u128 {
            return false;
        }
    }
    true
}
