//! The starts that are the best for the ends to come, each for a stretch of them.
//!
//! Two lines that overlap cost no more than the line of both and the line of what they share, if
//! none starts at 0 or reaches the last end. So a start that gives a smaller cost than an earlier
//! start at some end does so at all later ends. Among the starts from 1 on, each is therefore the
//! best for one stretch of ends, if for any, and later starts have later stretches. A tie stays
//! with the earlier start, as in the table.
ghost use Rattle.std.specs.Prelude.{◌≡◌, ℕ, ◌+◌, ◌*◌, ◌-◌, ◌<◌, ◌≤◌, length, take, drop, vec_len};
ghost use Rattle.std.specs.Prelude.{OnOk};
ghost use Rattle.textwrap_base.specs.Minima.{counted};
ghost use Rattle.textwrap_base.specs.Queue.{SuitQueue, binary_digits};
ghost use Rattle.textwrap_base.specs.Search.{cost_from, AreMinima, IsBestFrom};
ghost use Rattle.textwrap_base.specs.Stretches.{stretch_at, AreRising, HasEnd, HaveBest};
ghost use Rattle.textwrap_base.specs.Stretches.{AreStretches};

use super::{CostSource, Minimum};
use std::alloc::{AllocError, Allocator};

/// From the end `from` on, until the next stretch begins, `start` is the best start from 1 on.
#[derive(Clone, Copy)]
pub(super) struct Stretch {
    pub(super) start: usize,
    pub(super) from: usize,
    /// What the first `from` fragments cost if their last line starts at `start`.
    pub(super) cost: u128,
}

/// How many looks are taken at one side of a stretch before it is bisected. The place where a start
/// takes over is mostly found by the first.
const NEAR_LOOKS: usize = 3;

/// What the first `end` fragments cost if their last line starts at `start`.
pub(super) fn price<C: CostSource>(
    costs: &mut C,
    minima: &[Minimum],
    start: usize,
    end: usize,
) -> u128
    requires suits { SuitQueue (C.costs costs.old) }
    requires minima { AreMinima (C.costs costs.old) minima.now }
    requires known { start < length minima.now }
    requires ordered { start < end }
    requires within { end ≤ (C.costs costs.old).ends }
    ensures price { result ≡ cost_from (C.costs costs.old) start end }
    ensures same { C.costs costs.new ≡ C.costs costs.old }
    ensures step { C.steps costs.new ≡ counted (C.steps costs.old) 1 }
{
    // The number of a line changes its cost only at start 0.
    costs
        .candidate(start, end, start.min(1), minima[start].cost)
        .unwrap()
}

/// How many stretches have passed at least before they are dropped.
const PASSED_STRETCHES: usize = 64;

/// How many stretches there is room for at first. The list grows where more are known than have
/// passed, and most texts of any length need no more.
pub(super) const FIRST_CAPACITY: usize = 2 * PASSED_STRETCHES;

/// Goes on to the stretch of an end, where `before` is that of the end before it, and returns where
/// it stands then: the stretches before it, whose ends have passed, are dropped where they are most
/// of the list, so that it stays short.
pub(super) fn next_stretch<A: Allocator>(
    stretches: &mut Vec<Stretch, A>,
    before: usize,
    end: usize,
) -> usize
    requires before { HasEnd stretches.old.items (end - 1) before }
    requires rising { AreRising stretches.old.items }
    requires later { 0 < end }
    ensures left { (passed : ℕ) × (stretches.new.items ≡ drop passed stretches.old.items) }
    ensures current { HasEnd stretches.new.items end result }
    ensures fewer { vec_len stretches.new ≤ vec_len stretches.old }
{
    let current = match stretches.get(before + 1) {
        Some(next) if next.from <= end => before + 1,
        _ => before,
    };
    if current < PASSED_STRETCHES || current < stretches.len() / 2 {
        return current;
    }
    let left = stretches.len() - current;
    stretches.copy_within(current.., 0);
    stretches.truncate(left);
    0
}

/// Gives the newest start, the last of `minima`, its stretch, if it is the best for any end, and
/// drops those that it beats at all their ends. The stretches are then those of all starts from 1
/// to this one.
pub(super) fn take_in<A: Allocator, C: CostSource>(
    costs: &mut C,
    minima: &[Minimum],
    stretches: &mut Vec<Stretch, A>,
    current: usize,
) -> Result<(), AllocError>
    requires suits { SuitQueue (C.costs costs.old) }
    requires minima { AreMinima (C.costs costs.old) minima.now }
    requires two { 2 < length minima.now }
    requires within { length minima.now ≤ (C.costs costs.old).ends }
    requires stretches { AreStretches (C.costs costs.old) (length minima.now - 2)
        stretches.old.items }
    requires current { HasEnd stretches.old.items (length minima.now - 1) current }
    ensures stretches { OnOk result (AreStretches (C.costs costs.old) (length minima.now - 1)
        stretches.new.items) }
    ensures current { OnOk result (HasEnd stretches.new.items (length minima.now - 1) current) }
    ensures same { C.costs costs.new ≡ C.costs costs.old }
    ensures steps { C.steps costs.new + vec_len stretches.new ≤ C.steps costs.old
        + vec_len stretches.old + 8
        + 2 * binary_digits ((C.costs costs.old).ends - length minima.now) }
    ensures never_less { C.steps costs.old ≤ C.steps costs.new }
{
    let won = drop_beaten(costs, minima, stretches, current);
    let rival = stretches[stretches.len() - 1];
    let low = minima.len().max(rival.from + 1);
    let stretch = take_over(costs, minima, rival.start, low, won);
    if stretch.from < costs.ends() {
        stretches.push(stretch)?;
    }
    Ok(())
}

/// Drops the stretches after the current one that the newest start beats at their first end, and so
/// at all their ends. What it wins so is its own stretch as far as it is known.
fn drop_beaten<A: Allocator, C: CostSource>(
    costs: &mut C,
    minima: &[Minimum],
    stretches: &mut Vec<Stretch, A>,
    current: usize,
) -> Stretch
    requires suits { SuitQueue (C.costs costs.old) }
    requires minima { AreMinima (C.costs costs.old) minima.now }
    requires two { 2 < length minima.now }
    requires within { length minima.now ≤ (C.costs costs.old).ends }
    requires stretches { AreStretches (C.costs costs.old) (length minima.now - 2)
        stretches.old.items }
    requires current { HasEnd stretches.old.items (length minima.now - 1) current }
    ensures left { stretches.new.items ≡ take (vec_len stretches.new) stretches.old.items }
    ensures current { current < vec_len stretches.new }
    ensures fewer { vec_len stretches.new ≤ vec_len stretches.old }
    ensures start { result.start ≡ length minima.now - 1 }
    ensures after { length minima.now ≤ result.from }
    ensures later { (stretch_at stretches.new.items (vec_len stretches.new - 1)).from
        < result.from }
    ensures before { result.from ≤ (C.costs costs.old).ends }
    ensures priced { result.from < (C.costs costs.old).ends
        → result.cost ≡ cost_from (C.costs costs.old) result.start result.from }
    ensures best { HaveBest (C.costs costs.old) (length minima.now - 2) result.from
        stretches.new.items }
    ensures wins { IsBestFrom (C.costs costs.old) (length minima.now - 1) result.from }
    ensures unbeaten { let last = stretch_at stretches.new.items (vec_len stretches.new - 1)
        in length minima.now ≤ last.from
        → cost_from (C.costs costs.old) last.start last.from
        ≤ cost_from (C.costs costs.old) (length minima.now - 1) last.from }
    ensures same { C.costs costs.new ≡ C.costs costs.old }
    ensures steps { C.steps costs.new + vec_len stretches.new
        ≤ C.steps costs.old + vec_len stretches.old + 1 }
    ensures never_less { C.steps costs.old ≤ C.steps costs.new }
{
    let start = minima.len() - 1;
    let mut won = Stretch {
        start,
        from: costs.ends(),
        cost: 0,
    };
    while stretches.len() > current + 1 {
        let last = stretches[stretches.len() - 1];
        let cost = price(costs, minima, start, last.from);
        if cost >= last.cost {
            return won;
        }
        won = Stretch {
            start,
            from: last.from,
            cost,
        };
        stretches.pop();
    }
    won
}

/// The stretch that the newest start has won, with the ends from `low` on at which it gives a
/// smaller cost than its rival.
fn take_over<C: CostSource>(
    costs: &mut C,
    minima: &[Minimum],
    rival: usize,
    mut low: usize,
    won: Stretch,
) -> Stretch
    requires suits { SuitQueue (C.costs costs.old) }
    requires minima { AreMinima (C.costs costs.old) minima.now }
    requires rival { rival + 1 < length minima.now }
    requires after { length minima.now ≤ low }
    requires ordered { low ≤ won.from }
    requires within { won.from ≤ (C.costs costs.old).ends }
    requires start { won.start ≡ length minima.now - 1 }
    requires priced { won.from < (C.costs costs.old).ends
        → won.cost ≡ cost_from (C.costs costs.old) won.start won.from }
    ensures start { result.start ≡ length minima.now - 1 }
    ensures from { low ≤ result.from }
    ensures before { result.from ≤ won.from }
    ensures priced { result.from < (C.costs costs.old).ends
        → result.cost ≡ cost_from (C.costs costs.old) result.start result.from }
    ensures unbeaten { low < result.from → cost_from (C.costs costs.old) rival (result.from - 1)
        ≤ cost_from (C.costs costs.old) (length minima.now - 1) (result.from - 1) }
    ensures beaten { result.from < won.from
        → cost_from (C.costs costs.old) (length minima.now - 1) result.from
        < cost_from (C.costs costs.old) rival result.from }
    ensures same { C.costs costs.new ≡ C.costs costs.old }
    ensures steps { C.steps costs.new ≤ C.steps costs.old + 6 + 2 * binary_digits (won.from - low) }
    ensures never_less { C.steps costs.old ≤ C.steps costs.new }
{
    let start = minima.len() - 1;
    let mut best = won;
    let mut near = NEAR_LOOKS;
    while low < best.from {
        let end = next_look(low, best.from, near, rival + 1 == start);
        let cost = price(costs, minima, start, end);
        if cost < price(costs, minima, rival, end) {
            best = Stretch {
                start,
                from: end,
                cost,
            };
        } else {
            low = end + 1;
        }
        near = near.saturating_sub(1);
    }
    best
}

/// At which of the ends from `low` to before `high` to look: at one side while looks there are
/// left, and else in the middle. A start mostly takes over from the one just before it within a few
/// ends. After one that won nowhere, it mostly wins nowhere either, which the last end tells.
#[tactic(auto, using(crate::proofs::Search::digits_mono, crate::proofs::Search::digits_half))]
fn next_look(low: usize, high: usize, near: usize, at_low: bool) -> usize
    requires ordered { low < high }
    ensures from { low ≤ result }
    ensures before { result < high }
    ensures below { 2 + 2 * (near - 1) + 2 * binary_digits (result - low)
        ≤ 2 * near + 2 * binary_digits (high - low) }
    ensures above { 2 + 2 * (near - 1) + 2 * binary_digits (high - (result + 1))
        ≤ 2 * near + 2 * binary_digits (high - low) }
{
    if near == 0 {
        low + (high - low) / 2
    } else if at_low {
        low
    } else {
        high - 1
    }
}
