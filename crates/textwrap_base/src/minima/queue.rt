//! The search for least costs by a queue of stretches, after Hirschberg and Larmore, "The least
//! weight subsequence problem" (1987), and Galil and Giancarlo, "Speeding up dynamic programming
//! with applications to molecular biology" (1989).
//!
//! It goes from end to end, and the stretches know the best start from 1 on for each end to come.
//! Start 0 is asked apart at each end, since the first line may have a width of its own, and at the
//! last end each start is, since the last line has costs of its own.
ghost use Rattle.std.specs.Prelude.{◌≡◌, ◌+◌, ◌*◌, ◌-◌, ◌<◌, ◌≤◌, length, map, vec_len, IfOk};
ghost use Rattle.std.specs.Prelude.{OnOk};
ghost use Rattle.textwrap_base.specs.Minima.{counted};
ghost use Rattle.textwrap_base.specs.Queue.{SuitQueue, binary_digits};
ghost use Rattle.textwrap_base.specs.Search.{least_entry, cost_from, AreMinima, IsBestStart};
ghost use Rattle.textwrap_base.specs.Table.{table, minimum_of};

use super::stretches::{FIRST_CAPACITY, Stretch, next_stretch, price, take_in};
use super::{CostSource, Minimum};
use std::alloc::{AllocError, Allocator};

/// The least costs of dividing fragments into lines: for each prefix of the fragments, the empty
/// one first, its cost and the start of its last line. These are the entries of the table that
/// `table_minima` fills, each with the earliest of the starts that give the least cost. They are
/// found in about n log n steps for n fragments, and not in n(n + 1)/2.
///
/// The costs have to suit the search: the number of a line changes its cost only where the line
/// starts at 0; lines that overlap cost no more than the line of both and the line of what they
/// share, if none of them starts at 0 or reaches the last end; and no line costs more than 2^125.
///
/// The source counts at most n(10 + 2d) more steps, at `Ok` and at `Err`, where d is how many
/// binary digits n has (none for 0), and at `Ok` at least n.
///
/// # Errors
/// Out of memory.
pub fn queue_search<A: Allocator + Copy, C: CostSource>(
    alloc: A,
    costs: &mut C,
) -> Result<Vec<Minimum, A>, AllocError>
    requires suits { SuitQueue (C.costs costs.old) }
    ensures minima { IfOk result (λ minima. minima.items
        ≡ map minimum_of (table (C.costs costs.old).cost (C.costs costs.old).ends)) }
    ensures same { C.costs costs.new ≡ C.costs costs.old }
    ensures steps { let n = (C.costs costs.old).ends
        in C.steps costs.new ≤ C.steps costs.old + n * (10 + 2 * binary_digits n) }
    ensures never_less { C.steps costs.old ≤ C.steps costs.new }
    ensures least_steps { OnOk result
        (counted (C.steps costs.old) (C.costs costs.old).ends ≤ C.steps costs.new) }
{
    let ends = costs.ends();
    let mut minima = Vec::with_capacity(alloc, ends.saturating_add(1))?;
    minima.push(Minimum { start: 0, cost: 0 })?;
    if ends == 0 {
        return Ok(minima);
    }
    reach_last(alloc, costs, &mut minima)?;
    let last = least_of_all(costs, &minima);
    minima.push(last)?;
    Ok(minima)
}

/// Adds the least costs of all ends but the last.
fn reach_last<A: Allocator, C: CostSource>(
    alloc: A,
    costs: &mut C,
    minima: &mut Vec<Minimum, A>,
) -> Result<(), AllocError>
    requires suits { SuitQueue (C.costs costs.old) }
    requires minima { AreMinima (C.costs costs.old) minima.old.items }
    requires one { vec_len minima.old ≡ 1 }
    requires some { 0 < (C.costs costs.old).ends }
    ensures minima { OnOk result (AreMinima (C.costs costs.old) minima.new.items) }
    ensures len { OnOk result (vec_len minima.new ≡ (C.costs costs.old).ends) }
    ensures same { C.costs costs.new ≡ C.costs costs.old }
    ensures steps { let n = (C.costs costs.old).ends
        in C.steps costs.new ≤ C.steps costs.old + n * (10 + 2 * binary_digits n) }
    ensures steps_ok { let n = (C.costs costs.old).ends
        in OnOk result (C.steps costs.new + n
        ≤ C.steps costs.old + n * (10 + 2 * binary_digits n)) }
    ensures never_less { C.steps costs.old ≤ C.steps costs.new }
{
    let ends = costs.ends();
    if ends == 1 {
        return Ok(());
    }
    let first = least_of_all(costs, minima);
    minima.push(first)?;
    let mut stretches = Vec::with_capacity(alloc, ends.min(FIRST_CAPACITY))?;
    stretches.push(Stretch {
        start: 1,
        from: 1,
        cost: 0,
    })?;
    let mut current = 0;
    while minima.len() < ends {
        current = next_stretch(&mut stretches, current, minima.len());
        let least = least_by_stretch(costs, minima, stretches[current]);
        minima.push(least)?;
        take_in(costs, minima, &mut stretches, current)?;
    }
    Ok(())
}

/// The least cost of the next end, by trying each start.
fn least_of_all<C: CostSource>(costs: &mut C, minima: &[Minimum]) -> Minimum
    requires suits { SuitQueue (C.costs costs.old) }
    requires minima { AreMinima (C.costs costs.old) minima.now }
    requires within { length minima.now ≤ (C.costs costs.old).ends }
    ensures least { result ≡ minimum_of (least_entry (C.costs costs.old) (length minima.now)) }
    ensures same { C.costs costs.new ≡ C.costs costs.old }
    ensures steps { C.steps costs.new ≡ counted (C.steps costs.old) (length minima.now) }
{
    let end = minima.len();
    let mut best = Minimum {
        start: 0,
        cost: price(costs, minima, 0, end),
    };
    for start in 1..end {
        let cost = price(costs, minima, start, end);
        if cost < best.cost {
            best = Minimum { start, cost };
        }
    }
    best
}

/// The least cost of the next end, where the stretch has its best start from 1 on, and knows what
/// that costs at its first end. Start 0 is the earlier, so it wins a tie.
fn least_by_stretch<C: CostSource>(costs: &mut C, minima: &[Minimum], stretch: Stretch) -> Minimum
    requires suits { SuitQueue (C.costs costs.old) }
    requires minima { AreMinima (C.costs costs.old) minima.now }
    requires within { length minima.now ≤ (C.costs costs.old).ends }
    requires best { IsBestStart (C.costs costs.old) (length minima.now - 1) (length minima.now)
        stretch.start }
    requires priced { stretch.from ≡ length minima.now
        → stretch.cost ≡ cost_from (C.costs costs.old) stretch.start stretch.from }
    ensures least { result ≡ minimum_of (least_entry (C.costs costs.old) (length minima.now)) }
    ensures same { C.costs costs.new ≡ C.costs costs.old }
    ensures steps { C.steps costs.new ≤ C.steps costs.old + 2 }
    ensures never_less { C.steps costs.old ≤ C.steps costs.new }
{
    let end = minima.len();
    let first = price(costs, minima, 0, end);
    let later = if stretch.from == end {
        stretch.cost
    } else {
        price(costs, minima, stretch.start, end)
    };
    if later < first {
        Minimum {
            start: stretch.start,
            cost: later,
        }
    } else {
        Minimum {
            start: 0,
            cost: first,
        }
    }
}
