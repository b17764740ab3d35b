//! Optimal fit: the division of least cost.
ghost use Rattle.std.specs.Prelude.{◌≡◌, ℕ, ◌+◌, ◌<◌, ◌≤◌, length, map, slice_index, IfOk, OnOk};
ghost use Rattle.textwrap_base.specs.Cost.{total_width};
ghost use Rattle.textwrap_base.specs.Division.{IsDivision};
ghost use Rattle.textwrap_base.specs.Errors.{Fits64Bits, Passes128Bits, Overflowed};
ghost use Rattle.textwrap_base.specs.Queue.{IsQueueCase, CountsSearch};
ghost use Rattle.textwrap_base.specs.Table.{fragments_table, minimum_of, FollowStarts};
ghost use Rattle.textwrap_base.specs.Table.{TableOverflows, CountsSteps};
ghost use Rattle.textwrap_base.specs.Problem.{problem_of};
ghost use Rattle.textwrap_base.specs.OptimalFit.{IsOptimalFitResult, IsTheResult};

use crate::errors::WrapError;
use crate::fragments::Fragment;
use crate::minima::{Minimum, Steps, is_queue_case, queue_minima, table_minima};
use crate::penalties::Penalties;
use std::alloc::{AllocError, Allocator};

/// Divides the fragments into the lines of least cost (after Knuth and Plass, "Breaking
/// Paragraphs into Lines", 1981). Line l, counted from 0, may be `line_widths[l]` wide. The last
/// width serves all later lines, and without any width it is 0. No fragments give one empty line.
///
/// Where all lines but the first have one width, each other division costs as much or more. Of
/// several that cost the same, the last line starts as early as it can, then the line before it,
/// and so on. For other line widths the lines are those to which the starts of `table_minima`
/// lead, from the end back.
///
/// At the line width 53 and the default penalties, words of 3 and of 50 columns with a blank
/// between them share a line of 54: it costs 3500, and two lines cost 4500.
///
/// # Errors
/// Overflow only where all widths together need more than 128 bits, or the cost of a prefix in the
/// table does; and in these cases the call never succeeds. That cost is the least of the prefix
/// where all lines but the first have one width. Widths that are too large are refused before
/// anything is allocated; else memory may run out first. There is no overflow where all widths
/// together fit 64 bits.
pub fn wrap_optimal_fit<'a, A: Allocator + Copy, T: Fragment>(
    alloc: A,
    fragments: &'a [T],
    line_widths: &[usize],
    penalties: &Penalties,
) -> Result<Vec<&'a [T], A>, WrapError>
    ensures fit { IsOptimalFitResult
        (problem_of T.Fragment.own penalties.now line_widths.now fragments.now)
        (λ lines. map (λ line. line.now) lines.items) result }
{
    let mut steps = Steps::new();
    wrap_optimal_fit_counted(alloc, fragments, line_widths, penalties, &mut steps)
}

/// Returns what `wrap_optimal_fit` returns. `steps` goes up by one for each line cost that was
/// asked for. In a queue case (see `is_queue_case`) these are at most n(10 + 2d) for n fragments,
/// where d is how many binary digits n has, and at least n at `Ok`. Else they are n(n + 1)/2 at
/// `Ok`, such as 15 for 5, and no more at `Err`.
///
/// # Errors
/// Those of `wrap_optimal_fit`.
pub fn wrap_optimal_fit_counted<'a, A: Allocator + Copy, T: Fragment>(
    alloc: A,
    fragments: &'a [T],
    line_widths: &[usize],
    penalties: &Penalties,
    steps: &mut Steps,
) -> Result<Vec<&'a [T], A>, WrapError>
    ensures fit { IsOptimalFitResult
        (problem_of T.Fragment.own penalties.now line_widths.now fragments.now)
        (λ lines. map (λ line. line.now) lines.items) result }
    // No other result of `wrap_optimal_fit` is right, but for memory that runs out.
    ensures same { IsTheResult
        (problem_of T.Fragment.own penalties.now line_widths.now fragments.now)
        (λ lines. map (λ line. line.now) lines.items) result }
    ensures steps { ¬ IsQueueCase
        (problem_of T.Fragment.own penalties.now line_widths.now fragments.now)
        → CountsSteps (problem_of T.Fragment.own penalties.now line_widths.now fragments.now)
        steps.old steps.new result }
    ensures queue_steps { IsQueueCase
        (problem_of T.Fragment.own penalties.now line_widths.now fragments.now)
        → CountsSearch (length fragments.now) steps.old steps.new result }
{
    let minima = find_minima(alloc, fragments, line_widths, penalties, steps)?;
    Ok(lines_by(alloc, fragments, &minima)?)
}

/// The least costs: by the search in a queue case, and else by the table.
fn find_minima<A: Allocator + Copy, T: Fragment>(
    alloc: A,
    fragments: &[T],
    line_widths: &[usize],
    penalties: &Penalties,
    steps: &mut Steps,
) -> Result<Vec<Minimum, A>, WrapError>
    ensures entries { IfOk result (λ minima. minima.items ≡ map minimum_of
        (fragments_table (problem_of T.Fragment.own penalties.now line_widths.now fragments.now))) }
    ensures overflow_only { Overflowed result
        → TableOverflows (problem_of T.Fragment.own penalties.now line_widths.now fragments.now) }
    ensures ok_only { OnOk result
        (¬ TableOverflows (problem_of T.Fragment.own penalties.now line_widths.now fragments.now)) }
    ensures too_wide { Passes128Bits (total_width T.sizes fragments.now) → Overflowed result }
    ensures no_overflow { Fits64Bits (total_width T.sizes fragments.now) → ¬ Overflowed result }
    ensures steps { ¬ IsQueueCase
        (problem_of T.Fragment.own penalties.now line_widths.now fragments.now)
        → CountsSteps (problem_of T.Fragment.own penalties.now line_widths.now fragments.now)
        steps.old steps.new result }
    ensures queue_steps { IsQueueCase
        (problem_of T.Fragment.own penalties.now line_widths.now fragments.now)
        → CountsSearch (length fragments.now) steps.old steps.new result }
{
    if is_queue_case(fragments, line_widths, penalties) {
        let minima = queue_minima(alloc, fragments, line_widths, penalties, steps)?;
        return Ok(minima);
    }
    table_minima(alloc, fragments, line_widths, penalties, steps)
}

/// The lines that follow the starts of the minima back from the end of the fragments. Minima whose
/// starts are 0, 0, 0 and 2 divide three fragments into the first two and the third.
///
/// # Errors
/// [`AllocError`] where memory runs out.
pub fn lines_by<'a, A: Allocator, T>(
    alloc: A,
    fragments: &'a [T],
    minima: &[Minimum],
) -> Result<Vec<&'a [T], A>, AllocError>
    requires len { length minima.now ≡ length fragments.now + 1 }
    requires first { slice_index (map (λ minimum. minimum.start) minima.now) 0 ≡ 0 }
    requires later { (j : ℕ) → 0 < j → j ≤ length fragments.now
        → slice_index (map (λ minimum. minimum.start) minima.now) j < j }
    ensures division { IfOk result (λ lines.
        IsDivision fragments.now (map (λ line. line.now) lines.items)) }
    ensures follow { IfOk result (λ lines.
        FollowStarts (map (λ minimum. minimum.start) minima.now) 0
        (map (λ line. line.now) lines.items)) }
{
    let mut lines = Vec::new(alloc);
    if fragments.is_empty() {
        lines.push(fragments)?;
        return Ok(lines);
    }
    let mut end = fragments.len();
    while end > 0 {
        let start = minima[end].start;
        let line = &fragments[start..end];
        lines.push(line)?;
        end = start;
    }
    lines.reverse();
    Ok(lines)
}
