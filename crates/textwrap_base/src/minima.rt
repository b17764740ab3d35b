//! The least costs of dividing fragments into lines: sources of line costs, a count of how often
//! they are asked, the table of least costs, and the search that finds the same with fewer of them.
//! At the line width 10 and the default penalties, the least cost of two fragments of width 5,
//! without whitespace or penalty, is 1000: that of one line.
ghost use Rattle.std.specs.Prelude.{◌≡◌, ℕ, ◌+◌, ◌-◌, ◌^◌, ◌<◌, ◌≤◌, length, map, slice_index, IfOk};
ghost use Rattle.std.specs.Prelude.{OnOk, SomeIff};
ghost use Rattle.textwrap_base.specs.Minima.{Costs, counted};
ghost use Rattle.textwrap_base.specs.Queue.{AreAtMost, IsQueueCase, CountsSearch};
ghost use Rattle.textwrap_base.specs.Cost.{total_width, AreEqualFromSecond, IsLeastCost};
ghost use Rattle.textwrap_base.specs.Problem.{problem_of};
ghost use Rattle.textwrap_base.specs.Errors.{Fits64Bits, Fits128Bits, Passes128Bits, Overflowed};
ghost use Rattle.textwrap_base.specs.Table.{fragments_table, minimum_of, TableOverflows};
ghost use Rattle.textwrap_base.specs.Table.{CountsSteps};

use crate::errors::WrapError;
use crate::fragments::Fragment;
use crate::penalties::Penalties;
pub use line_costs::LineCosts;
pub use queue::queue_search;
pub use queue_case::is_queue_case;
use std::alloc::{AllocError, Allocator};
use std::marker::Model;
use table::{fill_table, minima_of};

mod line_costs;
mod queue;
mod queue_case;
mod stretches;
mod table;

/// Counts how often line costs were asked for. Each call of `CostSource::candidate` is a step, and
/// a table of 5 fragments takes 15 of them.
#[derive(Debug, Drop)]
pub struct Steps {
    count: u128,
}

impl Model for Steps {
    ghost Value = { ℕ };

    ghost view = { λ s. s.count };
}

impl Steps {
    /// A count of 0: `Steps::new().count()` is 0.
    pub fn new() -> Self
        ensures { result ≡ 0 }
    {
        Steps { count: 0 }
    }

    /// The steps so far: 3 after `add(1)` and `add(2)` on a new count.
    pub fn count(&self) -> u128
        ensures { result ≡ self.now }
    {
        self.count
    }

    /// Counts `more` steps. The count stays at 2^128-1, which it never passes: `add(u128::MAX - 1)`
    /// and `add(2)` on a new count lead there.
    pub fn add(&mut self, more: u128)
        ensures { self.new ≡ counted self.old more }
    {
        self.count = self.count.saturating_add(more);
    }
}

/// What the table has for a prefix of the fragments: a cost, and where the last line starts. By
/// `Minimum { start: 2, cost: 39500 }` the lines before the last take two fragments, and all lines
/// together cost 39500.
#[derive(Clone, Copy, Debug, PartialEq, Eq)]
pub struct Minimum {
    /// How many fragments of the prefix the lines before its last take.
    pub start: usize,
    /// What the division costs that follows the starts back. Where all lines but the first have
    /// one width, no other division of the prefix costs less.
    pub cost: u128,
}

/// Where the table gets its line costs, with a count of how often it asked for one.
///
/// [`LineCosts`] is such a source. The examples below are for the words `foo` and `bar`, with a
/// blank between them, at the line width 10 and the default penalties.
pub trait CostSource {
    ghost costs: { Self → Costs };

    ghost steps: { Self → ℕ };

    /// The number of fragments, 2 in the example. The last line of all ends there.
    fn ends(&self) -> usize
        ensures { result ≡ (costs self.now).ends };

    /// What the first `end` fragments cost if their last line starts at `start`: the cost `before`
    /// of the lines in front of it, and that of this line, whose number is `line_number`, counted
    /// from 0. `None` where the sum needs more than 128 bits. `start` has to be below `end`, and
    /// `end` at most `ends`.
    ///
    /// In the example `candidate(0, 2, 0, 0)` is `Some(1000)`, a line of both words, and
    /// `candidate(1, 2, 1, 1049)` is `Some(2049)`, a line of `bar` after one of `foo`.
    ///
    /// The source counts each call as one step, up to 2^128-1.
    fn candidate(
        &mut self,
        start: usize,
        end: usize,
        line_number: usize,
        before: u128,
    ) -> Option<u128>
        requires ordered { start < end }
        requires within { end ≤ (costs self.old).ends }
        ensures cost { SomeIff result
            (Fits128Bits (before + (costs self.old).cost start end line_number))
            (before + (costs self.old).cost start end line_number) }
        ensures same { costs self.new ≡ costs self.old }
        ensures step { steps self.new ≡ counted (steps self.old) 1 };
}

/// The table of least costs (after Knuth and Plass), for any list of line widths: for each prefix
/// of the fragments, the empty one first, a cost and the start of its last line. The empty prefix
/// costs nothing. A longer one is a shorter prefix and one more line, and costs what the table has
/// for the shorter prefix and what that line costs. Of these sums the table takes the least, and of
/// several the one with the earliest start. The lines are numbered along the starts so taken.
///
/// At the line widths 10, 5 and 100 and the default penalties, fragments of the widths 5, 5 and 20,
/// without whitespace or penalty, have the costs 0, 1025, 1000 and 39500. The last line starts at
/// the fragment 2, counted from 0.
///
/// `steps` goes up by n(n + 1)/2 for n fragments at `Ok`, and by no more at `Err`: at an overflow
/// by j(j + 1)/2, where the cost of j fragments is the first that does not fit, and not at all
/// where the widths are too large.
///
/// # Errors
/// Overflow only where all widths together need more than 128 bits, or a cost in the table does;
/// and in these cases the call never succeeds. Widths that are too large are refused before
/// anything is allocated; else memory may run out first.
pub fn table_minima<A: Allocator + Copy, T: Fragment>(
    alloc: A,
    fragments: &[T],
    line_widths: &[usize],
    penalties: &Penalties,
    steps: &mut Steps,
) -> Result<Vec<Minimum, A>, WrapError>
    ensures entries { IfOk result (λ minima. minima.items ≡ map minimum_of
        (fragments_table (problem_of T.Fragment.own penalties.now line_widths.now fragments.now))) }
    ensures overflow_only { Overflowed result
        → TableOverflows (problem_of T.Fragment.own penalties.now line_widths.now fragments.now) }
    ensures ok_only { OnOk result
        (¬ TableOverflows (problem_of T.Fragment.own penalties.now line_widths.now fragments.now)) }
    ensures too_wide { Passes128Bits (total_width T.sizes fragments.now) → Overflowed result }
    ensures no_overflow { Fits64Bits (total_width T.sizes fragments.now) → ¬ Overflowed result }
    // Where all lines but the first have one width, each cost is the least of its prefix.
    ensures least { IfOk result (λ minima. AreEqualFromSecond line_widths.now
        → (j : ℕ) → j ≤ length fragments.now
        → IsLeastCost (problem_of T.Fragment.own penalties.now line_widths.now fragments.now)
        j (slice_index (map (λ minimum. minimum.cost) minima.items) j)) }
    ensures steps { CountsSteps
        (problem_of T.Fragment.own penalties.now line_widths.now fragments.now)
        steps.old steps.new result }
{
    let penalties = in_range(*penalties);
    let mut costs = LineCosts::new(alloc, fragments, line_widths, &penalties)?;
    let entries = fill_table(alloc, &mut costs);
    steps.add(costs.steps());
    Ok(minima_of(alloc, &entries?)?)
}

/// The list of [`table_minima`], found by [`queue_search`]: the fragments, line widths and
/// penalties have to be a queue case, as [`is_queue_case`] says of them. It asks for fewer line
/// costs: of 1000 fragments (3, 1, 0) at the line width 80, the table asks for 500,500.
///
/// `steps` goes up by at least n for n fragments at `Ok`, and by at most n(10 + 2d) at `Ok` and
/// `Err`, where d is how many binary digits n has.
///
/// # Errors
/// Out of memory only: no cost of a queue case needs more than 128 bits.
pub fn queue_minima<A: Allocator + Copy, T: Fragment>(
    alloc: A,
    fragments: &[T],
    line_widths: &[usize],
    penalties: &Penalties,
    steps: &mut Steps,
) -> Result<Vec<Minimum, A>, AllocError>
    requires case { IsQueueCase
        (problem_of T.Fragment.own penalties.now line_widths.now fragments.now) }
    ensures entries { IfOk result (λ minima. minima.items ≡ map minimum_of
        (fragments_table (problem_of T.Fragment.own penalties.now line_widths.now fragments.now))) }
    // Each cost is the least of its prefix.
    ensures least { IfOk result (λ minima. (j : ℕ) → j ≤ length fragments.now
        → IsLeastCost (problem_of T.Fragment.own penalties.now line_widths.now fragments.now)
        j (slice_index (map (λ minimum. minimum.cost) minima.items) j)) }
    ensures steps { CountsSearch (length fragments.now) steps.old steps.new result }
{
    let mut costs = match LineCosts::new(alloc, fragments, line_widths, penalties) {
        Ok(costs) => costs,
        Err(WrapError::Memory(error)) => return Err(error),
        Err(WrapError::Overflow(_)) => unreachable!(),
    };
    let minima = queue_search(alloc, &mut costs);
    let asked = costs.steps();
    steps.add(asked);
    minima
}

/// These penalties, known to keep to 64 bits each: a proof sees the range of what is passed by
/// value, and not of what a reference leads to.
fn in_range(penalties: Penalties) -> Penalties
    ensures same { result ≡ penalties }
    ensures range { AreAtMost (2 ^ 64 - 1) result }
{
    penalties
}
