//! The line costs of fragments, from running sums of their widths.
ghost use Rattle.std.specs.Prelude.{◌≡◌, ◌+◌, ◌<◌, ◌≤◌, map, IfOk, SomeIff};
ghost use Rattle.std.specs.Prelude.{◌-◌, ◌^◌, All};
ghost use Rattle.textwrap_base.specs.Minima.{LineCostsView};
ghost use Rattle.textwrap_base.specs.Cost.{priced_by, problem_by, total_width};
ghost use Rattle.textwrap_base.specs.Problem.{problem_of};
ghost use Rattle.textwrap_base.specs.Errors.{Fits128Bits, Passes128Bits, Overflowed};
ghost use Rattle.textwrap_base.specs.LineCosts.{measured, AreMeasures};
ghost use Rattle.textwrap_base.specs.Table.{fragment_costs};

use super::{CostSource, Steps};
use crate::errors::{OverflowError, WrapError};
use crate::fragments::Fragment;
use crate::penalties::Penalties;
use crate::prefix_sums::{PrefixSums, line_cost};
use std::alloc::{AllocError, Allocator};
use std::marker::Model;

/// A fragment's widths and break penalty, and the widths and whitespace of all fragments before it.
#[derive(Clone, Copy)]
struct Measure {
    before: u128,
    width: usize,
    whitespace: usize,
    penalty: usize,
    break_penalty: usize,
}

impl PrefixSums for Measure {
    ghost priced = { measured };

    ghost opens = { λ m. m.before };

    ghost closes = { λ m. m.before + m.width + m.penalty };

    fn closed_width(&self, first: &Self) -> u128 {
        self.before + self.width as u128 + self.penalty as u128 - first.before
    }

    fn break_penalty(&self) -> usize {
        self.break_penalty
    }
}

/// The costs of the lines of some fragments, at the line widths and penalties given, with a count
/// of its own from 0. At the line width 10 and the default penalties, a line of the words `foo` and
/// `bar`, with a blank between them, costs 1000.
#[derive(Drop)]
pub struct LineCosts<A: Allocator> {
    measures: Vec<Measure, A>,
    line_widths: Vec<usize, A>,
    penalties: Penalties,
    steps: Steps,
}

impl<A: Allocator> Model for LineCosts<A> {
    ghost Value = { LineCostsView };

    ghost view = { λ s. record {
      priced = map measured s.measures.items;
      widths = s.line_widths.items;
      penalties = s.penalties;
      steps = s.steps;
    } };

    ghost invariant = { λ s. AreMeasures s.measures.items };
}

impl<A: Allocator + Copy> LineCosts<A> {
    /// The costs of the lines of these fragments. On lines of 10 columns those of words are
    /// `LineCosts::new(alloc, &words, &[10], &penalties)?`.
    ///
    /// # Errors
    /// Overflow exactly where all widths together need more than 128 bits, which is found before
    /// anything is allocated. Otherwise out of memory.
    pub fn new<T: Fragment>(
        alloc: A,
        fragments: &[T],
        line_widths: &[usize],
        penalties: &Penalties,
    ) -> Result<LineCosts<A>, WrapError>
        ensures costs { IfOk result (λ costs. ⟦<LineCosts<A> as CostSource>⟧.costs costs
            ≡ fragment_costs
            (problem_of T.Fragment.own penalties.now line_widths.now fragments.now)) }
        ensures count { IfOk result (λ costs. ⟦<LineCosts<A> as CostSource>⟧.steps costs ≡ 0) }
        // Each break penalty is a number of 64 bits.
        ensures break_penalties { IfOk result (λ _. All (λ x.
            (priced_by T.sizes T.own_break_penalty penalties.now x).break_penalty ≤ 2 ^ 64 - 1)
            fragments.now) }
        ensures overflow_only { Overflowed result
            → Passes128Bits (total_width T.sizes fragments.now) }
        ensures too_wide { Passes128Bits (total_width T.sizes fragments.now)
            → Overflowed result }
    {
        if total_width(fragments).is_none() {
            return Err(WrapError::Overflow(OverflowError));
        }
        Ok(LineCosts {
            measures: measures_of(alloc, fragments, penalties)?,
            line_widths: Vec::from_slice(alloc, line_widths)?,
            penalties: *penalties,
            steps: Steps::new(),
        })
    }

    /// How often a cost was asked for: 1 after the first call of `candidate`.
    pub fn steps(&self) -> u128
        ensures { result ≡ self.now.steps }
    {
        self.steps.count()
    }
}

impl<A: Allocator> CostSource for LineCosts<A> {
    ghost costs = { λ s. fragment_costs
        (problem_by (λ priced. priced) s.penalties s.widths s.priced) };

    ghost steps = { λ s. s.steps };

    fn ends(&self) -> usize {
        self.measures.len()
    }

    fn candidate(
        &mut self,
        start: usize,
        end: usize,
        line_number: usize,
        before: u128,
    ) -> Option<u128> {
        self.steps.add(1);
        let cost = line_cost(
            &self.measures,
            &self.line_widths,
            &self.penalties,
            start,
            end,
            line_number,
        )?;
        before.checked_add(cost)
    }
}

/// All widths, whitespace widths and penalty widths together, or `None` where they need more than
/// 128 bits.
pub(super) fn total_width<T: Fragment>(fragments: &[T]) -> Option<u128>
    ensures { SomeIff result (Fits128Bits (total_width T.sizes fragments.now))
        (total_width T.sizes fragments.now) }
{
    let mut total = 0u128;
    for fragment in fragments {
        let widths = fragment.width() as u128
            + fragment.whitespace_width() as u128
            + fragment.penalty_width() as u128;
        total = total.checked_add(widths)?;
    }
    Some(total)
}

/// The measures of the fragments.
fn measures_of<A: Allocator, T: Fragment>(
    alloc: A,
    fragments: &[T],
    penalties: &Penalties,
) -> Result<Vec<Measure, A>, AllocError>
    requires { Fits128Bits (total_width T.sizes fragments.now) }
    ensures measured { IfOk result (λ measures. AreMeasures measures.items) }
    ensures break_penalties { IfOk result (λ measures.
        All (λ m. m.break_penalty ≤ 2 ^ 64 - 1) measures.items) }
    ensures priced { IfOk result (λ measures. map measured measures.items
        ≡ map (priced_by T.sizes T.own_break_penalty penalties.now) fragments.now) }
{
    let mut measures = Vec::new(alloc);
    let mut before = 0u128;
    for fragment in fragments {
        let width = fragment.width();
        let whitespace = fragment.whitespace_width();
        let penalty = fragment.penalty_width();
        measures.push(Measure {
            before,
            width,
            whitespace,
            penalty,
            break_penalty: fragment.break_penalty(penalties),
        })?;
        before += width as u128 + whitespace as u128;
    }
    Ok(measures)
}
