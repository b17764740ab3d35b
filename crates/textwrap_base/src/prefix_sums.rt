//! What a line costs of fragments with their prefix sums: the difference of two of these, in place
//! of a sum over the line.
ghost use Rattle.std.specs.Prelude.{◌≡◌, ◌+◌, ◌<◌, ◌≤◌, length, SomeIff};
ghost use Rattle.std.specs.Prelude.{◌-◌, ◌*◌};
ghost use Rattle.textwrap_base.specs.Cost.{fit_cost, problem_by};
ghost use Rattle.textwrap_base.specs.Errors.{Fits128Bits};
ghost use Rattle.textwrap_base.specs.PrefixSums.{HavePrefixSums};
ghost use Rattle.textwrap_base.specs.Table.{line_costs};

use crate::line_widths::line_width;
use crate::penalties::Penalties;

/// A fragment with its prefix sums: what those before it take on a line without end, and that with
/// its own widths.
pub trait PrefixSums {
    ghost use Rattle.std.specs.Prelude.{ℕ, ◌-◌, ◌≤◌};
    ghost use Rattle.textwrap_base.specs.Cost.{PricedSizes};
    ghost use Rattle.textwrap_base.specs.Errors.{Fits128Bits};

    ghost priced: { Self → PricedSizes };

    // What all fragments before it take on a line without end, and that with what it takes itself
    // where the line ends with it.
    ghost opens: { Self → ℕ };

    ghost closes: { Self → ℕ };

    /// What a line takes that begins with `first` and ends with this fragment.
    fn closed_width(&self, first: &Self) -> u128
        requires ordered { opens first.now ≤ closes self.now }
        requires fits { Fits128Bits (closes self.now) }
        ensures { result ≡ closes self.now - opens first.now };

    /// What a line costs more that ends with it.
    fn break_penalty(&self) -> usize
        ensures { result ≡ (priced self.now).break_penalty };
}

/// The cost of the line of the fragments `start` to `end - 1`, which is line `number`, counted from
/// 0, or `None` where it needs more than 128 bits.
// Inlined with all that it calls: where the sums have 64 bits, few tests of what fits are left.
#[inline(always)]
pub fn line_cost<M: PrefixSums>(
    fragments: &[M],
    line_widths: &[usize],
    penalties: &Penalties,
    start: usize,
    end: usize,
    number: usize,
) -> Option<u128>
    requires ordered { start < end }
    requires within { end ≤ length fragments.now }
    requires measured { HavePrefixSums M.priced M.opens M.closes fragments.now }
    ensures { let cost = line_costs
        (problem_by M.priced penalties.now line_widths.now fragments.now) start end number
        in SomeIff result (Fits128Bits cost) cost }
{
    let last = &fragments[end - 1];
    let line = CostedLine {
        closed: last.closed_width(&fragments[start]),
        target: line_width(line_widths, number).max(1),
        is_last: end == fragments.len(),
        is_single: end == start + 1,
    };
    let fit_cost = line.fit_cost(penalties)?;
    fit_cost.checked_add(penalties.nline_penalty as u128 + last.break_penalty() as u128)
}

/// What the cost of missing its target comes from, for a line.
#[derive(Clone, Copy)]
struct CostedLine {
    closed: u128,
    target: usize,
    is_last: bool,
    is_single: bool,
}

impl CostedLine {
    /// The cost of missing the target, or `None` where it needs more than 128 bits.
    fn fit_cost(self, penalties: &Penalties) -> Option<u128>
        ensures { let cost = fit_cost penalties.now self.target self.closed self.is_last
            self.is_single in SomeIff result (Fits128Bits cost) cost }
    {
        let target = self.target as u128;
        if self.closed > target {
            let excess = self.closed - target;
            let factor = penalties.overflow_penalty as u128;
            // Numbers of 64 bits are multiplied at once, and most are such.
            return match u64::try_from(excess) {
                Ok(excess) => Some(excess as u128 * factor),
                Err(_) => excess.checked_mul(factor),
            };
        }
        if !self.is_last {
            let gap = (target - self.closed) as u64;
            return Some(gap as u128 * gap as u128);
        }
        let is_short = self.closed * (penalties.short_last_line_fraction as u128) < target;
        Some(if self.is_single && is_short {
            penalties.short_last_line_penalty as u128
        } else {
            0
        })
    }
}
