//! The widths of columns that fit what stands in them.
ghost use Rattle.std.specs.Prelude.{◌≡◌, ◌+◌, ◌-◌, ◌^◌, ◌<◌, ◌≤◌, length, sum_by};
ghost use Rattle.std.specs.Prelude.{IfOk};
ghost use Rattle.textwrap_display.specs.Fitting.{fitting_widths, shared, widest_line};
ghost use Rattle.textwrap_display.specs.Fitting.{widest_word};
ghost use Rattle.textwrap_display.specs.Sharing.{Shares, rounded_down, sure, weight};

use crate::needs::Need;
use std::alloc::{AllocError, Allocator};

/// Shares out a total width among columns by what stands in them, and returns their widths. All
/// numbers are columns of the screen. The total is what a row has beside its gaps.
///
/// Each column gets its widest word, and what is left of the total is shared out in proportion to
/// what each column still lacks of its widest line. Where all widest lines have room, each column
/// gets its widest line, and what is left is shared out in proportion to these, or evenly if all
/// are empty; where not even the widest words have room, the total is shared out in proportion to
/// these, and words are broken. Shares are rounded down, and what this leaves over goes one by one
/// to the first columns that have a share, so the widths add up to the total exactly.
///
/// A column whose `most` is less than its `least` counts as one whose `most` is its `least`. For a
/// table no wider than its lines, pass the sum of all `most` where that is less than the total. The
/// rule is the automatic table layout of CSS 2.1 (17.5.2.2), which leaves open how the rest is
/// shared out.
///
/// ```rust
/// let texts = ["-h", "Print this help.", "--width N", "Wrap at N columns."];
/// let needs = needs_of(alloc, &texts, 2)?;
/// let widths = fitting_widths(alloc, 20, &needs)?;
/// ```
///
/// The columns need 7 to 9 and 8 to 18, and become 8 and 12 wide.
///
/// # Errors
/// Out of memory.
#[tactic(auto, using(crate::proofs::FittingWidths::shares_known))]
pub fn fitting_widths<A: Allocator>(
    alloc: A,
    total: usize,
    needs: &[Need],
) -> Result<Vec<usize, A>, AllocError>
    ensures widths { IfOk result (λ widths. widths.items ≡ fitting_widths total needs.now) }
    // So the caller knows that each column has a width.
    ensures count { IfOk result (λ widths. length widths.items ≡ length needs.now) }
{
    let sharing = Sharing::of(total, needs);
    let mut over = sharing.left_over(total, needs);
    let mut widths = Vec::with_capacity(alloc, needs.len())?;
    for need in needs {
        let one = over.min(sharing.basis.weight(need).min(1));
        widths.push(sharing.rounded_down(need) + one)?;
        over -= one;
    }
    Ok(widths)
}

/// What has room in a total.
#[derive(Clone, Copy)]
enum Basis {
    /// All widest lines, and these are empty.
    Nothing,
    /// All widest lines.
    Lines,
    /// All widest words.
    Words,
    /// Not even the widest words.
    Scarce,
}

impl Basis {
    /// How wide a column is before the rest is shared out.
    fn sure(self, need: &Need) -> usize
        ensures { result ≡ sure self need.now }
    {
        match self {
            Basis::Nothing | Basis::Lines => need.widest_line(),
            Basis::Words => need.least,
            Basis::Scarce => 0,
        }
    }

    /// How much a column counts where the rest is shared out.
    fn weight(self, need: &Need) -> usize
        ensures { result ≡ weight self need.now }
    {
        match self {
            Basis::Nothing => 1,
            Basis::Lines => need.widest_line(),
            Basis::Words => need.widest_line() - need.least,
            Basis::Scarce => need.least,
        }
    }
}

/// How a total is shared out among columns.
#[derive(Clone, Copy)]
struct Sharing {
    basis: Basis,
    /// What of the total is shared out.
    left: usize,
    /// How much all columns count together.
    weights: u128,
}

impl Sharing {
    /// How this total is shared out among columns with these needs.
    #[tactic(auto, using(crate::proofs::FittingWidths::all_needs))]
    fn of(total: usize, needs: &[Need]) -> Sharing
        ensures widths { fitting_widths total needs.now
            ≡ shared (sure result.basis) (weight result.basis) total needs.now }
        ensures shares { Shares result total needs.now }
    {
        let (words, lines) = sums_of(needs);
        if lines == 0 {
            Sharing {
                basis: Basis::Nothing,
                left: total,
                weights: needs.len() as u128,
            }
        } else if lines <= total as u128 {
            Sharing {
                basis: Basis::Lines,
                left: total - lines as usize,
                weights: lines,
            }
        } else if words <= total as u128 {
            Sharing {
                basis: Basis::Words,
                left: total - words as usize,
                weights: lines - words,
            }
        } else {
            Sharing {
                basis: Basis::Scarce,
                left: total,
                weights: words,
            }
        }
    }

    /// How wide a column is with its share, rounded down.
    fn rounded_down(&self, need: &Need) -> usize
        requires some { 0 < self.now.weights }
        requires sure { sure self.now.basis need.now + self.now.left < 2 ^ 64 }
        requires weight { weight self.now.basis need.now ≤ self.now.weights }
        ensures { result ≡ rounded_down self.now need.now }
    {
        let share = self.left as u128 * self.basis.weight(need) as u128 / self.weights;
        self.basis.sure(need) + share as usize
    }

    /// What rounding leaves over.
    fn left_over(&self, total: usize, needs: &[Need]) -> usize
        requires { Shares self.now total needs.now }
        ensures { result ≡ total - sum_by (rounded_down self.now) needs.now }
    {
        let mut over = total;
        for need in needs {
            over = over.saturating_sub(self.rounded_down(need));
        }
        over
    }
}

/// How wide the widest words of all columns are together, and their widest lines.
fn sums_of(needs: &[Need]) -> (u128, u128)
    ensures words { result.0 ≡ sum_by widest_word needs.now }
    ensures lines { result.1 ≡ sum_by widest_line needs.now }
{
    let mut words = 0u128;
    let mut lines = 0u128;
    for need in needs {
        words += need.least as u128;
        lines += need.widest_line() as u128;
    }
    (words, lines)
}
