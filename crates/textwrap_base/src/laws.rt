//! Laws of the definitions that the contracts cite. Each is the contract of a function that does
//! nothing, so that a proof may call on it, and its statement has a name in `specs/Laws.antt`.
//!
//! A law has no example: its statement is all there is to it. A call is written
//! `table_has_least_costs();`, or where the law is about given values
//! `chosen_division_is_unique(&words, &[10], &penalties);`.
ghost use Rattle.textwrap_base.specs.Problem.{problem_of};
ghost use Rattle.textwrap_base.specs.Laws.{GreedyDivisionIsUnique};
ghost use Rattle.textwrap_base.specs.Laws.{ChosenDivisionIsUnique, TableDivisionIsUnique};
ghost use Rattle.textwrap_base.specs.Laws.{TableOverflowIsOverflow, TableHasLeastCosts};

use crate::fragments::Fragment;
use crate::penalties::Penalties;

/// A list of fragments has at most one greedy division, whatever the line widths.
pub fn greedy_division_is_unique<T: Fragment>()
    ensures { GreedyDivisionIsUnique T.sizes }
{}

/// Fragments have at most one chosen division, whatever the line widths.
pub fn chosen_division_is_unique<T: Fragment>(
    fragments: &[T],
    line_widths: &[usize],
    penalties: &Penalties,
)
    ensures { ChosenDivisionIsUnique
        (problem_of T.Fragment.own penalties.now line_widths.now fragments.now) }
{}

/// Fragments have at most one division by the table, whatever the line widths. So
/// `wrap_optimal_fit` and `wrap_optimal_fit_counted` return the same lines.
pub fn table_division_is_unique<T: Fragment>(
    fragments: &[T],
    line_widths: &[usize],
    penalties: &Penalties,
)
    ensures { TableDivisionIsUnique
        (problem_of T.Fragment.own penalties.now line_widths.now fragments.now) }
{}

/// Where all lines but the first have one width, the table overflows exactly where all widths
/// together need more than 128 bits, or the least cost of some prefix of the fragments does.
pub fn table_overflow_is_overflow<T: Fragment>(
    fragments: &[T],
    line_widths: &[usize],
    penalties: &Penalties,
)
    ensures { TableOverflowIsOverflow
        (problem_of T.Fragment.own penalties.now line_widths.now fragments.now) }
{}

/// Each entry of a table but the first is the least of what the entries before it give.
pub fn table_has_least_costs()
    ensures { TableHasLeastCosts }
{}
