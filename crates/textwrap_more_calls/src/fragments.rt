//! Fragments of the caller's own, and the two algorithms that divide them into lines.
ghost use Rattle.std.specs.Prelude.{◌≡◌, ◌≢◌, ◌⊎◌, ◌↔◌, true, IfOk, map};
ghost use Rattle.textwrap_base.specs.Cost.{total_width, Overflows, AreEqualFromSecond};
ghost use Rattle.textwrap_base.specs.Division.{IsGreedy, IsDivision};
ghost use Rattle.textwrap_base.specs.Errors.{Fits64Bits, Passes128Bits};
ghost use Rattle.textwrap_base.specs.OptimalFit.{IsByOptimalFit};
ghost use Rattle.textwrap_base.specs.Table.{TableOverflows};
ghost use Rattle.textwrap_calls.specs.Room.{WritesText};
ghost use Rattle.textwrap_calls.specs.Status.{done, out_of_memory, too_small, unknown_options};
ghost use Rattle.textwrap_calls.specs.Status.{overflow};
ghost use Rattle.textwrap_more_calls.specs.Fragments.{fragment_sizes, fragments_problem, ends_of};
ghost use Rattle.textwrap_more_calls.specs.Fragments.{AreEndsOf, AreKnownPenalties};

use std::alloc::{AllocError, Global};
use textwrap::words::Fragment;
use textwrap::wrap_algorithms::{Penalties, WrapError, wrap_first_fit, wrap_optimal_fit};
use textwrap_calls::room::put;
use textwrap_calls::status::{OUT_OF_MEMORY, OVERFLOW, UNKNOWN_OPTIONS};

/// An item that is placed on a line and never cut, in one unit of the caller's choice.
#[repr(C)]
#[derive(Clone, Copy, Debug)]
pub struct TextwrapFragment {
    /// The width of the item itself.
    pub width: usize,
    /// The width of the space after it, which counts where another item follows on the line.
    pub whitespace_width: usize,
    /// The width that it adds at the end of a line, as a hyphen does.
    pub penalty_width: usize,
    /// What a line costs more that ends with it, by least cost.
    pub break_penalty: usize,
}

impl Fragment for TextwrapFragment {
    ghost use Rattle.std.specs.Prelude.{Some};

    ghost sizes = { fragment_sizes };

    ghost own_break_penalty = { λ fragment _. Some fragment.break_penalty };

    fn width(&self) -> usize {
        self.width
    }

    fn whitespace_width(&self) -> usize {
        self.whitespace_width
    }

    fn penalty_width(&self) -> usize {
        self.penalty_width
    }

    fn break_penalty(&self, _penalties: &Penalties) -> usize {
        self.break_penalty
    }
}

/// What lines of the least cost are measured by: the library's `Penalties`, but that what a break
/// costs stands in each fragment.
#[repr(C)]
#[derive(Clone, Copy)]
pub struct TextwrapPenalties {
    /// What each line costs.
    pub nline_penalty: usize,
    /// What each unit past the width costs.
    pub overflow_penalty: usize,
    /// A last line of one fragment is short if it takes less than the width divided by this.
    pub short_last_line_fraction: usize,
    /// What a short last line costs.
    pub short_last_line_penalty: usize,
    /// 0 each, until a later penalty takes one, for which 0 will change nothing.
    pub reserved_sizes: [usize; 4],
}

/// Divides the fragments into lines by first fit, and writes where each line ends: how many
/// fragments stand before its end. Line l, counted from 0, may be `line_widths[l]` wide. The last
/// width serves all later lines, and without any it is 0. No fragments are one empty line.
pub fn textwrap_wrap_first_fit(
    alloc: Global,
    fragments: &[TextwrapFragment],
    line_widths: &[usize],
    ends: &mut [usize],
    count: &mut usize,
) -> u32
    ensures greedy { WritesText (AreEndsOf (IsGreedy fragment_sizes line_widths.now fragments.now))
        result ends.old ends.new count.old count.new }
    ensures statuses { (result ≡ done) ⊎ (result ≡ out_of_memory) ⊎ (result ≡ too_small) }
{
    match first_fit_ends(alloc, fragments, line_widths) {
        Ok(found) => put(&found, ends, count),
        Err(_) => OUT_OF_MEMORY,
    }
}

/// Where the lines end by first fit.
fn first_fit_ends(
    alloc: Global,
    fragments: &[TextwrapFragment],
    line_widths: &[usize],
) -> Result<Vec<usize>, AllocError>
    ensures { IfOk result (λ ends.
        AreEndsOf (IsGreedy fragment_sizes line_widths.now fragments.now) ends.items) }
{
    let lines = wrap_first_fit(alloc, fragments, line_widths)?;
    line_ends(alloc, fragments, &lines)
}

/// The same by least cost. `OVERFLOW` if the widths of all fragments together, or the least cost of
/// the first so many of them, need more than 128 bits. Penalties that are not known are
/// `UNKNOWN_OPTIONS`.
pub fn textwrap_wrap_optimal_fit(
    alloc: Global,
    fragments: &[TextwrapFragment],
    line_widths: &[usize],
    penalties: &TextwrapPenalties,
    ends: &mut [usize],
    count: &mut usize,
) -> u32
    ensures fit { WritesText (AreEndsOf (IsByOptimalFit
        (fragments_problem penalties.now line_widths.now fragments.now))) result ends.old ends.new
        count.old count.new }
    ensures overflow_only { result ≡ overflow → AreEqualFromSecond line_widths.now
        → Overflows (fragments_problem penalties.now line_widths.now fragments.now) }
    ensures written_only { (result ≡ done) ⊎ (result ≡ too_small)
        → AreEqualFromSecond line_widths.now
        → ¬ Overflows (fragments_problem penalties.now line_widths.now fragments.now) }
    ensures table_overflow_only { result ≡ overflow
        → TableOverflows (fragments_problem penalties.now line_widths.now fragments.now) }
    ensures table_written_only { (result ≡ done) ⊎ (result ≡ too_small)
        → ¬ TableOverflows (fragments_problem penalties.now line_widths.now fragments.now) }
    ensures too_wide { AreKnownPenalties penalties.now
        → Passes128Bits (total_width fragment_sizes fragments.now) → result ≡ overflow }
    ensures no_overflow { Fits64Bits (total_width fragment_sizes fragments.now) → result ≢ overflow }
    ensures unknown { result ≡ unknown_options ↔ ¬ AreKnownPenalties penalties.now }
    ensures statuses { (result ≡ done) ⊎ (result ≡ out_of_memory) ⊎ (result ≡ too_small)
        ⊎ (result ≡ unknown_options) ⊎ (result ≡ overflow) }
{
    if !are_known_penalties(penalties) {
        return UNKNOWN_OPTIONS;
    }
    let penalties = Penalties {
        nline_penalty: penalties.nline_penalty,
        overflow_penalty: penalties.overflow_penalty,
        short_last_line_fraction: penalties.short_last_line_fraction,
        short_last_line_penalty: penalties.short_last_line_penalty,
        // Each fragment has its own.
        hyphen_penalty: 0,
    };
    let lines = match wrap_optimal_fit(alloc, fragments, line_widths, &penalties) {
        Ok(lines) => lines,
        Err(WrapError::Memory(_)) => return OUT_OF_MEMORY,
        Err(WrapError::Overflow(_)) => return OVERFLOW,
    };
    match line_ends(alloc, fragments, &lines) {
        Ok(found) => put(&found, ends, count),
        Err(_) => OUT_OF_MEMORY,
    }
}

/// Whether the numbers in reserve are 0.
fn are_known_penalties(penalties: &TextwrapPenalties) -> bool
    ensures { result ≡ true ↔ AreKnownPenalties penalties.now }
{
    penalties.reserved_sizes == [0; 4]
}

/// Where lines end that fragments were divided into.
pub(crate) fn line_ends<T>(
    alloc: Global,
    fragments: &[T],
    lines: &[&[T]],
) -> Result<Vec<usize>, AllocError>
    requires { IsDivision fragments.now (map (λ line. line.now) lines.now) }
    ensures { IfOk result (λ ends. ends.items ≡ ends_of (map (λ line. line.now) lines.now)) }
{
    let mut ends = Vec::new(alloc);
    let mut end = 0;
    for line in lines {
        end += line.len();
        ends.push(end)?;
    }
    Ok(ends)
}
