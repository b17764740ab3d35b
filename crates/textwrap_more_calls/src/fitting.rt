//! The widths of columns that fit the cells of a table.
ghost use Rattle.std.specs.Prelude.{◌≡◌, ◌≤◌, ◌↔◌, All, IfOk};
ghost use Rattle.textwrap_calls.specs.Room.{WritesText};
ghost use Rattle.textwrap_calls.specs.Status.{not_utf8, too_small};
ghost use Rattle.textwrap_calls.specs.Texts.{bytes_of, IsText};
ghost use Rattle.textwrap_display.specs.Fitting.{fitting_widths};
ghost use Rattle.textwrap_display.specs.Needs.{needs_of};

use std::alloc::{AllocError, Global};
use textwrap_calls::room::put;
use textwrap_calls::status::{NOT_UTF8, OUT_OF_MEMORY};
use textwrap_calls::texts::{TextwrapText, are_utf8, strs_of};
use textwrap_display::{fitting_widths, needs_of};

/// Shares out a total width among the columns of a table by what stands in its cells, which come row by
/// row, the last of them maybe fewer: writes the width of each column, and to `count` that there are so
/// many. The total is what a row has beside its gaps, and the widths add up to it.
///
/// Each column gets its widest word, and what is left is shared out in proportion to what each still
/// lacks of its widest line. Cells `-h`, `Print this help.`, `--width N` and `Wrap at N columns.` in 2
/// columns with a total of 20 give the widths 8 and 12.
pub fn textwrap_fitting_widths(
    alloc: Global,
    cells: &[TextwrapText<'_>],
    columns: usize,
    total: usize,
    widths: &mut [usize],
    count: &mut usize,
) -> u32
    ensures widths { WritesText (λ answer. answer ≡ fitting_widths total
        (needs_of columns (bytes_of cells.now))) result widths.old widths.new count.old count.new }
    ensures not_utf8 { result ≡ not_utf8 ↔ ¬ All IsText cells.now }
    ensures statuses { result ≤ too_small }
{
    if !are_utf8(cells) {
        return NOT_UTF8;
    }
    match list_widths(alloc, cells, columns, total) {
        Ok(found) => put(&found, widths, count),
        Err(_) => OUT_OF_MEMORY,
    }
}

/// Those widths.
fn list_widths(
    alloc: Global,
    cells: &[TextwrapText<'_>],
    columns: usize,
    total: usize,
) -> Result<Vec<usize>, AllocError>
    requires { All IsText cells.now }
    ensures { IfOk result (λ widths. widths.items
        ≡ fitting_widths total (needs_of columns (bytes_of cells.now))) }
{
    let texts = strs_of(alloc, cells)?;
    let needs = needs_of(alloc, &texts, columns)?;
    fitting_widths(alloc, total, &needs)
}
