//! Texts with colours and links, beside one another.
ghost use Rattle.std.specs.Prelude.{◌≡◌, map, string_bytes, IfOk};
ghost use Rattle.textwrap.specs.Errors.{OnlyMemoryRunsOut};
ghost use Rattle.textwrap_display.specs.Tables.{cell_texts, gaps_view};
ghost use Rattle.vectors_beside.specs.Styled.{AreStyledRows, carried_cell};

use std::alloc::{AllocError, Global};
use std::borrow::CowStr;
use textwrap::{Options, WrapError, wrap};
use textwrap_display::laws::carried_lines_keep_pens;
use textwrap_display::{Alignment, Column, Gaps, Layout, carry_styles, table_of_lines};

/// The rows of two texts beside one another, each in so many columns. A style or a link that goes on
/// over the end of a line is carried before the lines are laid out, so that it does not go on into
/// the other text.
///
/// At 3 and 3 columns, with a bar between them, `"\x1b[1mone two\x1b[0m"` and `"a b"` have the rows
/// `"\x1b[1mone\x1b[0m|a b"` and `"\x1b[1mtwo\x1b[0m|   "`.
pub fn rows_beside<'t>(
    alloc: Global,
    left: &'t str,
    right: &'t str,
    left_width: usize,
    right_width: usize,
    gaps: &Gaps<'_>,
) -> Result<Vec<String>, WrapError>
    // Each character shows in its cell what it shows in its text.
    ensures styled { IfOk result (λ rows. AreStyledRows (gaps_view gaps.now) left_width right_width
        left.now right.now (map string_bytes rows.items)) }
    ensures only_memory { OnlyMemoryRunsOut result }
{
    carried_lines_keep_pens();
    let mut wrapped = Vec::new(alloc);
    wrapped.push(wrap(alloc, left, Options::new(left_width))?)?;
    wrapped.push(wrap(alloc, right, Options::new(right_width))?)?;
    let cells = carried_cells(alloc, &wrapped)?;
    let columns = [
        Column {
            layout: Layout::new(left_width),
            parts: (),
            alignment: Alignment::Left,
        },
        Column {
            layout: Layout::new(right_width),
            parts: (),
            alignment: Alignment::Left,
        },
    ];
    let rows = table_of_lines(alloc, &cells, &columns, gaps)?;
    Ok(rows)
}

/// The lines of each text, so that each line stands by itself. They have no indents.
fn carried_cells<'l>(
    alloc: Global,
    wrapped: &'l [Vec<CowStr<'_>>],
) -> Result<Vec<Vec<CowStr<'l>>>, AllocError>
    ensures { IfOk result (λ cells.
        cell_texts cells.items ≡ map carried_cell (cell_texts wrapped.now)) }
{
    let options = Options::new(0);
    let mut cells = Vec::new(alloc);
    for lines in wrapped {
        cells.push(carry_styles(alloc, lines, &options)?)?;
    }
    Ok(cells)
}
