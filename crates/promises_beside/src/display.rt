//! Lines for display.
ghost use Rattle.std.specs.Prelude.{◌≡◌, ◌<◌, [], false, map, string_bytes, IfOk};
ghost use Rattle.textwrap_plain.specs.Balance.{AreBalanced, IsBalanced};
ghost use Rattle.textwrap_display.specs.Fitting.{fitting_widths};
ghost use Rattle.textwrap_display.specs.JustifiedText.{IsJustifiedText};
ghost use Rattle.textwrap_display.specs.Justifying.{justified};
ghost use Rattle.textwrap_display.specs.Needs.{needs_of};
ghost use Rattle.textwrap_display.specs.Shortening.{IsShortened, texts_of};
ghost use Rattle.textwrap_display.specs.Styles.{carried_lines};
ghost use Rattle.textwrap_display.specs.Tables.{AreTableRows, gaps_view, texts_in};
ghost use Rattle.textwrap_display.specs.Tabs.{expanded};
ghost use Rattle.textwrap_layout.specs.Options.{layout_view};
ghost use Rattle.textwrap_layout.specs.Paragraph.{line_view, DividesWith};
ghost use Rattle.textwrap_plain.specs.Options.{points_by};
ghost use Rattle.textwrap_text.specs.Units.{text_width};

use std::alloc::{AllocError, Global};
use std::borrow::CowStr;
use textwrap::{Options, WrapError};
use textwrap_display::{
    Column, Gaps, Need, carry_styles, expand_tabs, fill_justified, fitting_widths, justify,
    needs_of, shorten, table,
};
use textwrap_layout::layout::Layout;
use textwrap_layout::parts::Parts;
use textwrap_layout::printable_cuts::PrintableCuts;
use textwrap_plain::balancing::{Balance, balanced_width, wrap_balanced};
use textwrap_plain::parts::PlainParts;

/// As `justify`.
pub fn justified_line<'t>(
    alloc: Global,
    line: &'t str,
    width: usize,
) -> Result<CowStr<'t>, AllocError>
    ensures { IfOk result (λ text. line_view text ≡ justified width line.now) }
{
    let text = justify(alloc, line, width)?;
    Ok(text)
}

/// As `fill_justified`.
pub fn justified_text<P: Parts<Global>>(
    alloc: Global,
    text: &str,
    layout: Layout<'_>,
    parts: &P,
) -> Result<String, WrapError>
    ensures filled { IfOk result (λ filled. IsJustifiedText (layout_view layout.entry)
        (DividesWith (P.may parts.now) (layout_view layout.entry)) text.now
        (string_bytes filled)) }
{
    let filled = fill_justified(alloc, text, layout, parts)?;
    Ok(filled)
}

/// As `shorten`.
pub fn shortened_line<'t>(
    alloc: Global,
    line: &'t str,
    width: usize,
    placeholder: &str,
) -> Result<CowStr<'t>, AllocError>
    ensures cut { width < text_width line.now
        → IfOk result (λ short.
        IsShortened false width placeholder.now line.now (line_view short)) }
{
    let short = shorten(alloc, line, width, placeholder)?;
    Ok(short)
}

/// As `expand_tabs`.
pub fn expanded_text<'t>(
    alloc: Global,
    text: &'t str,
    stop: usize,
) -> Result<CowStr<'t>, AllocError>
    ensures expanded { IfOk result (λ new. line_view new ≡ expanded stop text.now) }
{
    let new = expand_tabs(alloc, text, stop)?;
    Ok(new)
}

/// As `carry_styles`.
pub fn carried_styles<'l>(
    alloc: Global,
    lines: &'l [CowStr<'_>],
    options: &Options<'_>,
) -> Result<Vec<CowStr<'l>>, AllocError>
    ensures { IfOk result (λ carried. map line_view carried.items
        ≡ carried_lines options.now.initial_indent.now options.now.subsequent_indent.now []
        (texts_of lines.now)) }
{
    let carried = carry_styles(alloc, lines, options)?;
    Ok(carried)
}

/// As `needs_of`.
pub fn needs_of_columns(
    alloc: Global,
    cells: &[&str],
    columns: usize,
) -> Result<Vec<Need>, AllocError>
    ensures { IfOk result (λ needs. needs.items ≡ needs_of columns (texts_in cells.now)) }
{
    let needs = needs_of(alloc, cells, columns)?;
    Ok(needs)
}

/// As `fitting_widths`.
pub fn widths_by_content(
    alloc: Global,
    total: usize,
    needs: &[Need],
) -> Result<Vec<usize>, AllocError>
    ensures widths { IfOk result (λ widths. widths.items ≡ fitting_widths total needs.now) }
{
    let widths = fitting_widths(alloc, total, needs)?;
    Ok(widths)
}

/// As `balanced_width`.
pub fn width_of_balanced<W: PrintableCuts + Copy>(
    alloc: Global,
    text: &str,
    layout: Layout<'_>,
    parts: &PlainParts<'_, W>,
) -> Result<Balance, WrapError>
    ensures balanced { IfOk result (λ balance. IsBalanced (layout_view layout.entry)
        (W.words parts.now.words) (points_by parts.now.splitter) text.now balance.width) }
{
    let balance = balanced_width(alloc, text, layout, parts)?;
    Ok(balance)
}

/// As `wrap_balanced`.
pub fn balanced_lines<'t, W: PrintableCuts + Copy>(
    alloc: Global,
    text: &'t str,
    layout: Layout<'_>,
    parts: &PlainParts<'_, W>,
) -> Result<Vec<CowStr<'t>>, WrapError>
    ensures lines { IfOk result (λ lines. AreBalanced (layout_view layout.entry)
        (W.words parts.now.words) (points_by parts.now.splitter) text.now
        (map line_view lines.items)) }
{
    let lines = wrap_balanced(alloc, text, layout, parts)?;
    Ok(lines)
}

/// As `table`.
pub fn rows_of_table(
    alloc: Global,
    cells: &[&str],
    columns: &[Column<'_, Options<'_>>],
    gaps: &Gaps<'_>,
) -> Result<Vec<String>, WrapError>
    ensures rows { IfOk result (λ rows.
        AreTableRows columns.now (gaps_view gaps.now) (texts_in cells.now)
        (map string_bytes rows.items)) }
{
    let rows = table(alloc, cells, columns, gaps)?;
    Ok(rows)
}
