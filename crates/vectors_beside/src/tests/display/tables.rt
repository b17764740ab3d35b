//! Texts in the columns of a table.
use super::super::plain::{assert_count, assert_gives_texts, assert_text};
use Alignment::{Left, Right};
use std::alloc::{Allocator, Global};
use std::process::Abort;
use textwrap::{Options, WrapAlgorithm, WrapError};
use textwrap_display::{Alignment, Column, Gaps, Layout, table};
use textwrap_vectors::heap::Heap;

const BARS: Gaps<'static> = Gaps {
    left: "|",
    middle: "|",
    right: "|",
};

/// The rows of the texts in columns of these widths and alignments, by first fit.
fn rows_of<A: Allocator + Copy>(
    alloc: A,
    shapes: &[(usize, Alignment)],
    texts: &[&str],
    gaps: &Gaps<'_>,
) -> Result<Vec<String<A>, A>, WrapError> {
    let mut columns = Vec::new(alloc);
    for &(width, alignment) in shapes {
        let options = Options::new(width).wrap_algorithm(WrapAlgorithm::FirstFit);
        columns.push(Column {
            layout: Layout::of(&options),
            parts: options,
            alignment,
        })?;
    }
    plain_table(alloc, texts, &columns, gaps)
}

/// `table`.
fn plain_table<A: Allocator + Copy>(
    alloc: A,
    texts: &[&str],
    columns: &[Column<'_, Options<'_>>],
    gaps: &Gaps<'_>,
) -> Result<Vec<String<A>, A>, WrapError> {
    table(alloc, texts, columns, gaps)
}

/// The rows of three texts in columns with options of their own.
fn rows_by_options(alloc: Global, texts: &[&str]) -> Result<Vec<String>, WrapError> {
    let unbroken = Options::new(3).break_words(false);
    let indented = Options::new(7).initial_indent("- ").subsequent_indent("  ");
    let columns = [
        Column {
            layout: Layout::of(&unbroken),
            parts: unbroken,
            alignment: Left,
        },
        Column {
            layout: Layout::of(&indented),
            parts: indented,
            alignment: Left,
        },
        Column {
            layout: Layout::new(3),
            parts: Options::new(3),
            alignment: Right,
        },
    ];
    plain_table(alloc, texts, &columns, &BARS)
}

/// Each column has options of its own: a word that is not broken passes its column, and an indent
/// is a part of the line.
#[test]
fn columns_have_their_own_options(rt: HostRuntime) {
    let rows = rows_by_options(rt.alloc(), &["foobar ab", "one two", "abcd"]);
    let wanted = ["|foobar|- one  |abc|", "|ab |  two  |  d|"];
    assert_gives_texts(&rt, "options", rows, &wanted);
}

const TWO_COLUMNS: &[(usize, Alignment)] = &[(1, Left), (1, Left)];

/// A cell of many lines beside one of a single line.
#[test]
fn a_high_row_is_made(rt: HostRuntime) {
    let text = "a\n".repeat(rt.alloc(), 20_000).expect(&rt, "text");
    assert_high_row(&rt, rows_of(rt.alloc(), TWO_COLUMNS, &[&text, "b"], &BARS));
}

/// Asserts that the first row has both texts, the last none, and each other the left one.
fn assert_high_row(rt: &impl Abort, rows: Result<Vec<String>, WrapError>) {
    let rows = rows.expect(rt, "rows");
    assert_count(rt, "rows", rows.len(), 20_001);
    for (r, row) in rows.iter().enumerate() {
        let wanted = match r {
            0 => "|a|b|",
            20_000 => "| | |",
            _ => "|a| |",
        };
        assert_text(rt, "a row", row, wanted);
    }
}

/// Many cells beside one another, where one at the end is missing: each row has two lines.
#[test]
fn many_rows_are_made(rt: HostRuntime) {
    let texts = vec![in rt.alloc(); "c d"; 9_999].expect(&rt, "texts");
    let rows = rows_of(rt.alloc(), TWO_COLUMNS, &texts, &BARS).expect(&rt, "rows");
    assert_count(&rt, "rows", rows.len(), 10_000);
}

/// A row of 200 cells.
const ROW_OF_200: &str =
    "|a|a|a|a|a|a|a|a|a|a|a|a|a|a|a|a|a|a|a|a|a|a|a|a|a|a|a|a|a|a|a|a|a|a|a|a|a|a|a|a|a|a|a|a|a|a|a|a|a|a|a|a|a|a|a|a|a|a|a|a|a|a|a|a|a|a|a|a|a|a\
|a|a|a|a|a|a|a|a|a|a|a|a|a|a|a|a|a|a|a|a|a|a|a|a|a|a|a|a|a|a|a|a|a|a|a|a|a|a|a|a|a|a|a|a|a|a|a|a|a|a|a|a|a|a|a|a|a|a|a|a|a|a|a|a|a|a|a|a|a|a\
|a|a|a|a|a|a|a|a|a|a|a|a|a|a|a|a|a|a|a|a|a|a|a|a|a|a|a|a|a|a|a|a|a|a|a|a|a|a|a|a|a|a|a|a|a|a|a|a|a|a|a|a|a|a|a|a|a|a|a|a|";

/// Many columns beside one another, in two rows.
#[test]
fn many_columns_are_made(rt: HostRuntime) {
    let shapes = vec![in rt.alloc(); (1, Left); 200].expect(&rt, "columns");
    let texts = vec![in rt.alloc(); "a"; 400].expect(&rt, "texts");
    let rows = rows_of(rt.alloc(), &shapes, &texts, &BARS);
    assert_gives_texts(&rt, "200 columns", rows, &[ROW_OF_200, ROW_OF_200]);
}

const REFUSED_SHAPES: &[(usize, Alignment)] = &[(3, Left), (3, Right)];

/// Whether a table has as many rows as it is to have.
pub fn is_table(heap: &Heap) -> Result<bool, WrapError> {
    let rows = rows_of(heap, REFUSED_SHAPES, &["one two", "a", "b"], &BARS)?;
    Ok(rows.len() == 3)
}
