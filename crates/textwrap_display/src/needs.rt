//! What the columns of a table need by their texts.
ghost use Rattle.std.specs.Prelude.{◌≡◌, ◌==◌, ◌<◌, IfOk};
ghost use Rattle.std.specs.List.{slice_split};
ghost use Rattle.textwrap_display.specs.Fitting.{widest_line};
ghost use Rattle.textwrap_display.specs.Needs.{column_texts, need_of, needs_of, widest, words_in};
ghost use Rattle.std.specs.Prelude.{slice_index_or, []};
ghost use Rattle.textwrap_display.specs.Tables.{texts_in};

use std::alloc::{AllocError, Allocator};
use textwrap_text::widths::display_width;

/// What a column of a table needs by its texts, in columns of the screen. A caller that wants
/// bounds of its own changes the two numbers.
#[derive(Clone, Copy, Debug, PartialEq, Eq)]
pub struct Need {
    /// How wide the widest word is. In a column that is narrower, words are broken.
    pub least: usize,
    /// How wide the widest line is. In a column that is as wide, no line is wrapped.
    pub most: usize,
}

impl Need {
    /// How wide the widest line is: no narrower than the widest word.
    pub(crate) fn widest_line(&self) -> usize
        ensures { result ≡ widest_line self.now }
    {
        self.least.max(self.most)
    }
}

/// What each column of a table needs whose cells are these texts, row by row, in so many columns.
///
/// The last row may be shorter. The lines of a text are what stands between its line feeds, and the
/// words of a line what stands between its blanks (U+0020); each is as wide as
/// [`display_width`](textwrap::words::display_width) measures it. A column without texts needs
/// nothing.
///
/// ```rust
/// let texts = ["-h", "Print this help.", "--width N", "Wrap at N columns."];
/// let needs = needs_of(alloc, &texts, 2)?;
/// ```
///
/// The first column needs 7 to 9, the second one 8 to 18.
///
/// # Errors
/// Out of memory.
pub fn needs_of<A: Allocator>(
    alloc: A,
    cells: &[&str],
    columns: usize,
) -> Result<Vec<Need, A>, AllocError>
    ensures { IfOk result (λ needs. needs.items ≡ needs_of columns (texts_in cells.now)) }
{
    let mut needs = Vec::with_capacity(alloc, columns)?;
    for column in 0..columns {
        needs.push(column_need(cells, column, columns))?;
    }
    Ok(needs)
}

/// What the column at this place needs.
fn column_need(cells: &[&str], column: usize, columns: usize) -> Need
    requires { 0 < columns }
    ensures { result ≡ need_of (column_texts columns (texts_in cells.now) column) }
{
    let mut need = Need { least: 0, most: 0 };
    for row in cells.chunks(columns) {
        let text = text_at(row, column);
        need.least = need.least.max(widest_word(text));
        need.most = need.most.max(widest_part(text, '\n'));
    }
    need
}

/// The text at a place of a row, or nothing where the row is shorter.
fn text_at<'t>(row: &[&'t str], column: usize) -> &'t str
    ensures { result.now ≡ slice_index_or (texts_in row.now) column [] }
{
    match row.get(column) {
        Some(text) => text,
        None => "",
    }
}

/// How wide the widest word of a text is.
fn widest_word(text: &str) -> usize
    ensures { result ≡ widest (words_in text.now) }
{
    text.split('\n')
        .fold(0, |most, line| most.max(widest_part(line, ' ')))
}

/// How wide the widest part of a text is between these characters.
fn widest_part(text: &str, separator: char) -> usize
    requires { separator < 128 }
    ensures { result ≡ widest (slice_split (λ b. b == separator) text.now) }
{
    text.split(separator)
        .fold(0, |most, part| most.max(display_width(part)))
}
