//! A line with blanks up to a width.
ghost use Rattle.std.specs.Prelude.{◌≡◌, ◌++◌, string_bytes, IfOk, OnOk};
ghost use Rattle.textwrap.specs.Rows.{cell_text};
ghost use Rattle.textwrap_display.specs.Alignment.{aligned, blanks_before, spread};
ghost use Rattle.textwrap_layout.specs.Paragraph.{line_bytes, line_view};

use std::alloc::{AllocError, Allocator};
use std::borrow::CowStr;
use textwrap::inner::RowCell;
use textwrap::words::display_width;
use textwrap_text::blanks::push_blanks;

/// Where a line stands in its width.
#[derive(Clone, Copy, Debug, PartialEq, Eq)]
pub enum Alignment {
    /// At the left: the blanks follow it.
    Left,
    /// At the right: the blanks stand before it.
    Right,
    /// In the middle. An odd blank follows it.
    Centre,
}

/// The line with blanks up to the width, which is in columns, as [`display_width`] measures them.
///
/// In 6 columns `"foo"` is `"foo   "` at the left, `"   foo"` at the right and `" foo  "` in the
/// middle. A line that is as wide or wider stays as it is, and is not copied.
///
/// # Errors
/// Out of memory, also where the text would be longer than 64 bits can say.
pub fn align<'t, A: Allocator>(
    alloc: A,
    line: &'t str,
    width: usize,
    alignment: Alignment,
) -> Result<CowStr<'t, A>, AllocError>
    ensures { IfOk result (λ text. line_view text ≡ aligned alignment width line.now) }
{
    let spare = width.saturating_sub(display_width(line));
    if spare == 0 {
        return Ok(CowStr::Borrowed(line));
    }
    // Reserved before a blank is written, so that a text that fits no memory is refused at once.
    let len = line.len().checked_add(spare).ok_or(AllocError)?;
    let mut text = String::with_capacity(alloc, len)?;
    push_spread(&mut text, line, spare, alignment)?;
    Ok(CowStr::Owned(text))
}

/// A line that is aligned in a width, as a cell.
pub(crate) fn aligned_cell<'a>(text: &'a str, width: usize, alignment: Alignment) -> RowCell<'a>
    ensures { cell_text result ≡ line_bytes (aligned alignment width text.now) }
{
    let spare = width.saturating_sub(display_width(text));
    let before = blanks_before(alignment, spare);
    RowCell {
        before,
        text,
        after: spare - before,
    }
}

/// Adds a line with so many spare blanks on its two sides.
fn push_spread<A: Allocator>(
    text: &mut String<A>,
    line: &str,
    spare: usize,
    alignment: Alignment,
) -> Result<(), AllocError>
    ensures { OnOk result (string_bytes text.new
        ≡ string_bytes text.old ++ spread alignment spare line.now) }
{
    let before = blanks_before(alignment, spare);
    push_blanks(text, before)?;
    text.push_str(line)?;
    push_blanks(text, spare - before)
}

/// How many of the spare columns stand before the line.
fn blanks_before(alignment: Alignment, spare: usize) -> usize
    ensures { result ≡ blanks_before alignment spare }
{
    match alignment {
        Alignment::Left => 0,
        Alignment::Right => spare,
        Alignment::Centre => spare / 2,
    }
}
