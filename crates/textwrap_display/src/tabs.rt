//! A text with blanks in the place of its tabs.
ghost use Rattle.std.specs.Prelude.{◌≡◌, ◌++◌, string_bytes, IfOk, OnOk};
ghost use Rattle.textwrap_display.specs.Tabs.{expanded, expanded_tabs, filled_up, last_line};
ghost use Rattle.textwrap_display.specs.Tabs.{tab_blanks};
ghost use Rattle.textwrap_layout.specs.Paragraph.{line_view};

use std::alloc::{AllocError, Allocator};
use std::borrow::CowStr;
use textwrap_text::blanks::push_blanks;
use textwrap_text::widths::display_width;

/// The text with blanks in the place of each tab (U+0009), up to the next column that `stop`
/// divides.
///
/// With 4, `"a\tbc"` becomes `"a   bc"`, and `"abcd\te"` becomes `"abcd    e"`: a tab that stands
/// at such a column leads to the next one. With 0, tabs are left out. A text without a tab stays as
/// it is, and is not copied.
///
/// Columns are counted from the beginning of each line, which follows a line feed, and are those of
/// [`display_width`]. A tab cuts an escape sequence in two: what stands before it and what follows
/// it are each measured by themselves.
///
/// The tab is HT of ECMA-48. Terminals have a stop at each eighth column.
///
/// ```rust
/// let text = expand_tabs(alloc, "안\tx", 4)?;
/// ```
///
/// The text is `"안  x"`.
///
/// # Errors
/// Out of memory, also where the text would be longer than 64 bits can say.
pub fn expand_tabs<'t, A: Allocator>(
    alloc: A,
    text: &'t str,
    stop: usize,
) -> Result<CowStr<'t, A>, AllocError>
    ensures expanded { IfOk result (λ new. line_view new ≡ expanded stop text.now) }
{
    if !text.contains('\t') {
        return Ok(CowStr::Borrowed(text));
    }
    let mut expanded = String::new(alloc);
    push_expanded(&mut expanded, text, stop)?;
    Ok(CowStr::Owned(expanded))
}

/// Adds a text with blanks in the place of its tabs.
fn push_expanded<A: Allocator>(
    expanded: &mut String<A>,
    text: &str,
    stop: usize,
) -> Result<(), AllocError>
    ensures { OnOk result (string_bytes expanded.new
        ≡ string_bytes expanded.old ++ expanded_tabs stop text.now) }
{
    let mut rest = text;
    while let Some((part, after)) = rest.split_once('\t') {
        push_filled_up(expanded, part, stop)?;
        rest = after;
    }
    expanded.push_str(rest)?;
    Ok(())
}

/// Adds a part of a text, and the blanks of the tab behind it.
fn push_filled_up<A: Allocator>(
    text: &mut String<A>,
    part: &str,
    stop: usize,
) -> Result<(), AllocError>
    ensures { OnOk result
        (string_bytes text.new ≡ string_bytes text.old ++ filled_up stop part.now) }
{
    let blanks = tab_blanks(stop, display_width(last_line(part)));
    text.push_str(part)?;
    // Reserved before a blank is written, so that a text that fits no memory is refused at once.
    text.reserve(blanks)?;
    push_blanks(text, blanks)
}

/// What stands behind the last line feed of a text.
fn last_line(text: &str) -> &str
    ensures { result.now ≡ last_line text.now }
{
    match text.rsplit_once('\n') {
        Some((_, line)) => line,
        None => text,
    }
}

/// How many blanks a tab becomes behind so many columns.
fn tab_blanks(stop: usize, columns: usize) -> usize
    ensures { result ≡ tab_blanks stop columns }
{
    if stop == 0 {
        return 0;
    }
    stop - columns % stop
}
