//! Lists of texts.
ghost use Rattle.std.specs.Prelude.{◌≡◌, ◌↔◌, true, All, IfOk};
ghost use Rattle.textwrap_calls.specs.Columns.{ArePlacedRows};
ghost use Rattle.textwrap_calls.specs.Texts.{bytes_of, IsText};
ghost use Rattle.textwrap_display.specs.Shortening.{texts_of};
ghost use Rattle.textwrap_display.specs.Tables.{texts_in};

use simdutf8::basic::from_utf8;
use std::alloc::{AllocError, Global};
use std::borrow::CowStr;
use textwrap_lines::placed::PlacedLines;

/// A text of a list.
#[repr(C)]
#[derive(Clone, Copy)]
pub struct TextwrapText<'a> {
    /// The text, in UTF-8.
    pub bytes: &'a [u8],
}

/// Whether all of these are UTF-8.
pub fn are_utf8(texts: &[TextwrapText<'_>]) -> bool
    ensures { result ≡ true ↔ All IsText texts.now }
{
    for text in texts {
        let Ok(_) = from_utf8(text.bytes) else {
            return false;
        };
    }
    true
}

/// The texts as lines, borrowed.
///
/// # Errors
/// Out of memory.
pub fn lines_of<'t>(
    alloc: Global,
    texts: &[TextwrapText<'t>],
) -> Result<Vec<CowStr<'t>>, AllocError>
    requires { All IsText texts.now }
    ensures { IfOk result (λ lines. texts_of lines.items ≡ bytes_of texts.now) }
{
    let mut lines = Vec::with_capacity(alloc, texts.len())?;
    for text in texts {
        let Ok(line) = from_utf8(text.bytes) else {
            unreachable!();
        };
        lines.push(CowStr::Borrowed(line))?;
    }
    Ok(lines)
}

/// The texts as the library has them.
///
/// # Errors
/// Out of memory.
pub fn strs_of<'t>(alloc: Global, texts: &[TextwrapText<'t>]) -> Result<Vec<&'t str>, AllocError>
    requires { All IsText texts.now }
    ensures { IfOk result (λ strs. texts_in strs.items ≡ bytes_of texts.now) }
{
    let mut strs = Vec::with_capacity(alloc, texts.len())?;
    for text in texts {
        let Ok(bytes) = from_utf8(text.bytes) else {
            unreachable!();
        };
        strs.push(bytes)?;
    }
    Ok(strs)
}

/// The lines, placed as lines of their own.
///
/// # Errors
/// Out of memory.
pub fn place_all(alloc: Global, lines: Vec<CowStr<'_>>) -> Result<PlacedLines<Global>, AllocError>
    ensures { IfOk result (λ placed. ArePlacedRows (texts_of lines.entry.items)
        placed.places.items placed.built.items) }
{
    let mut placed = PlacedLines::new(alloc);
    for line in lines {
        placed.push_built("", &line, "")?;
    }
    Ok(placed)
}
