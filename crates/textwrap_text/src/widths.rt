//! The columns of a text, and the text without its escape sequences (ECMA-48).
ghost use Rattle.std.specs.Prelude.{◌≡◌, ◌≢◌, ◌+◌, ◌<◌, ◌≤◌, length, drop, slice_index};
ghost use Rattle.std.specs.Prelude.{All, IfOk, IsCharBoundary, string_bytes};
ghost use Rattle.textwrap_text.specs.Units.{text_width, escape, stripped};

use crate::characters::{Characters, columns};
use crate::escapes::State;
use crate::printable::printable_len;
use std::alloc::{AllocError, Allocator};

/// The width of a text in terminal columns. Each visible character counts as it would alone, by its
/// East Asian width (Unicode Standard Annex #11): most take one column, wide ones two, and control
/// characters and combining marks none. Escape sequences (ECMA-48) are not visible and take none.
///
/// `display_width("Café")` is 4, also where escape sequences colour the text. The call always
/// succeeds and needs no memory.
pub fn display_width(text: &str) -> usize
    ensures width { result ≡ text_width text.now }
    ensures bound { result ≤ length text.now }
{
    let mut rest = text;
    let mut width = 0;
    while !rest.is_empty() {
        let (len, columns) = first_columns(rest);
        width += columns;
        rest = &rest[len..];
    }
    width
}

/// How many bytes at the beginning of a text are measured at once, and their columns: as much as is
/// printable ASCII, or an escape sequence, or other characters.
fn first_columns(text: &str) -> (usize, usize)
    requires { 0 < length text.now }
    ensures boundary { IsCharBoundary text.now result.0 }
    ensures some { 0 < result.0 }
    ensures columns { text_width text.now ≡ result.1 + text_width (drop result.0 text.now) }
{
    let bytes = text.as_bytes();
    let printable = printable_len(bytes);
    if printable > 0 {
        (printable, printable)
    } else if bytes[0] == 0x1b {
        sequence_columns(text)
    } else {
        visible_columns(text)
    }
}

/// The bytes and the columns of the first character of a text, or of the escape sequence that it
/// begins with.
fn sequence_columns(text: &str) -> (usize, usize)
    requires { 0 < length text.now }
    ensures boundary { IsCharBoundary text.now result.0 }
    ensures some { 0 < result.0 }
    ensures columns { text_width text.now ≡ result.1 + text_width (drop result.0 text.now) }
{
    let mut state = State::Text;
    let mut width = 0;
    for (at, ch) in text.char_indices() {
        if at > 0 && matches!(state, State::Text) {
            return (at, width);
        }
        let (next, is_visible) = state.step(ch);
        width += if is_visible { columns(ch) } else { 0 };
        state = next;
    }
    (text.len(), width)
}

/// The bytes and the columns of the visible characters that a text begins with, up to a blank.
fn visible_columns(text: &str) -> (usize, usize)
    requires some { 0 < length text.now }
    requires visible { slice_index text.now 0 ≢ escape }
    ensures boundary { IsCharBoundary text.now result.0 }
    ensures some { 0 < result.0 }
    ensures columns { text_width text.now ≡ result.1 + text_width (drop result.0 text.now) }
{
    let mut width = 0;
    for (at, ch) in text.char_indices() {
        if at > 0 && (ch == ' ' || ch == '\x1b') {
            return (at, width);
        }
        width += columns(ch);
    }
    (text.len(), width)
}

/// The visible characters of a text, in order: a copy without its escape sequences (ECMA-48).
///
/// A sequence without an end goes on to the end of the text, and is left out with it: `"a\x1b[1mb"`
/// becomes `"ab"`, and `"a\x1b[12"` becomes `"a"`. A text without ESC stays as it is.
///
/// # Errors
/// [`AllocError`] where memory runs out.
pub fn strip_ansi_escape_sequences<A: Allocator + Copy>(
    alloc: A,
    text: &str,
) -> Result<String<A>, AllocError>
    ensures stripped { IfOk result (λ plain. string_bytes plain ≡ stripped text.now) }
    ensures no_escape { IfOk result (λ plain. All (λ byte. byte ≢ escape) (string_bytes plain)) }
{
    let mut plain = String::new(alloc);
    for character in Characters::of(text) {
        if character.is_visible {
            plain.push(character.ch)?;
        }
    }
    Ok(plain)
}

/// The bytes of a text without its escape sequences.
pub fn visible_len(text: &str) -> usize
    ensures { result ≡ length (stripped text.now) }
{
    let mut len = 0;
    for character in Characters::of(text) {
        if character.is_visible {
            len += character.ch.len_utf8();
        }
    }
    len
}
