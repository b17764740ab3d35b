//! Indenting and dedenting a text.
ghost use Rattle.std.specs.Prelude.{◌≡◌, [], false, chars, length, string_bytes, IfOk, IsOk, OnOk};
ghost use Rattle.std.specs.Io.{StartsWith};
ghost use Rattle.textwrap.specs.Indentation.{is_blank_line, indented, leading_whitespace, narrowed};
ghost use Rattle.textwrap.specs.Indentation.{margin_of, without_margin, dedented};
ghost use Rattle.textwrap_text.specs.LentText.{as_len, written_over};

use crate::text_sinks::TextSink;
use std::alloc::{AllocError, Allocator};
use textwrap_text::lent_text::LentText;
use textwrap_text::text_lines::Lines;

/// Puts a prefix before each line of a text.
///
/// With `"> "`, `"a\r\n\r\n"` becomes `"> a\r\n>\r\n"`. Each line feed ends a line; after the last
/// one there is a line only where more text follows. A line that is empty, or whitespace alone
/// (Unicode's `White_Space`), gets the prefix without its trailing whitespace. All else stays as it
/// is, the line endings too.
///
/// # Errors
/// [`AllocError`] where memory runs out.
pub fn indent<A: Allocator + Copy>(alloc: A, s: &str, prefix: &str) -> Result<String<A>, AllocError>
    ensures indented { IfOk result (λ text. string_bytes text ≡ indented prefix.now s.now) }
{
    // A text of one line grows no more. An empty text needs no memory, and asks for none.
    let room = if s.is_empty() {
        0
    } else {
        s.len() + prefix.len()
    };
    let mut text = String::with_capacity(alloc, room)?;
    push_indented(s, prefix, &mut text)?;
    Ok(text)
}

/// Writes the text of [`indent`] into lent room, as much of it as there is room for, and returns how
/// many bytes it has, or the greatest number if they are more. The rest of the room stays as it was.
pub fn indent_into(s: &str, prefix: &str, room: &mut [u8]) -> usize
    ensures len { result ≡ as_len (length (indented prefix.now s.now)) }
    ensures room { room.new ≡ written_over room.old (indented prefix.now s.now) }
{
    let mut text = LentText::new(room);
    match push_indented(s, prefix, &mut text) {
        Ok(()) => text.len(),
        Err(_) => unreachable!(),
    }
}

/// Pushes the text with a prefix before each line to what has taken nothing.
///
/// # Errors
/// [`AllocError`] where memory runs out.
fn push_indented<S: TextSink>(s: &str, prefix: &str, text: &mut S) -> Result<(), AllocError>
    requires none { S.holds text.now text.now [] }
    ensures name { S.name text.new ≡ S.name text.old }
    ensures done { S.never_fails → IsOk result }
    ensures indented { OnOk result (S.holds text.old text.new (indented prefix.now s.now)) }
{
    let bare_prefix = prefix.trim_end();
    for line in Lines::of(s) {
        let indent = if is_blank_line(line.whole) {
            bare_prefix
        } else {
            prefix
        };
        text.push_part(indent)?;
        text.push_part(line.whole)?;
    }
    Ok(())
}

/// Removes the whitespace that all lines of a text begin with, its margin.
///
/// `"    foo\n  bar\n   \n    baz"` becomes `"  foo\nbar\n\n  baz"`. The margin is the whitespace
/// at the start of the first line that is not whitespace alone, up to the place where some later
/// line goes on otherwise: a tab and a space differ. A later line of whitespace alone shortens the
/// margin too, but not by being short. Lines of whitespace alone become empty, and before a line
/// feed one carriage return is dropped. A text that ends in a line feed still does.
///
/// # Errors
/// [`AllocError`] where memory runs out.
pub fn dedent<A: Allocator + Copy>(alloc: A, s: &str) -> Result<String<A>, AllocError>
    ensures dedented { IfOk result (λ text. string_bytes text ≡ dedented s.now) }
{
    // No dedented text is longer than the text. Of blanks alone nothing may be left, and then no
    // memory is needed.
    let room = if is_blank_line(s) { 0 } else { s.len() };
    let mut text = String::with_capacity(alloc, room)?;
    push_dedented(s, &mut text)?;
    Ok(text)
}

/// Writes the text of [`dedent`] into lent room, as much of it as there is room for, and returns how
/// many bytes it has. The rest of the room stays as it was.
pub fn dedent_into(s: &str, room: &mut [u8]) -> usize
    ensures len { result ≡ as_len (length (dedented s.now)) }
    ensures room { room.new ≡ written_over room.old (dedented s.now) }
{
    let mut text = LentText::new(room);
    match push_dedented(s, &mut text) {
        Ok(()) => text.len(),
        Err(_) => unreachable!(),
    }
}

/// Pushes the text without its margin to what has taken nothing.
///
/// # Errors
/// [`AllocError`] where memory runs out.
fn push_dedented<S: TextSink>(s: &str, text: &mut S) -> Result<(), AllocError>
    requires none { S.holds text.now text.now [] }
    ensures name { S.name text.new ≡ S.name text.old }
    ensures done { S.never_fails → IsOk result }
    ensures dedented { OnOk result (S.holds text.old text.new (dedented s.now)) }
{
    let margin = margin_of(s);
    for line in Lines::of(s) {
        text.push_part(without_margin(line.text, margin))?;
        if line.ending.is_some() {
            text.push_part("\n")?;
        }
    }
    Ok(())
}

/// Whether a text is whitespace alone, or empty.
fn is_blank_line(text: &str) -> bool
    ensures { result ≡ is_blank_line text.now }
{
    match text.as_bytes() {
        // Most lines begin with such a character.
        [b'!'..=b'~', ..] => false,
        _ => text.trim_start().is_empty(),
    }
}

/// The margin of a text: the leading whitespace of its first line that is not blank, up to the
/// place where some later line goes on otherwise.
fn margin_of(s: &str) -> &str
    ensures { chars result.now ≡ margin_of s.now }
{
    let mut margin = None;
    for line in Lines::of(s) {
        margin = match margin {
            Some(margin) => Some(narrowed(margin, line.text)),
            None if is_blank_line(line.text) => None,
            None => Some(leading_whitespace(line.text)),
        };
    }
    margin.unwrap_or("")
}

/// The whitespace that a line begins with.
fn leading_whitespace(line: &str) -> &str
    ensures { chars result.now ≡ leading_whitespace line.now }
{
    &line[..line.len() - line.trim_start().len()]
}

/// The margin up to the place where the line goes on otherwise.
fn narrowed<'t>(margin: &'t str, line: &str) -> &'t str
    ensures { chars result.now ≡ narrowed (chars margin.now) (chars line.now) }
{
    let mut len = 0;
    for (ours, theirs) in margin.chars().zip(line.chars()) {
        if ours != theirs {
            return &margin[..len];
        }
        len += ours.len_utf8();
    }
    margin
}

/// A line without the margin, and nothing of a blank line.
fn without_margin<'t>(line: &'t str, margin: &str) -> &'t str
    requires { is_blank_line line.now ≡ false → StartsWith (chars line.now) (chars margin.now) }
    ensures { result.now ≡ without_margin (chars margin.now) line.now }
{
    if is_blank_line(line) {
        return "";
    }
    &line[margin.len()..]
}
