//! Indenting and dedenting a text.
ghost use Rattle.std.specs.Prelude.{◌≡◌, ◌≢◌, ◌≤◌, ◌⊎◌, ◌↔◌, ◌++◌, ℕ, List, IsTrue, IsUtf8, length};
ghost use Rattle.textwrap.specs.Indentation.{indented, dedented};
ghost use Rattle.textwrap_calls.specs.Printable.{IsFullLine};
ghost use Rattle.textwrap_calls.specs.Room.{WritesLong, WritesText};
ghost use Rattle.textwrap_calls.specs.Status.{done, not_utf8, out_of_memory, too_small};
ghost use Rattle.textwrap_text.specs.LentText.{as_len, written_over};

use crate::known::known_text;
use crate::printable::is_printable_text;
use crate::room::report;
use crate::status::NOT_UTF8;
use simdutf8::basic::from_utf8;
use textwrap::inner::{dedent_into, indent_into};
use textwrap_text::lent_text::LentText;

/// Writes the text with a prefix before each line, as `textwrap_fill` writes a filled one. It allocates
/// nothing.
pub fn textwrap_indent(text: &[u8], prefix: &[u8], room: &mut [u8], len: &mut usize) -> u32
    ensures indented { WritesLong (λ answer. answer ≡ indented prefix.now text.now)
        result room.old room.new len.old len.new }
    ensures not_utf8 { result ≡ not_utf8 ↔ ¬ (IsUtf8 text.now × IsUtf8 prefix.now) }
    ensures no_memory { result ≢ out_of_memory }
    ensures statuses { result ≤ too_small }
{
    if is_full_line(text) && is_printable_text(prefix) {
        let answer = join_over(prefix, text, room);
        return report(answer, room.len(), len);
    }
    let (Ok(text), Ok(prefix)) = (from_utf8(text), from_utf8(prefix)) else {
        return NOT_UTF8;
    };
    indent_text(text, prefix, room, len)
}

/// [`textwrap_indent`] for a text and a prefix that are known to be UTF-8. They are not tested.
pub fn textwrap_indent_utf8(text: &[u8], prefix: &[u8], room: &mut [u8], len: &mut usize) -> u32
    requires text { IsUtf8 text.now }
    requires prefix { IsUtf8 prefix.now }
    ensures indented { WritesLong (λ answer. answer ≡ indented prefix.now text.now)
        result room.old room.new len.old len.new }
    ensures statuses { (result ≡ done) ⊎ (result ≡ too_small) }
{
    if is_full_line(text) {
        let answer = join_over(prefix, text, room);
        return report(answer, room.len(), len);
    }
    indent_text(known_text(text), known_text(prefix), room, len)
}

/// [`textwrap_indent`] for a text and a prefix.
fn indent_text(text: &str, prefix: &str, room: &mut [u8], len: &mut usize) -> u32
    ensures indented { WritesLong (λ answer. answer ≡ indented prefix.now text.now)
        result room.old room.new len.old len.new }
    ensures statuses { (result ≡ done) ⊎ (result ≡ too_small) }
{
    let answer = indent_into(text, prefix, room);
    report(answer, room.len(), len)
}

/// Whether a text is printable ASCII that does not begin with a blank. Then it is one line, and no blank
/// one.
fn is_full_line(text: &[u8]) -> bool
    ensures exact { IsTrue result ↔ IsFullLine text.now }
    ensures utf8 { IsTrue result → IsUtf8 text.now }
    ensures line { IsTrue result → (prefix : List ℕ) → indented prefix text.now ≡ prefix ++ text.now }
{
    if text.is_empty() {
        return false;
    }
    text[0] != b' ' && is_printable_text(text)
}

/// Writes two texts one after the other over the front of the room, as much of them as there is room for.
/// Returns their bytes.
fn join_over(first: &[u8], second: &[u8], room: &mut [u8]) -> usize
    ensures len { result ≡ as_len (length (first.now ++ second.now)) }
    ensures room { room.new ≡ written_over room.old (first.now ++ second.now) }
{
    let mut written = LentText::new(room);
    written.push(first);
    written.push(second);
    written.len()
}

/// Writes the text without the whitespace that all its lines begin with, as `textwrap_fill` writes a
/// filled one. It allocates nothing.
pub fn textwrap_dedent(text: &[u8], room: &mut [u8], len: &mut usize) -> u32
    ensures dedented { WritesText (λ answer. answer ≡ dedented text.now)
        result room.old room.new len.old len.new }
    ensures not_utf8 { result ≡ not_utf8 ↔ ¬ IsUtf8 text.now }
    ensures no_memory { result ≢ out_of_memory }
    ensures statuses { result ≤ too_small }
{
    let Ok(text) = from_utf8(text) else {
        return NOT_UTF8;
    };
    dedent_text(text, room, len)
}

/// [`textwrap_dedent`] for a text that is known to be UTF-8. It is not tested.
pub fn textwrap_dedent_utf8(text: &[u8], room: &mut [u8], len: &mut usize) -> u32
    requires { IsUtf8 text.now }
    ensures dedented { WritesText (λ answer. answer ≡ dedented text.now)
        result room.old room.new len.old len.new }
    ensures statuses { (result ≡ done) ⊎ (result ≡ too_small) }
{
    dedent_text(known_text(text), room, len)
}

/// [`textwrap_dedent`] for a text.
fn dedent_text(text: &str, room: &mut [u8], len: &mut usize) -> u32
    ensures dedented { WritesText (λ answer. answer ≡ dedented text.now)
        result room.old room.new len.old len.new }
    ensures statuses { (result ≡ done) ⊎ (result ≡ too_small) }
{
    let answer = dedent_into(text, room);
    report(answer, room.len(), len)
}
