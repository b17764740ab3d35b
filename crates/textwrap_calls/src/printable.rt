//! Texts of printable ASCII, told many bytes at a time, and the line that a short text is.
ghost use Rattle.std.specs.Prelude.{◌≡◌, ◌↔◌, ◌<◌, ◌≤◌, [], IfSome, IsTrue, IsUtf8, length};
ghost use Rattle.textwrap.specs.Indentation.{HasNoLineFeed};
ghost use Rattle.textwrap.specs.Refilling.{IsRefilled, line_prefix};
ghost use Rattle.textwrap_calls.specs.Options.{options_settings, AreKnown, AreTexts, Divides};
ghost use Rattle.textwrap_calls.specs.Options.{IsFilledByOptions, IsRefilledBy};
ghost use Rattle.textwrap_calls.specs.Printable.{HaveNoInitialIndent, IsOnlyLine};
ghost use Rattle.textwrap_text.specs.Units.{IsPrintable};

use crate::options::{TextwrapOptions, are_known};
use simdutf8::is_utf8;
use textwrap_text::blanks::trimmed_len;
use textwrap_text::printable::is_printable;

/// How many bytes of a text are looked at together.
const BLOCK: usize = 32;

/// The same for a text that has no more than a block.
const HALF: usize = 16;

/// Whether each byte is printable ASCII. Of what is no whole number of blocks, the last overlaps the one
/// before it.
pub(crate) fn is_printable_text(text: &[u8]) -> bool
    ensures { IsTrue result ↔ IsPrintable text.now }
{
    if text.len() < HALF {
        return is_printable(text);
    }
    if text.len() <= BLOCK {
        return is_printable(&text[..HALF]) && is_printable(&text[text.len() - HALF..]);
    }
    is_long_printable(text)
}

/// The same for a text of more than a block.
fn is_long_printable(text: &[u8]) -> bool
    requires { BLOCK ≤ length text.now }
    ensures { IsTrue result ↔ IsPrintable text.now }
{
    let mut end = 0;
    while text.len() - end > BLOCK {
        if !is_printable(&text[end..end + BLOCK]) {
            return false;
        }
        end += BLOCK;
    }
    is_printable(&text[text.len() - BLOCK..])
}

/// The line of a text that is one as a whole, by known options without an initial indent. Then the
/// options have not to be read, nor has the text character by character, and most short texts are such.
pub(crate) fn only_line<'t>(text: &'t [u8], options: &TextwrapOptions<'_>) -> Option<&'t [u8]>
    ensures known { IfSome result (λ _. AreKnown options.now × AreTexts options.now) }
    ensures utf8 { IfSome result (λ _. IsUtf8 text.now) }
    ensures filled { IfSome result (λ line. IsFilledByOptions options.now text.now line.now) }
    ensures line { IfSome result (λ line. IsOnlyLine options.now text.now line.now) }
    ensures refilled { line_prefix text.now ≡ [] → IfSome result (λ line. IsRefilled
        (options_settings options.now) (Divides options.now) text.now line.now) }
{
    if text.len() >= options.width || !have_no_initial_indent(options) || !is_one_line(text) {
        return None;
    }
    Some(line_of(text, options))
}

/// The same for a text that is known to be UTF-8.
pub(crate) fn only_known_line<'t>(text: &'t [u8], options: &TextwrapOptions<'_>) -> Option<&'t [u8]>
    ensures known { IfSome result (λ _. AreKnown options.now × AreTexts options.now) }
    ensures filled { IfSome result (λ line. IsFilledByOptions options.now text.now line.now) }
    ensures line { IfSome result (λ line. IsOnlyLine options.now text.now line.now) }
    ensures refilled { line_prefix text.now ≡ [] → IfSome result (λ line. IsRefilled
        (options_settings options.now) (Divides options.now) text.now line.now) }
{
    if text.len() >= options.width || !have_no_initial_indent(options) || text.contains(&b'\n') {
        return None;
    }
    Some(line_of(text, options))
}

/// The line of a text with fewer bytes than the width and no line feed, by options that add nothing to
/// its first line.
fn line_of<'t>(text: &'t [u8], options: &TextwrapOptions<'_>) -> &'t [u8]
    requires short { length text.now < options.now.width }
    requires bare { HaveNoInitialIndent options.now }
    requires free { HasNoLineFeed text.now }
    ensures filled { IsFilledByOptions options.now text.now result.now }
    ensures line { IsOnlyLine options.now text.now result.now }
    ensures refilled { line_prefix text.now ≡ []
        → IsRefilledBy options.now text.now result.now }
{
    if options.preserve_trailing_space != 0 {
        return text;
    }
    &text[..trimmed_len(text)]
}

/// Whether a text is UTF-8 without a line feed. Printable ASCII is both, and is told soonest.
fn is_one_line(text: &[u8]) -> bool
    ensures utf8 { IsTrue result → IsUtf8 text.now }
    ensures free { IsTrue result → HasNoLineFeed text.now }
{
    is_printable_text(text) || (!text.contains(&b'\n') && is_utf8(text))
}

/// Whether the options are known, their indents are texts, and the initial one is empty.
fn have_no_initial_indent(options: &TextwrapOptions<'_>) -> bool
    ensures { IsTrue result ↔ HaveNoInitialIndent options.now }
{
    options.initial_indent.is_empty() && is_indent(options.subsequent_indent) && are_known(options)
}

/// Whether an indent is a text. Most are empty.
fn is_indent(indent: &[u8]) -> bool
    ensures { IsTrue result ↔ IsUtf8 indent.now }
{
    indent.is_empty() || is_utf8(indent)
}
