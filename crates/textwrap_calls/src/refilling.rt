//! Unfilling and refilling a filled text.
ghost use Rattle.std.specs.Prelude.{◌≡◌, ◌≢◌, ◌≤◌, ◌⊎◌, ◌↔◌, [], false, IsUtf8};
ghost use Rattle.textwrap.specs.Options.{settings_view};
ghost use Rattle.textwrap.specs.Refilling.{line_prefix, unfilled_parts, unfilled_settings};
ghost use Rattle.textwrap_calls.specs.Options.{AreKnown, TellsFaults, AreTexts, IsRefilledBy};
ghost use Rattle.textwrap_calls.specs.Refilling.{IsLayout};
ghost use Rattle.textwrap_calls.specs.Room.{WritesText};
ghost use Rattle.textwrap_calls.specs.Status.{done, not_utf8, out_of_memory, too_small};

use crate::known::known_text;
use crate::options::{TextwrapOptions, read_options, refusal};
use crate::printable::{only_known_line, only_line};
use crate::room::{put, report};
use crate::status::{DONE, NOT_UTF8, OUT_OF_MEMORY};
use simdutf8::basic::from_utf8;
use std::alloc::Global;
use textwrap::inner::{refill_by, unfill_into};
use textwrap::{LineEnding, Options};

/// Fills a filled text again, with the indents that it has, and writes it as `textwrap_fill` does.
/// The indents of the options are not used.
pub fn textwrap_refill(
    alloc: Global,
    text: &[u8],
    options: &TextwrapOptions<'_>,
    room: &mut [u8],
    len: &mut usize,
) -> u32
    ensures refilled { WritesText (IsRefilledBy options.now text.now)
        result room.old room.new len.old len.new }
    ensures faults { TellsFaults result (AreKnown options.now)
        (IsUtf8 text.now × AreTexts options.now) }
{
    if !begins_with_prefix(text) {
        if let Some(line) = only_line(text, options) {
            return put(line, room, len);
        }
    }
    let Ok(text) = from_utf8(text) else {
        return refusal(options);
    };
    refill_text(alloc, text, options, room, len)
}

/// [`textwrap_refill`] for a text that is known to be UTF-8. It is not tested.
pub fn textwrap_refill_utf8(
    alloc: Global,
    text: &[u8],
    options: &TextwrapOptions<'_>,
    room: &mut [u8],
    len: &mut usize,
) -> u32
    requires { IsUtf8 text.now }
    ensures refilled { WritesText (IsRefilledBy options.now text.now)
        result room.old room.new len.old len.new }
    ensures faults { TellsFaults result (AreKnown options.now) (AreTexts options.now) }
{
    if !begins_with_prefix(text) {
        if let Some(line) = only_known_line(text, options) {
            return put(line, room, len);
        }
    }
    refill_text(alloc, known_text(text), options, room, len)
}

/// Whether a text begins with a character of an indent, as `unfill` knows them.
fn begins_with_prefix(text: &[u8]) -> bool
    ensures { result ≡ false → line_prefix text.now ≡ [] }
{
    if text.is_empty() {
        return false;
    }
    matches!(text[0], b' ' | b'-' | b'+' | b'*' | b'>' | b'#' | b'/')
}

/// [`textwrap_refill`] for a text.
fn refill_text(
    alloc: Global,
    text: &str,
    options: &TextwrapOptions<'_>,
    room: &mut [u8],
    len: &mut usize,
) -> u32
    ensures refilled { WritesText (IsRefilledBy options.now text.now)
        result room.old room.new len.old len.new }
    ensures faults { TellsFaults result (AreKnown options.now) (AreTexts options.now) }
{
    let options = match read_options(options) {
        Ok(options) => options,
        Err(status) => return status,
    };
    match refill_by(alloc, text, options.layout(), &options.parts(alloc)) {
        Ok(refilled) => put(refilled.as_bytes(), room, len),
        Err(_) => OUT_OF_MEMORY,
    }
}

/// How a text seems to have been filled.
#[repr(C)]
#[derive(Clone, Copy)]
pub struct TextwrapLayout {
    /// The columns of the widest line.
    pub width: usize,
    /// 1 where lines end in CRLF, and else 0.
    pub crlf: usize,
    /// How many bytes the initial indent has.
    pub initial_indent_len: usize,
    /// How many bytes the subsequent indent has.
    pub subsequent_indent_len: usize,
    /// 0 each, until a later number takes one.
    pub reserved_sizes: [usize; 4],
}

/// Joins the lines of a filled text, and finds out how it was filled. The room gets the joined text,
/// and after it the initial indent and the subsequent one; `len` is that of all three. It allocates
/// nothing.
pub fn textwrap_unfill(
    text: &[u8],
    room: &mut [u8],
    len: &mut usize,
    layout: &mut TextwrapLayout,
) -> u32
    ensures unfilled { WritesText (λ answer. answer ≡ unfilled_parts text.now)
        result room.old room.new len.old len.new }
    ensures layout { result ≡ done → IsLayout (unfilled_settings text.now) layout.new }
    ensures kept { result ≢ done → layout.new ≡ layout.old }
    ensures not_utf8 { result ≡ not_utf8 ↔ ¬ IsUtf8 text.now }
    ensures no_memory { result ≢ out_of_memory }
    ensures statuses { result ≤ too_small }
{
    let Ok(text) = from_utf8(text) else {
        return NOT_UTF8;
    };
    unfill_text(text, room, len, layout)
}

/// [`textwrap_unfill`] for a text that is known to be UTF-8. It is not tested.
pub fn textwrap_unfill_utf8(
    text: &[u8],
    room: &mut [u8],
    len: &mut usize,
    layout: &mut TextwrapLayout,
) -> u32
    requires { IsUtf8 text.now }
    ensures unfilled { WritesText (λ answer. answer ≡ unfilled_parts text.now)
        result room.old room.new len.old len.new }
    ensures layout { result ≡ done → IsLayout (unfilled_settings text.now) layout.new }
    ensures kept { result ≢ done → layout.new ≡ layout.old }
    ensures statuses { (result ≡ done) ⊎ (result ≡ too_small) }
{
    unfill_text(known_text(text), room, len, layout)
}

/// [`textwrap_unfill`] for a text.
fn unfill_text(text: &str, room: &mut [u8], len: &mut usize, layout: &mut TextwrapLayout) -> u32
    ensures unfilled { WritesText (λ answer. answer ≡ unfilled_parts text.now)
        result room.old room.new len.old len.new }
    ensures layout { result ≡ done → IsLayout (unfilled_settings text.now) layout.new }
    ensures kept { result ≢ done → layout.new ≡ layout.old }
    ensures statuses { (result ≡ done) ⊎ (result ≡ too_small) }
{
    let (answer, options) = unfill_into(text, room);
    let status = report(answer, room.len(), len);
    if status == DONE {
        *layout = layout_of(&options);
    }
    status
}

/// What is reported of the options by which a text seems to have been filled.
fn layout_of(options: &Options<'_>) -> TextwrapLayout
    ensures { IsLayout (settings_view options.now) result }
{
    TextwrapLayout {
        width: options.width,
        crlf: match options.line_ending {
            LineEnding::LF => 0,
            LineEnding::CRLF => 1,
        },
        initial_indent_len: options.initial_indent.len(),
        subsequent_indent_len: options.subsequent_indent.len(),
        reserved_sizes: [0; 4],
    }
}
