//! Lines for display: aligned, justified and shortened, and texts without tabs.
ghost use Rattle.textwrap_calls.specs.Options.{TellsFaults, AreKnown, AreTexts};
ghost use Rattle.std.specs.Prelude.{◌≡◌, false, ◌<◌, ◌≤◌, ◌↔◌, IsUtf8, IfSome, IfNone};
ghost use Rattle.textwrap.specs.Paragraph.{line_bytes};
ghost use Rattle.textwrap_calls.specs.Display.{alignment_of, IsShort};
ghost use Rattle.textwrap_calls.specs.Options.{options_settings, says_yes, Divides};
ghost use Rattle.textwrap_calls.specs.Room.{WritesText};
ghost use Rattle.textwrap_calls.specs.Status.{not_utf8, too_small, unknown_options};
ghost use Rattle.textwrap_display.specs.Alignment.{aligned};
ghost use Rattle.textwrap_display.specs.JustifiedText.{IsJustifiedText};
ghost use Rattle.textwrap_display.specs.Justifying.{justified};
ghost use Rattle.textwrap_display.specs.Tabs.{expanded};

use crate::options::{TextwrapOptions, read_options};
use crate::room::put;
use crate::status::{NOT_UTF8, OUT_OF_MEMORY, UNKNOWN_OPTIONS};
use simdutf8::basic::from_utf8;
use std::alloc::Global;
use textwrap_display::{
    Alignment, Shortening, align, expand_tabs, fill_justified, justify, shorten, shorten_by,
};

/// Writes the line with blanks up to the width, as `textwrap_fill` writes a filled text. The
/// alignment is 0 for the left, 1 for the right and 2 for the middle; any other is
/// `UNKNOWN_OPTIONS`.
pub fn textwrap_align(
    alloc: Global,
    line: &[u8],
    width: usize,
    alignment: u32,
    room: &mut [u8],
    len: &mut usize,
) -> u32
    ensures aligned { WritesText (λ answer. answer
        ≡ line_bytes (aligned (alignment_of alignment) width line.now))
        result room.old room.new len.old len.new }
    ensures unknown { result ≡ unknown_options ↔ 2 < alignment }
    ensures not_utf8 { result ≡ not_utf8 ↔ (alignment ≤ 2) × ¬ IsUtf8 line.now }
    ensures statuses { result ≤ unknown_options }
{
    let Some(alignment) = read_alignment(alignment) else {
        return UNKNOWN_OPTIONS;
    };
    let Ok(line) = from_utf8(line) else {
        return NOT_UTF8;
    };
    match align(alloc, line, width, alignment) {
        Ok(aligned) => put(aligned.as_bytes(), room, len),
        Err(_) => OUT_OF_MEMORY,
    }
}

/// The alignment of a number, if it has one.
pub fn read_alignment(number: u32) -> Option<Alignment>
    ensures known { IfSome result (λ alignment. alignment ≡ alignment_of number) }
    ensures some { IfSome result (λ _. number ≤ 2) }
    ensures none { IfNone result (2 < number) }
{
    match number {
        0 => Some(Alignment::Left),
        1 => Some(Alignment::Right),
        2 => Some(Alignment::Centre),
        _ => None,
    }
}

/// Writes the line with its gaps between words widened up to the width, as `textwrap_fill` writes a
/// filled text.
pub fn textwrap_justify(
    alloc: Global,
    line: &[u8],
    width: usize,
    room: &mut [u8],
    len: &mut usize,
) -> u32
    ensures justified { WritesText (λ answer. answer ≡ line_bytes (justified width line.now))
        result room.old room.new len.old len.new }
    ensures not_utf8 { result ≡ not_utf8 ↔ ¬ IsUtf8 line.now }
    ensures statuses { result ≤ too_small }
{
    let Ok(line) = from_utf8(line) else {
        return NOT_UTF8;
    };
    match justify(alloc, line, width) {
        Ok(justified) => put(justified.as_bytes(), room, len),
        Err(_) => OUT_OF_MEMORY,
    }
}

/// Fills a text, justifies all lines but the last of each paragraph, and writes it as
/// `textwrap_fill` writes a filled one.
pub fn textwrap_fill_justified(
    alloc: Global,
    text: &[u8],
    options: &TextwrapOptions<'_>,
    room: &mut [u8],
    len: &mut usize,
) -> u32
    ensures filled { WritesText (IsJustifiedText (options_settings options.now)
        (Divides options.now (options_settings options.now)) text.now)
        result room.old room.new len.old len.new }
    ensures faults { TellsFaults result (AreKnown options.now)
        (IsUtf8 text.now × AreTexts options.now) }
{
    let options = match read_options(options) {
        Ok(options) => options,
        Err(status) => return status,
    };
    let Ok(text) = from_utf8(text) else {
        return NOT_UTF8;
    };
    match fill_justified(alloc, text, options.layout(), &options.parts(alloc)) {
        Ok(filled) => put(filled.as_bytes(), room, len),
        Err(_) => OUT_OF_MEMORY,
    }
}

/// Writes the line, cut so that it ends in the placeholder where it is wider than the width, as
/// `textwrap_fill` writes a filled text.
pub fn textwrap_shorten(
    alloc: Global,
    line: &[u8],
    width: usize,
    placeholder: &[u8],
    room: &mut [u8],
    len: &mut usize,
) -> u32
    ensures short { WritesText (IsShort false width placeholder.now line.now)
        result room.old room.new len.old len.new }
    ensures not_utf8 { result ≡ not_utf8 ↔ ¬ (IsUtf8 line.now × IsUtf8 placeholder.now) }
    ensures statuses { result ≤ too_small }
{
    let (Ok(line), Ok(placeholder)) = (from_utf8(line), from_utf8(placeholder)) else {
        return NOT_UTF8;
    };
    match shorten(alloc, line, width, placeholder) {
        Ok(short) => put(short.as_bytes(), room, len),
        Err(_) => OUT_OF_MEMORY,
    }
}

/// Writes the same line, where words may be cut that are too wide if `break_words` is 1, and not if it
/// is 0; any other number is `UNKNOWN_OPTIONS`.
pub fn textwrap_shorten_by(
    alloc: Global,
    line: &[u8],
    width: usize,
    placeholder: &[u8],
    break_words: u32,
    room: &mut [u8],
    len: &mut usize,
) -> u32
    ensures short { WritesText (IsShort (says_yes break_words) width placeholder.now line.now)
        result room.old room.new len.old len.new }
    ensures unknown { result ≡ unknown_options ↔ 1 < break_words }
    ensures not_utf8 { result ≡ not_utf8
        ↔ (break_words ≤ 1) × ¬ (IsUtf8 line.now × IsUtf8 placeholder.now) }
    ensures statuses { result ≤ unknown_options }
{
    if break_words > 1 {
        return UNKNOWN_OPTIONS;
    }
    let (Ok(line), Ok(placeholder)) = (from_utf8(line), from_utf8(placeholder)) else {
        return NOT_UTF8;
    };
    let shortening = Shortening::new(width, placeholder).break_words(break_words != 0);
    match shorten_by(alloc, line, &shortening) {
        Ok(short) => put(short.as_bytes(), room, len),
        Err(_) => OUT_OF_MEMORY,
    }
}

/// Writes the text with blanks in the place of each tab, up to the next column that `stop` divides, as
/// `textwrap_fill` writes a filled text.
pub fn textwrap_expand_tabs(
    alloc: Global,
    text: &[u8],
    stop: usize,
    room: &mut [u8],
    len: &mut usize,
) -> u32
    ensures expanded { WritesText (λ answer. answer ≡ line_bytes (expanded stop text.now))
        result room.old room.new len.old len.new }
    ensures not_utf8 { result ≡ not_utf8 ↔ ¬ IsUtf8 text.now }
    ensures statuses { result ≤ too_small }
{
    let Ok(text) = from_utf8(text) else {
        return NOT_UTF8;
    };
    match expand_tabs(alloc, text, stop) {
        Ok(expanded) => put(expanded.as_bytes(), room, len),
        Err(_) => OUT_OF_MEMORY,
    }
}
