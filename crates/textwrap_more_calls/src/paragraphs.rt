//! The paragraphs of a text, each of which is wrapped by itself.
ghost use Rattle.textwrap_calls.specs.Options.{TellsFaults};
ghost use Rattle.std.specs.Prelude.{◌≡◌, ◌≢◌, ◌≤◌, ◌<◌, ◌↔◌, ◌⊎◌, IfOk, IsUtf8, length};
ghost use Rattle.textwrap_calls.specs.Options.{options_settings, AreKnown, AreTexts, says_yes};
ghost use Rattle.textwrap_more_calls.specs.Paragraphs.{paragraph_places, widths_view};
ghost use Rattle.textwrap_calls.specs.Room.{WritesText};
ghost use Rattle.textwrap_calls.specs.Status.{done, not_utf8, unknown_options};
ghost use Rattle.textwrap_text.specs.LineEnding.{ending_bytes, paragraphs_of};

use simdutf8::basic::from_utf8;
use std::alloc::{AllocError, Global};
use textwrap::LineEnding;
use textwrap_calls::options::{TextwrapOptions, read_layout, read_options};
use textwrap_calls::room::put;
use textwrap_calls::status::{DONE, NOT_UTF8, OUT_OF_MEMORY, UNKNOWN_OPTIONS};
use textwrap_lines::inner::{is_one_line, line_widths};
use textwrap_lines::parts::split_paragraph;

/// Where a paragraph stands.
#[repr(C)]
#[derive(Clone, Copy)]
pub struct TextwrapParagraph {
    /// How many bytes of the text come before it.
    pub offset: usize,
    /// How many bytes it has, without the line ending after it.
    pub len: usize,
}

/// How a paragraph is laid out.
#[repr(C)]
#[derive(Clone, Copy)]
pub struct TextwrapWidths {
    /// 1 where it is one line as a whole, whatever its words are, and else 0.
    pub is_whole: usize,
    /// The columns of its first line, without the indent.
    pub first: usize,
    /// The columns of its other lines, without the indent.
    pub later: usize,
}

/// Writes where the paragraphs of a text stand, which are what is between its line endings. There is
/// at least one.
pub fn textwrap_paragraphs(
    alloc: Global,
    text: &[u8],
    options: &TextwrapOptions<'_>,
    paragraphs: &mut [TextwrapParagraph],
    count: &mut usize,
) -> u32
    ensures paragraphs { WritesText (λ answer. answer
        ≡ paragraph_places (length (ending_bytes (options_settings options.now).line_ending)) 0
        (paragraphs_of (options_settings options.now).line_ending text.now))
        result paragraphs.old paragraphs.new count.old count.new }
    ensures faults { TellsFaults result (AreKnown options.now)
        (IsUtf8 text.now × AreTexts options.now) }
{
    let options = match read_options(options) {
        Ok(options) => options,
        Err(status) => return status,
    };
    let Ok(text) = from_utf8(text) else {
        return NOT_UTF8;
    };
    match place_paragraphs(alloc, text, options.layout.line_ending) {
        Ok(found) => put(&found, paragraphs, count),
        Err(_) => OUT_OF_MEMORY,
    }
}

/// Where the paragraphs of a text stand.
fn place_paragraphs(
    alloc: Global,
    text: &str,
    line_ending: LineEnding,
) -> Result<Vec<TextwrapParagraph>, AllocError>
    ensures { IfOk result (λ places. places.items ≡ paragraph_places
        (length (ending_bytes line_ending)) 0 (paragraphs_of line_ending text.now)) }
{
    let mut places = Vec::new(alloc);
    let mut offset = 0;
    let mut rest = Some(text);
    while let Some(text) = rest {
        let (paragraph, after) = split_paragraph(text, line_ending);
        let len = paragraph.len();
        places.push(TextwrapParagraph { offset, len })?;
        offset += len + line_ending.as_str().len();
        rest = after;
    }
    Ok(places)
}

/// Writes whether a paragraph is one line as a whole, and the widths of its lines. `is_later` is 1 if
/// a line stands before it and else 0; any other number is `UNKNOWN_OPTIONS`. It answers `DONE`,
/// `NOT_UTF8` or `UNKNOWN_OPTIONS`.
pub fn textwrap_paragraph_widths(
    paragraph: &[u8],
    options: &TextwrapOptions<'_>,
    is_later: usize,
    widths: &mut TextwrapWidths,
) -> u32
    ensures written { result ≡ done
        → widths.new ≡ widths_view (options_settings options.now) (says_yes is_later) paragraph.now }
    ensures unknown { result ≡ unknown_options ↔ (1 < is_later) ⊎ (¬ AreKnown options.now) }
    ensures not_utf8 { result ≡ not_utf8 ↔ (is_later ≤ 1) × AreKnown options.now
        × ¬ (IsUtf8 paragraph.now × AreTexts options.now) }
    ensures kept { result ≢ done → widths.new ≡ widths.old }
    ensures statuses { (result ≡ done) ⊎ (result ≡ not_utf8) ⊎ (result ≡ unknown_options) }
{
    if is_later > 1 {
        return UNKNOWN_OPTIONS;
    }
    let options = match read_layout(options) {
        Ok(options) => options,
        Err(status) => return status,
    };
    let Ok(paragraph) = from_utf8(paragraph) else {
        return NOT_UTF8;
    };
    let (first, later) = line_widths(&options, is_later != 0);
    let is_whole = is_one_line(paragraph, &options, is_later != 0);
    *widths = TextwrapWidths {
        is_whole: if is_whole { 1 } else { 0 },
        first,
        later,
    };
    DONE
}
