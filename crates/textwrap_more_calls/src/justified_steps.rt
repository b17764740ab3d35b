//! A whole text in steps, with its lines justified.
ghost use Rattle.std.specs.Prelude.{◌≡◌, ◌≢◌, ◌≤◌, ◌⊎◌, false, IfErr, IfOk, IsUtf8};
ghost use Rattle.std.specs.Prelude.{◌∷◌, [], map, string_bytes};
ghost use Rattle.textwrap_more_calls.specs.JustifiedSteps.{justified_at};
ghost use Rattle.textwrap_calls.specs.Options.{step_settings, AreKnown, AreTexts, TellsUnknown};
ghost use Rattle.textwrap_calls.specs.Options.{TellsNotUtf8};
ghost use Rattle.textwrap_calls.specs.Room.{WritesText};
ghost use Rattle.textwrap_calls.specs.Status.{out_of_memory, unknown_options};
ghost use Rattle.textwrap_calls.specs.Status.{wrong_places};
ghost use Rattle.textwrap_more_calls.specs.Steps.{AreLineSteps};
ghost use Rattle.textwrap_more_calls.specs.TextSteps.{AreTextSteps, parts_at, AreStepsOf};
ghost use Rattle.textwrap_text.specs.LineEnding.{paragraphs_of};
ghost use Rattle.textwrap_layout.specs.Options.{settings_view};
ghost use Rattle.textwrap_layout.specs.Paragraph.{Slice, is_whole, line_from, line_view};

use crate::steps::{TextwrapSteps, list_step_lines};
use simdutf8::basic::from_utf8;
use std::alloc::{AllocError, Global};
use std::borrow::CowStr;
use textwrap::Options;
use textwrap_calls::options::{TextwrapOptions, read_layout};
use textwrap_calls::room::put;
use textwrap_calls::status::{NOT_UTF8, OUT_OF_MEMORY, WRONG_PLACES};
use textwrap_display::inner::JustifiedLines;
use textwrap_layout::layout::Layout;
use textwrap_lines::inner::{is_one_line, whole_line};
use textwrap_lines::parts::split_paragraph;

/// Writes the lines that `textwrap_wrap_at` finds at these steps, all but the last of each paragraph
/// justified after their indents, joined by the line ending, as `textwrap_fill_justified` writes a
/// justified text.
pub fn textwrap_fill_justified_at(
    alloc: Global,
    text: &[u8],
    steps: &[TextwrapSteps<'_>],
    options: &TextwrapOptions<'_>,
    room: &mut [u8],
    len: &mut usize,
) -> u32
    ensures filled { WritesText (λ answer. answer ≡ justified_at (step_settings options.now) steps.now
        text.now) result room.old room.new len.old len.new }
    ensures unknown { TellsUnknown result options.now }
    ensures not_utf8 { TellsNotUtf8 result options.now text.now }
    // As in `textwrap_wrap_at`.
    ensures wrong_places { result ≡ wrong_places → AreKnown options.now
        × (IsUtf8 text.now × AreTexts options.now)
        × ¬ AreStepsOf options.now text.now steps.now }
    ensures right_places { result ≢ wrong_places → result ≢ out_of_memory → AreKnown options.now
        → IsUtf8 text.now × AreTexts options.now
        → AreStepsOf options.now text.now steps.now }
    ensures statuses { (result ≤ unknown_options) ⊎ (result ≡ wrong_places) }
{
    let options = match read_layout(options) {
        Ok(options) => options,
        Err(status) => return status,
    };
    let Ok(text) = from_utf8(text) else {
        return NOT_UTF8;
    };
    match justify_text(alloc, text, steps, &options) {
        Ok(filled) => put(filled.as_bytes(), room, len),
        Err(status) => status,
    }
}

/// The lines of a text at these steps, justified and joined.
///
/// # Errors
/// The status `WRONG_PLACES` or `OUT_OF_MEMORY`.
fn justify_text(
    alloc: Global,
    text: &str,
    steps: &[TextwrapSteps<'_>],
    options: &Options<'_>,
) -> Result<String, u32>
    ensures filled { IfOk result (λ filled. string_bytes filled
        ≡ justified_at (settings_view options.now) steps.now text.now) }
    ensures steps { IfOk result (λ _. AreTextSteps (settings_view options.now) false
        (paragraphs_of options.now.line_ending text.now) steps.now) }
    ensures refused { IfErr result (λ status. ((status ≡ wrong_places)
        × ¬ AreTextSteps (settings_view options.now) false
        (paragraphs_of options.now.line_ending text.now) steps.now) ⊎ (status ≡ out_of_memory)) }
{
    let mut filled = JustifiedLines {
        text: String::new(alloc),
        has_lines: false,
        line: String::new(alloc),
        waits: false,
        layout: Layout::of(options),
    };
    let mut number = 0;
    let mut rest = Some(text);
    while let Some(text) = rest {
        let (paragraph, after) = split_paragraph(text, options.line_ending);
        if number >= steps.len() {
            return Err(WRONG_PLACES);
        }
        let is_later = filled.has_lines;
        let lines = match list_paragraph(alloc, paragraph, &steps[number], options, is_later) {
            Ok(lines) => lines,
            Err(status) => return Err(status),
        };
        match filled.push_lines(&lines) {
            Ok(()) => {}
            Err(_) => return Err(OUT_OF_MEMORY),
        }
        number += 1;
        rest = after;
    }
    if number < steps.len() {
        return Err(WRONG_PLACES);
    }
    Ok(filled.text)
}

/// The lines of a paragraph, as a whole or at these steps.
///
/// # Errors
/// The status `WRONG_PLACES` or `OUT_OF_MEMORY`.
fn list_paragraph<'t>(
    alloc: Global,
    paragraph: &'t str,
    steps: &TextwrapSteps<'_>,
    options: &Options<'_>,
    is_later: bool,
) -> Result<Vec<CowStr<'t, Global>>, u32>
    ensures lines { IfOk result (λ lines. map line_view lines.items
        ≡ map line_from (parts_at (settings_view options.now) is_later paragraph.now steps.now)) }
    ensures steps { IfOk result (λ _.
        is_whole (settings_view options.now) is_later paragraph.now ≡ false
        → AreLineSteps (settings_view options.now) steps.now.cuts.now steps.now.points.now
        steps.now.ends.now paragraph.now) }
    ensures refused { IfErr result (λ status. ((status ≡ wrong_places)
        × (is_whole (settings_view options.now) is_later paragraph.now ≡ false)
        × ¬ AreLineSteps (settings_view options.now) steps.now.cuts.now steps.now.points.now
        steps.now.ends.now paragraph.now) ⊎ (status ≡ out_of_memory)) }
{
    if is_one_line(paragraph, options, is_later) {
        return match list_one(alloc, whole_line(paragraph, options)) {
            Ok(lines) => Ok(lines),
            Err(_) => Err(OUT_OF_MEMORY),
        };
    }
    list_step_lines(alloc, paragraph, steps, options, is_later)
}

/// A list of this line alone.
fn list_one<'t>(alloc: Global, line: &'t str) -> Result<Vec<CowStr<'t, Global>>, AllocError>
    ensures { IfOk result (λ lines. map line_view lines.items ≡ Slice line.now ∷ []) }
{
    let mut lines = Vec::new(alloc);
    lines.push(CowStr::Borrowed(line))?;
    Ok(lines)
}
