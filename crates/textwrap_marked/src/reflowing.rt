//! Filling the paragraphs of a text again.
ghost use Rattle.std.specs.Prelude.{◌≡◌, ℕ, ◌++◌, false, List, map, IfOk, OnOk, Some, string_bytes};
ghost use Rattle.textwrap_base.specs.Errors.{Overflowed};
ghost use Rattle.textwrap_marked_lines.specs.Blocks.{blocks, is_beside, stays};
ghost use Rattle.textwrap_marked_lines.specs.Lines.{marked_line_view};
ghost use Rattle.textwrap_marked_lines.specs.Reading.{lines_left};
ghost use Rattle.textwrap_marked.specs.Reflow.{ending_of_line, filled_ending, AreOfBlocks, IsOfLines};
ghost use Rattle.textwrap_marked.specs.Reflow.{IsReflowed, IsReflowedFrom};

use crate::filling::{push_filled, push_kept};
use std::alloc::Global;
use textwrap_lines::LineEnding;
use textwrap_marked_lines::blocks::{BlocksAhead, are_fields};
use textwrap_marked_lines::lines::MarkedLine;
use textwrap_marks::options::ReflowOptions;
use textwrap_marks::words::{ends_with, split_at};
use textwrap_text::starts::without_start;
use textwrap_words::wrap_algorithms::WrapError;

/// The text with its paragraphs filled again, at the width of the options.
///
/// Before the words of a line may stand marks: a comment mark, quote marks and bullets. A paragraph is
/// a line and those after it behind the hanging form of its prefix, which has blanks for the bullets.
/// Lines that a reader takes as they are stay so: code, tables, titles, headings, rules, and more.
///
/// By first fit at 16 columns, `"> one two three four\n> five\n"` becomes
/// `"> one two three\n> four five\n"`.
///
/// # Errors
/// [`WrapError::Memory`] where memory runs out, and no other.
pub fn reflow(alloc: Global, text: &str, options: &ReflowOptions<'_>) -> Result<String, WrapError>
    ensures reflowed { IfOk result (λ filled.
        IsReflowed options.now text.now (string_bytes filled)) }
    ensures only_memory { ¬ Overflowed result }
{
    match without_start(text, "\u{feff}") {
        Some(rest) => {
            let mut output = String::from_str(alloc, "\u{feff}")?;
            push_text(alloc, &mut output, rest, options)?;
            Ok(output)
        }
        None => {
            let mut output = String::new(alloc);
            push_text(alloc, &mut output, text, options)?;
            Ok(output)
        }
    }
}

/// Adds what becomes of a text without a byte order mark.
fn push_text(
    alloc: Global,
    output: &mut String,
    text: &str,
    options: &ReflowOptions<'_>,
) -> Result<(), WrapError>
    ensures reflowed { OnOk result ((reflowed : List ℕ)
        × IsReflowedFrom options.now text.now reflowed
        × (string_bytes output.new ≡ string_bytes output.old ++ reflowed)) }
    ensures only_memory { ¬ Overflowed result }
{
    let ending = filled_ending(options.ending, text);
    let all = BlocksAhead::new(alloc, text, options)?;
    push_blocks(alloc, output, all, ending.as_str(), options)
}

/// The ending of filled lines: the one that is asked for, else that of the first line.
pub(crate) fn filled_ending(ending: Option<LineEnding>, text: &str) -> LineEnding
    ensures { result ≡ filled_ending ending text.now }
{
    match ending {
        Some(ending) => ending,
        None => {
            let (line, rest) = split_at(text, '\n');
            ending_of(line, rest.is_some())
        }
    }
}

/// How a line ends, if a line feed follows it.
fn ending_of(line: &str, fed: bool) -> LineEnding
    ensures { result ≡ ending_of_line line.now fed }
{
    if fed & ends_with(line, "\r") {
        LineEnding::CRLF
    } else {
        LineEnding::LF
    }
}

/// Adds these blocks, one after another: only the lines of one are held at a time.
fn push_blocks(
    alloc: Global,
    output: &mut String,
    all: BlocksAhead<'_>,
    ending: &str,
    options: &ReflowOptions<'_>,
) -> Result<(), WrapError>
    ensures laid_out { OnOk result ((text : List ℕ)
        × AreOfBlocks options.now ending.now false (blocks (lines_left options.now (Some all.entry))) text
        × (string_bytes output.new ≡ string_bytes output.old ++ text)) }
    ensures only_memory { ¬ Overflowed result }
{
    let mut beside = false;
    let mut ahead = Some(all);
    while let Some(left) = ahead {
        let (block, after) = left.next(alloc, options)?;
        let first = &block[0];
        let next = is_beside(first, &after);
        push_block(alloc, output, block, beside | next, ending, options)?;
        beside = next;
        ahead = after;
    }
    Ok(())
}

/// Adds a block: as it is, or filled. It may stand beside a block that begins with a key as it does.
pub(crate) fn push_block(
    alloc: Global,
    output: &mut String,
    block: Vec<MarkedLine<'_>>,
    beside: bool,
    ending: &str,
    options: &ReflowOptions<'_>,
) -> Result<(), WrapError>
    ensures laid_out { OnOk result ((text : List ℕ)
        × IsOfLines options.now ending.now beside (map marked_line_view block.entry.items) text
        × (string_bytes output.new ≡ string_bytes output.old ++ text)) }
    ensures only_memory { ¬ Overflowed result }
{
    let [first, ..] = block.as_slice() else {
        return Ok(());
    };
    if stays(beside, first) {
        push_kept(output, &block, options)?;
        Ok(())
    } else {
        push_filled(alloc, output, block, ending, options)
    }
}

/// Whether the block of this first line stays, which may stand beside another field.
fn stays(beside: bool, first: &MarkedLine<'_>) -> bool
    ensures { result ≡ stays beside (marked_line_view first.now) }
{
    first.apart | !first.chosen | beside
}

/// Whether a line is a field, and the blocks behind it begin with another one.
pub(crate) fn is_beside(first: &MarkedLine<'_>, later: &Option<BlocksAhead<'_>>) -> bool
    ensures { (options : ReflowOptions)
        → result ≡ is_beside (marked_line_view first.now) (blocks (lines_left options later.now)) }
{
    match later {
        Some(ahead) => are_fields(first, &ahead.first),
        None => false,
    }
}
