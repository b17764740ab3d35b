//! Filling only the paragraphs at some lines of a text.
ghost use Rattle.std.specs.Prelude.{◌≡◌, ℕ, ◌++◌, false, List, IfOk, OnOk, Some, string_bytes};
ghost use Rattle.textwrap_base.specs.Errors.{Overflowed};
ghost use Rattle.textwrap_marked_lines.specs.Blocks.{blocks};
ghost use Rattle.textwrap_marked_lines.specs.Reading.{lines_left};
ghost use Rattle.textwrap_marked.specs.Within.{AreOfBlocksWithin, IsReflowedWithin, IsReflowedWithinFrom};
ghost use Rattle.textwrap_marked.specs.Within.{range_behind, touches};

use crate::reflowing::{filled_ending, is_beside, push_block};
use std::alloc::Global;
use textwrap_marked_lines::blocks::BlocksAhead;
use textwrap_marks::options::ReflowOptions;
use textwrap_text::starts::without_start;
use textwrap_words::wrap_algorithms::WrapError;

/// Lines of a text, counted from 1. If the first is one behind the last, they are the place between the
/// two, and a paragraph that goes over it has a line there.
#[derive(Clone, Copy, Debug, PartialEq, Eq)]
pub struct LineRange {
    /// The first of them.
    pub first: usize,
    /// The last of them.
    pub last: usize,
}

impl LineRange {
    /// Whether one of the first `len` lines is among these.
    fn touches(self, len: usize) -> bool
        ensures { result ≡ touches self 0 len }
    {
        (0 < self.last) & (self.first <= len)
    }

    /// These lines, counted behind the first `len` of the text.
    fn behind(self, len: usize) -> LineRange
        ensures { result ≡ range_behind self len }
    {
        LineRange {
            first: self.first.saturating_sub(len),
            last: self.last.saturating_sub(len),
        }
    }
}

/// The text with those paragraphs filled again that have a line in this range. All else stays as
/// `reflow` lets stay what stands apart: byte for byte, if the options name no ending.
///
/// By first fit at 8 columns, `"one two\nthree\n\none two three\n"` at the lines 1 to 2 becomes
/// `"one two\nthree\n\none two three\n"`, and at the line 4 `"one two\nthree\n\none two\nthree\n"`.
///
/// # Errors
/// [`WrapError::Memory`] where memory runs out, and no other.
pub fn reflow_within(
    alloc: Global,
    text: &str,
    range: &LineRange,
    options: &ReflowOptions<'_>,
) -> Result<String, WrapError>
    ensures reflowed { IfOk result (λ filled.
        IsReflowedWithin options.now range.now text.now (string_bytes filled)) }
    ensures only_memory { ¬ Overflowed result }
{
    match without_start(text, "\u{feff}") {
        Some(rest) => {
            let mut output = String::from_str(alloc, "\u{feff}")?;
            push_text(alloc, &mut output, rest, range, options)?;
            Ok(output)
        }
        None => {
            let mut output = String::new(alloc);
            push_text(alloc, &mut output, text, range, options)?;
            Ok(output)
        }
    }
}

/// Adds what becomes of a text without a byte order mark.
fn push_text(
    alloc: Global,
    output: &mut String,
    text: &str,
    range: &LineRange,
    options: &ReflowOptions<'_>,
) -> Result<(), WrapError>
    ensures reflowed { OnOk result ((reflowed : List ℕ)
        × IsReflowedWithinFrom options.now range.now text.now reflowed
        × (string_bytes output.new ≡ string_bytes output.old ++ reflowed)) }
    ensures only_memory { ¬ Overflowed result }
{
    let ending = filled_ending(options.ending, text);
    let all = BlocksAhead::new(alloc, text, options)?;
    push_blocks(alloc, output, all, *range, ending.as_str(), options)
}

/// Adds these blocks, one after another.
fn push_blocks(
    alloc: Global,
    output: &mut String,
    all: BlocksAhead<'_>,
    range: LineRange,
    ending: &str,
    options: &ReflowOptions<'_>,
) -> Result<(), WrapError>
    ensures laid_out { OnOk result ((text : List ℕ)
        × AreOfBlocksWithin options.now range ending.now 0 false
        (blocks (lines_left options.now (Some all.entry))) text
        × (string_bytes output.new ≡ string_bytes output.old ++ text)) }
    ensures only_memory { ¬ Overflowed result }
{
    let mut beside = false;
    let mut range = range;
    let mut ahead = Some(all);
    while let Some(left) = ahead {
        let (block, after) = left.next(alloc, options)?;
        let first = &block[0];
        let next = is_beside(first, &after);
        let len = block.as_slice().len();
        let is_outside = !range.touches(len);
        push_block(
            alloc,
            output,
            block,
            beside | next | is_outside,
            ending,
            options,
        )?;
        beside = next;
        range = range.behind(len);
        ahead = after;
    }
    Ok(())
}
