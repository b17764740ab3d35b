//! The blocks of a text: lines that stand apart, and paragraphs.
ghost use Rattle.std.specs.Prelude.{◌≡◌, ◌<◌, map, IfOk, Some};
ghost use Rattle.textwrap_marked_lines.specs.Blocks.{are_fields, behind_block, first_block, goes_on};
ghost use Rattle.textwrap_marked_lines.specs.Lines.{marked_line_view, lines_of_text};
ghost use Rattle.textwrap_marked_lines.specs.Reading.{lines_left, measure_left};

use crate::lines::MarkedLine;
use crate::reading::LinesAhead;
use std::alloc::{AllocError, Global};
use textwrap_marks::options::ReflowOptions;
use textwrap_marks::signs::{first_word, opens_paragraph};

/// Whether a line goes on with the one before it.
fn goes_on(line: &MarkedLine<'_>, next: &MarkedLine<'_>) -> bool
    ensures { result ≡ goes_on (marked_line_view line.now) (marked_line_view next.now) }
{
    !line.apart
        & !next.apart
        & !line.ended
        & (next.prefix == line.hanging.as_str())
        & !opens_paragraph(first_word(next.text))
}

/// Whether both begin with a key, behind the same hanging form.
pub fn are_fields(one: &MarkedLine<'_>, two: &MarkedLine<'_>) -> bool
    ensures { result ≡ are_fields (marked_line_view one.now) (marked_line_view two.now) }
{
    one.field & two.field & (one.hanging.as_str() == two.hanging.as_str())
}

/// The line that the next block begins with, and the lines behind it, which are still to be read.
#[derive(Drop)]
pub struct BlocksAhead<'t> {
    pub first: MarkedLine<'t>,
    later: Option<LinesAhead<'t>>,
}

impl<'t> BlocksAhead<'t> {
    /// The blocks of a text.
    pub fn new(
        alloc: Global,
        text: &'t str,
        options: &ReflowOptions<'_>,
    ) -> Result<BlocksAhead<'t>, AllocError>
        ensures { IfOk result (λ ahead. lines_left options.now (Some ahead)
            ≡ lines_of_text options.now text.now) }
    {
        let (first, later) = LinesAhead::new(alloc, text, options)?.next(alloc, options)?;
        Ok(BlocksAhead { first, later })
    }

    /// The lines of the first block, and the blocks behind it, if there are any.
    pub fn next(
        self,
        alloc: Global,
        options: &ReflowOptions<'_>,
    ) -> Result<(Vec<MarkedLine<'t>>, Option<BlocksAhead<'t>>), AllocError>
        ensures block { IfOk result (λ read. map marked_line_view read.0.items
            ≡ first_block (lines_left options.now (Some self.entry))) }
        ensures rest { IfOk result (λ read. lines_left options.now read.1
            ≡ behind_block (lines_left options.now (Some self.entry))) }
        ensures fewer { IfOk result (λ read. measure_left read.1 < measure_left (Some self.entry)) }
    {
        let BlocksAhead { first, later } = self;
        let mut block = Vec::new(alloc);
        let mut line = first;
        let mut later = later;
        while let Some(ahead) = later {
            let (next, after) = ahead.next(alloc, options)?;
            if !goes_on(&line, &next) {
                block.push(line)?;
                return Ok((
                    block,
                    Some(BlocksAhead {
                        first: next,
                        later: after,
                    }),
                ));
            }
            block.push(line)?;
            line = next;
            later = after;
        }
        block.push(line)?;
        Ok((block, None))
    }
}
