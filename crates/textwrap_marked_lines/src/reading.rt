//! The lines of a text, read one after another.
ghost use Rattle.std.specs.Prelude.{◌≡◌, ◌==◌, ◌<◌, ◌≤◌, ◌∷◌, length, IfOk, Some};
ghost use Rattle.std.specs.List.{slice_split};
ghost use Rattle.textwrap_marked_lines.specs.Lines.{marked_line_view, lines_of_text, read_lines};
ghost use Rattle.textwrap_marked_lines.specs.Lines.{state_view};
ghost use Rattle.textwrap_marked_lines.specs.Reading.{bytes_ahead, lines_ahead};
ghost use Rattle.textwrap_marks.specs.Words.{bytes_left, parts_behind_mark};

use crate::lines::{MarkedLine, is_title, read_line, without_returns};
use crate::states::ReadState;
use std::alloc::{AllocError, Global};
use textwrap_marks::options::ReflowOptions;
use textwrap_marks::words::split_at;

/// The first line of a text, and what follows its line feed, if it has one.
fn next_line<'t>(
    alloc: Global,
    text: &'t str,
    state: ReadState,
    options: &ReflowOptions<'_>,
) -> Result<(MarkedLine<'t>, Option<&'t str>, ReadState), AllocError>
    ensures lines { IfOk result (λ read. read_lines options.now (state_view state)
        (slice_split (λ c. c == 10) text.now)
        ≡ marked_line_view read.0 ∷ read_lines options.now (state_view read.2)
        (parts_behind_mark 10 read.1)) }
    ensures shorter { IfOk result (λ read. bytes_left read.1 ≤ length text.now) }
{
    let (raw, rest) = split_at(text, '\n');
    let state = state.enter(without_returns(raw));
    let line = read_line(alloc, raw, rest.is_some(), &state, options)?;
    let state = state.pass(alloc, &line)?;
    Ok((line, rest, state))
}

/// A line that was read, what follows it, and what is open there. Only the next line tells whether it
/// is a title.
#[derive(Drop)]
pub struct LinesAhead<'t> {
    line: MarkedLine<'t>,
    rest: Option<&'t str>,
    state: ReadState,
}

impl<'t> LinesAhead<'t> {
    /// The lines of a text.
    pub fn new(
        alloc: Global,
        text: &'t str,
        options: &ReflowOptions<'_>,
    ) -> Result<LinesAhead<'t>, AllocError>
        ensures { IfOk result (λ ahead. lines_ahead options.now (Some ahead)
            ≡ lines_of_text options.now text.now) }
    {
        let (line, rest, state) = next_line(alloc, text, ReadState::new(), options)?;
        Ok(LinesAhead { line, rest, state })
    }

    /// The first of the lines, and those behind it, if there are any. A title stands apart.
    pub fn next(
        self,
        alloc: Global,
        options: &ReflowOptions<'_>,
    ) -> Result<(MarkedLine<'t>, Option<LinesAhead<'t>>), AllocError>
        ensures lines { IfOk result (λ read. lines_ahead options.now (Some self.entry)
            ≡ marked_line_view read.0 ∷ lines_ahead options.now read.1) }
        ensures fewer { IfOk result (λ read. bytes_ahead read.1 < bytes_ahead (Some self.entry)) }
    {
        let LinesAhead {
            mut line,
            rest,
            state,
        } = self;
        let Some(left) = rest else {
            return Ok((line, None));
        };
        let (next, rest, state) = next_line(alloc, left, state, options)?;
        line.apart = line.apart | is_title(&line, &next);
        let ahead = LinesAhead {
            line: next,
            rest,
            state,
        };
        Ok((line, Some(ahead)))
    }
}
