//! What is open at a line.
ghost use Rattle.std.specs.Prelude.{◌≡◌, true, IfOk};
ghost use Rattle.std.specs.Option.{option_map};
ghost use Rattle.textwrap_marked_lines.specs.Fences.{fence_view};
ghost use Rattle.textwrap_marked_lines.specs.Columns.{depth_view};
ghost use Rattle.textwrap_marked_lines.specs.Lines.{entered, fence_at, first_state, is_before};
ghost use Rattle.textwrap_marked_lines.specs.Lines.{is_in_block, is_prompted, marked_line_view};
ghost use Rattle.textwrap_marked_lines.specs.Lines.{new_before, new_by, new_fence, opened_fence, passed};
ghost use Rattle.textwrap_marked_lines.specs.Lines.{state_view};
ghost use Rattle.textwrap_marks.specs.Signs.{ArePlain};
ghost use Rattle.textwrap_marks.specs.Words.{spaced_words};

use crate::columns::{Depth, depth_of, marks_of};
use crate::fences::{Fence, is_closed_by, is_left_by, opened};
use crate::line::MarkedLine;
use std::alloc::{AllocError, Global};
use textwrap_marks::signs::{closes_block, deeper_by, opens_session};

/// What is open: a block comment, a fence, a prompt; how deep the last text stood that was not
/// fenced or deeper, and by how many columns text is deeper.
#[derive(Drop)]
pub struct ReadState {
    pub in_block: bool,
    pub fence: Option<Fence>,
    pub prompted: bool,
    pub before: Option<Depth>,
    pub by: usize,
}

impl ReadState {
    /// Nothing is open.
    pub fn new() -> Self
        ensures { state_view result ≡ first_state }
    {
        ReadState {
            in_block: false,
            fence: None,
            prompted: false,
            before: None,
            by: 4,
        }
    }

    /// What is open at a line: a fence ends before one without its marks.
    pub fn enter(self, line: &str) -> Self
        ensures { state_view result ≡ entered (state_view self) line.now }
    {
        let ReadState {
            in_block,
            fence,
            prompted,
            before,
            by,
        } = self;
        ReadState {
            in_block,
            fence: fence_at(fence, line),
            prompted,
            before,
            by,
        }
    }

    /// What is open behind a line.
    pub fn pass(self, alloc: Global, line: &MarkedLine<'_>) -> Result<Self, AllocError>
        requires { line.now.plain ≡ true → ArePlain (marked_line_view line.now).words }
        ensures { IfOk result (λ state. state_view state
            ≡ passed (state_view self) (marked_line_view line.now)) }
    {
        let ReadState {
            in_block,
            fence,
            prompted,
            before,
            by,
        } = self;
        let fenced = fence.is_some();
        let is_before = is_before(fenced, line);
        let fence = new_fence(alloc, fence, line)?;
        let before = new_before(alloc, before, is_before, line)?;
        Ok(ReadState {
            in_block: is_in_block(in_block, fenced, line),
            fence,
            prompted: is_prompted(prompted, fenced, line.plain, line.text),
            before,
            by: new_by(by, is_before, line),
        })
    }
}

/// The fence that is still open at a line.
fn fence_at(fence: Option<Fence>, line: &str) -> Option<Fence>
    ensures { option_map fence_view result ≡ fence_at (option_map fence_view fence) line.now }
{
    match fence {
        Some(fence) => {
            if is_left_by(&fence, line) {
                None
            } else {
                Some(fence)
            }
        }
        None => None,
    }
}

/// The fence that is open behind a line.
fn new_fence(
    alloc: Global,
    fence: Option<Fence>,
    line: &MarkedLine<'_>,
) -> Result<Option<Fence>, AllocError>
    requires { line.now.plain ≡ true → ArePlain (marked_line_view line.now).words }
    ensures { IfOk result (λ new. option_map fence_view new
        ≡ new_fence (option_map fence_view fence) (marked_line_view line.now)) }
{
    match fence {
        Some(fence) => {
            if is_closed_by(&fence, line.hanging.as_str(), line.text) {
                Ok(None)
            } else {
                Ok(Some(fence))
            }
        }
        None => opened_fence(alloc, line),
    }
}

/// The fence that a line opens, if it does.
fn opened_fence(alloc: Global, line: &MarkedLine<'_>) -> Result<Option<Fence>, AllocError>
    requires { line.now.plain ≡ true → ArePlain (marked_line_view line.now).words }
    ensures { IfOk result (λ new. option_map fence_view new ≡ opened_fence (marked_line_view line.now)) }
{
    if line.deeper {
        return Ok(None);
    }
    match opened(line.plain, line.text) {
        Some(kind) => {
            let marks = String::from_str(alloc, marks_of(line.hanging.as_str()))?;
            Ok(Some(Fence { marks, kind }))
        }
        None => Ok(None),
    }
}

/// Whether a line is the text before later lines.
#[tactic(auto, using(textwrap_marks::proofs::WordCuts::words_none))]
fn is_before(fenced: bool, line: &MarkedLine<'_>) -> bool
    ensures { result ≡ is_before fenced (marked_line_view line.now) }
{
    !fenced & !line.deeper & !line.text.is_empty()
}

/// How deep the text before later lines stands.
fn new_before(
    alloc: Global,
    before: Option<Depth>,
    is_before: bool,
    line: &MarkedLine<'_>,
) -> Result<Option<Depth>, AllocError>
    ensures { IfOk result (λ new. option_map depth_view new
        ≡ new_before (option_map depth_view before) is_before (marked_line_view line.now)) }
{
    if is_before {
        Ok(Some(depth_of(alloc, line.hanging.as_str())?))
    } else {
        Ok(before)
    }
}

/// By how many columns text is deeper behind a line.
fn new_by(by: usize, is_before: bool, line: &MarkedLine<'_>) -> usize
    ensures { result ≡ new_by by is_before (marked_line_view line.now) }
{
    if is_before {
        deeper_by(line.hanging.as_str(), line.text)
    } else {
        by
    }
}

/// Whether a block comment is open behind a line.
fn is_in_block(in_block: bool, fenced: bool, line: &MarkedLine<'_>) -> bool
    ensures { result ≡ is_in_block in_block fenced (marked_line_view line.now) }
{
    if in_block {
        !closes_block(line.text)
    } else {
        !fenced & line.opens_block
    }
}

/// Whether a session is open behind this text, whose words may be known to be plain.
#[tactic(auto, using(textwrap_marks::proofs::WordCuts::words_none))]
fn is_prompted(prompted: bool, fenced: bool, plain: bool, text: &str) -> bool
    requires { plain ≡ true → ArePlain (spaced_words text.now) }
    ensures { result ≡ is_prompted prompted fenced (spaced_words text.now) }
{
    !text.is_empty() && (prompted || !fenced && opens_session(plain, text))
}
