//! Where the lines of a text go as they are found: to a list, or into one text. (The module `places`
//! has a third, where they stand.)
ghost use Rattle.std.specs.Prelude.{◌≡◌, ◌++◌, IfOk, OnOk};
ghost use Rattle.std.specs.String.{string_bytes};
ghost use Rattle.textwrap_layout.specs.Paragraph.{assembled_line, line_view};

use std::alloc::{AllocError, Allocator};
use std::borrow::CowStr;
use textwrap_text::lent_text::LentText;
use textwrap_text::line_ending::LineEnding;

/// What takes lines, one after another.
pub trait LineSink<'t, A: Allocator> {
    ghost use Rattle.std.specs.Prelude.{◌≡◌, ◌<◌, ◌++◌, ℕ, [], ◌∷◌, List, length, nat_lt, OnOk, IsOk};
    ghost use Rattle.textwrap_layout.specs.LineSinks.{Pushed};
    ghost use Rattle.textwrap_layout.specs.Paragraph.{assembled_line, text_limit};
    ghost use Rattle.textwrap_layout.specs.Places.{CutLine, cut_line};

    // The reference that it writes through, if it has one.
    ghost name: { Self → ℕ };

    // That memory never runs out for it, as it needs none.
    ghost never_fails: { Type 0 };

    // Since it was the first of these it took some lines, and is now the second. Its next lines are
    // those of a paragraph that so many bytes of the text come before. If it does not keep that
    // place, any will do.
    ghost holds: { Self → Self → ℕ → List CutLine → Type 0 };

    /// Whether it has taken a line.
    fn has_line(&self) -> bool
        ensures { (first : Self) (start : ℕ) (held : List CutLine) → holds first self.now start held
            → result ≡ nat_lt 0 (length held) };

    /// Goes on to a paragraph that so many bytes of the text come before.
    fn begin_paragraph(&mut self, offset: usize)
        requires { offset < text_limit }
        ensures name { name self.new ≡ name self.old }
        ensures held { (first : Self) (start : ℕ) (held : List CutLine)
            → holds first self.old start held → holds first self.new offset held };

    /// Takes a part of the paragraph as a line, with the indent before it and the penalty after it.
    /// `start` bytes of the paragraph come before the slice.
    ///
    /// # Errors
    /// [`AllocError`] where memory runs out.
    fn push_line(
        &mut self,
        alloc: A,
        indent: &str,
        start: usize,
        slice: &'t str,
        penalty: &str,
    ) -> Result<(), AllocError>
        requires { start < text_limit }
        ensures name { name self.new ≡ name self.old }
        ensures done { never_fails → IsOk result }
        ensures pushed { OnOk result (Pushed holds self.old self.new
            (cut_line start (assembled_line indent.now slice.now penalty.now) ∷ [])) };
}

/// A list of lines. It is lent, since the borrow checker covers no call that is given a type with
/// both a lifetime and the allocator, but where they are behind a reference.
#[derive(Drop)]
pub struct ListedLines<'l, 't, A: Allocator> {
    pub lines: &'l mut Vec<CowStr<'t, A>, A>,
}

impl<'l, 't, A: Allocator> LineSink<'t, A> for ListedLines<'l, 't, A> {
    ghost use Rattle.textwrap_layout.specs.LineSinks.{HoldsList};

    ghost name = { λ sink. sink.lines.ghost_name };

    ghost never_fails = { ⊥ };

    ghost holds = { λ first now start held. HoldsList now held };

    fn has_line(&self) -> bool {
        !self.lines.is_empty()
    }

    fn begin_paragraph(&mut self, offset: usize) {}

    fn push_line(
        &mut self,
        alloc: A,
        indent: &str,
        start: usize,
        slice: &'t str,
        penalty: &str,
    ) -> Result<(), AllocError> {
        let line = assemble(alloc, indent, slice, penalty)?;
        Ok(self.lines.push(line)?)
    }
}

/// A text of lines, with the line ending between each two.
#[derive(Drop)]
pub struct JoinedLines<A: Allocator> {
    pub text: String<A>,
    pub line_ending: LineEnding,
    /// Whether it has a line. One may be empty, so the text does not tell.
    pub has_lines: bool,
}

impl<'t, A: Allocator> LineSink<'t, A> for JoinedLines<A> {
    ghost use Rattle.textwrap_layout.specs.LineSinks.{HoldsText};

    ghost name = { λ sink. 0 };

    ghost never_fails = { ⊥ };

    ghost holds = { λ first now start held. HoldsText first now held };

    fn has_line(&self) -> bool {
        self.has_lines
    }

    fn begin_paragraph(&mut self, offset: usize) {}

    fn push_line(
        &mut self,
        alloc: A,
        indent: &str,
        start: usize,
        slice: &'t str,
        penalty: &str,
    ) -> Result<(), AllocError> {
        self.add_line(indent, slice, penalty)
    }
}

impl<A: Allocator> JoinedLines<A> {
    ghost use Rattle.std.specs.Prelude.{◌++◌, OnOk};
    ghost use Rattle.textwrap_layout.specs.LineSinks.{HasOneMore};

    /// Writes a line, and the ending before it where one stands there.
    fn add_line(&mut self, indent: &str, slice: &str, penalty: &str) -> Result<(), AllocError>
        ensures { OnOk result (HasOneMore self.old self.new
            (indent.now ++ slice.now ++ penalty.now)) }
    {
        if self.has_lines {
            match self.line_ending {
                LineEnding::LF => self.text.push('\n')?,
                LineEnding::CRLF => self.text.push_str("\r\n")?,
            }
        }
        self.has_lines = true;
        // Most lines are the slice alone.
        if indent.is_empty() && penalty.is_empty() {
            return self.text.push_str(slice);
        }
        push_parts(&mut self.text, indent, slice, penalty)
    }
}

/// Writes the slice, with the indent before it and the penalty after it.
fn push_parts<A: Allocator>(
    text: &mut String<A>,
    indent: &str,
    slice: &str,
    penalty: &str,
) -> Result<(), AllocError>
    ensures { OnOk result (string_bytes text.new
        ≡ string_bytes text.old ++ indent.now ++ slice.now ++ penalty.now) }
{
    text.push_str(indent)?;
    text.push_str(slice)?;
    text.push_str(penalty)
}

/// A text of lines in lent room, with the line ending between each two.
#[derive(Drop)]
pub struct LentLines<'l, 'r> {
    pub text: &'l mut LentText<'r>,
    pub line_ending: LineEnding,
    /// Whether it has a line.
    pub has_lines: bool,
}

impl<'t, 'l, 'r, A: Allocator> LineSink<'t, A> for LentLines<'l, 'r> {
    ghost use Rattle.std.specs.Prelude.{⊤};
    ghost use Rattle.textwrap_layout.specs.LineSinks.{HoldsLent};

    ghost name = { λ sink. sink.text.ghost_name };

    ghost never_fails = { ⊤ };

    ghost holds = { λ first now start held. HoldsLent first now held };

    fn has_line(&self) -> bool {
        self.has_lines
    }

    fn begin_paragraph(&mut self, offset: usize) {}

    fn push_line(
        &mut self,
        alloc: A,
        indent: &str,
        start: usize,
        slice: &'t str,
        penalty: &str,
    ) -> Result<(), AllocError> {
        if self.has_lines {
            match self.line_ending {
                LineEnding::LF => self.text.push_byte(b'\n'),
                LineEnding::CRLF => self.text.push(b"\r\n"),
            }
        }
        self.has_lines = true;
        // Most lines are the slice alone.
        if indent.is_empty() && penalty.is_empty() {
            self.text.push(slice.as_bytes());
            return Ok(());
        }
        self.text.push(indent.as_bytes());
        self.text.push(slice.as_bytes());
        self.text.push(penalty.as_bytes());
        Ok(())
    }
}

/// The slice, with the indent before it and the penalty after it. Copies only where one is added.
fn assemble<'t, A: Allocator>(
    alloc: A,
    indent: &str,
    slice: &'t str,
    penalty: &str,
) -> Result<CowStr<'t, A>, AllocError>
    ensures { IfOk result (λ line. line_view line
        ≡ assembled_line indent.now slice.now penalty.now) }
{
    if indent.is_empty() && penalty.is_empty() {
        return Ok(CowStr::Borrowed(slice));
    }
    let mut line = String::new(alloc);
    push_parts(&mut line, indent, slice, penalty)?;
    Ok(CowStr::Owned(line))
}
