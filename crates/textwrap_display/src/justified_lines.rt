//! Lines that are justified as they are found.
ghost use Rattle.std.specs.Prelude.{◌≡◌, ◌++◌, [], if◌then◌else◌, map, string_bytes, IfOk, OnOk};
ghost use Rattle.textwrap_display.specs.JustifiedText.{justified_after};
ghost use Rattle.textwrap_text.specs.LineEnding.{ending_bytes};

use crate::justifying::push_justified;
use std::alloc::{AllocError, Allocator};
use std::borrow::CowStr;
use textwrap::LineEnding;
use textwrap::words::display_width;
use textwrap_layout::layout::{Layout, next_indent};
use textwrap_layout::line_sinks::LineSink;
use textwrap_styles::inner::indent_end;

/// A text of lines, all but the last of each paragraph justified, with the line ending between each
/// two.
#[derive(Drop)]
pub struct JustifiedLines<'l, A: Allocator> {
    pub text: String<A>,
    /// Whether the text has a line. One may be empty, so the text does not tell.
    pub has_lines: bool,
    /// The line that was taken last. While it waits it is not in the text, as it may be the last of
    /// its paragraph.
    pub line: String<A>,
    pub waits: bool,
    pub layout: Layout<'l>,
}

impl<'t, 'l, A: Allocator> LineSink<'t, A> for JustifiedLines<'l, A> {
    ghost use Rattle.textwrap_display.specs.JustifiedSinks.{HoldsJustified};
    ghost use Rattle.textwrap_layout.specs.Paragraph.{line_bytes};
    ghost use Rattle.textwrap_layout.specs.Places.{lines_of};

    ghost name = { λ sink. 0 };

    ghost never_fails = { ⊥ };

    // `first` is as the paragraph began.
    ghost holds = { λ first now start held. HoldsJustified first now (map line_bytes (lines_of held)) };

    fn has_line(&self) -> bool {
        self.waits
    }

    fn begin_paragraph(&mut self, offset: usize) {}

    fn push_line(
        &mut self,
        alloc: A,
        indent: &str,
        start: usize,
        slice: &'t str,
        penalty: &str,
    ) -> Result<(), AllocError> {
        self.take_line(indent, slice, penalty)
    }
}

impl<A: Allocator> JustifiedLines<'_, A> {
    ghost use Rattle.std.specs.Prelude.{false};
    ghost use Rattle.textwrap_display.specs.JustifiedText.{joined_on};
    ghost use Rattle.textwrap_display.specs.JustifiedSinks.{justified_waiting, waiting, Writes};
    ghost use Rattle.textwrap_display.specs.JustifiedSinks.{TakesLine, WritesParagraph};
    ghost use Rattle.textwrap_layout.specs.Paragraph.{line_bytes, line_view};

    /// Writes these lines as those of a paragraph.
    ///
    /// # Errors
    /// [`AllocError`] where memory runs out.
    pub fn push_lines(&mut self, lines: &[CowStr<'_, A>]) -> Result<(), AllocError>
        requires { self.now.waits ≡ false }
        ensures { OnOk result (WritesParagraph self.old self.new
            (map line_bytes (map line_view lines.now))) }
    {
        for line in lines {
            self.take_line("", line.as_str(), "")?;
        }
        self.end_paragraph()
    }

    /// Writes the line that waits, as the last of its paragraph.
    ///
    /// # Errors
    /// [`AllocError`] where memory runs out.
    pub fn end_paragraph(&mut self) -> Result<(), AllocError>
        ensures written { OnOk result (Writes self.old self.new
            (joined_on (ending_bytes self.old.layout.line_ending) self.old.has_lines (waiting self.old))) }
        ensures none { OnOk result (self.new.waits ≡ false) }
    {
        if self.waits {
            begin_line(&mut self.text, self.layout.line_ending, self.has_lines)?;
            self.text.push_str(self.line.as_str())?;
            self.has_lines = true;
            self.waits = false;
        }
        Ok(())
    }

    /// Takes a line of these parts. The one that waits is written: it is not the last of its paragraph.
    fn take_line(&mut self, indent: &str, slice: &str, penalty: &str) -> Result<(), AllocError>
        ensures { OnOk result (TakesLine self.old self.new
            (indent.now ++ slice.now ++ penalty.now)) }
    {
        self.write_justified()?;
        self.waits = true;
        self.line.clear();
        self.line.push_str(indent)?;
        self.line.push_str(slice)?;
        self.line.push_str(penalty)
    }

    /// Writes the line that waits, justified.
    fn write_justified(&mut self) -> Result<(), AllocError>
        ensures { OnOk result (Writes self.old self.new (justified_waiting self.old)) }
    {
        if self.waits {
            begin_line(&mut self.text, self.layout.line_ending, self.has_lines)?;
            let indent = next_indent(&self.layout, self.has_lines);
            push_justified_after(
                &mut self.text,
                self.line.as_str(),
                indent,
                self.layout.width,
            )?;
            self.has_lines = true;
        }
        Ok(())
    }
}

/// Ends the line that stands before, where `is_later` says that one does.
fn begin_line<A: Allocator>(
    text: &mut String<A>,
    line_ending: LineEnding,
    is_later: bool,
) -> Result<(), AllocError>
    ensures { OnOk result (string_bytes text.new ≡ string_bytes text.old
        ++ (if is_later then ending_bytes line_ending else [])) }
{
    if is_later {
        text.push_str(line_ending.as_str())?;
    }
    Ok(())
}

/// Adds a line, justified after its indent.
fn push_justified_after<A: Allocator>(
    text: &mut String<A>,
    line: &str,
    indent: &str,
    width: usize,
) -> Result<(), AllocError>
    ensures { OnOk result (string_bytes text.new
        ≡ string_bytes text.old ++ justified_after width indent.now line.now) }
{
    let indent_end = indent_end(line, indent);
    text.push_str(&line[..indent_end])?;
    push_justified(
        text,
        &line[indent_end..],
        width.saturating_sub(display_width(indent)),
    )
}
