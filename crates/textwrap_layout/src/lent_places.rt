//! Where lines stand, written into lent room, with those that are texts of their own.
ghost use Rattle.std.specs.Prelude.{◌≡◌, ◌^◌, ◌<◌};

use crate::line_sinks::LineSink;
use crate::places::TextwrapLine;
use crate::written::write_at;
use std::alloc::{AllocError, Allocator};

/// How long lines are that were written into lent room.
#[derive(Clone, Copy, Debug)]
pub struct LineCounts {
    /// How many they are, or the greatest number if they are more.
    pub lines: usize,
    /// How many bytes those have together that are texts of their own, or the greatest number if
    /// they are more.
    pub built: usize,
}

/// Lines by where they stand, in lent room: as many of them as there is room for.
#[derive(Drop)]
pub struct LentPlaces<'r> {
    lines: &'r mut [TextwrapLine],
    /// How many lines there are, or the greatest number if they are more.
    count: usize,
    room: &'r mut [u8],
    /// How many bytes those have that are texts of their own, or the greatest number if they are
    /// more.
    len: usize,
    /// How many bytes of the text come before the paragraph whose lines come next.
    offset: usize,
    ghost limit: { offset < 2 ^ 63 },
}

impl<'r> LentPlaces<'r> {
    ghost use Rattle.std.specs.Prelude.{ℕ, List, [], ◌∷◌, ◌+◌, ◌++◌};
    ghost use Rattle.textwrap_layout.specs.LentPlaces.{AddsPlace, ArePlaced, HasWritten};
    ghost use Rattle.textwrap_layout.specs.LentPlaces.{KeepsPlaces};
    ghost use Rattle.textwrap_layout.specs.Paragraph.{Built, assembled_line, text_limit};

    /// No lines.
    pub fn new(lines: &'r mut [TextwrapLine], room: &'r mut [u8]) -> LentPlaces<'r>
        ensures same_lines { result.lines.ghost_name ≡ lines.entry.ghost_name }
        ensures same_room { result.room.ghost_name ≡ room.entry.ghost_name }
        ensures none { ArePlaced result [] [] lines.old room.old }
        ensures offset { result.offset ≡ 0 }
    {
        LentPlaces {
            lines,
            count: 0,
            room,
            len: 0,
            offset: 0,
        }
    }

    /// How long the lines are.
    pub fn counts(&self) -> LineCounts
        ensures lines { result.lines ≡ self.now.count }
        ensures built { result.built ≡ self.now.len }
    {
        LineCounts {
            lines: self.count,
            built: self.len,
        }
    }

    /// Writes where one more line stands.
    pub fn push(&mut self, line: TextwrapLine)
        ensures same { KeepsPlaces self.old self.new }
        ensures room { self.new.room.now ≡ self.old.room.now }
        ensures len { self.new.len ≡ self.old.len }
        ensures lines { (lines before : List TextwrapLine)
            → HasWritten self.old.lines.now self.old.count lines before
            → HasWritten self.new.lines.now self.new.count (lines ++ line ∷ []) before }
    {
        self.count = write_at(self.lines, self.count, &[line]);
    }

    /// Writes some bytes of a line that is a text of its own.
    pub fn push_bytes(&mut self, part: &[u8])
        ensures same { KeepsPlaces self.old self.new }
        ensures lines { self.new.lines.now ≡ self.old.lines.now }
        ensures count { self.new.count ≡ self.old.count }
        ensures room { (text before : List ℕ)
            → HasWritten self.old.room.now self.old.len text before
            → HasWritten self.new.room.now self.new.len (text ++ part.now) before }
    {
        self.len = write_at(self.room, self.len, part);
    }

    /// Adds a line of the paragraph. `start` bytes of it come before the slice.
    fn add_line(&mut self, indent: &str, start: usize, slice: &str, penalty: &str)
        requires { start < text_limit }
        ensures { AddsPlace self.old self.new (self.old.offset + start)
            (assembled_line indent.now slice.now penalty.now) }
    {
        if indent.len() + penalty.len() > 0 {
            return self.push_built(indent, slice, penalty);
        }
        self.push(TextwrapLine {
            offset: self.offset + start,
            len: slice.len(),
            is_built: 0,
        });
    }

    /// Adds a line that is a text of its own, in three parts.
    fn push_built(&mut self, front: &str, middle: &str, end: &str)
        ensures { (at : ℕ)
            → AddsPlace self.old self.new at (Built (front.now ++ middle.now ++ end.now)) }
    {
        let offset = self.len;
        self.push_bytes(front.as_bytes());
        self.push_bytes(middle.as_bytes());
        self.push_bytes(end.as_bytes());
        self.push(TextwrapLine {
            offset,
            len: front
                .len()
                .saturating_add(middle.len())
                .saturating_add(end.len()),
            is_built: 1,
        });
    }
}

/// What takes lines by where they stand, and writes them into lent room.
#[derive(Drop)]
pub struct LentLinePlaces<'l, 'r> {
    pub placed: &'l mut LentPlaces<'r>,
}

impl<'t, 'l, 'r, A: Allocator> LineSink<'t, A> for LentLinePlaces<'l, 'r> {
    ghost use Rattle.std.specs.Prelude.{⊤};
    ghost use Rattle.textwrap_layout.specs.LineSinks.{HoldsLentPlaces};

    ghost name = { λ sink. sink.placed.ghost_name };

    ghost never_fails = { ⊤ };

    ghost holds = { HoldsLentPlaces };

    fn has_line(&self) -> bool {
        self.placed.count > 0
    }

    fn begin_paragraph(&mut self, offset: usize) {
        self.placed.offset = offset;
    }

    fn push_line(
        &mut self,
        alloc: A,
        indent: &str,
        start: usize,
        slice: &'t str,
        penalty: &str,
    ) -> Result<(), AllocError> {
        self.placed.add_line(indent, start, slice, penalty);
        Ok(())
    }
}
