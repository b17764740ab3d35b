//! Where lines stand: in the text that they were cut from, or among the lines that are texts of
//! their own.
ghost use Rattle.std.specs.Prelude.{◌^◌, ◌<◌};

use crate::line_sinks::LineSink;
use std::alloc::{AllocError, Allocator};

/// Where a line stands.
#[derive(Clone, Copy, Debug)]
pub struct Place {
    /// How many bytes come before it: in the text before the place that it was cut from, or of the
    /// lines that are texts of their own.
    pub offset: usize,
    /// How many bytes it has.
    pub len: usize,
    /// Whether it is a text of its own.
    pub is_built: bool,
}

/// Where a line stands, as the calls from C report it.
#[repr(C)]
#[derive(Clone, Copy)]
pub struct TextwrapLine {
    /// How many bytes come before it: in the text before the place that it was cut from, or in the
    /// room.
    pub offset: usize,
    /// How many bytes it has.
    pub len: usize,
    /// 1 where it is a line of its own, in the room, and 0 where it is a part of the text.
    pub is_built: usize,
}

/// Lines by where they stand.
#[derive(Drop)]
pub struct PlacedLines<A: Allocator> {
    /// Where each line stands.
    pub places: Vec<Place, A>,
    /// Those that are no slices of the text, one after another.
    pub built: Vec<u8, A>,
    /// How many bytes of the text come before the paragraph whose lines come next.
    offset: usize,
    ghost limit: { offset < 2 ^ 63 },
}

impl<A: Allocator + Copy> PlacedLines<A> {
    ghost use Rattle.std.specs.Prelude.{◌≡◌, []};

    /// No lines.
    pub fn new(alloc: A) -> PlacedLines<A>
        ensures places { result.places.items ≡ [] }
        ensures built { result.built.items ≡ [] }
        ensures offset { result.offset ≡ 0 }
    {
        PlacedLines {
            places: Vec::new(alloc),
            built: Vec::new(alloc),
            offset: 0,
        }
    }
}

impl<A: Allocator> PlacedLines<A> {
    ghost use Rattle.std.specs.Prelude.{◌≡◌, ◌+◌, [], ◌∷◌, ◌++◌, length, OnOk};
    ghost use Rattle.textwrap_layout.specs.Paragraph.{Built, assembled_line, text_limit};
    ghost use Rattle.textwrap_layout.specs.Places.{built_bytes, place_of};

    /// Adds a line of the paragraph. `start` bytes of it come before the slice.
    ///
    /// # Errors
    /// [`AllocError`] where memory runs out.
    fn add_line(
        &mut self,
        indent: &str,
        start: usize,
        slice: &str,
        penalty: &str,
    ) -> Result<(), AllocError>
        requires { start < text_limit }
        ensures places { OnOk result (self.new.places.items ≡ self.old.places.items
            ++ place_of (self.old.offset + start) (length self.old.built.items)
            (assembled_line indent.now slice.now penalty.now) ∷ []) }
        ensures built { OnOk result (self.new.built.items ≡ self.old.built.items
            ++ built_bytes (assembled_line indent.now slice.now penalty.now)) }
        ensures offset { self.new.offset ≡ self.old.offset }
    {
        if !indent.is_empty() || !penalty.is_empty() {
            return self.push_built(indent, slice, penalty);
        }
        self.places.push(Place {
            offset: self.offset + start,
            len: slice.len(),
            is_built: false,
        })?;
        Ok(())
    }

    /// Adds a line that is a text of its own, in three parts.
    ///
    /// # Errors
    /// [`AllocError`] where memory runs out.
    pub fn push_built(&mut self, front: &str, middle: &str, end: &str) -> Result<(), AllocError>
        ensures places { OnOk result (self.new.places.items ≡ self.old.places.items
            ++ place_of 0 (length self.old.built.items) (Built (front.now ++ middle.now ++ end.now))
            ∷ []) }
        ensures built { OnOk result (self.new.built.items ≡ self.old.built.items
            ++ front.now ++ middle.now ++ end.now) }
        ensures offset { self.new.offset ≡ self.old.offset }
    {
        let offset = self.built.len();
        self.built.extend_from_slice(front.as_bytes())?;
        self.built.extend_from_slice(middle.as_bytes())?;
        self.built.extend_from_slice(end.as_bytes())?;
        self.places.push(Place {
            offset,
            len: self.built.len() - offset,
            is_built: true,
        })?;
        Ok(())
    }
}

impl<'t, A: Allocator> LineSink<'t, A> for PlacedLines<A> {
    ghost use Rattle.textwrap_layout.specs.LineSinks.{HoldsPlaces};

    ghost name = { λ sink. 0 };

    ghost never_fails = { ⊥ };

    ghost holds = { λ first now start held. HoldsPlaces now start held };

    fn has_line(&self) -> bool {
        !self.places.is_empty()
    }

    fn begin_paragraph(&mut self, offset: usize) {
        self.offset = offset;
    }

    fn push_line(
        &mut self,
        alloc: A,
        indent: &str,
        start: usize,
        slice: &'t str,
        penalty: &str,
    ) -> Result<(), AllocError> {
        self.add_line(indent, start, slice, penalty)
    }
}
