//! Where a text goes as it is made: to the heap, or into lent room.
ghost use Rattle.std.specs.Prelude.{◌≡◌};

use std::alloc::{AllocError, Allocator};
use textwrap_text::lent_text::LentText;

/// What takes a text, part after part.
pub(crate) trait TextSink {
    ghost use Rattle.std.specs.Prelude.{◌≡◌, ◌++◌, ℕ, List, IsOk, OnOk};

    // The reference that it writes through, if it has one.
    ghost name: { Self → ℕ };

    // That memory never runs out for it, as it needs none.
    ghost never_fails: { Type 0 };

    // Since it was the first of these it took this text, and is now the second.
    ghost holds: { Self → Self → List ℕ → Type 0 };

    /// Makes ready for so many bytes more, if that is of use.
    ///
    /// # Errors
    /// [`AllocError`] where memory runs out.
    fn reserve_bytes(&mut self, len: usize) -> Result<(), AllocError>
        ensures name { name self.new ≡ name self.old }
        ensures done { never_fails → IsOk result }
        ensures held { OnOk result ((first : Self) (text : List ℕ) → holds first self.old text
            → holds first self.new text) };

    /// Takes the next part.
    ///
    /// # Errors
    /// [`AllocError`] where memory runs out.
    fn push_part(&mut self, part: &str) -> Result<(), AllocError>
        ensures name { name self.new ≡ name self.old }
        ensures done { never_fails → IsOk result }
        ensures pushed { OnOk result ((first : Self) (text : List ℕ) → holds first self.old text
            → holds first self.new (text ++ part.now)) };
}

impl<A: Allocator> TextSink for String<A> {
    ghost use Rattle.std.specs.Prelude.{◌++◌, string_bytes};

    ghost name = { λ sink. 0 };

    ghost never_fails = { ⊥ };

    ghost holds = { λ first now text. string_bytes now ≡ string_bytes first ++ text };

    fn reserve_bytes(&mut self, len: usize) -> Result<(), AllocError> {
        self.reserve(len)
    }

    fn push_part(&mut self, part: &str) -> Result<(), AllocError> {
        Ok(self.push_str(part)?)
    }
}

impl<'r> TextSink for LentText<'r> {
    ghost use Rattle.std.specs.Prelude.{⊤};
    ghost use Rattle.textwrap.specs.TextSinks.{HoldsLentText};

    ghost name = { λ sink. sink.room.ghost_name };

    ghost never_fails = { ⊤ };

    ghost holds = { λ first now text. HoldsLentText first now text };

    fn reserve_bytes(&mut self, len: usize) -> Result<(), AllocError> {
        Ok(())
    }

    fn push_part(&mut self, part: &str) -> Result<(), AllocError> {
        self.push(part.as_bytes());
        Ok(())
    }
}
