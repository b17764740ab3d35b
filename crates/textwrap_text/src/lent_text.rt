//! A text in room that is lent.
ghost use Rattle.std.specs.Prelude.{◌≡◌, ℕ, List, [], ◌∷◌, ◌++◌};
ghost use Rattle.textwrap_text.specs.LentText.{IsLent};

/// A text of which lent room holds as much of the beginning as there is room for.
#[derive(Drop)]
pub struct LentText<'r> {
    room: &'r mut [u8],
    /// The bytes of the whole text, or the greatest number if they are more.
    len: usize,
}

impl<'r> LentText<'r> {
    /// The empty text.
    pub fn new(room: &'r mut [u8]) -> LentText<'r>
        ensures same { result.room.ghost_name ≡ room.entry.ghost_name }
        ensures empty { IsLent result [] room.old }
    {
        LentText { room, len: 0 }
    }

    /// The bytes of the whole text, or the greatest number if they are more.
    pub fn len(&self) -> usize
        ensures { result ≡ self.now.len }
    {
        self.len
    }

    /// Appends some bytes.
    pub fn push(&mut self, part: &[u8])
        ensures same { self.new.room.ghost_name ≡ self.old.room.ghost_name }
        ensures text { (text before : List ℕ) → IsLent self.old text before
            → IsLent self.new (text ++ part.now) before }
    {
        let end = self.len.saturating_add(part.len());
        if self.len >= self.room.len() {
            // There is no room for any of it.
            self.len = end;
            return;
        }
        if end > self.room.len() {
            // Copied at once, what has no room would have to be cut off first.
            return self.push_bytes(part);
        }
        self.room[self.len..end].copy_from_slice(part);
        self.len = end;
    }

    /// Appends some bytes, one after another.
    fn push_bytes(&mut self, part: &[u8])
        ensures same { self.new.room.ghost_name ≡ self.old.room.ghost_name }
        ensures text { (text before : List ℕ) → IsLent self.old text before
            → IsLent self.new (text ++ part.now) before }
    {
        for byte in part {
            self.push_byte(*byte);
        }
    }

    /// Appends a byte.
    pub fn push_byte(&mut self, byte: u8)
        ensures same { self.new.room.ghost_name ≡ self.old.room.ghost_name }
        ensures text { (text before : List ℕ) → IsLent self.old text before
            → IsLent self.new (text ++ byte ∷ []) before }
    {
        if self.len < self.room.len() {
            self.room[self.len] = byte;
        }
        self.len = self.len.saturating_add(1);
    }
}
