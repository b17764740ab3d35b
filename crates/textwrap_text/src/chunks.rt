//! A text by its words, each with the blanks behind it.
ghost use Rattle.std.specs.Prelude.{◌≡◌, ◌-◌, ◌<◌, ◌≤◌, ◌∷◌, List, ℕ, length, take, drop};
ghost use Rattle.std.specs.Prelude.{slice_index};
ghost use Rattle.std.specs.Iterator.{YieldsFirstBy, item_count};
ghost use Rattle.textwrap_text.specs.Blanks.{blank};
ghost use Rattle.textwrap_text.specs.Chunks.{chunks, is_cut};

use std::marker::Model;

/// The words of a text, one after the other, each with the blanks behind it. They are not measured,
/// and need no memory: of `"foo bar"` these are `"foo "` and `"bar"`. Blanks before the first word
/// are an item of their own. To contracts it is the list of the texts to come.
#[derive(Debug, Drop)]
pub struct Chunks<'t> {
    rest: &'t str,
}

impl<'t> Chunks<'t> {
    /// Those of this text.
    pub fn of(text: &'t str) -> Chunks<'t>
        ensures { result ≡ chunks text.now }
    {
        Chunks { rest: text }
    }
}

impl<'t> Model for Chunks<'t> {
    ghost Value = { List (List ℕ) };

    ghost view = { λ these. chunks these.rest.now };
}

impl<'t> Iterator for Chunks<'t> {
    type Item = &'t str;

    ghost next_gives = { YieldsFirstBy (λ chunk. chunk.now) (λ these. these) };

    ghost remaining = { item_count (λ these. these) };

    fn next(&mut self) -> Option<&'t str> {
        if self.rest.is_empty() {
            return None;
        }
        let (chunk, after) = self.rest.split_at(chunk_len(self.rest.as_bytes()));
        self.rest = after;
        Some(chunk)
    }
}

/// How long the first word of a text is, with the blanks behind it.
#[tactic(auto, using(crate::proofs::Units::Chunks::chunks_first))]
fn chunk_len(text: &[u8]) -> usize
    requires { 0 < length text.now }
    ensures first { chunks text.now ≡ take result text.now ∷ chunks (drop result text.now) }
    ensures some { 0 < result }
    ensures within { result ≤ length text.now }
    ensures after_blank { result < length text.now → slice_index text.now (result - 1) ≡ blank }
{
    let mut end = 1;
    while end < text.len() && !is_cut(text[end - 1], text[end]) {
        end += 1;
    }
    end
}

/// Whether a text is cut between two bytes.
fn is_cut(before: u8, after: u8) -> bool
    ensures { result ≡ is_cut before after }
{
    before == b' ' && after != b' '
}
