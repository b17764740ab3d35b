//! The characters of a text, and the columns of a character by itself. `words` says how many a text
//! takes.
ghost use Rattle.std.specs.Prelude.{◌≡◌, ◌+◌, ◌<◌, ◌^◌, length, chars, IsUtf8};
ghost use Rattle.std.specs.Str.Iter.{char_indices_offset, char_indices_rest};
ghost use Rattle.std.proofs.Props.{props};
ghost use Rattle.textwrap_text.specs.Units.{columns};

use crate::escapes::State;
use std::str::CharIndices;
use unicode_width::UnicodeWidthChar;

/// A character of a text.
#[derive(Clone, Copy, Debug)]
pub struct Character {
    /// Where it begins, in bytes.
    pub at: usize,
    /// The character itself.
    pub ch: char,
    /// Whether it is visible, and no part of an escape sequence.
    pub is_visible: bool,
}

/// The characters of a text, one after another: of `"a\x1b[mb"` the first and the last are visible.
#[derive(Debug, Drop)]
pub struct Characters<'t> {
    rest: CharIndices<'t>,
    state: State,
    ghost utf8: { IsUtf8 (char_indices_rest rest) } by { Prim.hlevel props },
    ghost bound: { char_indices_offset rest + length (char_indices_rest rest) < 2 ^ 64 },
}

impl<'t> Characters<'t> {
    ghost use Rattle.textwrap_text.specs.Characters.{characters_from, characters_of};
    ghost use Rattle.textwrap_text.specs.CharactersLeft.{characters_left};

    /// The characters of a text, from the first on.
    pub fn of(text: &'t str) -> Characters<'t>
        ensures { characters_left result ≡ characters_of text.now }
    {
        Characters::read_on(State::Text, text)
    }

    /// The characters of what follows a text that is read up to this state.
    pub fn read_on(state: State, text: &'t str) -> Characters<'t>
        ensures { characters_left result ≡ characters_from state 0 (chars text.now) }
    {
        Characters {
            rest: text.char_indices(),
            state,
        }
    }
}

impl<'t> Iterator for Characters<'t> {
    ghost use Rattle.std.specs.Iterator.{YieldsFirstBy, item_count};
    ghost use Rattle.textwrap_text.specs.CharactersLeft.{characters_left};

    type Item = Character;

    ghost next_gives = { YieldsFirstBy (λ character. character) characters_left };

    ghost remaining = { item_count characters_left };

    #[inline(always)]
    fn next(&mut self) -> Option<Character> {
        let Some((at, ch)) = self.rest.next() else {
            return None;
        };
        let (next, is_visible) = self.state.step(ch);
        self.state = next;
        Some(Character { at, ch, is_visible })
    }
}

/// The columns of a character alone, 0 for a control character.
pub fn columns(ch: char) -> usize
    ensures { result ≡ columns ch }
{
    let code = ch as u32;
    // The syllables and the ideographs that most of a Japanese or Chinese text is.
    if 0x3041 <= code && code <= 0x3096 {
        return 2;
    }
    if 0x4E00 <= code && code <= 0x9FFF {
        return 2;
    }
    ch.width().unwrap_or(0)
}
