//! The columns of a text, fragments and words: what the original has in its module `core`. The text
//! `foo bar` has 7 columns, and its word `foo` is a fragment of width 3, with a blank after it.
ghost use Rattle.std.specs.Prelude.{◌≡◌};
ghost use Rattle.textwrap_words.specs.Words.{word_view, sizes_of, word_of};

pub use breaking::{BreakApart, break_words};
pub use textwrap_base::Fragment;
use textwrap_base::Penalties;
use textwrap_text::blanks::split_final_blanks;
pub use textwrap_text::widths::{display_width, strip_ansi_escape_sequences};

pub(crate) mod breaking;

/// A word of a text and what follows it. The texts are borrowed, so a copy needs no memory.
/// `Word::from("foo ")` has the word `foo`, one blank, no penalty and the width 3.
#[derive(Clone, Copy, Debug, PartialEq, Eq)]
pub struct Word<'a> {
    /// The text of the word.
    pub word: &'a str,
    /// The blanks after it. A line shows them between this word and its next one, and at its end
    /// only where blanks are preserved.
    pub whitespace: &'a str,
    /// What a line that ends with this word shows instead of its blanks, such as a hyphen.
    pub penalty: &'a str,
    /// The columns of `word`, as `display_width` counts them.
    pub width: usize,
}

impl<'a> From<&'a str> for Word<'a> {
    ghost from_gives = { λ text result. word_view result ≡ word_of text.now };

    /// Takes the whole text as one word, whose whitespace is the blanks that the text ends in, and
    /// which has no penalty: `Word::from("foo  ")` is `foo` and two blanks, of 3 columns. The call
    /// always succeeds and needs no memory.
    fn from(text: &'a str) -> Word<'a> {
        let (word, whitespace) = split_final_blanks(text);
        Word {
            word,
            whitespace,
            penalty: "",
            width: display_width(word),
        }
    }
}

impl<'a> Word<'a> {
    /// The field `word`, to which the original's `Word` dereferences: `"foo"` for
    /// `Word::from("foo ")`.
    pub fn as_str(&self) -> &'a str
        ensures { result.now ≡ self.now.word.now }
    {
        self.word
    }
}

impl<'a> Fragment for Word<'a> {
    ghost sizes = { λ word. sizes_of (word_view word) };

    /// The field `width`, in columns.
    fn width(&self) -> usize {
        self.width
    }

    /// The bytes of the whitespace, as many as its columns where it is blanks.
    fn whitespace_width(&self) -> usize {
        self.whitespace.len()
    }

    /// The bytes of the penalty, as many as its columns where it is printable ASCII.
    fn penalty_width(&self) -> usize {
        self.penalty.len()
    }

    /// The `hyphen_penalty` where the word has a penalty, and else 0.
    fn break_penalty(&self, penalties: &Penalties) -> usize {
        penalties.usual_break_penalty(self.penalty_width())
    }
}
