//! How a text is laid out again.
ghost use Rattle.std.specs.Prelude.{◌≡◌, [], false, None};
ghost use Rattle.textwrap_marks.specs.Marks.{is_among, is_comment, is_comment_at};

use crate::marks::{is_line_comment, is_opening};
use textwrap_text::line_ending::LineEnding;
use textwrap_words::wrap_algorithms::Penalties;

/// How the words of a paragraph are divided into lines.
#[derive(Clone, Copy, Debug, PartialEq, Eq)]
pub enum Algorithm {
    /// Each line takes words while they fit.
    FirstFit,
    /// The lines are those of least cost at these penalties.
    LeastCost(Penalties),
}

/// How a text of many paragraphs is laid out again.
#[derive(Clone, Copy, Debug)]
pub struct ReflowOptions<'a> {
    /// The columns of a line, with its prefix.
    pub width: usize,
    /// How the words of a paragraph are divided into lines.
    pub algorithm: Algorithm,
    /// How all lines end. Without one, each line that stays keeps its ending, and filled lines take
    /// that of the first line of the text.
    pub ending: Option<LineEnding>,
    /// Whether the text has no comments, and `#` is a heading.
    pub markdown: bool,
    /// Further words that mark a comment.
    pub markers: &'a [&'a str],
    /// Whether block comments have no margin of `*`: the later lines of one stand behind blanks.
    pub bare: bool,
    /// What the marks before a paragraph have to begin with, for one of them, so that it is filled.
    /// With none all are.
    pub prefixes: &'a [&'a str],
    /// Whether text is filled that is deeper than the text before it.
    pub indented: bool,
    /// Whether each line of a paragraph but its last has its gaps widened up to the width. Gaps of
    /// blanks in a text are then no columns, and no reason to let it stay.
    pub justify: bool,
}

impl ReflowOptions<'static> {
    ghost use Rattle.textwrap_marks.specs.declared.options.Algorithm.TheVariants.{FirstFit};

    /// Lines of so many columns, by first fit, that end as the text does. Nothing is declared: all
    /// marks of comments count, block comments have `*`, and all paragraphs are filled but the
    /// deeper ones, with single blanks.
    pub fn new(width: usize) -> Self
        ensures width { result.width ≡ width }
        ensures algorithm { result.algorithm ≡ FirstFit }
        ensures ending { result.ending ≡ None }
        ensures markdown { result.markdown ≡ false }
        ensures markers { result.markers.now ≡ [] }
        ensures bare { result.bare ≡ false }
        ensures prefixes { result.prefixes.now ≡ [] }
        ensures indented { result.indented ≡ false }
        ensures justify { result.justify ≡ false }
    {
        ReflowOptions {
            width,
            algorithm: Algorithm::FirstFit,
            ending: None,
            markdown: false,
            markers: &[],
            bare: false,
            prefixes: &[],
            indented: false,
            justify: false,
        }
    }
}

impl<'a> ReflowOptions<'a> {
    /// Whether the caller declared this word as a mark.
    pub fn is_marker(&self, word: &str) -> bool
        ensures { result ≡ is_among word.now self.now.markers.now }
    {
        self.markers.iter().any(|marker| word == *marker)
    }

    /// Whether the word marks a comment, where no block comment is open.
    fn is_comment(&self, word: &str) -> bool
        ensures { result ≡ is_comment self.now word.now }
    {
        self.is_marker(word) | !self.markdown & (is_line_comment(word) | is_opening(word))
    }

    /// Whether the word marks a comment: in a block comment `*` does.
    pub fn is_comment_at(&self, in_block: bool, word: &str) -> bool
        ensures { result ≡ is_comment_at self.now in_block word.now }
    {
        if in_block {
            word == "*"
        } else {
            self.is_comment(word)
        }
    }
}
