//! How a text is wrapped, by built-in parts alone.
ghost use Rattle.std.specs.Prelude.{◌≡◌, Some};
ghost use Rattle.textwrap.specs.WrapAlgorithms.{algorithm_view};
ghost use Rattle.textwrap_plain.specs.Options.{plain_algorithm, AreDefaults};

use textwrap::WrapAlgorithm;
use textwrap::wrap_algorithms::Penalties;
use textwrap_hyphens::table::PatternTable;
use textwrap_layout::layout::Layout;
use textwrap_layout::parts::BuiltInAlgorithm;
use textwrap_unicode::Numbers;
use textwrap_words::inner::BuiltInSplitter;

/// Where words end.
#[derive(Clone, Copy, Debug, PartialEq, Eq)]
pub enum PlainSeparator {
    /// At blanks.
    AtBlanks,
    /// Where Unicode lets a line end
    /// ([UAX #14](https://www.unicode.org/reports/tr14/)), as `unicode_cuts` of `textwrap_unicode` says.
    AtBreaks(Numbers),
}

/// Where words are split.
#[derive(Clone, Copy, Debug)]
pub enum PlainSplitter<'a> {
    /// Nowhere, or behind hyphens of their own between letters or digits.
    BuiltIn(BuiltInSplitter),
    /// Behind hyphens of their own between letters or digits, but within no escape sequence.
    OutsideSequences,
    /// Where this dictionary has hyphens, and behind hyphens of their own as `OutsideSequences` says. A
    /// hyphen is printed where a line ends at a point of the dictionary, and is counted as a part of the
    /// line; by least cost such a line costs the hyphen penalty. Behind a hyphen of the word none is
    /// added. The parts of such a word are hyphenated only if the dictionary is asked for them. Where
    /// words are broken, a part of a word that fits the line but for its hyphen is broken, too.
    Dictionary(PatternTable<'a>),
}

/// How a text is wrapped: what `Options` of `textwrap` say, but for functions of the caller.
#[derive(Clone, Copy, Debug)]
pub struct PlainOptions<'a> {
    /// The width, the line ending, the indents, and what is done with words that are too wide, blanks at
    /// line ends and the first lines of paragraphs. Whether hyphens have room is not asked here: with a
    /// dictionary they have.
    pub layout: Layout<'a>,
    /// Where words end.
    pub word_separator: PlainSeparator,
    /// Where words are split.
    pub word_splitter: PlainSplitter<'a>,
    /// How words are divided into lines.
    pub wrap_algorithm: BuiltInAlgorithm,
}

impl PlainOptions<'static> {
    /// The defaults of `Options` at a width in columns, but that words end where Unicode lets a line
    /// end, numbers being kept together by pairs.
    pub fn new(width: usize) -> PlainOptions<'static>
        ensures { AreDefaults width result }
    {
        PlainOptions {
            layout: Layout::new(width),
            word_separator: PlainSeparator::AtBreaks(Numbers::ByPairs),
            word_splitter: PlainSplitter::BuiltIn(BuiltInSplitter::HyphenSplitter),
            wrap_algorithm: BuiltInAlgorithm::OptimalFit(Penalties::new()),
        }
    }
}

impl<'a> PlainOptions<'a> {
    /// The algorithm as one of the public ones.
    pub fn algorithm(&self) -> WrapAlgorithm
        ensures { algorithm_view result ≡ Some (plain_algorithm self.now) }
    {
        match self.wrap_algorithm {
            BuiltInAlgorithm::FirstFit => WrapAlgorithm::FirstFit,
            BuiltInAlgorithm::OptimalFit(penalties) => WrapAlgorithm::OptimalFit(penalties),
        }
    }
}
