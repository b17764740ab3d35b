//! The settings of a wrap.
ghost use Rattle.std.specs.Prelude.{◌≡◌, false, true, IsOk, MatchResult, ⊤};

use std::alloc::AllocError;
use textwrap_base::inner::DEFAULT_PENALTIES;
use textwrap_text::line_ending::LineEnding;
use textwrap_words::word_separators::WordSeparator;
use textwrap_words::word_splitters::WordSplitter;
use textwrap_words::wrap_algorithms::WrapAlgorithm;

/// How a text is wrapped. No call on it allocates.
///
/// Each field has a builder of the same name. The builders have no examples of their own: all are
/// called as these two are.
///
/// ```rust
/// let options = Options::new(12).initial_indent("* ").subsequent_indent("  ");
/// ```
///
/// By these options `This is a little example.` has the lines `* This is`, `  a little` and
/// `  example.`.
#[derive(Debug, Drop)]
pub struct Options<'a> {
    /// The columns of a line, with its indent.
    pub width: usize,
    /// What ends a paragraph, and joins the lines of a filled text.
    pub line_ending: LineEnding,
    /// What is printed before the first line.
    pub initial_indent: &'a str,
    /// What is printed before each later line.
    pub subsequent_indent: &'a str,
    /// Whether a word that is too wide for a line is broken.
    pub break_words: bool,
    /// How words are divided into lines.
    pub wrap_algorithm: WrapAlgorithm,
    /// Where a paragraph is cut into words.
    pub word_separator: WordSeparator,
    /// Where a word may be split.
    pub word_splitter: WordSplitter,
    /// Whether blanks at line ends are kept.
    pub preserve_trailing_space: bool,
    /// Whether the first line of a later paragraph is divided for the width that its own indent, the
    /// subsequent one, leaves. Otherwise it is divided for the width that the initial indent leaves,
    /// though that is not printed there.
    pub even_paragraphs: bool,
}

/// Hyphens are split points that need no dictionary.
const DEFAULT_SPLITTER: WordSplitter = WordSplitter::HyphenSplitter;

/// The defaults, at a width of 0 columns. A crate above that hands out options begins with these:
/// of options that a function has made, the checker tells only within the crate of that function
/// that they hold no function of its own.
pub const DEFAULTS: Options<'static> = Options {
    width: 0,
    line_ending: LineEnding::LF,
    initial_indent: "",
    subsequent_indent: "",
    break_words: true,
    wrap_algorithm: WrapAlgorithm::OptimalFit(DEFAULT_PENALTIES),
    word_separator: WordSeparator::AsciiSpace,
    word_splitter: DEFAULT_SPLITTER,
    preserve_trailing_space: false,
    even_paragraphs: false,
};

impl<'a> Options<'a> {
    ghost use Rattle.textwrap_layout.specs.Options.{settings_view, HasDefaults, KeepsMethods};

    /// Lines of `width` columns, ended by LF, without indents, with broken words, hyphens as split
    /// points, the default algorithm, no blanks at line ends, and paragraphs that are not even. By
    /// `Options::new(10)` the text `foo bar baz` has the lines `foo bar` and `baz`.
    pub fn new(width: usize) -> Self
        ensures { HasDefaults width result }
    {
        Options { width, ..DEFAULTS }
    }

    /// The same options with this width, in columns.
    pub fn width(mut self, width: usize) -> Self
        ensures settings { settings_view result
            ≡ record (settings_view self.entry) { width = width } }
        ensures methods { KeepsMethods self.entry result }
    {
        self.width = width;
        self
    }

    /// The same options with this line ending.
    pub fn line_ending(mut self, line_ending: LineEnding) -> Self
        ensures settings { settings_view result
            ≡ record (settings_view self.entry) { line_ending = line_ending } }
        ensures methods { KeepsMethods self.entry result }
    {
        self.line_ending = line_ending;
        self
    }

    /// The same options with this indent of the first line.
    pub fn initial_indent(mut self, initial_indent: &'a str) -> Self
        ensures settings { settings_view result
            ≡ record (settings_view self.entry) { initial_indent = initial_indent.now } }
        ensures methods { KeepsMethods self.entry result }
    {
        self.initial_indent = initial_indent;
        self
    }

    /// The same options with this indent of the later lines.
    pub fn subsequent_indent(mut self, subsequent_indent: &'a str) -> Self
        ensures settings { settings_view result
            ≡ record (settings_view self.entry) { subsequent_indent = subsequent_indent.now } }
        ensures methods { KeepsMethods self.entry result }
    {
        self.subsequent_indent = subsequent_indent;
        self
    }

    /// The same options, breaking words or not.
    pub fn break_words(mut self, break_words: bool) -> Self
        ensures settings { settings_view result
            ≡ record (settings_view self.entry) { break_words = break_words } }
        ensures methods { KeepsMethods self.entry result }
    {
        self.break_words = break_words;
        self
    }

    /// The same options with this algorithm.
    pub fn wrap_algorithm(mut self, wrap_algorithm: WrapAlgorithm) -> Self
        ensures settings { settings_view result ≡ settings_view self.entry }
        ensures algorithm { result.wrap_algorithm ≡ wrap_algorithm }
        ensures separator { result.word_separator ≡ self.entry.word_separator }
        ensures splitter { result.word_splitter ≡ self.entry.word_splitter }
    {
        self.wrap_algorithm = wrap_algorithm;
        self
    }

    /// The same options with this separator of words.
    pub fn word_separator(mut self, word_separator: WordSeparator) -> Self
        ensures settings { settings_view result ≡ settings_view self.entry }
        ensures algorithm { result.wrap_algorithm ≡ self.entry.wrap_algorithm }
        ensures separator { result.word_separator ≡ word_separator }
        ensures splitter { result.word_splitter ≡ self.entry.word_splitter }
    {
        self.word_separator = word_separator;
        self
    }

    /// The same options with this splitter of words.
    pub fn word_splitter(mut self, word_splitter: WordSplitter) -> Self
        ensures settings { settings_view result ≡ settings_view self.entry }
        ensures algorithm { result.wrap_algorithm ≡ self.entry.wrap_algorithm }
        ensures separator { result.word_separator ≡ self.entry.word_separator }
        ensures splitter { result.word_splitter ≡ word_splitter }
    {
        self.word_splitter = word_splitter;
        self
    }

    /// The same options, keeping blanks at line ends or not.
    pub fn preserve_trailing_space(mut self, preserve_trailing_space: bool) -> Self
        ensures settings { settings_view result
            ≡ record (settings_view self.entry) {
              preserve_trailing_space = preserve_trailing_space;
            } }
        ensures methods { KeepsMethods self.entry result }
    {
        self.preserve_trailing_space = preserve_trailing_space;
        self
    }

    /// The same options, dividing later paragraphs for the width that their own indent leaves, or
    /// not.
    pub fn even_paragraphs(mut self, even_paragraphs: bool) -> Self
        ensures settings { settings_view result
            ≡ record (settings_view self.entry) { even_paragraphs = even_paragraphs } }
        ensures methods { KeepsMethods self.entry result }
    {
        self.even_paragraphs = even_paragraphs;
        self
    }
}

impl<'a> From<usize> for Options<'a> {
    ghost use Rattle.textwrap_layout.specs.Options.{HasDefaults};

    ghost from_gives = { HasDefaults };

    /// The same as `Options::new`.
    fn from(width: usize) -> Options<'a> {
        Options::new(width)
    }
}

impl<'a, 'b> From<&'b Options<'a>> for Options<'a> {
    ghost from_gives = { λ options copy. copy ≡ options.now };

    /// The same options. `wrap(alloc, text, Options::from(&options))` leaves `options` for further
    /// calls.
    fn from(options: &'b Options<'a>) -> Options<'a> {
        Options { ..*options }
    }
}

impl<'a> Clone for Options<'a> {
    ghost is_clone = { λ options copy. copy ≡ options };

    ghost is_infallible = { λ _. ⊤ };

    /// The same options. Never fails.
    fn clone(&self) -> Result<Options<'a>, AllocError>
        ensures cases { MatchResult result (λ copy. copy ≡ self.now) (λ _. ¬ ⊤) }
        ensures succeeds { IsOk result }
    {
        Ok(Options::from(self))
    }
}
