//! Why a dictionary is not read.
use std::alloc::{AllocError, AllocFailed};
use thiserror::Error;

/// What is wrong with a line of a dictionary.
#[derive(Clone, Copy, Debug, PartialEq, Eq, Drop, Error)]
pub enum Fault {
    /// The bytes are not UTF-8, and the first line names no charset that is known.
    #[error("not UTF-8, and no charset that is known: convert it, as by iconv -t UTF-8")]
    Charset,
    /// A second `NEXTLEVEL`.
    #[error("there are more than two groups of patterns")]
    NextLevel,
    /// `NOHYPHEN` with other signs than hyphens and apostrophes.
    #[error("NOHYPHEN is supported for hyphens and apostrophes alone")]
    NoHyphen,
    /// A word of capital letters that is none of libhyphen, or one behind others that begins with `#`.
    #[error("the word is not known")]
    Word,
    /// A word of libhyphen, or a header of TeX, without a number of one digit or two.
    #[error("a number of one digit or two is missing")]
    Number,
    /// A `/` in an exception, or without a replacement with `=` behind it, alone or with two numbers.
    #[error("a slash is in an exception, or no change with an equals sign stands behind it")]
    Replacement,
    /// A brace, a backslash, a `%` or U+FFFD in a word.
    #[error("a word has a brace, a backslash, a percent sign or no character in it")]
    Sign,
    /// A pattern of more than 255 letters.
    #[error("a pattern has more than 255 letters")]
    TooLong,
    /// An exception with a hyphen that is not between two letters.
    #[error("a hyphen is not between two letters")]
    Hyphens,
    /// `\patterns` or `\hyphenation` without a `{` behind it.
    #[error("a brace is missing behind \\patterns or \\hyphenation")]
    Brace,
    /// `\input` in a text of TeX.
    #[error("\\input is not supported: the patterns are in another file")]
    Input,
    /// A text of TeX that has neither patterns nor exceptions. The line is the last.
    #[error("neither \\patterns{{ nor \\hyphenation{{ is there")]
    NoGroup,
    /// A group that does not end. The line is the last.
    #[error("a group has no end")]
    Unclosed,
    /// Neither a pattern nor an exception. The line is the last.
    #[error("has no patterns")]
    Empty,
    /// More than 2^24 patterns. The line is the last.
    #[error("there are more than 16777216 patterns")]
    TooMany,
}

/// Why a dictionary is not read. Its first line that is wrong counts.
#[derive(Debug, Drop, Error)]
pub enum ParseError {
    /// Memory ran out.
    #[error("out of memory")]
    Memory(AllocError),
    /// What is wrong, and in which line, counted from 1.
    #[error("line {line}: {fault}")]
    Line { line: usize, fault: Fault },
}

impl From<AllocError> for ParseError {
    ghost use Rattle.std.specs.Prelude.{◌≡◌};
    ghost use Rattle.textwrap_dictionaries.specs.declared.errors.ParseError.TheVariants.{Memory};

    ghost from_gives = { λ error result. result ≡ Memory error };

    fn from(error: AllocError) -> ParseError {
        ParseError::Memory(error)
    }
}

impl<T: Drop> From<AllocFailed<T>> for ParseError {
    ghost use Rattle.std.specs.Prelude.{◌≡◌, alloc_error};
    ghost use Rattle.textwrap_dictionaries.specs.declared.errors.ParseError.TheVariants.{Memory};

    ghost from_gives = { λ _ result. result ≡ Memory alloc_error };

    fn from(_failed: AllocFailed<T>) -> ParseError {
        ParseError::Memory(AllocError)
    }
}
