//! The program's arguments.
ghost use Rattle.std.specs.Prelude.{◌≡◌, IfOk, MatchResult, None, false};
ghost use Rattle.clap.specs.Words.{app_of, found_of, rows_of, rule_of};
ghost use Rattle.filter_programs.specs.HyphenateArguments.{IsRequest, columns_rule, count_rule};
ghost use Rattle.filter_programs.specs.HyphenateArguments.{dictionary_rule, filling_of, hyphenate_app};
ghost use Rattle.filter_programs.specs.HyphenateArguments.{name_of, number_if_given};

use crate::hyphenate::texts::Filling;
use clap::{Arg, ArgAction, ArgMatches, Command};
use std::alloc::{AllocError, Global};
use text_filters::arguments::{
    Inputs, Mode, file_argument, flag, is_set, new_command, text_of, texts_of, value_of,
};
use textwrap_program::arguments::parse_width;

/// What `--help` shows, which is what `clap` makes of the command line.
pub const HELP: &str = "Prints words with hyphens at their points, by the patterns of a dictionary.

Usage: hyphenate [OPTIONS] <DICTIONARY> [FILE]...

Arguments:
  <DICTIONARY>  A dictionary of libhyphen, or a list of TeX's patterns
  [FILE]...     Files; - is the standard input [default: -]

Options:
  -w, --width <N>     Fill the text at N columns, with hyphens; also -N
      --least-cost    Choose the least ragged lines there, not as many words a line as fit
      --breaks        Let lines end where Unicode lets them, not between blanks alone
      --left <N>      Keep N letters before a hyphen, not as many as the dictionary says
      --right <N>     Keep N letters behind a hyphen
      --soft-hyphens  Set hyphens at the soft hyphens alone of a word that has some
  -q, --quiet         Do not say how many patterns would change letters
  -h, --help          Print help
  -V, --version       Print version

Examples:
  hyphenate hyph_en_US.dic < words.txt  Each line is a word
  hyphenate -30 hyph_de.dic brief.txt   A text, filled at 30 columns
";

/// What the program does, in a line of its help.
const ABOUT: &str = "Prints words with hyphens at their points, by the patterns of a dictionary.";

/// What stands at the end of its help.
const EXAMPLES: &str = "Examples:
  hyphenate hyph_en_US.dic < words.txt  Each line is a word
  hyphenate -30 hyph_de.dic brief.txt   A text, filled at 30 columns";

/// What `--version` shows, which is what `clap` makes of it.
pub const VERSION: &str = "hyphenate 2.0.0\n";

/// What is to be hyphenated, and how.
#[derive(Clone, Copy)]
pub struct Request<'a> {
    /// The name of the dictionary's file.
    pub dictionary: &'a str,
    /// The columns at which the paragraphs of a text are filled. Without them each line of the text is
    /// a word, and is hyphenated.
    pub width: Option<usize>,
    /// Whether the lines of a filled text are the least ragged ones, and not by first fit.
    pub least_cost: bool,
    /// Whether they end where Unicode lets them, and not between blanks alone.
    pub breaks: bool,
    /// How many letters stay before a hyphen, if not as many as the dictionary says.
    pub left: Option<usize>,
    /// How many letters stay behind a hyphen.
    pub right: Option<usize>,
    /// Whether soft hyphens are the only points of a word in which a letter stands behind one.
    pub soft_hyphens: bool,
    /// Whether it is not said how many patterns of the dictionary would change letters.
    pub quiet: bool,
    /// The inputs.
    pub inputs: Inputs<'a>,
}

impl Request<'_> {
    /// How a text is filled, if there is a width.
    pub fn filling(&self) -> Option<Filling>
        ensures { result ≡ filling_of self.now }
    {
        let width = self.width?;
        Some(Filling {
            width,
            least_cost: self.least_cost,
            breaks: self.breaks,
        })
    }
}

/// An option whose value is a number.
#[derive(Clone, Copy)]
pub enum Count {
    Width,
    Left,
    Right,
}

/// The program's command line.
pub(crate) fn command<'a>(alloc: Global) -> Result<Command<'a>, AllocError>
    ensures { IfOk result (λ command. app_of command ≡ hyphenate_app) }
{
    new_command(alloc, "hyphenate", ABOUT, EXAMPLES)
        .arg(columns_argument(alloc))?
        .arg(flag(
            alloc,
            "least-cost",
            "Choose the least ragged lines there, not as many words a line as fit",
        ))?
        .arg(flag(
            alloc,
            "breaks",
            "Let lines end where Unicode lets them, not between blanks alone",
        ))?
        .arg(count_argument(
            alloc,
            "left",
            "Keep N letters before a hyphen, not as many as the dictionary says",
        ))?
        .arg(count_argument(alloc, "right", "Keep N letters behind a hyphen"))?
        .arg(flag(
            alloc,
            "soft-hyphens",
            "Set hyphens at the soft hyphens alone of a word that has some",
        ))?
        .arg(flag(
            alloc,
            "quiet",
            "Do not say how many patterns would change letters",
        )
        .short('q'))?
        .arg(dictionary_argument(alloc))?
        .arg(file_argument(alloc))
}

/// The argument that gives the width, if the text is filled.
fn columns_argument<'a>(alloc: Global) -> Arg<'a>
    ensures rule { rule_of result ≡ columns_rule }
    ensures local { result.global ≡ false }
{
    Arg::new(alloc, "width")
        .short('w')
        .long("width")
        .value_name("N")
        .help("Fill the text at N columns, with hyphens; also -N")
}

/// The argument that gives how many letters stay at a side of a hyphen.
fn count_argument<'a>(alloc: Global, name: &'a str, help: &'a str) -> Arg<'a>
    ensures rule { rule_of result ≡ count_rule name.entry.now }
    ensures local { result.global ≡ false }
{
    Arg::new(alloc, name).long(name).value_name("N").help(help)
}

/// The argument that names the dictionary.
fn dictionary_argument<'a>(alloc: Global) -> Arg<'a>
    ensures rule { rule_of result ≡ dictionary_rule }
    ensures local { result.global ≡ false }
{
    Arg::new(alloc, "DICTIONARY")
        .required(true)
        .action(ArgAction::Set)
        .help("A dictionary of libhyphen, or a list of TeX's patterns")
}

/// The request of what a parse found, or an option whose value is no number.
pub fn request_in<'m, 'a>(matches: &'m ArgMatches<'a>) -> Result<Request<'m>, Count>
    ensures { MatchResult result (IsRequest (rows_of (found_of matches.now)))
        (λ option. number_if_given (name_of option) (rows_of (found_of matches.now)) ≡ None) }
{
    let Some(width) = number_if_given(matches, "width") else {
        return Err(Count::Width);
    };
    let Some(left) = number_if_given(matches, "left") else {
        return Err(Count::Left);
    };
    let Some(right) = number_if_given(matches, "right") else {
        return Err(Count::Right);
    };
    let inputs = Inputs {
        mode: Mode::Print,
        names: texts_of(matches, "FILE"),
        quiet: true,
    };
    Ok(Request {
        dictionary: value_of(matches, "DICTIONARY"),
        width,
        least_cost: is_set(matches, "least-cost"),
        breaks: is_set(matches, "breaks"),
        left,
        right,
        soft_hyphens: is_set(matches, "soft-hyphens"),
        quiet: is_set(matches, "quiet"),
        inputs,
    })
}

/// The number of an option, if it is given; nothing if its value is none.
fn number_if_given(matches: &ArgMatches<'_>, name: &str) -> Option<Option<usize>>
    ensures { result ≡ number_if_given name.now (rows_of (found_of matches.now)) }
{
    match text_of(matches, name) {
        Some(text) => match parse_width(text) {
            Some(number) => Some(Some(number)),
            None => None,
        },
        None => Some(None),
    }
}
