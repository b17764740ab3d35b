//! The program's arguments.
ghost use Rattle.std.specs.Prelude.{◌≡◌, IfOk, IfErr, false};
ghost use Rattle.clap.specs.Words.{app_of, found_of, rows_of, rule_of};
ghost use Rattle.filter_programs.specs.ReflowArguments.{ending_beside, line_range_in, lines_rule};
ghost use Rattle.filter_programs.specs.ReflowArguments.{range_between, range_of};
ghost use Rattle.filter_programs.specs.ReflowArguments.{IsRequest, IsUnfit, algorithm_in, ending_in, mode_in};
ghost use Rattle.filter_programs.specs.ReflowArguments.{quiet_rule, reflow_app, text_rule};

use crate::reflow::layout::Reflowing;
use clap::{Arg, ArgAction, ArgMatches, Command};
use std::alloc::{AllocError, Global};
use text_filters::arguments::{
    Inputs, Mode, file_argument, flag, is_set, new_command, text_of, texts_of, width,
    width_argument,
};
use textwrap_lines::LineEnding;
use textwrap_marked::{Algorithm, LineRange, ReflowOptions};
use textwrap_program::arguments::parse_width;
use textwrap_words::wrap_algorithms::Penalties;

/// What `--help` shows, which is what `clap` makes of the command line.
pub const HELP: &str = "Fills the paragraphs of a text, each behind its own marks.

Usage: reflow [OPTIONS] [FILE]...

Arguments:
  [FILE]...  Files; - is the standard input [default: -]

Options:
  -w, --width <N>      Columns of a line, also -N [default: 80]
      --first-fit      Fill each line with as many words as fit
      --least-cost     Choose the least ragged lines (default)
      --justify        Widen the gaps of lines to the width
      --markdown       There are no comments, and # is a heading
      --marker <TEXT>  One more word that marks a comment
      --bare           Block comments have no * before their lines
      --prefix <TEXT>  Fill only paragraphs whose marks begin with TEXT
      --indented       Fill also text that is indented deeper
      --lines <A:B>    Fill only the paragraphs at the lines A to B
      --lf             End all lines with LF
      --crlf           End all lines with CR LF
      --check          Print the names of files that would change
      --diff           Print what would change, as a unified diff
      --in-place       Replace each file, by way of a draft beside it
  -q, --quiet          Do not say how many files changed
  -h, --help           Print help
  -V, --version        Print version

Examples:
  reflow -72 < mail.txt                       A text on standard input, at 72 columns
  reflow --check --markdown *.md              Which of these files would change
  reflow --in-place --prefix // src/*.rs      Comments of lines alone
  reflow --prefix=-- --prefix '/*' query.sql  A text with a hyphen stands behind =
";

/// What the program does, in a line of its help.
const ABOUT: &str = "Fills the paragraphs of a text, each behind its own marks.";

/// What stands at the end of its help.
const EXAMPLES: &str = "Examples:
  reflow -72 < mail.txt                       A text on standard input, at 72 columns
  reflow --check --markdown *.md              Which of these files would change
  reflow --in-place --prefix // src/*.rs      Comments of lines alone
  reflow --prefix=-- --prefix '/*' query.sql  A text with a hyphen stands behind =";

/// What `--version` shows, which is what `clap` makes of it.
pub const VERSION: &str = "reflow 2.0.0\n";

/// What the arguments ask for.
#[derive(Clone, Copy)]
pub struct Request<'a> {
    /// How texts are laid out.
    pub layout: Reflowing<'a>,
    /// The inputs.
    pub inputs: Inputs<'a>,
}

/// Why the arguments mean no request, though they are those of the program.
#[derive(Clone, Copy, PartialEq, Eq)]
pub enum Unfit {
    /// The width has characters beside ASCII digits, or does not fit in 64 bits.
    Width,
    /// The lines are not two such numbers with a colon between.
    Lines,
}

/// The program's command line.
pub(crate) fn command<'a>(alloc: Global) -> Result<Command<'a>, AllocError>
    ensures { IfOk result (λ command. app_of command ≡ reflow_app) }
{
    new_command(alloc, "reflow", ABOUT, EXAMPLES)
        .arg(width_argument(alloc))?
        .arg(flag(
            alloc,
            "first-fit",
            "Fill each line with as many words as fit",
        ))?
        .arg(flag(
            alloc,
            "least-cost",
            "Choose the least ragged lines (default)",
        ))?
        .arg(flag(alloc, "justify", "Widen the gaps of lines to the width"))?
        .arg(flag(
            alloc,
            "markdown",
            "There are no comments, and # is a heading",
        ))?
        .arg(text(alloc, "marker", "One more word that marks a comment"))?
        .arg(flag(alloc, "bare", "Block comments have no * before their lines"))?
        .arg(text(
            alloc,
            "prefix",
            "Fill only paragraphs whose marks begin with TEXT",
        ))?
        .arg(flag(alloc, "indented", "Fill also text that is indented deeper"))?
        .arg(lines_argument(alloc))?
        .arg(flag(alloc, "lf", "End all lines with LF"))?
        .arg(flag(alloc, "crlf", "End all lines with CR LF"))?
        .arg(flag(alloc, "check", "Print the names of files that would change"))?
        .arg(flag(alloc, "diff", "Print what would change, as a unified diff"))?
        .arg(flag(
            alloc,
            "in-place",
            "Replace each file, by way of a draft beside it",
        ))?
        .arg(quiet_argument(alloc))?
        .arg(file_argument(alloc))
}

/// An argument with a text, which may come several times.
fn text<'a>(alloc: Global, name: &'a str, help: &'a str) -> Arg<'a>
    ensures rule { rule_of result ≡ text_rule name.entry.now }
    ensures local { result.global ≡ false }
{
    Arg::new(alloc, name)
        .long(name)
        .value_name("TEXT")
        .action(ArgAction::Append)
        .help(help)
}

/// The argument that gives the lines at which paragraphs are filled.
fn lines_argument<'a>(alloc: Global) -> Arg<'a>
    ensures rule { rule_of result ≡ lines_rule }
    ensures local { result.global ≡ false }
{
    Arg::new(alloc, "lines")
        .long("lines")
        .value_name("A:B")
        .help("Fill only the paragraphs at the lines A to B")
}

/// The flag by which it is not said how many files were replaced.
fn quiet_argument<'a>(alloc: Global) -> Arg<'a>
    ensures rule { rule_of result ≡ quiet_rule }
    ensures local { result.global ≡ false }
{
    Arg::new(alloc, "quiet")
        .short('q')
        .long("quiet")
        .action(ArgAction::SetTrue)
        .help("Do not say how many files changed")
}

/// The request of what a parse found.
pub fn request_in<'m, 'a>(matches: &'m ArgMatches<'a>) -> Result<Request<'m>, Unfit>
    ensures ok { IfOk result (IsRequest (rows_of (found_of matches.now))) }
    ensures unfit { IfErr result (IsUnfit (rows_of (found_of matches.now))) }
{
    let Some(width) = width(matches) else {
        return Err(Unfit::Width);
    };
    let Some(lines) = lines(matches) else {
        return Err(Unfit::Lines);
    };
    let options = ReflowOptions {
        width,
        algorithm: algorithm_of(matches),
        ending: ending_beside(lines, ending(matches)),
        markdown: is_set(matches, "markdown"),
        markers: texts_of(matches, "marker"),
        bare: is_set(matches, "bare"),
        prefixes: texts_of(matches, "prefix"),
        indented: is_set(matches, "indented"),
        justify: is_set(matches, "justify"),
    };
    Ok(Request {
        layout: Reflowing { options, lines },
        inputs: Inputs {
            mode: mode_of(matches),
            names: texts_of(matches, "FILE"),
            quiet: is_set(matches, "quiet"),
        },
    })
}

/// The lines at which paragraphs are filled, if they are given and are such.
fn lines(matches: &ArgMatches<'_>) -> Option<Option<LineRange>>
    ensures { result ≡ line_range_in (rows_of (found_of matches.now)) }
{
    match text_of(matches, "lines") {
        Some(text) => match range_of(text) {
            Some(range) => Some(Some(range)),
            None => None,
        },
        None => Some(None),
    }
}

/// The lines that a text names: two numbers with a colon between.
fn range_of(text: &str) -> Option<LineRange>
    ensures { result ≡ range_of text.now }
{
    match text.split_once(':') {
        Some((first, last)) => range_between(parse_width(first), parse_width(last)),
        None => None,
    }
}

/// The lines from the one to the other, where both are numbers.
fn range_between(first: Option<usize>, last: Option<usize>) -> Option<LineRange>
    ensures { result ≡ range_between first last }
{
    match (first, last) {
        (Some(first), Some(last)) => Some(LineRange { first, last }),
        _ => None,
    }
}

/// The ending of all lines, which none has where only some lines are to change.
fn ending_beside(lines: Option<LineRange>, ending: Option<LineEnding>) -> Option<LineEnding>
    ensures { result ≡ ending_beside lines ending }
{
    match lines {
        Some(_) => None,
        None => ending,
    }
}

/// The algorithm. `--least-cost` counts for more than `--first-fit`.
fn algorithm_of(matches: &ArgMatches<'_>) -> Algorithm
    ensures { result ≡ algorithm_in (rows_of (found_of matches.now)) }
{
    if is_set(matches, "first-fit") && !is_set(matches, "least-cost") {
        Algorithm::FirstFit
    } else {
        Algorithm::LeastCost(Penalties::new())
    }
}

/// The ending of all lines, if one is asked for. `--lf` counts for more than `--crlf`.
fn ending(matches: &ArgMatches<'_>) -> Option<LineEnding>
    ensures { result ≡ ending_in (rows_of (found_of matches.now)) }
{
    if is_set(matches, "lf") {
        Some(LineEnding::LF)
    } else if is_set(matches, "crlf") {
        Some(LineEnding::CRLF)
    } else {
        None
    }
}

/// What is done with each input. `--check` counts for more than `--in-place`, and so does `--diff`,
/// also beside `--check`.
fn mode_of(matches: &ArgMatches<'_>) -> Mode
    ensures { result ≡ mode_in (rows_of (found_of matches.now)) }
{
    if is_set(matches, "diff") && is_set(matches, "check") {
        Mode::CheckDiff
    } else if is_set(matches, "diff") {
        Mode::Diff
    } else if is_set(matches, "check") {
        Mode::Check
    } else if is_set(matches, "in-place") {
        Mode::InPlace
    } else {
        Mode::Print
    }
}
