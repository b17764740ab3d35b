//! The program's arguments.
ghost use Rattle.std.specs.Prelude.{◌≡◌, IfOk, MatchOption, None};
ghost use Rattle.clap.specs.Words.{app_of, found_of, rows_of};
ghost use Rattle.text_filters.specs.Arguments.{width_in};
ghost use Rattle.filter_programs.specs.FillArguments.{IsRequest, algorithm_in, fill_app};

use crate::fill::filling::Filling;
use clap::{ArgMatches, Command};
use std::alloc::{AllocError, Global};
use text_filters::arguments::{
    Inputs, Mode, file_argument, flag, is_set, new_command, texts_of, width, width_argument,
};
use textwrap_program::arguments::Algorithm;

/// What `--help` shows, which is what `clap` makes of the command line.
pub const HELP: &str = "Fills each line of a text as a paragraph.

Usage: textwrap [OPTIONS] [FILE]...

Arguments:
  [FILE]...  Files; - is the standard input [default: -]

Options:
  -w, --width <N>   Columns of a line, also -N [default: 80]
      --first-fit   Fill each line with as many words as fit
      --least-cost  Choose the least ragged lines (default)
  -h, --help        Print help
  -V, --version     Print version

Examples:
  textwrap -72 < mail.txt      A text on standard input, at 72 columns
  textwrap 40 first notes.txt  The width first, then the algorithm: first or optimal
";

/// What the program does, in a line of its help.
const ABOUT: &str = "Fills each line of a text as a paragraph.";

/// What stands at the end of its help.
const EXAMPLES: &str = "Examples:
  textwrap -72 < mail.txt      A text on standard input, at 72 columns
  textwrap 40 first notes.txt  The width first, then the algorithm: first or optimal";

/// What `--version` shows, which is what `clap` makes of it.
pub const VERSION: &str = "textwrap 2.0.0\n";

/// What the arguments ask for.
#[derive(Clone, Copy)]
pub struct Request<'a> {
    /// How texts are filled.
    pub filling: Filling,
    /// The inputs.
    pub inputs: Inputs<'a>,
}

/// The program's command line.
pub(crate) fn command<'a>(alloc: Global) -> Result<Command<'a>, AllocError>
    ensures { IfOk result (λ command. app_of command ≡ fill_app) }
{
    new_command(alloc, "textwrap", ABOUT, EXAMPLES)
        .arg(width_argument(alloc))?
        .arg(flag(
            alloc,
            "first-fit",
            "Fill each line with as many words as fit",
        ))?
        .arg(flag(
            alloc,
            "least-cost",
            "Choose the least ragged lines (default)",
        ))?
        .arg(file_argument(alloc))
}

/// The request of what a parse found. Without it the width is no number.
pub fn request_in<'m, 'a>(matches: &'m ArgMatches<'a>) -> Option<Request<'m>>
    ensures { MatchOption result (width_in (rows_of (found_of matches.now)) ≡ None)
        (IsRequest (rows_of (found_of matches.now))) }
{
    let width = width(matches)?;
    let filling = Filling {
        width,
        algorithm: algorithm_of(matches),
    };
    let inputs = Inputs {
        mode: Mode::Print,
        names: texts_of(matches, "FILE"),
        quiet: true,
    };
    Some(Request { filling, inputs })
}

/// The algorithm. `--least-cost` counts for more than `--first-fit`.
fn algorithm_of(matches: &ArgMatches<'_>) -> Algorithm
    ensures { result ≡ algorithm_in (rows_of (found_of matches.now)) }
{
    if is_set(matches, "first-fit") && !is_set(matches, "least-cost") {
        Algorithm::FirstFit
    } else {
        Algorithm::OptimalFit
    }
}
