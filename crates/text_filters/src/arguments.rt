//! What the command lines of the programs share.
ghost use Rattle.std.specs.Prelude.{◌≡◌, [], map, option_map, unwrap_or, false};
ghost use Rattle.clap.specs.Words.{app_of, first_of, found_of, rows_of, rule_of};
ghost use Rattle.text_filters.specs.Arguments.{file_rule, flag_in, flag_rule, texts_in, tool_app};
ghost use Rattle.text_filters.specs.Arguments.{width_in, width_rule};

use clap::{Arg, ArgAction, ArgMatches, Command};
use std::alloc::Global;
use textwrap_program::arguments::parse_width;

/// What is done with each input.
#[derive(Clone, Copy, PartialEq, Eq)]
pub enum Mode {
    /// What the filter makes of it is printed.
    Print,
    /// Its name is printed, if it would change.
    Check,
    /// What would change in it is printed, as a unified diff.
    Diff,
    /// The same, and a change counts as one that a check found.
    CheckDiff,
    /// It is replaced, if it is a file.
    InPlace,
}

/// The inputs of a run.
#[derive(Clone, Copy)]
pub struct Inputs<'a> {
    /// What is done with each.
    pub mode: Mode,
    /// Their names. `-` is the standard input.
    pub names: &'a [&'a str],
    /// Whether it is not said how many files were replaced.
    pub quiet: bool,
}

/// An argument without a value, whose id is its long name.
pub fn flag<'a>(alloc: Global, name: &'a str, help: &'a str) -> Arg<'a>
    ensures rule { rule_of result ≡ flag_rule name.entry.now }
    ensures local { result.global ≡ false }
{
    Arg::new(alloc, name)
        .long(name)
        .action(ArgAction::SetTrue)
        .help(help)
}

/// The argument that gives the width.
pub fn width_argument<'a>(alloc: Global) -> Arg<'a>
    ensures rule { rule_of result ≡ width_rule }
    ensures local { result.global ≡ false }
{
    Arg::new(alloc, "width")
        .short('w')
        .long("width")
        .value_name("N")
        .default_value("80")
        .help("Columns of a line, also -N")
}

/// The command line of a program without its arguments: its words are those after the program's name,
/// and of what may stand once the last use counts.
pub fn new_command<'a>(
    alloc: Global,
    name: &'a str,
    about: &'a str,
    examples: &'a str,
) -> Command<'a>
    ensures { app_of result ≡ tool_app name.now [] }
{
    Command::new(alloc, name)
        .version("2.0.0")
        .about(about)
        .after_help(examples)
        .no_binary_name(true)
        .args_override_self(true)
}

/// The argument that gives the names of the inputs.
pub fn file_argument<'a>(alloc: Global) -> Arg<'a>
    ensures rule { rule_of result ≡ file_rule }
    ensures local { result.global ≡ false }
{
    Arg::new(alloc, "FILE")
        .action(ArgAction::Append)
        .default_value("-")
        .help("Files; - is the standard input")
}

/// The last value of an argument.
pub fn text_of<'a>(matches: &ArgMatches<'a>, id: &str) -> Option<&'a str>
    ensures { option_map (λ text. text.now) result
        ≡ first_of id.now (rows_of (found_of matches.now)) }
{
    matches.get_str(id)
}

/// The same, or nothing where it has none.
pub fn value_of<'a>(matches: &ArgMatches<'a>, id: &str) -> &'a str
    ensures { result.now ≡ unwrap_or (first_of id.now (rows_of (found_of matches.now))) [] }
{
    match text_of(matches, id) {
        Some(text) => text,
        None => "",
    }
}

/// The values of an argument.
pub fn texts_of<'m, 'a>(matches: &'m ArgMatches<'a>, id: &str) -> &'m [&'m str]
    ensures { map (λ text. text.now) result.now ≡ texts_in id.now (rows_of (found_of matches.now)) }
{
    matches.get_strs(id).unwrap_or(&[])
}

/// The width, where it is a number.
pub fn width(matches: &ArgMatches<'_>) -> Option<usize>
    ensures { result ≡ width_in (rows_of (found_of matches.now)) }
{
    match text_of(matches, "width") {
        Some(text) => parse_width(text),
        None => None,
    }
}

/// Whether a flag is set.
pub fn is_set(matches: &ArgMatches<'_>, name: &str) -> bool
    ensures { result ≡ flag_in name.now (rows_of (found_of matches.now)) }
{
    match text_of(matches, name) {
        Some(value) => value == "true",
        None => false,
    }
}
