//! What a program does over its inputs, its files, a reader and two writers, and what it says.
ghost use Rattle.std.specs.Prelude.{◌≡◌, map, bytes_eq, codes, false, IfErr, OnOk, OnErr};
ghost use Rattle.std.specs.Io.KnownBytes.{Appends};
ghost use Rattle.clap.specs.Words.{found_of, rows_of};
ghost use Rattle.textwrap_program.specs.Filling.{WritesPrefix};
ghost use Rattle.text_filters.specs.Messages.{about_view, fault_texts, is_closed, is_quiet, joined_texts};
ghost use Rattle.text_filters.specs.Messages.{message_line, reading_text, says_nothing, subject, texts_of};
ghost use Rattle.text_filters.specs.Messages.{sum_texts, value_texts, writing_text};
ghost use Rattle.text_filters.specs.Program.{ExplainsParse, IsFault, ReportsInput, Says, SaysFault};
ghost use Rattle.text_filters.specs.Program.{Serves, Shows, Treats, TreatsAll, TreatsFile};
ghost use Rattle.text_filters.specs.Program.{TreatsInput, Warns, all_well, input_faults, joined};
ghost use Rattle.text_filters.specs.Program.{replaced_of, shown_name, status_of, sums_up};
ghost use Rattle.text_filters.specs.Streams.{AnyReason, IsPossible, faults_of};

use crate::arguments::{Inputs, Mode, value_of};
use crate::faults::{Fault, Reason};
use crate::filter::Filter;
use crate::inputs::{
    Treated, check_file, check_input, diff_file, diff_input, print_file, print_input,
};
use crate::replacing::replace_file;
use crate::streams::{ReadWhole, WriteWhole};
use clap::ArgMatches;
use clap::error::ErrorKind;
use itoa::Buffer;
use std::alloc::Global;
use std::fmt::Display;
use text_files::files::Files;

/// The name of the standard input among the arguments.
const STANDARD_INPUT_NAME: &str = "-";

/// What the standard input is called in messages.
const STANDARD_INPUT: &str = "standard input";

/// What the standard output is called in messages.
const STANDARD_OUTPUT: &str = "standard output";

/// What a program is called, and what it says of itself.
#[derive(Clone, Copy)]
pub struct About<'p> {
    /// Its name, with which its messages begin.
    pub name: &'p str,
    /// What `--help` shows.
    pub help: &'p str,
    /// What `--version` shows.
    pub version: &'p str,
    /// What is said of an input in which there is nothing for its filter.
    pub idle: &'p str,
}

/// A run of a program.
#[derive(Drop)]
pub struct Run<'a, T> {
    /// What the program is called, and what it says of itself.
    pub about: About<'a>,
    /// What it makes of a text.
    pub filter: &'a T,
    /// The inputs.
    pub inputs: Inputs<'a>,
}

/// How a run ended.
#[derive(Clone, Copy, PartialEq, Eq)]
pub struct Ending {
    /// The status of the program: 0 if all went well, 1 if `--check` found an input that would
    /// change, and 2 after a fault or where the words after the program's name mean no request.
    pub status: u8,
    /// Whether each message was written whole.
    pub said: bool,
    /// How many files were replaced.
    pub replaced: usize,
}

impl Ending {
    /// A run without a fault, in which nothing would change.
    fn well() -> Ending
        ensures { result ≡ all_well }
    {
        Ending {
            status: 0,
            said: true,
            replaced: 0,
        }
    }

    /// The ending of a run that goes on.
    fn and(self, rest: Ending) -> Ending
        ensures { result ≡ joined self rest }
    {
        Ending {
            status: self.status.max(rest.status),
            said: self.said && rest.said,
            replaced: self.replaced.saturating_add(rest.replaced),
        }
    }
}

/// Says that the value of an option is not what is wanted.
pub fn complain_of<M: WriteWhole>(
    about: &About<'_>,
    matches: &ArgMatches<'_>,
    option: &str,
    wanted: &str,
    messages: &mut M,
) -> Ending
    ensures said { Says M.faults (joined_texts
        (value_texts (about_view about.now) (rows_of (found_of matches.now)) option.now wanted.now))
        (M.contents messages.old) (M.contents messages.new) result.said }
    ensures fault { IsFault result }
{
    let value = value_of(matches, option);
    let texts = [
        about.name,
        ": --",
        option,
        ": '",
        value,
        "' is not ",
        wanted,
        "\n",
    ];
    Ending {
        status: 2,
        said: write_texts(messages, &texts).is_ok(),
        replaced: 0,
    }
}

/// Treats the inputs, and then says how many files were replaced, if several may be.
pub fn serve<T: Filter, F: Files, R: ReadWhole, W: WriteWhole, M: WriteWhole>(
    alloc: Global,
    run: &Run<'_, T>,
    files: &mut F,
    reader: &mut R,
    output: &mut W,
    messages: &mut M,
) -> Ending
    ensures { Serves (faults_of R.faults W.faults M.faults) (about_view run.now.about) (T.work run.now.filter.now) run.now.inputs
        (record {
          unread = R.remaining reader.old;
          files = F.past files.old;
          output = W.contents output.old;
          messages = M.contents messages.old;
        })
        (record {
          unread = R.remaining reader.new;
          files = F.past files.new;
          output = W.contents output.new;
          messages = M.contents messages.new;
        })
        result }
{
    let ending = treat_all(alloc, run, files, reader, output, messages);
    if !sums_up(&run.inputs) {
        return ending;
    }
    let names = run.inputs.names.len();
    let said = say_sum(&run.about, ending.replaced, names, messages);
    Ending {
        status: ending.status,
        said: ending.said && said,
        replaced: ending.replaced,
    }
}

/// Whether it is said how many files were replaced.
fn sums_up(inputs: &Inputs<'_>) -> bool
    ensures { result ≡ sums_up inputs.now }
{
    matches!(inputs.mode, Mode::InPlace) && inputs.names.len() > 1 && !inputs.quiet
}

/// Says how many files were replaced, of so many names. The result says whether that was written whole.
fn say_sum<M: WriteWhole>(
    about: &About<'_>,
    replaced: usize,
    names: usize,
    messages: &mut M,
) -> bool
    ensures { Says M.faults (joined_texts (sum_texts (about_view about.now) replaced names))
        (M.contents messages.old) (M.contents messages.new) result }
{
    let (mut of_replaced, mut of_names) = (Buffer::new(), Buffer::new());
    let replaced = of_replaced.format(replaced);
    let names = of_names.format(names);
    let texts = [
        about.name,
        ": ",
        replaced,
        " of ",
        names,
        " files changed",
        "\n",
    ];
    write_texts(messages, &texts).is_ok()
}

/// Treats one input after another, whatever becomes of those before it, unless nobody reads the output
/// any more.
fn treat_all<T: Filter, F: Files, R: ReadWhole, W: WriteWhole, M: WriteWhole>(
    alloc: Global,
    run: &Run<'_, T>,
    files: &mut F,
    reader: &mut R,
    output: &mut W,
    messages: &mut M,
) -> Ending
    ensures { TreatsAll (faults_of R.faults W.faults M.faults) (about_view run.now.about) (T.work run.now.filter.now) run.now.inputs.mode
        (map (λ name. name.now) run.now.inputs.names.now) false
        (record {
          unread = R.remaining reader.old;
          files = F.past files.old;
          output = W.contents output.old;
          messages = M.contents messages.old;
        })
        (record {
          unread = R.remaining reader.new;
          files = F.past files.new;
          output = W.contents output.new;
          messages = M.contents messages.new;
        })
        result }
{
    let mut ending = Ending::well();
    for name in run.inputs.names {
        let treated = treat(
            alloc,
            run.filter,
            run.inputs.mode,
            name,
            files,
            reader,
            output,
        );
        ending = ending.and(report(&run.about, shown_name(name), treated, messages));
        if is_closed(treated) {
            return ending;
        }
    }
    ending
}

/// Whether nobody reads the output any more.
fn is_closed(treated: Result<Treated, Fault>) -> bool
    ensures { result ≡ is_closed treated }
{
    match treated {
        Ok(_) => false,
        Err(fault) => is_quiet(fault),
    }
}

/// The name of an input in messages.
fn shown_name(name: &str) -> &str
    ensures { result.now ≡ shown_name name.now }
{
    if name == STANDARD_INPUT_NAME {
        STANDARD_INPUT
    } else {
        name
    }
}

/// Does with an input what the mode says. The result says whether a check found that it would
/// change.
fn treat<T: Filter, F: Files, R: ReadWhole, W: WriteWhole>(
    alloc: Global,
    filter: &T,
    mode: Mode,
    name: &str,
    files: &mut F,
    reader: &mut R,
    output: &mut W,
) -> Result<Treated, Fault>
    ensures treated { Treats (T.work filter.now) mode (bytes_eq name.now (codes "-")) name.now
        (R.remaining reader.old) (R.remaining reader.new)
        (F.past files.old) (F.past files.new)
        (W.contents output.old) (W.contents output.new) result }
    ensures possible { IfErr result
        (IsPossible (input_faults (bytes_eq name.now (codes "-")) R.faults) W.faults) }
{
    if name == STANDARD_INPUT_NAME {
        treat_input(alloc, filter, mode, reader, output)
    } else {
        treat_file(alloc, filter, mode, name, files, output)
    }
}

/// Does with the standard input what the mode says; it cannot be replaced, so it is printed where
/// files are replaced. The result says whether a check found that it would change.
fn treat_input<T: Filter, R: ReadWhole, W: WriteWhole>(
    alloc: Global,
    filter: &T,
    mode: Mode,
    reader: &mut R,
    output: &mut W,
) -> Result<Treated, Fault>
    ensures treated { TreatsInput (T.work filter.now) mode
        (R.remaining reader.old) (R.remaining reader.new)
        (W.contents output.old) (W.contents output.new) result }
    ensures possible { IfErr result (IsPossible R.faults W.faults) }
{
    match mode {
        Mode::Check => check_input(alloc, STANDARD_INPUT, reader, output, filter),
        Mode::Diff => diff_input(alloc, STANDARD_INPUT_NAME, false, reader, output, filter),
        Mode::CheckDiff => diff_input(alloc, STANDARD_INPUT_NAME, true, reader, output, filter),
        Mode::Print | Mode::InPlace => print_input(alloc, reader, output, filter),
    }
}

/// Does with a file what the mode says. The result says whether a check found that it would
/// change.
fn treat_file<T: Filter, F: Files, W: WriteWhole>(
    alloc: Global,
    filter: &T,
    mode: Mode,
    name: &str,
    files: &mut F,
    output: &mut W,
) -> Result<Treated, Fault>
    ensures treated { TreatsFile (T.work filter.now) mode name.now
        (F.past files.old) (F.past files.new)
        (W.contents output.old) (W.contents output.new) result }
    ensures possible { IfErr result (IsPossible AnyReason W.faults) }
{
    match mode {
        Mode::Print => print_file(alloc, name, files, output, filter),
        Mode::Check => check_file(alloc, name, files, output, filter),
        Mode::Diff => diff_file(alloc, name, false, files, output, filter),
        Mode::CheckDiff => diff_file(alloc, name, true, files, output, filter),
        Mode::InPlace => replace_file(alloc, name, files, filter),
    }
}

/// Says what became of an input of this name, if there is something to say: a fault, or that there was
/// nothing in it for the filter.
pub fn report<M: WriteWhole>(
    about: &About<'_>,
    name: &str,
    treated: Result<Treated, Fault>,
    messages: &mut M,
) -> Ending
    ensures { ReportsInput M.faults (about_view about.now) name.now treated
        (M.contents messages.old) (M.contents messages.new) result }
{
    Ending {
        status: status_of(treated),
        said: says_nothing(treated) || says(about, name, treated, messages),
        replaced: replaced_of(treated),
    }
}

/// The status of a run with one input, of which this became. That nobody reads the output any more is
/// no fault: the reader has what it wanted.
fn status_of(treated: Result<Treated, Fault>) -> u8
    ensures { result ≡ status_of treated }
{
    match treated {
        Ok(treated) => u8::from(treated.changes),
        Err(fault) => if is_quiet(fault) { 0 } else { 2 },
    }
}

/// How many files were replaced by a run with one input, of which this became.
fn replaced_of(treated: Result<Treated, Fault>) -> usize
    ensures { result ≡ replaced_of treated }
{
    match treated {
        Ok(treated) => usize::from(treated.replaced),
        Err(_) => 0,
    }
}

/// Whether nothing is said of an input, of which this became.
fn says_nothing(treated: Result<Treated, Fault>) -> bool
    ensures { result ≡ says_nothing treated }
{
    match treated {
        Ok(treated) => treated.applies,
        Err(fault) => is_quiet(fault),
    }
}

/// Says what is to be said of an input. The result says whether that was written whole.
fn says<M: WriteWhole>(
    about: &About<'_>,
    name: &str,
    treated: Result<Treated, Fault>,
    messages: &mut M,
) -> bool
    ensures { Says M.faults (message_line (about_view about.now) (subject name.now treated)
        (texts_of (about_view about.now) treated))
        (M.contents messages.old) (M.contents messages.new) result }
{
    match treated {
        Ok(_) => write_message(messages, about, name, &[about.idle]).is_ok(),
        Err(fault) => write_fault(about, subject(name, fault), fault, messages).is_ok(),
    }
}

/// What a fault is about: the input of this name, or the output.
fn subject(name: &str, fault: Fault) -> &str
    ensures { result.now ≡ subject name.now (Err fault) }
{
    match fault {
        Fault::Output(_) => STANDARD_OUTPUT,
        _ => name,
    }
}

/// Whether nothing is said of a fault: nobody reads the output any more.
fn is_quiet(fault: Fault) -> bool
    ensures { result ≡ is_quiet fault }
{
    matches!(fault, Fault::Output(Reason::Closed))
}

/// Writes the line of a fault.
fn write_fault<M: WriteWhole>(
    about: &About<'_>,
    name: &str,
    fault: Fault,
    messages: &mut M,
) -> Result<(), Reason>
    ensures ok { OnOk result (Appends (M.contents messages.old) (M.contents messages.new)
        (message_line (about_view about.now) name.now (fault_texts fault))) }
    ensures prefix { OnErr result (WritesPrefix (M.contents messages.old) (M.contents messages.new)
        (message_line (about_view about.now) name.now (fault_texts fault))) }
    ensures failed { IfErr result M.faults }
{
    match fault {
        Fault::Read(reason) => write_message(messages, about, name, &[reading_text(reason)]),
        Fault::NotUtf8(valid) => {
            let mut buffer = Buffer::new();
            let number = buffer.format(valid);
            write_message(
                messages,
                about,
                name,
                &["not UTF-8 after ", number, " bytes"],
            )
        }
        Fault::Memory => write_message(messages, about, name, &["out of memory"]),
        Fault::Write(reason) => write_message(messages, about, name, &[writing_text(reason)]),
        Fault::Output(reason) => write_message(messages, about, name, &[writing_text(reason)]),
    }
}

/// What the program says of an input that cannot be read.
fn reading_text(reason: Reason) -> &'static str
    ensures { result.now ≡ reading_text reason }
{
    match reason {
        Reason::NotFound => "not found",
        Reason::NotPermitted => "may not be read",
        Reason::IsFolder => "is a folder",
        Reason::IsPipe => "is a pipe or a socket",
        Reason::IsDevice => "is a device",
        Reason::TooLong => "its name is too long",
        Reason::Busy => "is in use",
        _ => "cannot read",
    }
}

/// What the program says of a file or an output that cannot be written.
fn writing_text(reason: Reason) -> &'static str
    ensures { result.now ≡ writing_text reason }
{
    match reason {
        Reason::NotFound => "not found",
        Reason::NotPermitted => "may not be written",
        Reason::ReadOnly => "stands on a file system that may only be read",
        Reason::IsFolder => "is a folder",
        Reason::TooLong => "its name is too long",
        Reason::Busy => "is in use",
        Reason::Changed => "has changed while it was read",
        Reason::TooManyDrafts => "100 drafts are there already",
        Reason::NoSpace => "no space is left",
        _ => "cannot write",
    }
}

/// Writes a line of a message on an input.
pub fn write_message<M: WriteWhole>(
    messages: &mut M,
    about: &About<'_>,
    name: &str,
    texts: &[&str],
) -> Result<(), Reason>
    ensures ok { OnOk result (Appends (M.contents messages.old) (M.contents messages.new)
        (message_line (about_view about.now) name.now (map (λ text. text.now) texts.now))) }
    ensures prefix { OnErr result (WritesPrefix (M.contents messages.old) (M.contents messages.new)
        (message_line (about_view about.now) name.now (map (λ text. text.now) texts.now))) }
    ensures failed { IfErr result M.faults }
{
    write_texts(messages, &[about.name, ": ", name, ": "])?;
    write_texts(messages, texts)?;
    messages.write_whole(b"\n")
}

/// Writes texts one after another.
fn write_texts<M: WriteWhole>(messages: &mut M, texts: &[&str]) -> Result<(), Reason>
    ensures ok { OnOk result (Appends (M.contents messages.old) (M.contents messages.new)
        (joined_texts (map (λ text. text.now) texts.now))) }
    ensures prefix { OnErr result (WritesPrefix (M.contents messages.old) (M.contents messages.new)
        (joined_texts (map (λ text. text.now) texts.now))) }
    ensures failed { IfErr result M.faults }
{
    for text in texts {
        messages.write_whole(text.as_bytes())?;
    }
    Ok(())
}

/// Shows the help or the version, or says why the arguments are not those of the program, by the
/// kind of the error. The type of the error is left open: `clap` promises nothing of the text that
/// its errors display, so only in this way can the clause ask that this text is the one that is
/// said.
pub fn explain_parse<E: Display, W: WriteWhole, M: WriteWhole>(
    alloc: Global,
    about: &About<'_>,
    kind: ErrorKind,
    error: &E,
    output: &mut W,
    messages: &mut M,
) -> Ending
    ensures { ExplainsParse W.faults M.faults (about_view about.now) kind (E.output error.now)
        (W.contents output.old) (W.contents output.new)
        (M.contents messages.old) (M.contents messages.new) result }
{
    match kind {
        ErrorKind::DisplayHelp => show(about, about.help, output, messages),
        ErrorKind::DisplayVersion => show(about, about.version, output, messages),
        ErrorKind::OutOfMemory => complain(about, "out of memory", messages),
        _ => warn(alloc, about, error, messages),
    }
}

/// Shows a text. That nobody reads it any more is no fault.
fn show<W: WriteWhole, M: WriteWhole>(
    about: &About<'_>,
    text: &str,
    output: &mut W,
    messages: &mut M,
) -> Ending
    ensures { Shows W.faults M.faults (about_view about.now) text.now (W.contents output.old) (W.contents output.new)
        (M.contents messages.old) (M.contents messages.new) result }
{
    match output.write_whole(text.as_bytes()) {
        Ok(()) => Ending::well(),
        Err(reason) => report(about, STANDARD_OUTPUT, Err(Fault::Output(reason)), messages),
    }
}

/// Says what an error displays.
fn warn<E: Display, M: WriteWhole>(
    alloc: Global,
    about: &About<'_>,
    error: &E,
    messages: &mut M,
) -> Ending
    ensures said { Warns M.faults (about_view about.now) (E.output error.now)
        (M.contents messages.old) (M.contents messages.new) result.said }
    ensures fault { IsFault result }
{
    let Ok(text) = format!(in alloc; "{error}") else {
        return complain(about, "out of memory", messages);
    };
    Ending {
        status: 2,
        said: messages.write_whole(text.as_bytes()).is_ok(),
        replaced: 0,
    }
}

/// Says a fault that came before the first input.
pub fn complain<M: WriteWhole>(about: &About<'_>, fault: &str, messages: &mut M) -> Ending
    ensures said { SaysFault M.faults (about_view about.now) fault.now
        (M.contents messages.old) (M.contents messages.new) result.said }
    ensures fault { IsFault result }
{
    let texts = [about.name, ": ", fault, "\n"];
    Ending {
        status: 2,
        said: write_texts(messages, &texts).is_ok(),
        replaced: 0,
    }
}
