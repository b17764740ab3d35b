//! The program, over its arguments, its files, a reader and two writers.
ghost use Rattle.std.specs.Prelude.{refl};
ghost use Rattle.text_filters.specs.Streams.{faults_of};
ghost use Rattle.filter_programs.specs.HyphenateProgram.{Explains, Hyphenates, SaysChanged, SaysWrong};
ghost use Rattle.filter_programs.specs.HyphenateProgram.{hyphenate_tool};

use crate::hyphenate::arguments::{Count, HELP, Request, VERSION, command, request_in};
use crate::hyphenate::dictionary::{Failure, read_dictionary, with_minima};
use crate::hyphenate::texts::Hyphenating;
use clap::{ArgMatches, Command};
use itoa::Buffer;
use std::alloc::{AllocError, Global};
use std::fmt::Display;
use text_files::files::Files;
use text_filters::faults::Fault;
use text_filters::program::{About, Ending, Run, complain_of, report, serve, write_message};
use text_filters::streams::{ReadWhole, WriteWhole};
use text_filters::tool::Tool;
use text_filters::words::spelled_out;

/// What the program says of itself.
const HYPHENATE: About<'static> = About {
    name: "hyphenate",
    help: HELP,
    version: VERSION,
    idle: "nothing to hyphenate",
};

/// What the value of an option has to be.
const NUMBER: &str = "a number of 64 bits";

/// The program.
#[derive(Clone, Copy)]
pub struct Hyphenate;

impl Tool for Hyphenate {
    ghost tool = { λ _. hyphenate_tool };

    ghost simple = { λ _. refl };

    ghost free = { λ _. refl };

    fn about(&self) -> About<'static> {
        HYPHENATE
    }

    fn command<'a>(&self, alloc: Global) -> Result<Command<'a>, AllocError> {
        command(alloc)
    }

    fn spelled_out<'a>(
        &self,
        alloc: Global,
        words: &'a [String],
    ) -> Result<Vec<&'a str>, AllocError> {
        spelled_out(alloc, words)
    }

    fn serve_matches<F: Files, R: ReadWhole, W: WriteWhole, M: WriteWhole>(
        &self,
        alloc: Global,
        matches: &ArgMatches<'_>,
        files: &mut F,
        reader: &mut R,
        output: &mut W,
        messages: &mut M,
    ) -> Ending {
        match request_in(matches) {
            Ok(request) => serve_request(alloc, &request, files, reader, output, messages),
            Err(Count::Width) => complain_of(&HYPHENATE, matches, "width", NUMBER, messages),
            Err(Count::Left) => complain_of(&HYPHENATE, matches, "left", NUMBER, messages),
            Err(Count::Right) => complain_of(&HYPHENATE, matches, "right", NUMBER, messages),
        }
    }
}

/// Reads the dictionary, says how many of its patterns would change letters, and hyphenates the inputs by
/// it.
fn serve_request<F: Files, R: ReadWhole, W: WriteWhole, M: WriteWhole>(
    alloc: Global,
    request: &Request<'_>,
    files: &mut F,
    reader: &mut R,
    output: &mut W,
    messages: &mut M,
) -> Ending
    ensures { Hyphenates (faults_of R.faults W.faults M.faults) request.now
        (record {
          unread = R.remaining reader.old;
          files = F.past files.old;
          output = W.contents output.old;
          messages = M.contents messages.old;
        })
        (record {
          unread = R.remaining reader.new;
          files = F.past files.new;
          output = W.contents output.new;
          messages = M.contents messages.new;
        })
        result }
{
    let patterns = match read_dictionary(alloc, request.dictionary, files) {
        Ok(patterns) => patterns,
        Err(failure) => return explain(alloc, request.dictionary, failure, messages),
    };
    let patterns = with_minima(patterns, request.left, request.right);
    let patterns = patterns.table().soft_hyphens(request.soft_hyphens);
    let said = say_changed(request, patterns.changed(), messages);
    let filter = Hyphenating {
        filling: request.filling(),
        patterns,
    };
    let run = Run {
        about: HYPHENATE,
        filter: &filter,
        inputs: request.inputs,
    };
    let ending = serve(alloc, &run, files, reader, output, messages);
    Ending {
        status: ending.status,
        said: said && ending.said,
        replaced: ending.replaced,
    }
}

/// Says at how many patterns of the dictionary letters would change, if there are such and nobody asks for
/// quiet. The result says whether that was written whole.
fn say_changed<M: WriteWhole>(request: &Request<'_>, changed: usize, messages: &mut M) -> bool
    ensures { SaysChanged M.faults request.now changed (M.contents messages.old) (M.contents messages.new)
        result }
{
    if request.quiet || changed == 0 {
        return true;
    }
    let mut buffer = Buffer::new();
    let number = buffer.format(changed);
    let said = "patterns that would change letters, and set no hyphen there: ";
    write_message(messages, &HYPHENATE, request.dictionary, &[said, number]).is_ok()
}

/// Says why there is no dictionary of this name.
fn explain<M: WriteWhole>(alloc: Global, name: &str, failure: Failure, messages: &mut M) -> Ending
    ensures { Explains M.faults name.now failure (M.contents messages.old) (M.contents messages.new) result }
{
    match failure {
        Failure::Unread(fault) => report(&HYPHENATE, name, Err(fault), messages),
        Failure::Wrong { line, fault } => explain_line(alloc, name, line, &fault, messages),
    }
}

/// Says which line of the dictionary is wrong and why. The type of the fault is left open: `thiserror`
/// promises nothing of the text that its errors display, so only in this way can the clause ask that
/// this text is the one that is said.
fn explain_line<E: Display, M: WriteWhole>(
    alloc: Global,
    name: &str,
    line: usize,
    fault: &E,
    messages: &mut M,
) -> Ending
    ensures { SaysWrong M.faults name.now line (E.output fault.now)
        (M.contents messages.old) (M.contents messages.new) result }
{
    let Ok(text) = format!(in alloc; "{fault}") else {
        return report(&HYPHENATE, name, Err(Fault::Memory), messages);
    };
    let mut buffer = Buffer::new();
    let number = buffer.format(line);
    let said = write_message(messages, &HYPHENATE, name, &["line ", number, ": ", &text]);
    Ending {
        status: 2,
        said: said.is_ok(),
        replaced: 0,
    }
}
