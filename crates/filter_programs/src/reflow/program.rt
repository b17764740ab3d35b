//! The program, over its arguments, its files, a reader and two writers.
ghost use Rattle.std.specs.Prelude.{refl};
ghost use Rattle.filter_programs.specs.ReflowProgram.{reflow_tool};

use crate::reflow::arguments::{HELP, Unfit, VERSION, command, request_in};
use clap::{ArgMatches, Command};
use std::alloc::{AllocError, Global};
use text_files::files::Files;
use text_filters::program::{About, Ending, Run, complain_of, serve};
use text_filters::streams::{ReadWhole, WriteWhole};
use text_filters::tool::Tool;
use text_filters::words::spelled_out;

/// What the program says of itself.
const REFLOW: About<'static> = About {
    name: "reflow",
    help: HELP,
    version: VERSION,
    idle: "no line begins with what --prefix says",
};

/// The program.
#[derive(Clone, Copy)]
pub struct Reflow;

impl Tool for Reflow {
    ghost tool = { λ _. reflow_tool };

    ghost simple = { λ _. refl };

    ghost free = { λ _. refl };

    fn about(&self) -> About<'static> {
        REFLOW
    }

    fn command<'a>(&self, alloc: Global) -> Result<Command<'a>, AllocError> {
        command(alloc)
    }

    fn spelled_out<'a>(
        &self,
        alloc: Global,
        words: &'a [String],
    ) -> Result<Vec<&'a str>, AllocError> {
        spelled_out(alloc, words)
    }

    fn serve_matches<F: Files, R: ReadWhole, W: WriteWhole, M: WriteWhole>(
        &self,
        alloc: Global,
        matches: &ArgMatches<'_>,
        files: &mut F,
        reader: &mut R,
        output: &mut W,
        messages: &mut M,
    ) -> Ending {
        match request_in(matches) {
            Ok(request) => {
                let run = Run {
                    about: REFLOW,
                    filter: &request.layout,
                    inputs: request.inputs,
                };
                serve(alloc, &run, files, reader, output, messages)
            }
            Err(Unfit::Width) => {
                complain_of(&REFLOW, matches, "width", "a number of 64 bits", messages)
            }
            Err(Unfit::Lines) => {
                complain_of(
                    &REFLOW,
                    matches,
                    "lines",
                    "two numbers of 64 bits, A:B",
                    messages,
                )
            }
        }
    }
}
