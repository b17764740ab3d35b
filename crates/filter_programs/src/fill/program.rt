//! The program, over its arguments, its files, a reader and two writers.
ghost use Rattle.std.specs.Prelude.{refl};
ghost use Rattle.filter_programs.specs.FillProgram.{fill_tool};

use crate::fill::arguments::{HELP, VERSION, command, request_in};
use crate::fill::words::spelled_out;
use clap::{ArgMatches, Command};
use std::alloc::{AllocError, Global};
use text_files::files::Files;
use text_filters::program::{About, Ending, Run, complain_of, serve};
use text_filters::streams::{ReadWhole, WriteWhole};
use text_filters::tool::Tool;

/// What the program says of itself.
const TEXTWRAP: About<'static> = About {
    name: "textwrap",
    help: HELP,
    version: VERSION,
    idle: "nothing to fill",
};

/// The program.
#[derive(Clone, Copy)]
pub struct Fill;

impl Tool for Fill {
    ghost tool = { λ _. fill_tool };

    ghost simple = { λ _. refl };

    ghost free = { λ _. refl };

    fn about(&self) -> About<'static> {
        TEXTWRAP
    }

    fn command<'a>(&self, alloc: Global) -> Result<Command<'a>, AllocError> {
        command(alloc)
    }

    fn spelled_out<'a>(
        &self,
        alloc: Global,
        words: &'a [String],
    ) -> Result<Vec<&'a str>, AllocError> {
        spelled_out(alloc, words)
    }

    fn serve_matches<F: Files, R: ReadWhole, W: WriteWhole, M: WriteWhole>(
        &self,
        alloc: Global,
        matches: &ArgMatches<'_>,
        files: &mut F,
        reader: &mut R,
        output: &mut W,
        messages: &mut M,
    ) -> Ending {
        match request_in(matches) {
            Some(request) => {
                let run = Run {
                    about: TEXTWRAP,
                    filter: &request.filling,
                    inputs: request.inputs,
                };
                serve(alloc, &run, files, reader, output, messages)
            }
            None => complain_of(&TEXTWRAP, matches, "width", "a number of 64 bits", messages),
        }
    }
}
