//! `reflow [OPTIONS] [FILE..]` writes its files, or its standard input, with the paragraphs filled
//! again.
#![tactic(auto)]

use filter_programs::reflow::program::Reflow;
use std::env::Env;
use std::io::ErrorKind;
use std::process::ExitCode;
use std::{env, io};
use text_files::disk::Disk;
use text_filters::program::{Ending, complain};
use text_filters::tool::{Tool, execute};
use textwrap_program::arguments::words_after_name;

fn main(rt: HostRuntime) -> ExitCode {
    ExitCode::from(run(&rt).status)
}

/// Runs the program over the words that it was called with, the file system and the standard
/// streams.
fn run(rt: &HostRuntime) -> Ending {
    let mut messages = rt.stderr();
    match words(rt) {
        Ok(words) => execute(
            rt.alloc(),
            &Reflow,
            &words,
            &mut Disk::new(rt),
            &mut rt.reader(),
            &mut rt.stdout(),
            &mut messages,
        ),
        Err(error) if error.kind() == ErrorKind::OutOfMemory => {
            complain(&Reflow.about(), "out of memory", &mut messages)
        }
        Err(_) => complain(
            &Reflow.about(),
            "the arguments are not UTF-8",
            &mut messages,
        ),
    }
}

/// The words that the program was called with.
fn words(rt: &(impl Env + AllocGlobal)) -> io::Result<Vec<String>> {
    Ok(words_after_name(rt.alloc(), env::args(rt)?)?)
}
