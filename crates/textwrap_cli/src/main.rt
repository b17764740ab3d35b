//! `textwrap_cli WIDTH [first|optimal]` writes its standard input, filled. Without the second word
//! the algorithm is optimal fit.
#![tactic(auto)]

use std::env::Env;
use std::process::ExitCode;
use std::{env, io};
use textwrap_program::arguments::words_after_name;
use textwrap_program::filling::{RunError, fault};
use textwrap_program::program::{complain, execute};

fn main(rt: HostRuntime) -> ExitCode {
    let mut messages = rt.stderr();
    let status = match words(&rt) {
        Ok(words) => execute(
            rt.alloc(),
            &words,
            &mut rt.reader(),
            &mut rt.stdout(),
            &mut messages,
        ),
        Err(_) => complain(&mut messages, fault(&RunError::Memory), 1),
    };
    ExitCode::from(status)
}

/// The words that the program was called with.
fn words(rt: &(impl Env + AllocGlobal)) -> io::Result<Vec<String>> {
    Ok(words_after_name(rt.alloc(), env::args(rt)?)?)
}
