//! The program, over its arguments, a reader and two writers.
ghost use Rattle.std.specs.Prelude.{◌≡◌, map, string_bytes};
ghost use Rattle.textwrap_program.specs.Arguments.{request_of};
ghost use Rattle.textwrap_program.specs.Program.{Executes, TriesLine};

use crate::arguments::arguments;
use crate::filling::{fault, run, write_line};
use std::alloc::Allocator;
use std::io::{Read, Write};

/// What the program says where its arguments mean no request.
const USAGE: &str = "usage: textwrap_cli WIDTH [first|optimal]";

/// Runs the program and returns the status that it ends with: 0 if the output is written, 1 after
/// a fault, and 2 if the words after the program's name mean no request. In the last two cases one
/// line of `messages` says why.
pub fn execute<A: Allocator + Copy, R: Read, W: Write, M: Write>(
    alloc: A,
    words: &[String],
    reader: &mut R,
    output: &mut W,
    messages: &mut M,
) -> u8
    ensures { Executes (request_of (map string_bytes words.now))
        (record {
          unread = R.remaining reader.old;
          output = W.contents output.old;
          messages = M.contents messages.old;
        })
        (record {
          unread = R.remaining reader.new;
          output = W.contents output.new;
          messages = M.contents messages.new;
        })
        result }
{
    let Some(request) = arguments(words) else {
        return complain(messages, USAGE, 2);
    };
    match run(alloc, reader, output, request.width, request.algorithm) {
        Ok(()) => 0,
        Err(error) => complain(messages, fault(&error), 1),
    }
}

/// Writes a line of the messages, and returns the status. Where even that fails, the status alone
/// shows the fault.
pub fn complain<M: Write>(messages: &mut M, line: &str, status: u8) -> u8
    ensures line { TriesLine (M.contents messages.old) (M.contents messages.new) line.now }
    ensures status { result ≡ status }
{
    let _written = write_line(messages, line);
    status
}
