//! The statuses that the programs end with.
ghost use Rattle.std.specs.Prelude.{map, string_bytes};
ghost use Rattle.filter_programs.specs.HyphenateProgram.{ExecutesHyphenate};
ghost use Rattle.filter_programs.specs.ReflowProgram.{ExecutesReflow};
ghost use Rattle.text_filters.specs.Streams.{faults_of};
ghost use Rattle.textwrap_program.specs.Arguments.{request_of};
ghost use Rattle.textwrap_program.specs.Program.{Executes};

use filter_programs::hyphenate::program::Hyphenate;
use filter_programs::reflow::program::Reflow;
use std::alloc::Global;
use std::io::{Read, Write};
use text_files::files::Files;
use text_filters::program::Ending;
use text_filters::streams::{ReadWhole, WriteWhole};
use text_filters::tool::execute;

/// As `execute` of `textwrap_program`.
pub fn status_of_textwrap<R: Read, W: Write, M: Write>(
    alloc: Global,
    words: &[String],
    reader: &mut R,
    output: &mut W,
    messages: &mut M,
) -> u8
    ensures { Executes (request_of (map string_bytes words.now))
        (record {
          unread = R.remaining reader.old;
          output = W.contents output.old;
          messages = M.contents messages.old;
        })
        (record {
          unread = R.remaining reader.new;
          output = W.contents output.new;
          messages = M.contents messages.new;
        })
        result }
{
    textwrap_program::program::execute(alloc, words, reader, output, messages)
}

/// As `execute` of `reflow`.
pub fn ending_of_reflow<F: Files, R: ReadWhole, W: WriteWhole, M: WriteWhole>(
    alloc: Global,
    words: &[String],
    files: &mut F,
    reader: &mut R,
    output: &mut W,
    messages: &mut M,
) -> Ending
    ensures { ExecutesReflow (faults_of R.faults W.faults M.faults) (map string_bytes words.now)
        (record {
          unread = R.remaining reader.old;
          files = F.past files.old;
          output = W.contents output.old;
          messages = M.contents messages.old;
        })
        (record {
          unread = R.remaining reader.new;
          files = F.past files.new;
          output = W.contents output.new;
          messages = M.contents messages.new;
        })
        result }
{
    execute(alloc, &Reflow, words, files, reader, output, messages)
}

/// As `execute` of `hyphenate`.
pub fn ending_of_hyphenate<F: Files, R: ReadWhole, W: WriteWhole, M: WriteWhole>(
    alloc: Global,
    words: &[String],
    files: &mut F,
    reader: &mut R,
    output: &mut W,
    messages: &mut M,
) -> Ending
    ensures { ExecutesHyphenate (faults_of R.faults W.faults M.faults) (map string_bytes words.now)
        (record {
          unread = R.remaining reader.old;
          files = F.past files.old;
          output = W.contents output.old;
          messages = M.contents messages.old;
        })
        (record {
          unread = R.remaining reader.new;
          files = F.past files.new;
          output = W.contents output.new;
          messages = M.contents messages.new;
        })
        result }
{
    execute(alloc, &Hyphenate, words, files, reader, output, messages)
}
