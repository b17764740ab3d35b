//! What a program is over files and texts: its words, and what it does with them.
ghost use Rattle.std.specs.Prelude.{◌≡◌, map, string_bytes, true, IfOk};
ghost use Rattle.clap.specs.Words.{FailsBy, app_of, fault_of, found_of, is_simple, is_simple_and_free};
ghost use Rattle.clap.specs.Words.{matches_of, rows_of};
ghost use Rattle.text_filters.specs.Messages.{about_view};
ghost use Rattle.text_filters.specs.Streams.{faults_of};
ghost use Rattle.text_filters.specs.Tool.{ExecutesTool, ServesWords, ToolText};

use crate::program::{About, Ending, complain, explain_parse};
use crate::streams::{ReadWhole, WriteWhole};
use clap::{ArgMatches, Command};
use std::alloc::{AllocError, Global};
use text_files::files::Files;

/// A program over files and texts.
pub trait Tool {
    /// What it says of itself, its command line, how words are written for that, and what it does with
    /// what they match there.
    ghost tool: { Self → ToolText };

    /// What it says of itself.
    fn about(&self) -> About<'static>
        ensures { about_view result ≡ (tool self.now).about };

    /// Its command line.
    ///
    /// # Errors
    /// [`AllocError`] where memory runs out.
    fn command<'a>(&self, alloc: Global) -> Result<Command<'a>, AllocError>
        ensures { IfOk result (λ command. app_of command ≡ (tool self.now).app) };

    /// The words after its name, as they are written for the command line.
    ///
    /// # Errors
    /// [`AllocError`] where memory runs out.
    fn spelled_out<'a>(
        &self,
        alloc: Global,
        words: &'a [String],
    ) -> Result<Vec<&'a str>, AllocError>
        ensures { IfOk result (λ spelled. map (λ word. word.now) spelled.items
            ≡ (tool self.now).spelled (map string_bytes words.now)) };

    /// Does what the words ask for that matched so.
    fn serve_matches<F: Files, R: ReadWhole, W: WriteWhole, M: WriteWhole>(
        &self,
        alloc: Global,
        matches: &ArgMatches<'_>,
        files: &mut F,
        reader: &mut R,
        output: &mut W,
        messages: &mut M,
    ) -> Ending
        ensures { (tool self.now).Serves (faults_of R.faults W.faults M.faults) (rows_of (found_of matches.now))
            (record {
              unread = R.remaining reader.old;
              files = F.past files.old;
              output = W.contents output.old;
              messages = M.contents messages.old;
            })
            (record {
              unread = R.remaining reader.new;
              files = F.past files.new;
              output = W.contents output.new;
              messages = M.contents messages.new;
            })
            result };

    // `clap` says of such a command line what matches and what fails.
    ghost simple: { (t : Self) → is_simple (tool t).app ≡ true };

    ghost free: { (t : Self) → is_simple_and_free (tool t).app ≡ true };
}

/// Runs a program over the words after its name. For each fault one line of `messages` says why, with the
/// input's name.
pub fn execute<T: Tool, F: Files, R: ReadWhole, W: WriteWhole, M: WriteWhole>(
    alloc: Global,
    tool: &T,
    words: &[String],
    files: &mut F,
    reader: &mut R,
    output: &mut W,
    messages: &mut M,
) -> Ending
    ensures { ExecutesTool (faults_of R.faults W.faults M.faults) (T.tool tool.now)
        (map string_bytes words.now)
        (record {
          unread = R.remaining reader.old;
          files = F.past files.old;
          output = W.contents output.old;
          messages = M.contents messages.old;
        })
        (record {
          unread = R.remaining reader.new;
          files = F.past files.new;
          output = W.contents output.new;
          messages = M.contents messages.new;
        })
        result }
{
    match tool.spelled_out(alloc, words) {
        Ok(words) => execute_words(alloc, tool, &words, files, reader, output, messages),
        Err(_) => complain(&tool.about(), "out of memory", messages),
    }
}

/// Does what the words ask for, as they are written for the command line.
fn execute_words<T: Tool, F: Files, R: ReadWhole, W: WriteWhole, M: WriteWhole>(
    alloc: Global,
    tool: &T,
    words: &[&str],
    files: &mut F,
    reader: &mut R,
    output: &mut W,
    messages: &mut M,
) -> Ending
    ensures { ServesWords (faults_of R.faults W.faults M.faults) (T.tool tool.now) (map (λ word. word.now) words.now)
        (record {
          unread = R.remaining reader.old;
          files = F.past files.old;
          output = W.contents output.old;
          messages = M.contents messages.old;
        })
        (record {
          unread = R.remaining reader.new;
          files = F.past files.new;
          output = W.contents output.new;
          messages = M.contents messages.new;
        })
        result }
{
    match matches_in(alloc, tool, words) {
        Ok(matches) => tool.serve_matches(alloc, &matches, files, reader, output, messages),
        Err(error) => {
            let about = tool.about();
            explain_parse(alloc, &about, error.kind(), &error, output, messages)
        }
    }
}

/// What these words match on the command line of a program.
///
/// # Errors
/// That of the first word that is wrong, or a request for help.
pub fn matches_in<'a, T: Tool>(
    alloc: Global,
    tool: &T,
    words: &'a [&'a str],
) -> Result<ArgMatches<'a>, clap::Error>
    ensures matches { IfOk result (λ matches. rows_of (found_of matches)
        ≡ matches_of (T.tool tool.now).app (map (λ word. word.now) words.entry.now)) }
    ensures kinds { FailsBy (fault_of (T.tool tool.now).app
        (map (λ word. word.now) words.entry.now)) result }
{
    let command = tool.command(alloc)?;
    command.try_get_matches_from(words)
}
