//! The file of a dictionary.
ghost use Rattle.std.specs.Prelude.{◌≡◌};
ghost use Rattle.text_files.specs.Files.{bytes_at};
ghost use Rattle.textwrap_hyphens.specs.Table.{patterns_view};
ghost use Rattle.filter_programs.specs.HyphenateDictionary.{IsDictionary, ReadsDictionary, with_asked_minima};

use std::alloc::Global;
use text_files::files::Files;
use text_filters::faults::{Fault, opening_fault};
use text_filters::streams::ReadWhole;
use textwrap_dictionaries::errors::{self, ParseError};
use textwrap_hyphens::dictionary::Patterns;

/// Why there is no dictionary.
#[derive(Clone, Copy, Debug, PartialEq, Eq)]
pub enum Failure {
    /// Its file is not read.
    Unread(Fault),
    /// What is wrong in its first line that is wrong, and which line that is, counted from 1.
    Wrong { line: usize, fault: errors::Fault },
}

/// Reads the dictionary of this name, as [`Patterns::parse_bytes`] reads its bytes.
///
/// # Errors
/// That of the first step that fails.
pub fn read_dictionary<F: Files>(
    alloc: Global,
    name: &str,
    files: &mut F,
) -> Result<Patterns, Failure>
    ensures kept { F.past files.new ≡ F.past files.old }
    ensures read { ReadsDictionary (bytes_at (F.past files.old) name.now) result }
{
    let mut reader = match files.open(name) {
        Ok(reader) => reader,
        Err(error) => return Err(Failure::Unread(opening_fault(error.kind()))),
    };
    let bytes = match reader.read_whole(alloc) {
        Ok(bytes) => bytes,
        Err(fault) => return Err(Failure::Unread(fault)),
    };
    dictionary_of(alloc, &bytes)
}

/// The dictionary of these bytes.
fn dictionary_of(alloc: Global, bytes: &[u8]) -> Result<Patterns, Failure>
    ensures { IsDictionary bytes.now result }
{
    match Patterns::parse_bytes(alloc, bytes) {
        Ok(patterns) => Ok(patterns),
        Err(ParseError::Memory(_)) => Err(Failure::Unread(Fault::Memory)),
        Err(ParseError::Line { line, fault }) => Err(Failure::Wrong { line, fault }),
    }
}

/// The dictionary with as many letters before a point and behind it as are asked for.
pub(crate) fn with_minima(patterns: Patterns, left: Option<usize>, right: Option<usize>) -> Patterns
    ensures { patterns_view result ≡ with_asked_minima left right (patterns_view patterns) }
{
    let table = patterns.table();
    let left = left.unwrap_or(table.left());
    let right = right.unwrap_or(table.right());
    patterns.minima(left, right)
}
