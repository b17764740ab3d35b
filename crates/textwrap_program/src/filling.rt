//! The program's work: it reads a text, fills it and writes it.
ghost use Rattle.std.specs.Prelude.{◌≡◌, ◌≢◌, ◌<◌, ◌≤◌, [], ◌∷◌, ◌++◌, length, take, string_bytes};
ghost use Rattle.std.specs.Prelude.{Err, IfOk, OnOk, OnErr, IfErr, IsUtf8};
ghost use Rattle.std.specs.Io.KnownBytes.{Appends};
ghost use Rattle.std.specs.Result.{result_err};
ghost use Rattle.textwrap_layout.specs.Filling.{IsFilledAt};
ghost use Rattle.textwrap_program.specs.Arguments.{asked_algorithm};
ghost use Rattle.textwrap_program.specs.Filling.{fault_line, ReadsAll, FillsTo, Runs, WritesPrefix};
ghost use Rattle.textwrap_program.specs.Program.{line_feed, TriesLine};

use crate::arguments::Algorithm;
use std::alloc::Allocator;
use std::io::{ErrorKind, Read, Write};
use std::str::from_utf8;
use textwrap_lines::{Options, fill};
use textwrap_words::wrap_algorithms::{Penalties, WrapAlgorithm, WrapError};

/// Why the program did not write the whole filled text.
#[derive(Clone, Copy, Debug, PartialEq, Eq)]
pub enum RunError {
    /// A read failed.
    Read,
    /// The input is not UTF-8.
    NotUtf8,
    /// Memory ran out, while reading or filling.
    Memory,
    /// The output could not be written and flushed; a write of 0 bytes counts as a failure.
    Write,
}

/// The line that the program prints on standard error where it fails.
pub fn fault(error: &RunError) -> &'static str
    ensures { result.now ≡ fault_line error.now }
{
    match error {
        RunError::Read => "textwrap_cli: cannot read input",
        RunError::NotUtf8 => "textwrap_cli: input is not UTF-8",
        RunError::Memory => "textwrap_cli: out of memory",
        RunError::Write => "textwrap_cli: cannot write output",
    }
}

/// Does the work of the program: what the reader gives is filled with lines of `width` columns by
/// the algorithm, and the filled text goes to the writer.
///
/// The steps are to read everything, to check that it is UTF-8, to fill it, to write the result and
/// to flush the writer. Each waits for the one before, so a fault found while reading or filling
/// leaves the writer untouched.
///
/// # Errors
/// That of the first step that fails. No read or write is tried again, not even an interrupted one.
/// Input without an end uses up all memory, which is `Memory`.
pub fn run<A: Allocator + Copy, R: Read, W: Write>(
    alloc: A,
    reader: &mut R,
    writer: &mut W,
    width: usize,
    algorithm: Algorithm,
) -> Result<(), RunError>
    ensures { Runs width (asked_algorithm algorithm)
        (R.remaining reader.old) (R.remaining reader.new)
        (W.contents writer.old) (W.contents writer.new) (result_err result) }
{
    let input = read_to_end(alloc, reader)?;
    write_filled(alloc, &input, writer, width, algorithm)
}

/// Reads the reader to its end, which is the first read that gives nothing. No read is tried again.
///
/// # Errors
/// `Read` where a read fails, `Memory` where memory runs out.
pub fn read_to_end<A: Allocator, R: Read>(alloc: A, reader: &mut R) -> Result<Vec<u8, A>, RunError>
    ensures ok { IfOk result (λ input.
        ReadsAll (R.remaining reader.old) (R.remaining reader.new) input.items) }
    ensures not_not_utf8 { IfErr result (λ error. error ≢ RunError.NotUtf8) }
    ensures not_write { IfErr result (λ error. error ≢ RunError.Write) }
{
    let mut input = Vec::new(alloc);
    let mut buffer = [0u8; 8192];
    for _ in 0..u64::MAX {
        let count = reader.read(&mut buffer).map_err(|_| RunError::Read)?;
        if count == 0 {
            return Ok(input);
        }
        input
            .extend_from_slice(&buffer[..count])
            .map_err(|_| RunError::Memory)?;
    }
    Err(RunError::Memory)
}

/// Writes the filled text of the input.
fn write_filled<A: Allocator + Copy, W: Write>(
    alloc: A,
    input: &[u8],
    writer: &mut W,
    width: usize,
    algorithm: Algorithm,
) -> Result<(), RunError>
    ensures { FillsTo width (asked_algorithm algorithm) input.now
        (W.contents writer.old) (W.contents writer.new) (result_err result) }
{
    let filled = fill_input(alloc, input, width, algorithm)?;
    write_to_end(writer, filled.as_bytes())
}

/// The filled text of the input.
///
/// # Errors
/// `NotUtf8` exactly where the input is not UTF-8; `Memory` where memory runs out.
fn fill_input<A: Allocator + Copy>(
    alloc: A,
    input: &[u8],
    width: usize,
    algorithm: Algorithm,
) -> Result<String<A>, RunError>
    ensures text { result ≢ Err RunError.NotUtf8 → IsUtf8 input.now }
    ensures filled { IfOk result (λ filled.
        IsFilledAt width (asked_algorithm algorithm) input.now (string_bytes filled)) }
    ensures not_utf8 { result ≡ Err RunError.NotUtf8 → ¬ IsUtf8 input.now }
    ensures not_read { IfErr result (λ error. error ≢ RunError.Read) }
    ensures not_write { IfErr result (λ error. error ≢ RunError.Write) }
{
    let Ok(text) = from_utf8(input) else {
        return Err(RunError::NotUtf8);
    };
    let algorithm = match algorithm {
        Algorithm::FirstFit => WrapAlgorithm::FirstFit,
        Algorithm::OptimalFit => WrapAlgorithm::OptimalFit(Penalties::new()),
    };
    let options = Options::new(width).wrap_algorithm(algorithm);
    match fill(alloc, text, options) {
        Ok(filled) => Ok(filled),
        Err(WrapError::Memory(_)) => Err(RunError::Memory),
        Err(WrapError::Overflow(_)) => unreachable!(),
    }
}

/// Writes a line and its line feed.
pub fn write_line<W: Write>(writer: &mut W, line: &str) -> Result<(), RunError>
    ensures ok { OnOk result (Appends (W.contents writer.old) (W.contents writer.new)
        (line.now ++ line_feed ∷ [])) }
    ensures prefix { OnErr result
        (TriesLine (W.contents writer.old) (W.contents writer.new) line.now) }
    ensures only_write { IfErr result (λ error. error ≡ RunError.Write) }
{
    write_to_end(writer, line.as_bytes())?;
    write_to_end(writer, b"\n")
}

/// Writes the bytes and flushes.
///
/// # Errors
/// `Write`, where a write fails or takes nothing, or the flush fails. Some of the bytes may then be
/// written.
pub fn write_to_end<W: Write>(writer: &mut W, bytes: &[u8]) -> Result<(), RunError>
    ensures ok { OnOk result (Appends (W.contents writer.old) (W.contents writer.new) bytes.now) }
    ensures prefix { OnErr result
        (WritesPrefix (W.contents writer.old) (W.contents writer.new) bytes.now) }
    ensures only_write { IfErr result (λ error. error ≡ RunError.Write) }
{
    write_whole(writer, bytes).map_err(|_| RunError::Write)
}

/// Writes the bytes and flushes, as [`write_to_end`], and tells why it failed.
///
/// # Errors
/// The kind of the first error of the writer, or `WriteZero` where a write takes nothing. Some of the
/// bytes may then be written.
pub fn write_whole<W: Write>(writer: &mut W, bytes: &[u8]) -> Result<(), ErrorKind>
    ensures ok { OnOk result (Appends (W.contents writer.old) (W.contents writer.new) bytes.now) }
    ensures prefix { OnErr result
        (WritesPrefix (W.contents writer.old) (W.contents writer.new) bytes.now) }
{
    let mut rest = bytes;
    while !rest.is_empty() {
        match write_some(writer, rest) {
            Ok(count) => {
                let (_written, after) = rest.split_at(count);
                rest = after;
            }
            Err(kind) => return Err(kind),
        }
    }
    match writer.flush() {
        Ok(()) => Ok(()),
        Err(error) => Err(error.kind()),
    }
}

/// Writes some of the bytes, at least one, and returns how many.
fn write_some<W: Write>(writer: &mut W, bytes: &[u8]) -> Result<usize, ErrorKind>
    ensures some { IfOk result (λ count. 0 < count) }
    ensures within { IfOk result (λ count. count ≤ length bytes.now) }
    ensures written { IfOk result (λ count.
        Appends (W.contents writer.old) (W.contents writer.new) (take count bytes.now)) }
    ensures nothing { OnErr result (Appends (W.contents writer.old) (W.contents writer.new) []) }
{
    match writer.write(bytes) {
        Ok(count) if count > 0 => Ok(count),
        Ok(_) => Err(ErrorKind::WriteZero),
        Err(error) => Err(error.kind()),
    }
}
