//! What a program does with one input.
ghost use Rattle.std.specs.Prelude.{◌≡◌, ◌++◌, ◌∷◌, [], IfErr, OnOk, OnErr};
ghost use Rattle.std.specs.Io.KnownBytes.{Appends};
ghost use Rattle.textwrap_program.specs.Filling.{WritesPrefix};
ghost use Rattle.textwrap_program.specs.Program.{TriesLine, line_feed};
ghost use Rattle.text_filters.specs.Faults.{IsOfOutput};
ghost use Rattle.text_filters.specs.Streams.{AnyReason, IsPossible, NoReason};
ghost use Rattle.text_files.specs.Files.{bytes_at};
ghost use Rattle.text_filters.specs.Inputs.{Checks, ChecksFile, Differs, DiffersFile};
ghost use Rattle.text_filters.specs.Inputs.{Prints, PrintsFile, Reads, Filters};

use crate::faults::{Fault, file_reason};
use crate::filter::{Filter, Made};
use crate::streams::{ReadWhole, WriteWhole};
use simdutf8::compat::from_utf8;
use std::alloc::Global;
use text_files::differences::diff_text;
use text_files::files::Files;

/// What became of an input.
#[derive(Clone, Copy, PartialEq, Eq)]
pub struct Treated {
    /// Whether a check found that it would change.
    pub changes: bool,
    /// Whether there was something in it for the filter.
    pub applies: bool,
    /// Whether it was replaced.
    pub replaced: bool,
}

/// An input, and what the filter made of it.
#[derive(Drop)]
pub struct Filtered {
    /// The bytes that were read.
    pub input: Vec<u8>,
    /// What the filter makes of the input.
    pub output: Made,
}

/// Reads the reader to its end, and filters what it gave.
///
/// # Errors
/// `Read` where a read fails, `NotUtf8` exactly where the input is not UTF-8, `Memory` where memory
/// runs out.
pub fn read_filtered<T: Filter, R: ReadWhole>(
    alloc: Global,
    reader: &mut R,
    filter: &T,
) -> Result<Filtered, Fault>
    ensures read { Reads (T.work filter.now) (R.remaining reader.old) (R.remaining reader.new) result }
    ensures possible { IfErr result (IsPossible R.faults NoReason) }
{
    let input = reader.read_whole(alloc)?;
    let output = filter_input(alloc, &input, filter)?;
    Ok(Filtered { input, output })
}

/// What the filter makes of the input.
fn filter_input<T: Filter>(alloc: Global, input: &[u8], filter: &T) -> Result<Made, Fault>
    ensures { Filters (T.work filter.now) input.now result }
{
    match from_utf8(input) {
        Ok(text) => match filter.filter(alloc, text) {
            Ok(made) => Ok(made),
            Err(_) => Err(Fault::Memory),
        },
        Err(error) => Err(Fault::NotUtf8(error.valid_up_to())),
    }
}

/// Writes what the filter makes of what the reader gives. The text is written only after all of it is known.
///
/// # Errors
/// That of the first step that fails. Nothing is written but at `Output`, where the writer took a
/// prefix of the text.
pub fn print_input<T: Filter, R: ReadWhole, W: WriteWhole>(
    alloc: Global,
    reader: &mut R,
    writer: &mut W,
    filter: &T,
) -> Result<Treated, Fault>
    ensures treated { Prints (T.work filter.now) (R.remaining reader.old) (R.remaining reader.new)
        (W.contents writer.old) (W.contents writer.new) result }
    ensures possible { IfErr result (IsPossible R.faults W.faults) }
{
    let filtered = read_filtered(alloc, reader, filter)?;
    match write_output(writer, filtered.output.text.as_bytes()) {
        Ok(()) => Ok(Treated {
            changes: false,
            applies: filtered.output.applies,
            replaced: false,
        }),
        Err(fault) => Err(fault),
    }
}

/// Writes the bytes to the output.
///
/// # Errors
/// `Output`. Some of the bytes may then be written.
fn write_output<W: WriteWhole>(writer: &mut W, bytes: &[u8]) -> Result<(), Fault>
    ensures ok { OnOk result (Appends (W.contents writer.old) (W.contents writer.new) bytes.now) }
    ensures prefix { OnErr result
        (WritesPrefix (W.contents writer.old) (W.contents writer.new) bytes.now) }
    ensures only_output { IfErr result (IsOfOutput W.faults) }
{
    match writer.write_whole(bytes) {
        Ok(()) => Ok(()),
        Err(reason) => Err(Fault::Output(reason)),
    }
}

/// Whether the filter would change what the reader gives. If so, the writer takes a line
/// with the name.
///
/// # Errors
/// That of the first step that fails. Nothing is written but at `Output`, where the writer took a
/// prefix of the line.
pub fn check_input<T: Filter, R: ReadWhole, W: WriteWhole>(
    alloc: Global,
    name: &str,
    reader: &mut R,
    writer: &mut W,
    filter: &T,
) -> Result<Treated, Fault>
    ensures treated { Checks (T.work filter.now) name.now
        (R.remaining reader.old) (R.remaining reader.new)
        (W.contents writer.old) (W.contents writer.new) result }
    ensures possible { IfErr result (IsPossible R.faults W.faults) }
{
    let filtered = read_filtered(alloc, reader, filter)?;
    let applies = filtered.output.applies;
    if filtered.input.as_slice() == filtered.output.text.as_bytes() {
        return Ok(Treated {
            changes: false,
            applies,
            replaced: false,
        });
    }
    match write_name(writer, name) {
        Ok(()) => Ok(Treated {
            changes: true,
            applies,
            replaced: false,
        }),
        Err(fault) => Err(fault),
    }
}

/// Writes a line with the name to the output.
///
/// # Errors
/// `Output`. A prefix of the line may then be written.
fn write_name<W: WriteWhole>(writer: &mut W, name: &str) -> Result<(), Fault>
    ensures ok { OnOk result
        (Appends (W.contents writer.old) (W.contents writer.new) (name.now ++ line_feed ∷ [])) }
    ensures prefix { OnErr result
        (TriesLine (W.contents writer.old) (W.contents writer.new) name.now) }
    ensures only_output { IfErr result (IsOfOutput W.faults) }
{
    write_output(writer, name.as_bytes())?;
    write_output(writer, b"\n")
}

/// Writes what the filter would change in what the reader gives, as a unified diff under the name. If `counts` is set, a change is told as one that a check found.
///
/// # Errors
/// That of the first step that fails. Nothing is written but at `Output`, where the writer took a
/// prefix of the diff.
pub fn diff_input<T: Filter, R: ReadWhole, W: WriteWhole>(
    alloc: Global,
    name: &str,
    counts: bool,
    reader: &mut R,
    writer: &mut W,
    filter: &T,
) -> Result<Treated, Fault>
    ensures treated { Differs (T.work filter.now) counts name.now
        (R.remaining reader.old) (R.remaining reader.new)
        (W.contents writer.old) (W.contents writer.new) result }
    ensures possible { IfErr result (IsPossible R.faults W.faults) }
{
    let filtered = read_filtered(alloc, reader, filter)?;
    let applies = filtered.output.applies;
    if filtered.input.as_slice() == filtered.output.text.as_bytes() {
        return Ok(Treated {
            changes: false,
            applies,
            replaced: false,
        });
    }
    let Ok(text) = diff_text(
        alloc,
        name,
        &filtered.input,
        filtered.output.text.as_bytes(),
    ) else {
        return Err(Fault::Memory);
    };
    match write_output(writer, &text) {
        Ok(()) => Ok(Treated {
            changes: counts,
            applies,
            replaced: false,
        }),
        Err(fault) => Err(fault),
    }
}

/// Writes what the filter makes of the file of this name, as [`print_input`] does.
///
/// # Errors
/// Those of [`print_input`], and `Read` also where the file cannot be opened.
pub fn print_file<T: Filter, F: Files, W: WriteWhole>(
    alloc: Global,
    name: &str,
    files: &mut F,
    writer: &mut W,
    filter: &T,
) -> Result<Treated, Fault>
    ensures kept { F.past files.new ≡ F.past files.old }
    ensures printed { PrintsFile (T.work filter.now) (bytes_at (F.past files.old) name.now)
        (W.contents writer.old) (W.contents writer.new) result }
    ensures possible { IfErr result (IsPossible AnyReason W.faults) }
{
    match files.open(name) {
        Ok(mut reader) => print_input(alloc, &mut reader, writer, filter),
        Err(error) => Err(Fault::Read(file_reason(error.kind()))),
    }
}

/// Whether the filter would change the file of this name, as [`check_input`] does.
///
/// # Errors
/// Those of [`check_input`], and `Read` also where the file cannot be opened.
pub fn check_file<T: Filter, F: Files, W: WriteWhole>(
    alloc: Global,
    name: &str,
    files: &mut F,
    writer: &mut W,
    filter: &T,
) -> Result<Treated, Fault>
    ensures kept { F.past files.new ≡ F.past files.old }
    ensures checked { ChecksFile (T.work filter.now) name.now (bytes_at (F.past files.old) name.now)
        (W.contents writer.old) (W.contents writer.new) result }
    ensures possible { IfErr result (IsPossible AnyReason W.faults) }
{
    match files.open(name) {
        Ok(mut reader) => check_input(alloc, name, &mut reader, writer, filter),
        Err(error) => Err(Fault::Read(file_reason(error.kind()))),
    }
}

/// Writes what the filter would change in the file of this name, as [`diff_input`] does.
///
/// # Errors
/// Those of [`diff_input`], and `Read` also where the file cannot be opened.
pub fn diff_file<T: Filter, F: Files, W: WriteWhole>(
    alloc: Global,
    name: &str,
    counts: bool,
    files: &mut F,
    writer: &mut W,
    filter: &T,
) -> Result<Treated, Fault>
    ensures kept { F.past files.new ≡ F.past files.old }
    ensures told { DiffersFile (T.work filter.now) counts name.now (bytes_at (F.past files.old) name.now)
        (W.contents writer.old) (W.contents writer.new) result }
    ensures possible { IfErr result (IsPossible AnyReason W.faults) }
{
    match files.open(name) {
        Ok(mut reader) => diff_input(alloc, name, counts, &mut reader, writer, filter),
        Err(error) => Err(Fault::Read(file_reason(error.kind()))),
    }
}
