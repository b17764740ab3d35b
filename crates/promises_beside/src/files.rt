//! What a program does with a file.
ghost use Rattle.text_files.specs.Files.{bytes_at};
ghost use Rattle.text_filters.specs.Inputs.{ChecksFile, Replaces};

use std::alloc::Global;
use text_files::files::Files;
use text_filters::faults::Fault;
use text_filters::filter::Filter;
use text_filters::inputs::{Treated, check_file};
use text_filters::replacing::replace_file;
use text_filters::streams::WriteWhole;

/// As `check_file`.
pub fn checked_file<T: Filter, F: Files, W: WriteWhole>(
    alloc: Global,
    name: &str,
    files: &mut F,
    writer: &mut W,
    filter: &T,
) -> Result<Treated, Fault>
    ensures checked { ChecksFile (T.work filter.now) name.now (bytes_at (F.past files.old) name.now)
        (W.contents writer.old) (W.contents writer.new) result }
{
    check_file(alloc, name, files, writer, filter)
}

/// As `replace_file`.
pub fn replaced_file<T: Filter, F: Files>(
    alloc: Global,
    name: &str,
    files: &mut F,
    filter: &T,
) -> Result<Treated, Fault>
    ensures { Replaces (T.work filter.now) name.now
        (F.past files.old) (F.past files.new) result }
{
    replace_file(alloc, name, files, filter)
}
