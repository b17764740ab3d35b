//! Why an input was not treated.
ghost use Rattle.std.specs.Prelude.{◌≡◌};
ghost use Rattle.text_filters.specs.Faults.{draft_fault, file_reason, kind_reason, opening_fault, output_reason};

use std::io::ErrorKind;
use text_files::files::FileKind;
use textwrap_program::filling::RunError;

/// Why an input was not treated.
#[derive(Clone, Copy, Debug, PartialEq, Eq)]
pub enum Fault {
    /// It cannot be read.
    Read(Reason),
    /// It is not UTF-8. So many bytes before the first that is none are.
    NotUtf8(usize),
    /// Memory ran out.
    Memory,
    /// It cannot be replaced.
    Write(Reason),
    /// The output cannot be written.
    Output(Reason),
}

/// Why a file or a stream cannot be read or written.
#[derive(Clone, Copy, Debug, PartialEq, Eq)]
pub enum Reason {
    /// There is none of this name.
    NotFound,
    /// The system does not permit it.
    NotPermitted,
    /// It stands on a file system that may only be read.
    ReadOnly,
    /// It is a folder.
    IsFolder,
    /// It is a pipe or a socket.
    IsPipe,
    /// It is a device.
    IsDevice,
    /// Its name is longer than the system takes.
    TooLong,
    /// It is in use.
    Busy,
    /// It has changed since it was read.
    Changed,
    /// As many drafts as are made in one folder are there already.
    TooManyDrafts,
    /// No space is left.
    NoSpace,
    /// Nobody reads the output any more.
    Closed,
    /// Another one.
    Other,
}

/// Why a file cannot be read or written, by the kind of the error.
pub fn file_reason(kind: ErrorKind) -> Reason
    ensures { result ≡ file_reason kind }
{
    match kind {
        ErrorKind::NotFound => Reason::NotFound,
        ErrorKind::PermissionDenied => Reason::NotPermitted,
        ErrorKind::ReadOnlyFilesystem => Reason::ReadOnly,
        ErrorKind::IsADirectory => Reason::IsFolder,
        ErrorKind::InvalidFilename => Reason::TooLong,
        ErrorKind::ResourceBusy | ErrorKind::ExecutableFileBusy => Reason::Busy,
        ErrorKind::AlreadyExists => Reason::TooManyDrafts,
        ErrorKind::StorageFull | ErrorKind::QuotaExceeded => Reason::NoSpace,
        _ => Reason::Other,
    }
}

/// Why what a name leads to is no regular file, by its kind.
pub fn kind_reason(kind: FileKind) -> Reason
    ensures { result ≡ kind_reason kind }
{
    match kind {
        FileKind::Folder => Reason::IsFolder,
        FileKind::Pipe => Reason::IsPipe,
        FileKind::Device => Reason::IsDevice,
        FileKind::Regular => Reason::Other,
    }
}

/// Why the output cannot be written, by the kind of the error.
pub fn output_reason(kind: ErrorKind) -> Reason
    ensures { result ≡ output_reason kind }
{
    match kind {
        ErrorKind::BrokenPipe => Reason::Closed,
        ErrorKind::StorageFull | ErrorKind::QuotaExceeded => Reason::NoSpace,
        _ => Reason::Other,
    }
}

/// Why a file cannot be opened, by the kind of the error.
pub fn opening_fault(kind: ErrorKind) -> Fault
    ensures { result ≡ opening_fault kind }
{
    match kind {
        ErrorKind::OutOfMemory => Fault::Memory,
        _ => Fault::Read(file_reason(kind)),
    }
}

/// Why a draft cannot be made, written or put in its place, by the kind of the error.
pub fn draft_fault(kind: ErrorKind) -> Fault
    ensures { result ≡ draft_fault kind }
{
    match kind {
        ErrorKind::OutOfMemory => Fault::Memory,
        _ => Fault::Write(file_reason(kind)),
    }
}
