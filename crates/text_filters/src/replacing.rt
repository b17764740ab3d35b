//! How a file is replaced.
ghost use Rattle.std.specs.Prelude.{◌≡◌, Some, IfErr, IfOk, OnErr, OnOk};
ghost use Rattle.text_filters.specs.Faults.{IsOfDraft, IsOfReading};
ghost use Rattle.text_files.specs.Files.{Drafts, HasRights, IsEmptyDraft, IsGivenRights, KeepsFiles};
ghost use Rattle.text_files.specs.Files.{LeadsTo, PutsEmpty, ReplacesPlace, FolderSteps, bytes_at};
ghost use Rattle.text_filters.specs.Inputs.{Replaces};
ghost use Rattle.text_filters.specs.Streams.{AnyReason, IsPossible, NoReason};

use crate::faults::{Fault, Reason, draft_fault, kind_reason, opening_fault};
use crate::filter::Filter;
use crate::inputs::{Treated, read_filtered};
use std::alloc::Global;
use std::io::{self, ErrorKind};
use text_files::files::{FileKind, Files, Opened};
use text_files::rights::Rights;
use textwrap_program::filling::write_whole;

/// How many drafts are made in one folder at a time.
const MOST_DRAFTS: u32 = 100;

/// Filters the file of this name in its place. A file that would not change is left alone. It is
/// replaced only after the whole text was written beside it, if it is still as it was when it was
/// read. Its rights stay as far as the system permits it, and nobody may do more with it than before.
///
/// # Errors
/// That of the first step that fails; `Read` also where the file cannot be opened or is no regular
/// file, `Write` where no draft can be made or put in its place. All files are then as they were.
pub fn replace_file<T: Filter, F: Files>(
    alloc: Global,
    name: &str,
    files: &mut F,
    filter: &T,
) -> Result<Treated, Fault>
    ensures replaced { Replaces (T.work filter.now) name.now (F.past files.old) (F.past files.new) result }
    ensures possible { IfErr result (IsPossible AnyReason NoReason) }
{
    let mut original = open_regular(name, files)?;
    let filtered = match read_filtered(alloc, &mut original.stream, filter) {
        Ok(filtered) => filtered,
        Err(fault) => return Err(fault),
    };
    let treated = Treated {
        changes: false,
        applies: filtered.output.applies,
        replaced: false,
    };
    if filtered.input.as_slice() == filtered.output.text.as_bytes() {
        return Ok(treated);
    }
    match put_bytes(files, &original.node, filtered.output.text.as_bytes()) {
        Ok(()) => Ok(Treated {
            replaced: true,
            ..treated
        }),
        Err(fault) => Err(fault),
    }
}

/// Opens the file of this name, if it is a regular one. Anything else is not opened, since that alone
/// may wait for somebody, or change something.
fn open_regular<F: Files>(name: &str, files: &mut F) -> Result<Opened<F::Original, F::Input>, Fault>
    ensures original { IfOk result (λ original.
        LeadsTo (F.past files.old) name.now (F.place original.node)) }
    ensures input { IfOk result (λ original.
        F.Input.remaining original.stream ≡ bytes_at (F.past files.old) name.now) }
    ensures kept { F.past files.new ≡ F.past files.old }
    ensures only_reading { IfErr result (IsOfReading AnyReason) }
{
    match files.kind(name) {
        Ok(FileKind::Regular) => match files.open_original(name) {
            Ok(original) => Ok(original),
            Err(error) => Err(opening_fault(error.kind())),
        },
        Ok(kind) => Err(Fault::Read(kind_reason(kind))),
        Err(error) => Err(opening_fault(error.kind())),
    }
}

/// Puts these bytes in the place of the file, once all are written beside it.
///
/// # Errors
/// `Write`, or `Memory` where that runs out for the draft. All files are then as they were.
fn put_bytes<F: Files>(files: &mut F, original: &F::Original, bytes: &[u8]) -> Result<(), Fault>
    ensures ok { OnOk result (ReplacesPlace (F.place original.now) bytes.now
        (F.past files.old) (F.past files.new)) }
    ensures kept { OnErr result (KeepsFiles (F.past files.old) (F.past files.new)) }
    ensures only_draft { IfErr result IsOfDraft }
{
    if let Err(error) = files.may_write(original) {
        return Err(draft_fault(error.kind()));
    }
    let mut draft = match new_draft(files, original) {
        Ok(draft) => draft,
        Err(error) => return Err(draft_fault(error.kind())),
    };
    match complete(files, original, &mut draft, bytes) {
        Ok(()) => {
            files.sync_folder(original);
            Ok(())
        }
        Err(fault) => {
            let _removed = files.remove(&draft);
            Err(fault)
        }
    }
}

/// Makes a draft beside the file, under the first number that is free. Drafts that are left over
/// are removed on the way.
fn new_draft<F: Files>(
    files: &mut F,
    original: &F::Original,
) -> io::Result<Opened<F::Draft, F::Output>>
    ensures made { IfOk result (λ draft.
        Drafts (F.draft_name draft.node) (F.past files.old) (F.past files.new)) }
    ensures empty { IfOk result (λ draft. IsEmptyDraft (F.past files.old)
        (F.Output.contents draft.stream) (F.draft_rights draft.node)) }
    ensures kept { OnErr result (KeepsFiles (F.past files.old) (F.past files.new)) }
{
    for number in 0..MOST_DRAFTS {
        match files.create_draft(original, number) {
            Err(error) if error.kind() == ErrorKind::AlreadyExists => {
                let _removed = files.remove_left_over(original, number);
            }
            made => return made,
        }
    }
    Err(io::Error::from(ErrorKind::AlreadyExists))
}

/// Writes the bytes into the draft, and puts it in the place of the file.
fn complete<F: Files>(
    files: &mut F,
    original: &F::Original,
    draft: &mut Opened<F::Draft, F::Output>,
    bytes: &[u8],
) -> Result<(), Fault>
    ensures put { OnOk result (FolderSteps (PutsEmpty (F.Output.contents draft.old.stream)
        (F.draft_rights draft.old.node) (F.draft_name draft.old.node) (F.place original.now)
        bytes.now) (F.past files.old) (F.past files.new)) }
    ensures name { F.draft_name draft.new.node ≡ F.draft_name draft.old.node }
    ensures kept { OnErr result (F.past files.new ≡ F.past files.old) }
    ensures only_draft { IfErr result IsOfDraft }
{
    if let Err(kind) = write_whole(&mut draft.stream, bytes) {
        return Err(draft_fault(kind));
    }
    let rights = rights_of(files, original)?;
    if let Err(error) = give_rights(files, draft, rights) {
        return Err(draft_fault(error.kind()));
    }
    if let Err(error) = files.sync(draft) {
        return Err(draft_fault(error.kind()));
    }
    // As late as can be, since another program may write the file meanwhile.
    rights_of(files, original)?;
    match files.rename(draft, original) {
        Ok(()) => Ok(()),
        Err(error) => Err(draft_fault(error.kind())),
    }
}

/// The rights of the file, if it is as it was when it was opened.
fn rights_of<F: Files>(files: &F, original: &F::Original) -> Result<Rights, Fault>
    ensures rights { IfOk result (λ rights.
        HasRights (F.past files.now) (F.place original.now) (Some rights)) }
    ensures only_draft { IfErr result IsOfDraft }
{
    match files.rights(original) {
        Ok(Some(rights)) => Ok(rights),
        Ok(None) => Err(Fault::Write(Reason::Changed)),
        Err(error) => Err(draft_fault(error.kind())),
    }
}

/// Gives a draft these rights, as far as the system permits it.
fn give_rights<F: Files>(
    files: &mut F,
    draft: &mut Opened<F::Draft, F::Output>,
    rights: Rights,
) -> io::Result<()>
    ensures given { OnOk result (IsGivenRights rights
        (F.draft_rights draft.old.node) (F.draft_rights draft.new.node)) }
    ensures name { F.draft_name draft.new.node ≡ F.draft_name draft.old.node }
    ensures contents { F.Output.contents draft.new.stream ≡ F.Output.contents draft.old.stream }
    ensures kept { F.past files.new ≡ F.past files.old }
{
    let has_group = files.set_group(draft, rights.group).is_ok();
    let has_owner = files.set_owner(draft, rights.owner).is_ok();
    files.set_mode(draft, rights.mode.kept(has_owner, has_group))
}
