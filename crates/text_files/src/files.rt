//! The files of a run.
ghost use Rattle.std.specs.Prelude.{◌≡◌, ℕ, List, Option, None, [], IfOk, OnErr, OnOk};
ghost use Rattle.text_files.specs.Files.{Changes, Folder, HasRights, IsEmptyDraft, LeadsTo};
ghost use Rattle.text_files.specs.Files.{Makes, PutsSynced, RemovesLeftOver, FolderSteps};
ghost use Rattle.text_files.specs.Files.{bytes_at, given_group, given_mode, given_owner};
ghost use Rattle.text_files.specs.Files.{refused_group, refused_owner, Absent, LeftOver};
ghost use Rattle.text_files.specs.Rights.{Granted};

use crate::rights::{FileMode, Rights};
use std::io;
use std::io::{Read, Write};

/// What kind of file a name leads to.
#[derive(Clone, Copy, Debug, PartialEq, Eq)]
pub enum FileKind {
    /// A regular file.
    Regular,
    /// A folder.
    Folder,
    /// A pipe or a socket.
    Pipe,
    /// A device.
    Device,
}

/// A file that is open.
#[derive(Drop)]
pub struct Opened<N, S> {
    /// What it is known by.
    pub node: N,
    /// What is read from it or written into it.
    pub stream: S,
}

/// Files that are read by their names, and replaced by drafts that were written beside them. A method
/// makes one step of the file system at most.
pub trait Files {
    /// What stood at all names after each step so far, the last first; empty where that is not known.
    ghost past: { Self → List Folder } = { λ _. [] };

    /// A file that is read.
    type Input: Read + Drop;

    /// What a regular file is known by that may be replaced: its name, and what it was like when it was
    /// opened.
    type Original: Drop;

    /// What a draft is known by, which is a new file beside another one, to be put in its place: its
    /// name and its rights.
    type Draft: Drop;

    /// What is written into a draft.
    type Output: Write + Drop;

    /// The name of a file that is read, with no link to follow.
    ghost place: { Self.Original → List ℕ } = { λ _. [] };

    /// The name of a draft.
    ghost draft_name: { Self.Draft → List ℕ } = { λ _. [] };

    /// What is known of the rights of a draft, and of those that the system refused it.
    ghost draft_rights: { Self.Draft → Option Granted } = { λ _. None };

    /// What is known of the bytes of a draft that are on the disk.
    ghost synced: { Self.Output → Option (List ℕ) } = { λ _. None };

    /// Opens the file of this name.
    ///
    /// # Errors
    /// That of the file system.
    fn open(&mut self, name: &str) -> io::Result<Self::Input>
        ensures input { IfOk result (λ input.
            Self.Input.remaining input ≡ bytes_at (past self.old) name.now) }
        ensures kept { past self.new ≡ past self.old };

    /// What kind of file this name leads to.
    ///
    /// # Errors
    /// That of the file system.
    fn kind(&self, name: &str) -> io::Result<FileKind>;

    /// Opens the regular file of this name, to replace it.
    ///
    /// # Errors
    /// That of the file system. If what was opened is no regular file, nothing of it is read.
    fn open_original(&mut self, name: &str) -> io::Result<Opened<Self::Original, Self::Input>>
        ensures original { IfOk result (λ original.
            LeadsTo (past self.old) name.now (place original.node)) }
        ensures input { IfOk result (λ original.
            Self.Input.remaining original.stream ≡ bytes_at (past self.old) name.now) }
        ensures kept { past self.new ≡ past self.old };

    /// Asks whether this process may write the file. To put another one in its place, the right to
    /// write in its folder would do.
    ///
    /// # Errors
    /// That of the file system.
    fn may_write(&self, original: &Self::Original) -> io::Result<()>;

    /// The rights of the file, unless another one stands at its place by now, or it was changed since
    /// it was opened.
    ///
    /// # Errors
    /// That of the file system.
    fn rights(&self, original: &Self::Original) -> io::Result<Option<Rights>>
        ensures rights { IfOk result (HasRights (past self.now) (place original.now)) };

    /// Makes the draft of this number in the folder of the file. It is empty, and nobody but its owner
    /// may read it.
    ///
    /// # Errors
    /// That of the file system; `AlreadyExists` where there is one of this number.
    fn create_draft(
        &mut self,
        original: &Self::Original,
        number: u32,
    ) -> io::Result<Opened<Self::Draft, Self::Output>>
        ensures made { IfOk result (λ draft.
            FolderSteps (Makes (draft_name draft.node)) (past self.old) (past self.new)) }
        ensures empty { IfOk result (λ draft. IsEmptyDraft (past self.old)
            (Self.Output.contents draft.stream) (draft_rights draft.node)) }
        ensures kept { OnErr result (past self.new ≡ past self.old) };

    /// Removes the draft of this number if the run that made it is over.
    ///
    /// # Errors
    /// That of the file system, or that there is no such draft.
    fn remove_left_over(&mut self, original: &Self::Original, number: u32) -> io::Result<()>
        ensures removed { OnOk result (FolderSteps RemovesLeftOver (past self.old) (past self.new)) }
        ensures kept { OnErr result (past self.new ≡ past self.old) };

    /// Gives a draft to this group.
    ///
    /// # Errors
    /// That of the file system.
    fn set_group(
        &mut self,
        draft: &mut Opened<Self::Draft, Self::Output>,
        group: u32,
    ) -> io::Result<()>
        ensures given { OnOk result (draft_rights draft.new.node ≡ given_group group (draft_rights draft.old.node)) }
        ensures refused { OnErr result (draft_rights draft.new.node ≡ refused_group group (draft_rights draft.old.node)) }
        ensures name { draft_name draft.new.node ≡ draft_name draft.old.node }
        ensures contents { Self.Output.contents draft.new.stream ≡ Self.Output.contents draft.old.stream }
        ensures kept { past self.new ≡ past self.old };

    /// Gives a draft to this owner.
    ///
    /// # Errors
    /// That of the file system.
    fn set_owner(
        &mut self,
        draft: &mut Opened<Self::Draft, Self::Output>,
        owner: u32,
    ) -> io::Result<()>
        ensures given { OnOk result (draft_rights draft.new.node ≡ given_owner owner (draft_rights draft.old.node)) }
        ensures refused { OnErr result (draft_rights draft.new.node ≡ refused_owner owner (draft_rights draft.old.node)) }
        ensures name { draft_name draft.new.node ≡ draft_name draft.old.node }
        ensures contents { Self.Output.contents draft.new.stream ≡ Self.Output.contents draft.old.stream }
        ensures kept { past self.new ≡ past self.old };

    /// Gives a draft this mode.
    ///
    /// # Errors
    /// That of the file system.
    fn set_mode(
        &mut self,
        draft: &mut Opened<Self::Draft, Self::Output>,
        mode: FileMode,
    ) -> io::Result<()>
        ensures given { OnOk result (draft_rights draft.new.node ≡ given_mode mode (draft_rights draft.old.node)) }
        ensures name { draft_name draft.new.node ≡ draft_name draft.old.node }
        ensures contents { Self.Output.contents draft.new.stream ≡ Self.Output.contents draft.old.stream }
        ensures kept { past self.new ≡ past self.old };

    /// Waits until all of a draft is on the disk.
    ///
    /// # Errors
    /// That of the file system.
    fn sync(&mut self, draft: &mut Opened<Self::Draft, Self::Output>) -> io::Result<()>
        ensures synced { OnOk result (synced draft.new.stream ≡ Self.Output.contents draft.new.stream) }
        ensures rights { draft_rights draft.new.node ≡ draft_rights draft.old.node }
        ensures name { draft_name draft.new.node ≡ draft_name draft.old.node }
        ensures contents { Self.Output.contents draft.new.stream ≡ Self.Output.contents draft.old.stream }
        ensures kept { past self.new ≡ past self.old };

    /// Puts a draft in the place of the file. All of it has to be on the disk: of another one nothing
    /// is promised.
    ///
    /// # Errors
    /// That of the file system. The draft is still there then.
    fn rename(
        &mut self,
        draft: &Opened<Self::Draft, Self::Output>,
        original: &Self::Original,
    ) -> io::Result<()>
        ensures put { OnOk result (PutsSynced (synced draft.now.stream) (draft_name draft.now.node)
            (place original.now) (Self.Output.contents draft.now.stream)
            (draft_rights draft.now.node) (past self.old) (past self.new)) }
        ensures kept { OnErr result (past self.new ≡ past self.old) };

    /// Waits until the folder of the file is on the disk, as far as that can be done.
    fn sync_folder(&mut self, original: &Self::Original)
        ensures kept { past self.new ≡ past self.old };

    /// Removes a draft.
    ///
    /// # Errors
    /// That of the file system. The draft is left over then.
    fn remove(&mut self, draft: &Opened<Self::Draft, Self::Output>) -> io::Result<()>
        ensures removed { OnOk result
            (FolderSteps (Changes (draft_name draft.now.node) Absent) (past self.old) (past self.new)) }
        ensures left { OnErr result
            (FolderSteps (Changes (draft_name draft.now.node) LeftOver) (past self.old)
            (past self.new)) };
}
