//! The files of the file system.
use crate::files::{FileKind, Files, Opened};
use crate::rights::{FileMode, Rights};
use std::alloc::AllocGlobal;
use std::fs::{File, Metadata, OpenOptions, Permissions};
use std::io::{Error, ErrorKind, Read, Write};
use std::os::unix::fs::{FileTypeExt, MetadataExt, OpenOptionsExt, PermissionsExt, fchown};
use std::{fs, io, rt};

/// What the name of a draft begins with, before its number.
const DRAFT_PREFIX: &str = ".reflow-draft-";

/// The files of the file system, by their paths. Each method of [`Files`] makes a few calls of the
/// system, and decides at most whether what they found is the file that is meant.
///
/// A link to a file is followed: the file is replaced, and the link stays. Other hard links to a file
/// keep the old text. A draft stands in the folder of its file, under the name `.reflow-draft-` and its
/// number, and is locked as long as the run that made it goes on. So the next run can tell which drafts
/// are left over.
#[derive(Drop)]
pub struct Disk<'r, R> {
    runtime: &'r R,
}

/// A file that is read.
#[derive(Drop)]
pub struct InputFile {
    file: File,
}

/// The path of a file that may be replaced, with no link to follow, and what the system said of the file
/// when it was opened.
#[derive(Drop)]
pub struct OriginalFile {
    path: String,
    opened: Metadata,
}

/// The path of a draft.
#[derive(Drop)]
pub struct DraftFile {
    path: String,
}

/// What is written into a draft.
#[derive(Drop)]
pub struct OutputFile {
    file: File,
}

impl OriginalFile {
    /// The folder of the file, with a slash at its end unless it is the one that the program runs in.
    fn folder(&self) -> &str {
        match self.path.as_str().rsplit_once('/') {
            Some((folder, _)) => &self.path.as_str()[..=folder.len()],
            None => "",
        }
    }
}

/// Whether both are of one file.
fn is_same_file(one: &Metadata, other: &Metadata) -> bool {
    (one.dev(), one.ino()) == (other.dev(), other.ino())
}

/// Whether both are of one file that was not changed between them.
fn is_unchanged(old: &Metadata, new: &Metadata) -> bool {
    is_same_file(old, new)
        && old.size() == new.size()
        && (old.mtime(), old.mtime_nsec()) == (new.mtime(), new.mtime_nsec())
        && (old.ctime(), old.ctime_nsec()) == (new.ctime(), new.ctime_nsec())
}

impl<'r, R: rt::Files<File = File> + AllocGlobal> Disk<'r, R> {
    /// The files that this runtime reaches.
    pub fn new(runtime: &'r R) -> Self {
        Disk { runtime }
    }

    /// The path of the file that has this name, or that a link of this name leads to.
    fn followed(&self, name: &str) -> io::Result<String> {
        if fs::symlink_metadata(self.runtime, name)?.is_symlink() {
            return Ok(fs::canonicalize(self.runtime, name)?.into_string());
        }
        Ok(String::from_str(self.runtime.alloc(), name)?)
    }

    /// The path of the draft of this number beside the file.
    fn draft_path(&self, original: &OriginalFile, number: u32) -> io::Result<String> {
        let folder = original.folder();
        Ok(format!(in self.runtime.alloc(); "{folder}{DRAFT_PREFIX}{number}")?)
    }

    /// Whether this file stands at this path.
    fn stands_at(&self, file: &File, path: &str) -> io::Result<bool> {
        let found = fs::symlink_metadata(self.runtime, path)?;
        Ok(is_same_file(&file.metadata()?, &found))
    }
}

impl<'r, R: rt::Files<File = File> + AllocGlobal> Files for Disk<'r, R> {
    type Input = InputFile;

    type Original = OriginalFile;

    type Draft = DraftFile;

    type Output = OutputFile;

    fn open(&mut self, name: &str) -> io::Result<InputFile> {
        let file = File::open(self.runtime, name)?;
        // The system opens a folder too, and only a read of it fails.
        if file.metadata()?.is_dir() {
            return Err(Error::from(ErrorKind::IsADirectory));
        }
        Ok(InputFile { file })
    }

    fn kind(&self, name: &str) -> io::Result<FileKind> {
        let found = fs::metadata(self.runtime, name)?.file_type();
        Ok(if found.is_file() {
            FileKind::Regular
        } else if found.is_dir() {
            FileKind::Folder
        } else if found.is_fifo() || found.is_socket() {
            FileKind::Pipe
        } else {
            FileKind::Device
        })
    }

    fn open_original(&mut self, name: &str) -> io::Result<Opened<OriginalFile, InputFile>> {
        let path = self.followed(name)?;
        let file = File::open(self.runtime, path.as_str())?;
        let opened = file.metadata()?;
        if !opened.is_file() {
            return Err(Error::from(ErrorKind::InvalidInput));
        }
        Ok(Opened {
            node: OriginalFile { path, opened },
            stream: InputFile { file },
        })
    }

    fn may_write(&self, original: &OriginalFile) -> io::Result<()> {
        OpenOptions::new()
            .write(true)
            .open(self.runtime, original.path.as_str())?;
        Ok(())
    }

    fn rights(&self, original: &OriginalFile) -> io::Result<Option<Rights>> {
        let found = fs::symlink_metadata(self.runtime, original.path.as_str())?;
        if !is_unchanged(&original.opened, &found) {
            return Ok(None);
        }
        Ok(Some(Rights {
            owner: found.uid(),
            group: found.gid(),
            mode: FileMode::of_number(found.mode()),
        }))
    }

    fn create_draft(
        &mut self,
        original: &OriginalFile,
        number: u32,
    ) -> io::Result<Opened<DraftFile, OutputFile>> {
        let path = self.draft_path(original, number)?;
        let file = OpenOptions::new()
            .write(true)
            .create_new(true)
            .mode(0o600)
            .open(self.runtime, path.as_str())?;
        // A file system may have no locks. Then drafts that are left over stay.
        let _locked = file.try_lock();
        // Before it was locked, another run may have taken it for one that is left over.
        match self.stands_at(&file, path.as_str()) {
            Ok(true) => {}
            Ok(false) => return Err(Error::from(ErrorKind::AlreadyExists)),
            Err(error) => {
                let _removed = fs::remove_file(self.runtime, path.as_str());
                return Err(error);
            }
        }
        Ok(Opened {
            node: DraftFile { path },
            stream: OutputFile { file },
        })
    }

    fn remove_left_over(&mut self, original: &OriginalFile, number: u32) -> io::Result<()> {
        let path = self.draft_path(original, number)?;
        if !fs::symlink_metadata(self.runtime, path.as_str())?.is_file() {
            return Err(Error::from(ErrorKind::InvalidInput));
        }
        let file = File::open(self.runtime, path.as_str())?;
        if file.try_lock().is_err() || !self.stands_at(&file, path.as_str())? {
            return Err(Error::from(ErrorKind::ResourceBusy));
        }
        fs::remove_file(self.runtime, path.as_str())
    }

    fn set_group(
        &mut self,
        draft: &mut Opened<DraftFile, OutputFile>,
        group: u32,
    ) -> io::Result<()> {
        fchown(&draft.stream.file, None, Some(group))
    }

    fn set_owner(
        &mut self,
        draft: &mut Opened<DraftFile, OutputFile>,
        owner: u32,
    ) -> io::Result<()> {
        fchown(&draft.stream.file, Some(owner), None)
    }

    fn set_mode(
        &mut self,
        draft: &mut Opened<DraftFile, OutputFile>,
        mode: FileMode,
    ) -> io::Result<()> {
        draft
            .stream
            .file
            .set_permissions(Permissions::from_mode(mode.number()))
    }

    fn sync(&mut self, draft: &mut Opened<DraftFile, OutputFile>) -> io::Result<()> {
        draft.stream.file.sync_all()
    }

    fn rename(
        &mut self,
        draft: &Opened<DraftFile, OutputFile>,
        original: &OriginalFile,
    ) -> io::Result<()> {
        fs::rename(
            self.runtime,
            draft.node.path.as_str(),
            original.path.as_str(),
        )
    }

    fn sync_folder(&mut self, original: &OriginalFile) {
        let folder = match original.folder() {
            "" => ".",
            folder => folder,
        };
        // Some file systems do not sync folders, and some folders may not be read.
        if let Ok(opened) = File::open(self.runtime, folder) {
            let _synced = opened.sync_all();
        }
    }

    fn remove(&mut self, draft: &Opened<DraftFile, OutputFile>) -> io::Result<()> {
        fs::remove_file(self.runtime, draft.node.path.as_str())
    }
}

impl Read for InputFile {
    fn read(&mut self, buffer: &mut [u8]) -> io::Result<usize> {
        self.file.read(buffer)
    }
}

impl Write for OutputFile {
    fn write(&mut self, bytes: &[u8]) -> io::Result<usize> {
        self.file.write(bytes)
    }

    fn flush(&mut self) -> io::Result<()> {
        self.file.flush()
    }
}
