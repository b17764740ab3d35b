//! Files in memory, which fail where they are told to.
use std::alloc::{AllocError, Global};
use std::io;
use std::io::ErrorKind;
use text_files::files::{FileKind, Files, Opened};
use text_files::rights::{FileMode, Rights};
use textwrap_vectors::streams::{Feed, FeedFault, Sink, SinkFault};

/// How many bytes the readers give at a time.
pub const READ_AT_ONCE: usize = 3;

/// How many bytes the writers take at a time.
pub const WRITTEN_AT_ONCE: usize = 5;

/// What goes wrong with a file.
#[derive(Clone, Copy)]
pub enum FileFault {
    /// Nothing.
    Nothing,
    /// It cannot be opened.
    Open,
    /// It is no regular file.
    Kind(FileKind),
    /// A read of it.
    Read(FeedFault),
    /// It may not be written.
    MayNotWrite,
    /// Drafts of all numbers but this one are there already.
    OneDraft(u32),
    /// No draft for it can be made.
    Draft(ErrorKind),
    /// A write or a flush of its draft.
    Write(SinkFault),
    /// Another program changes it.
    Changed,
    /// Its draft can be given no group and no owner.
    NoOwner,
    /// Its draft can be given no mode.
    NoMode,
    /// Its draft cannot be put on the disk.
    Sync,
    /// Its draft cannot be put in its place.
    Rename,
}

/// A file as it is given: its name, its bytes and what goes wrong with it.
pub type Given = (&'static str, &'static [u8], FileFault);

/// A file in memory.
#[derive(Drop)]
pub struct Held {
    name: &'static str,
    /// What stands in it.
    pub bytes: Vec<u8>,
    fault: FileFault,
}

/// Files in memory.
#[derive(Drop)]
pub struct Folder {
    alloc: Global,
    /// The files.
    pub held: Vec<Held>,
    /// How many drafts there are.
    pub drafts: usize,
    /// How often a draft was put in the place of a file.
    pub replaced: usize,
    /// The number of the mode that the last draft was given.
    pub mode: u32,
}

/// A draft: the file that it is for.
#[derive(Clone, Copy, Drop)]
pub struct Draft {
    of: usize,
}

/// The error of a file.
fn broken() -> io::Error {
    io::Error::from(ErrorKind::BrokenPipe)
}

impl Folder {
    /// These files.
    pub fn new(alloc: Global, given: &[Given]) -> Result<Folder, AllocError> {
        let mut held = Vec::new(alloc);
        for &(name, bytes, fault) in given {
            let bytes = bytes.to_vec(alloc)?;
            held.push(Held { name, bytes, fault })?;
        }
        Ok(Folder {
            alloc,
            held,
            drafts: 0,
            replaced: 0,
            mode: 0,
        })
    }

    /// The place of the file of this name among the files.
    fn place(&self, name: &str) -> io::Result<usize> {
        for (place, held) in self.held.iter().enumerate() {
            if held.name == name {
                return Ok(place);
            }
        }
        Err(io::Error::from(ErrorKind::NotFound))
    }

    /// What goes wrong with the file of this place.
    fn fault(&self, place: usize) -> FileFault {
        match self.held.get(place) {
            Some(held) => held.fault,
            None => FileFault::Open,
        }
    }

    /// A reader of the file of this place.
    fn reader(&self, place: usize) -> io::Result<Feed> {
        let fault = match self.fault(place) {
            FileFault::Open => return Err(broken()),
            FileFault::Read(fault) => fault,
            _ => FeedFault::Nothing,
        };
        match self.held.get(place) {
            Some(held) => Ok(Feed::new(self.alloc, &held.bytes, READ_AT_ONCE, fault)?),
            None => Err(broken()),
        }
    }
}

impl Files for Folder {
    type Input = Feed;

    type Original = usize;

    type Draft = Draft;

    type Output = Sink;

    fn open(&mut self, name: &str) -> io::Result<Feed> {
        self.reader(self.place(name)?)
    }

    fn kind(&self, name: &str) -> io::Result<FileKind> {
        match self.fault(self.place(name)?) {
            FileFault::Kind(kind) => Ok(kind),
            _ => Ok(FileKind::Regular),
        }
    }

    fn open_original(&mut self, name: &str) -> io::Result<Opened<usize, Feed>> {
        let node = self.place(name)?;
        let stream = self.reader(node)?;
        Ok(Opened { node, stream })
    }

    fn may_write(&self, original: &usize) -> io::Result<()> {
        match self.fault(*original) {
            FileFault::MayNotWrite => Err(io::Error::from(ErrorKind::PermissionDenied)),
            _ => Ok(()),
        }
    }

    fn rights(&self, original: &usize) -> io::Result<Option<Rights>> {
        match self.fault(*original) {
            FileFault::Changed => Ok(None),
            _ => Ok(Some(Rights {
                owner: 1,
                group: 2,
                mode: FileMode::of_number(0o100654),
            })),
        }
    }

    fn create_draft(&mut self, original: &usize, number: u32) -> io::Result<Opened<Draft, Sink>> {
        let fault = match self.fault(*original) {
            FileFault::Draft(kind) => return Err(io::Error::from(kind)),
            FileFault::OneDraft(free) if free != number => {
                return Err(io::Error::from(ErrorKind::AlreadyExists));
            }
            FileFault::Write(fault) => fault,
            _ => SinkFault::Nothing,
        };
        self.drafts = self.drafts.saturating_add(1);
        Ok(Opened {
            node: Draft { of: *original },
            stream: Sink::new(self.alloc, WRITTEN_AT_ONCE, fault),
        })
    }

    fn remove_left_over(&mut self, _original: &usize, _number: u32) -> io::Result<()> {
        Err(broken())
    }

    fn set_group(&mut self, draft: &mut Opened<Draft, Sink>, _group: u32) -> io::Result<()> {
        match self.fault(draft.node.of) {
            FileFault::NoOwner => Err(broken()),
            _ => Ok(()),
        }
    }

    fn set_owner(&mut self, draft: &mut Opened<Draft, Sink>, _owner: u32) -> io::Result<()> {
        match self.fault(draft.node.of) {
            FileFault::NoOwner => Err(broken()),
            _ => Ok(()),
        }
    }

    fn set_mode(&mut self, draft: &mut Opened<Draft, Sink>, mode: FileMode) -> io::Result<()> {
        self.mode = mode.number();
        match self.fault(draft.node.of) {
            FileFault::NoMode => Err(broken()),
            _ => Ok(()),
        }
    }

    fn sync(&mut self, draft: &mut Opened<Draft, Sink>) -> io::Result<()> {
        match self.fault(draft.node.of) {
            FileFault::Sync => Err(broken()),
            _ => Ok(()),
        }
    }

    fn rename(&mut self, draft: &Opened<Draft, Sink>, original: &usize) -> io::Result<()> {
        if matches!(self.fault(*original), FileFault::Rename) {
            return Err(broken());
        }
        let bytes = draft.stream.taken.to_vec(self.alloc)?;
        self.drafts = self.drafts.saturating_sub(1);
        self.replaced = self.replaced.saturating_add(1);
        match self.held.get_mut(*original) {
            Some(held) => {
                held.bytes = bytes;
                Ok(())
            }
            None => Err(broken()),
        }
    }

    fn sync_folder(&mut self, _original: &usize) {}

    fn remove(&mut self, _draft: &Opened<Draft, Sink>) -> io::Result<()> {
        self.drafts = self.drafts.saturating_sub(1);
        Ok(())
    }
}
