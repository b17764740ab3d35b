//! A reader and a writer in memory, which give and take bytes in pieces, and fail where they are told
//! to.
//!
//! A fault comes once: tried again, the same call goes on. So a call that overlooks the fault goes on
//! too, and a test sees that it did.
use std::alloc::{AllocError, Global};
use std::io;
use std::io::{ErrorKind, Read, Write};

/// What goes wrong with a [`Feed`].
#[derive(Clone, Copy)]
pub enum FeedFault {
    /// Nothing.
    Nothing,
    /// A read fails after so many bytes.
    Fails(usize, ErrorKind),
    /// A read gives nothing after so many bytes, as at the end.
    GivesNothing(usize),
}

/// A reader that gives so many bytes at a time.
#[derive(Drop)]
pub struct Feed {
    bytes: Vec<u8>,
    given: usize,
    step: usize,
    fault: FeedFault,
    /// How often it was read.
    pub reads: usize,
}

impl Feed {
    /// A reader of a copy of these bytes.
    pub fn new(
        alloc: Global,
        bytes: &[u8],
        step: usize,
        fault: FeedFault,
    ) -> Result<Feed, AllocError> {
        Ok(Feed {
            bytes: bytes.to_vec(alloc)?,
            given: 0,
            step,
            fault,
            reads: 0,
        })
    }

    /// How many bytes are left to be read.
    pub fn left(&self) -> usize {
        self.bytes.len().saturating_sub(self.given)
    }

    /// How many bytes may go by before the fault.
    fn room(&self) -> usize {
        match self.fault {
            FeedFault::Fails(at, _) | FeedFault::GivesNothing(at) => at.saturating_sub(self.given),
            FeedFault::Nothing => usize::MAX,
        }
    }

    /// The error of a read that gives nothing, if it is to fail. The fault is over then.
    fn end(&mut self) -> io::Result<()> {
        let fault = self.fault;
        self.fault = FeedFault::Nothing;
        match fault {
            FeedFault::Fails(_, kind) => Err(io::Error::from(kind)),
            _ => Ok(()),
        }
    }
}

impl Read for Feed {
    fn read(&mut self, buffer: &mut [u8]) -> io::Result<usize> {
        self.reads = self.reads.saturating_add(1);
        let allowed = self.step.min(self.room());
        let Some(rest) = self.bytes.get(self.given..) else {
            return Ok(0);
        };
        let count = rest.len().min(allowed).min(buffer.len());
        if count == 0 {
            self.end()?;
            return Ok(0);
        }
        buffer[..count].copy_from_slice(&rest[..count]);
        self.given += count;
        Ok(count)
    }
}

/// What goes wrong with a [`Sink`].
#[derive(Clone, Copy)]
pub enum SinkFault {
    /// Nothing.
    Nothing,
    /// A write fails after so many bytes.
    Fails(usize, ErrorKind),
    /// A write takes nothing after so many bytes.
    TakesNothing(usize),
    /// A flush fails.
    FlushFails,
}

/// A writer that takes so many bytes at a time.
#[derive(Drop)]
pub struct Sink {
    /// What it took.
    pub taken: Vec<u8>,
    step: usize,
    fault: SinkFault,
    /// How often it was flushed.
    pub flushes: usize,
    /// How much of what it took came before the last flush.
    pub flushed: usize,
}

impl Sink {
    /// A writer that took nothing yet.
    pub fn new(alloc: Global, step: usize, fault: SinkFault) -> Sink {
        Sink {
            taken: Vec::new(alloc),
            step,
            fault,
            flushes: 0,
            flushed: 0,
        }
    }

    /// How many bytes may go by before the fault.
    fn room(&self) -> usize {
        match self.fault {
            SinkFault::Fails(at, _) | SinkFault::TakesNothing(at) => {
                at.saturating_sub(self.taken.len())
            }
            SinkFault::Nothing | SinkFault::FlushFails => usize::MAX,
        }
    }

    /// The error of a write that takes nothing, if it is to fail. The fault is over then.
    fn refuse(&mut self) -> io::Result<()> {
        let fault = self.fault;
        self.fault = SinkFault::Nothing;
        match fault {
            SinkFault::Fails(_, kind) => Err(io::Error::from(kind)),
            _ => Ok(()),
        }
    }
}

impl Write for Sink {
    fn write(&mut self, bytes: &[u8]) -> io::Result<usize> {
        let count = bytes.len().min(self.step).min(self.room());
        if count == 0 {
            self.refuse()?;
            return Ok(0);
        }
        self.taken.extend_from_slice(&bytes[..count])?;
        Ok(count)
    }

    fn flush(&mut self) -> io::Result<()> {
        if let SinkFault::FlushFails = self.fault {
            self.fault = SinkFault::Nothing;
            return Err(io::Error::from(ErrorKind::BrokenPipe));
        }
        self.flushes = self.flushes.saturating_add(1);
        self.flushed = self.taken.len();
        Ok(())
    }
}
