//! What a run reads to the end and what it writes to, with the faults that these may have.
ghost use Rattle.std.specs.Prelude.{List, Option, ℕ, IfErr, IfOk, OnErr, OnOk};
ghost use Rattle.std.specs.Io.KnownBytes.{Appends};
ghost use Rattle.textwrap_program.specs.Filling.{ReadsAll, WritesPrefix};
ghost use Rattle.text_filters.specs.Faults.{IsOfReading};
ghost use Rattle.text_filters.specs.Streams.{ReadFaults, WriteFaults};
ghost use Rattle.text_filters.specs.declared.faults.Reason.{Reason};

use crate::faults::{Fault, Reason, output_reason};
use std::alloc::Global;
use std::io::{Read, Write};
use textwrap_program::filling::{RunError, read_to_end, write_whole};

/// A reader that is read to its end.
pub trait ReadWhole {
    /// What is left to be read, where that is known.
    ghost remaining: { Self → Option (List ℕ) };

    /// For which reasons it may fail.
    ghost faults: { Reason → Type 0 };

    /// Reads all that is left.
    ///
    /// # Errors
    /// `Read` where a read fails, `Memory` where memory runs out.
    fn read_whole(&mut self, alloc: Global) -> Result<Vec<u8>, Fault>
        ensures ok { IfOk result (λ input. ReadsAll (remaining self.old) (remaining self.new) input.items) }
        ensures only_reading { IfErr result (IsOfReading faults) };
}

/// A writer that takes a whole text, or says why it did not.
pub trait WriteWhole {
    /// What it took, where that is known.
    ghost contents: { Self → Option (List ℕ) };

    /// For which reasons it may fail.
    ghost faults: { Reason → Type 0 };

    /// Writes the bytes, and waits until they have arrived.
    ///
    /// # Errors
    /// Why the writer did not take all of them. Some may then be written.
    fn write_whole(&mut self, bytes: &[u8]) -> Result<(), Reason>
        ensures ok { OnOk result (Appends (contents self.old) (contents self.new) bytes.now) }
        ensures prefix { OnErr result (WritesPrefix (contents self.old) (contents self.new) bytes.now) }
        ensures failed { IfErr result faults };
}

impl<R: Read> ReadWhole for R {
    ghost remaining = { R.remaining };

    ghost faults = { ReadFaults };

    fn read_whole(&mut self, alloc: Global) -> Result<Vec<u8>, Fault> {
        match read_to_end(alloc, self) {
            Ok(input) => Ok(input),
            Err(RunError::Memory) => Err(Fault::Memory),
            Err(_) => Err(Fault::Read(Reason::Other)),
        }
    }
}

impl<W: Write> WriteWhole for W {
    ghost contents = { W.contents };

    ghost faults = { WriteFaults };

    fn write_whole(&mut self, bytes: &[u8]) -> Result<(), Reason> {
        match write_whole(self, bytes) {
            Ok(()) => Ok(()),
            Err(kind) => Err(output_reason(kind)),
        }
    }
}
