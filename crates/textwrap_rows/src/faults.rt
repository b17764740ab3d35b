//! Why there is nothing to compare.
use std::alloc::{AllocError, AllocFailed};
use textwrap::WrapError;

/// Why a call gives nothing.
#[derive(Debug, Drop)]
pub enum Fault {
    /// The library refused for want of memory, or memory ran out here.
    Memory,
    /// The library refused, since costs pass 128 bits.
    Overflow,
    /// The line is no row: no call of this name has such arguments.
    Malformed,
}

impl From<AllocError> for Fault {
    fn from(_error: AllocError) -> Fault {
        Fault::Memory
    }
}

impl<T: Drop> From<AllocFailed<T>> for Fault {
    fn from(_failed: AllocFailed<T>) -> Fault {
        Fault::Memory
    }
}

impl From<WrapError> for Fault {
    fn from(error: WrapError) -> Fault {
        match error {
            WrapError::Memory(_) => Fault::Memory,
            WrapError::Overflow(_) => Fault::Overflow,
        }
    }
}
