//! What a call refuses.
ghost use Rattle.std.specs.Prelude.{◌≡◌, alloc_error};

use std::alloc::{AllocError, AllocFailed};
use thiserror::Error;

/// The cost of a prefix of the fragments, or the sum of all widths, needs more than 128 bits. At
/// the line width 0 this holds of two fragments of the width `usize::MAX`, where `overflow_penalty`
/// is that too.
#[derive(Debug, Drop, PartialEq, Eq, Error)]
#[error("wrap_optimal_fit cost computation overflowed")]
pub struct OverflowError;

/// Why a text or a list of fragments was not wrapped. `WrapError::from(AllocError)`, which `?`
/// calls, is `WrapError::Memory(AllocError)`, and is printed as `out of memory`.
#[derive(Debug, Drop, Error)]
pub enum WrapError {
    /// Memory ran out.
    #[error("out of memory")]
    Memory(AllocError),
    /// A number needs more than 128 bits.
    #[error(transparent)]
    Overflow(OverflowError),
}

impl From<AllocError> for WrapError {
    ghost use Rattle.textwrap_base.specs.declared.errors.WrapError.TheVariants.{Memory};

    ghost from_gives = { λ error result. result ≡ Memory error };

    fn from(error: AllocError) -> WrapError {
        WrapError::Memory(error)
    }
}

impl<T: Drop> From<AllocFailed<T>> for WrapError {
    ghost use Rattle.textwrap_base.specs.declared.errors.WrapError.TheVariants.{Memory};

    ghost from_gives = { λ _ result. result ≡ Memory alloc_error };

    fn from(_failed: AllocFailed<T>) -> WrapError {
        WrapError::Memory(AllocError)
    }
}
