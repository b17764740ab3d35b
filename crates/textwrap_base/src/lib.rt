//! The lowest part of `textwrap`: fragments of given widths, and their division into lines. Nothing in
//! it knows of texts. The crate `textwrap` passes its public items on, but
//! for `inner`. The items have the examples.
#![tactic(auto)]

pub use errors::{OverflowError, WrapError};
pub use first_fit::wrap_first_fit;
pub use fragments::Fragment;
pub use optimal_fit::{wrap_optimal_fit, wrap_optimal_fit_counted};
pub use penalties::Penalties;

mod errors;
mod first_fit;
mod fragments;
pub mod inner;
pub mod laws;
mod line_widths;
pub mod minima;
mod optimal_fit;
mod penalties;
mod prefix_sums;
