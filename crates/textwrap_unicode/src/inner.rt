//! What the crates above need beside the public calls.
pub use crate::pairs::{is_cut_at_blanks, is_cut_between};
