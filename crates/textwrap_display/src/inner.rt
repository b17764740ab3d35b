//! What the crates above need beside the public calls.

pub use crate::justified_lines::JustifiedLines;
