//! What the crates above need beside the public calls.

pub use crate::indents::indent_end;
pub use crate::styles::closing_of;
