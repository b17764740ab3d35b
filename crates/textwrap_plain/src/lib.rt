//! Options that hold no function: beside the port, for callers that have words end where Unicode lets a
//! line end, or split by a dictionary of hyphenation, and for calls from C. Each part of these options is
//! built in, so each answer is the one that its contract names. `wrap` and `fill` take them as they are;
//! each call that takes a layout and parts takes `options.layout()` and `&options.parts(alloc)`, and so
//! does a column of a table. Balanced
//! lines, which are made by built-in parts alone, stand here too.
#![tactic(auto)]

pub mod balancing;
pub mod laws;
mod options;
pub mod parts;
pub mod placed;
mod printable;
pub mod texts;

pub use balancing::{balanced_width, wrap_balanced};
pub use options::{PlainOptions, PlainSeparator, PlainSplitter};
pub use parts::Hyphenated;
pub use printable::PlainWords;
pub use texts::{fill, fill_into, wrap};
pub use textwrap_layout::layout::Layout;
pub use textwrap_layout::parts::BuiltInAlgorithm;
pub use textwrap_words::inner::BuiltInSplitter;
