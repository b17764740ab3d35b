//! Styles and links that go on over the ends of lines: each line sets anew what is open where it
//! begins, and ends plain. Beside `textwrap`.
//!
//! ```rust
//! let carried = carry_styles(alloc, &lines, &options)?;
//! ```
//!
//! Of `"a \x1b[1mb"` and `"c"` the lines are `"a \x1b[1mb\x1b[0m"` and `"\x1b[1mc\x1b[0m"`.
#![tactic(auto)]

pub use styles::carry_styles;

mod indents;
pub mod inner;
mod latest;
pub mod laws;
mod settings;
mod styles;
