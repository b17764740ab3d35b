//! Word wrapping and paragraph filling.
//!
//! [`fill`] cuts a text into lines for a width and joins them, [`wrap`] gives the lines alone.
//!
//! ```rust
//! let options = Options::new(12).initial_indent("* ").subsequent_indent("  ");
//! let entry = fill(alloc, "This is a little example.", options)?;
//! ```
//!
//! The entry is `"* This is\n  a little\n  example."`.
#![tactic(auto)]

pub use columns::wrap_columns;
pub use indentation::{dedent, indent};
pub use inplace::fill_inplace;
pub use refilling::{refill, unfill};
pub use textwrap_base::minima;
pub use textwrap_lines::{LineEnding, Options, fill, fuzzing, wrap};
pub use textwrap_words::{word_separators, word_splitters, words, wrap_algorithms};
pub use word_separators::WordSeparator;
pub use word_splitters::WordSplitter;
pub use wrap_algorithms::{WrapAlgorithm, WrapError};

mod columns;
mod indentation;
pub mod inner;
mod inplace;
pub mod laws;
mod refilling;
mod rows;
mod text_sinks;
