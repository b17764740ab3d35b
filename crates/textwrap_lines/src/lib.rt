//! The middle of `textwrap`: a text cut into lines for a width, and these lines joined. The crate
//! `textwrap` passes its public items on, but for the modules `inner`, `parts`, `placed` and
//! `steps`. The items have the examples.
#![tactic(auto)]

pub use filling::fill;
pub use textwrap_layout::options::Options;
pub use textwrap_text::line_ending::LineEnding;
pub use wrapping::wrap;

mod filling;
mod first_fit;
mod first_line;
pub mod fuzzing;
pub mod inner;
pub mod laws;
mod least_cost;
pub mod parts;
mod piece_lines;
pub mod placed;
mod printable;
mod printable_words;
mod spans;
pub mod steps;
mod word_lines;
mod wrapping;
