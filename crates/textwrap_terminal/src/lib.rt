//! A text as a terminal reads it, by the grammar of ECMA-48: its width in columns, and the text
//! without those sequences that the other crates would measure as visible text.
#![tactic(auto)]

pub use stripping::strip_other_sequences;
pub use widths::terminal_width;

pub mod laws;
mod states;
mod stripping;
mod widths;
