//! The program `hyphenate`.

pub mod arguments;
pub mod dictionary;
pub mod program;
pub mod texts;
