//! The program that is installed as `textwrap`.

pub mod arguments;
pub mod filling;
pub mod program;
pub mod words;
