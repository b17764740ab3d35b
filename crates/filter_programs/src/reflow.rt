//! The program `reflow`.

pub mod arguments;
pub mod layout;
pub mod program;
