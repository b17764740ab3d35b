//! The program `textwrap_cli`, over its arguments, a reader and two writers: what it does, but for
//! fetching these.
#![tactic(auto)]

pub mod arguments;
pub mod filling;
pub mod program;
