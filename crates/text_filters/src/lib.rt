//! What programs share that make one text of another: they read files or the standard input, print,
//! compare or replace them, and say what went wrong.
#![tactic(auto)]

pub mod arguments;
pub mod faults;
pub mod filter;
pub mod inputs;
pub mod laws;
pub mod program;
pub mod replacing;
pub mod streams;
pub mod tool;
pub mod words;
