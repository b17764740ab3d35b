//! Callers of `textwrap`, with contracts that rest on the library's. They show how the library is
//! called, and that its contracts suffice: none of them names a crate below it. `help` and `styled` call
//! `textwrap_display` too.
pub mod checking;
pub mod comments;
pub mod gallery;
pub mod help;
pub mod languages;
pub mod lists;
pub mod mail;
pub mod notes;
pub mod paths;
pub mod scripts;
pub mod styled;
pub mod tables;
