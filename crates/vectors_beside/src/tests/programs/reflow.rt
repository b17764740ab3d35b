//! The program `reflow`: what its words mean, what becomes of its files, of what it reads and writes,
//! and what it says.
mod diffs;
mod disk;
mod faults;
mod files;
pub(super) mod folder;
pub(super) mod plain;
mod sound;
mod words;
