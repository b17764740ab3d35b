//! Files and what changes in them: what a program asks of the file system, where it reads files by their
//! names and replaces them by drafts that were written beside them, with their rights; and what changes from
//! one text to another, written as a unified diff: the form that POSIX gives for `diff -u`, which `patch` and
//! `git apply` read.
#![tactic(auto)]

pub mod differences;
pub mod disk;
pub mod files;
pub mod laws;
pub mod rights;
