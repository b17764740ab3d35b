//! The calls on hyphenation by patterns: a dictionary that is read into numbers, and the points of a word.
//! They have statuses of their own beside those of `textwrap_calls`. Calls that take options take a
//! dictionary as a part of them.

pub mod points;
pub mod reading;
pub mod status;
