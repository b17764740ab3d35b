//! What the text of a dictionary says: its patterns of hyphenation, and exceptions from them.
#![tactic(auto)]

pub mod entries;
pub mod errors;
pub mod laws;
pub mod parsing;
