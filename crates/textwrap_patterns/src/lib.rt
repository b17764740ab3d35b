//! Patterns of hyphenation and exceptions from them: their letters, how they are written, and a trie of
//! them in one list of numbers: keys of letters, each with some numbers. The list holds no address of
//! memory, so it can be copied, kept in a file and put into room that a caller lends.
#![tactic(auto)]

pub mod changes;
pub mod charsets;
pub mod entries;
pub mod letters;
pub(crate) mod lists;
pub mod lookup;
pub mod merging;
pub mod numbers;
pub mod patterns;
pub(crate) mod slots;
pub mod writing;
pub mod written;
