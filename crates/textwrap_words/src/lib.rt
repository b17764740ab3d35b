//! The words of `textwrap`: the columns of a text, its words, where these may be split and broken, and
//! how they are divided into lines. The crate `textwrap` passes its public modules on, but for
//! `inner`. The modules and their items have the examples.
#![tactic(auto)]

mod cut_pieces;
pub mod inner;
pub mod laws;
mod pieces;
pub mod word_separators;
pub mod word_splitters;
pub mod words;
pub mod wrap_algorithms;
