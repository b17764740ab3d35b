//! What a text is read as in which marks stand before the words: its lines, each with its columns, its
//! prefix and the hanging form of that, what is open where a line begins, and the blocks that lines make up.
#![tactic(auto)]

pub mod blocks;
pub mod columns;
pub mod fences;
mod hanging;
mod line;
pub mod lines;
pub mod prefixes;
pub mod reading;
mod states;
