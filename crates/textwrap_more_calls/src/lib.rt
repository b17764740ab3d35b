//! The calls for callers in C beside those of `textwrap_calls`: for who takes a text apart, its
//! paragraphs, words and pieces, where Unicode lets its lines end, the lines of fragments, and a text
//! of which a caller finds the words, the points or the lines in another way; for display, tables, balanced
//! lines, and the widths of columns that fit their cells; for texts as a terminal reads them; and on
//! hyphenation by patterns. They answer as those do.
#![tactic(auto)]

pub mod attributes;
pub mod balancing;
pub mod breaks;
pub mod fitting;
pub mod fragments;
pub mod hyphens;
pub mod justified_steps;
pub mod paragraphs;
pub mod pieces;
pub mod steps;
pub mod tables;
pub mod terminal;
pub mod text_steps;
