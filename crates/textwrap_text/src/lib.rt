//! Texts, and what is read of them: their characters, which of these are visible (ECMA-48), the
//! columns that they take, their words, their blanks and their lines, and the classes of characters
//! that the Unicode line breaking algorithm ([UAX #14](https://www.unicode.org/reports/tr14/)) goes by.
//! Under all other crates; the lemmas on lists, numbers and texts that are about nothing of this
//! repository stand here.
#![tactic(auto)]

pub mod ascii;
pub mod blanks;
pub mod characters;
pub mod chunks;
pub mod class_sets;
pub mod classes;
pub mod escapes;
mod japanese;
pub mod laws;
pub mod lent_text;
pub mod line_ending;
mod line_feeds;
pub mod printable;
pub mod starts;
pub mod text_lines;
pub mod widths;
