//! Hyphenation by patterns, as Liang's thesis (1983) describes it and TeX does it: the places of a
//! word at which a dictionary's patterns allow a hyphen.
#![tactic(auto)]

mod building;
pub mod dictionary;
pub mod laws;
pub mod levels;
pub mod outside;
pub mod points;
pub mod splitting;
pub mod table;
