//! Public calls of the crates beside `textwrap`, each with a copy of one of its clauses: whether a body meets
//! the clause is left to the search.
#![tactic(auto)]

pub mod calls;
pub mod cuts;
pub mod differences;
pub mod display;
pub mod files;
pub mod hyphens;
pub mod paragraphs;
pub mod statuses;
pub mod steps;
