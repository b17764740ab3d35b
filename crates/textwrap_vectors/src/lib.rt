//! Problems other than text, with known answers, that calls of `textwrap` solve; what tests hand to a
//! call, which is functions of a caller, with contracts, an allocator that refuses an allocation, and
//! readers and writers that fail where they are told to; and the tests of the public calls of `textwrap`
//! and of its program that are no rows of `textwrap_rows`: on words and other fragments, on functions of
//! a caller, on long texts, on what several calls agree in, and on memory that runs out.
#![tactic(auto)]

pub use cards::Card;
pub use scheduling::{Day, Task, assign_days};

mod cards;
pub mod functions;
pub mod heap;
mod scheduling;
pub mod streams;
#[cfg(test)]
mod tests;
