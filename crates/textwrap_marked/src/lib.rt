//! Fills the paragraphs of a text again, in which marks stand before the words: which of its blocks are
//! filled, and what they become.
#![tactic(auto)]

pub use choosing::has_chosen;
pub use reflowing::reflow;
pub use textwrap_marks::options::{Algorithm, ReflowOptions};
pub use within::{LineRange, reflow_within};

mod choosing;
mod filling;
mod first_fit;
mod least_cost;
mod pieces;
mod reflowing;
mod within;
