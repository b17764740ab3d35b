//! Laws of the texts that `reflow` gives.
#![tactic(auto)]

pub mod laws;
