//! `textwrap` for callers in C, and in all languages that call C.
//!
//! Each export passes its arguments on to the function of its name in `textwrap_calls` or
//! `textwrap_more_calls`, where it is described, and makes the same promises: `tools/border` writes it
//! from there.
//! Only a static library has exports, and none stands on one; so the calls stand in libraries, on which
//! tests may stand too.
#![tactic(auto)]

pub mod calls;
pub mod more_calls;
pub mod reflowing;
pub mod version;
