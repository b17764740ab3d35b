//! The programs that are installed as `textwrap`, `reflow` and `hyphenate`, over their arguments, their
//! files, a reader and two writers: what they do, but for fetching these.
#![tactic(auto)]

pub mod fill;
pub mod hyphenate;
pub mod reflow;
