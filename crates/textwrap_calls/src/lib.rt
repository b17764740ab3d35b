//! The calls of `textwrap` for callers in C, and in all languages that call C.
//!
//! Each takes bytes as a slice, which C has as a pointer and a length, and answers a status, one of
//! those of [`status`]. What it gives is written into room that the caller lends, and nothing that was
//! allocated is left behind. Room that is too small holds the beginning of a text or a list; lines that
//! come with their texts are not written then. A call that answers neither `DONE` nor `TOO_SMALL`
//! leaves the room as it was. A call whose name ends in `_utf8` does what the call without that does, but
//! its texts have to be UTF-8, and are not tested. `textwrap_c` exports each call under its name.
#![tactic(auto)]

pub mod bounds;
pub mod columns;
pub mod dictionary;
pub mod display;
pub mod filling;
pub mod indentation;
mod known;
pub mod line_lists;
pub mod options;
mod printable;
pub mod refilling;
pub mod reflowing;
pub mod reported;
pub mod room;
pub mod status;
pub mod texts;
pub mod version;
pub mod widths;
pub mod wrapping;
