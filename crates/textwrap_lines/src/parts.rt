//! What [`wrap`](crate::wrap) and filling in place share: the first paragraph of a text. The crate
//! `textwrap` uses this module, but does not re-export it. The call has an example.
pub use crate::wrapping::split_paragraph;
