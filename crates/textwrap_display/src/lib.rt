//! Lines for display: aligned, justified, shortened, with their styles, and in the columns of a table;
//! and texts without tabs. Beside `textwrap`, on its widths and words.
//!
//! ```rust
//! let line = justify(alloc, "a few words", 14)?;
//! ```
//!
//! The line is `"a   few  words"`.
#![tactic(auto)]

pub use alignment::{Alignment, align};
pub use filling::fill_justified;
pub use fitting::fitting_widths;
pub use justifying::justify;
pub use needs::{Need, needs_of};
pub use shortening::{Shortening, shorten, shorten_by, shorten_lines, shorten_lines_by};
pub use tables::{Column, Gaps, table, table_of_lines};
pub use tabs::expand_tabs;
pub use textwrap_layout::layout::Layout;
pub use textwrap_styles::carry_styles;

mod alignment;
mod filling;
mod fitting;
pub mod inner;
mod justified_lines;
mod justifying;
pub mod laws;
mod needs;
mod shortening;
mod tables;
mod tabs;
