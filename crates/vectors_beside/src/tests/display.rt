//! Long lines for display, and what the tests of refused memory make of lines. What short lines become
//! is told by the rows of `textwrap_rows`.
mod attributes;
mod filling;
mod fitting;
mod shortening;
mod styles;
mod tables;
mod widening;

use Change::{Aligned, Cut, Expanded, Justified, Shortened};
pub use filling::is_filled;
pub use fitting::is_fitted;
pub use shortening::are_shortened;
use std::alloc::{AllocError, Allocator};
use std::borrow::CowStr;
pub use styles::are_carried;
pub use tables::is_table;
use textwrap_display::{Alignment, Shortening, align, expand_tabs, justify, shorten, shorten_by};

/// A call that makes one line of another.
#[derive(Clone, Copy)]
pub enum Change<'p> {
    /// `shorten`, with this placeholder.
    Shortened(&'p str),
    /// `shorten_by`, with this placeholder, where words may be cut.
    Cut(&'p str),
    /// `align`.
    Aligned(Alignment),
    /// `justify`.
    Justified,
    /// `expand_tabs`, whose stop is the number of columns.
    Expanded,
}

/// What the call makes of a line at so many columns.
pub fn changed<'l, A: Allocator>(
    alloc: A,
    change: Change<'_>,
    line: &'l str,
    width: usize,
) -> Result<CowStr<'l, A>, AllocError> {
    match change {
        Shortened(placeholder) => shorten(alloc, line, width, placeholder),
        Cut(placeholder) => shorten_by(
            alloc,
            line,
            &Shortening::new(width, placeholder).break_words(true),
        ),
        Aligned(alignment) => align(alloc, line, width, alignment),
        Justified => justify(alloc, line, width),
        Expanded => expand_tabs(alloc, line, width),
    }
}
