//! Where a line of text may or must end, by the Unicode line breaking algorithm
//! ([UAX #14](https://www.unicode.org/reports/tr14/)): beside `textwrap`, whose own separator cuts
//! at blanks.
//!
//! The rules are those of Unicode 15.0, in the default form, in which numbers are kept together by
//! pairs of characters, or with the expression of numbers ([`Numbers`]). The classes of characters are those of the toolchain's tables, which are of
//! a later version; classes that the rules do not know are taken as what their characters were.
#![tactic(auto)]

mod before;
pub mod breaks;
pub mod cuts;
pub mod inner;
pub mod laws;
mod numbers;
mod pairs;
mod rules;

pub use breaks::{LineBreak, LineBreaks, line_breaks, line_breaks_by};
pub use cuts::{unicode_cuts, unicode_cuts_by_expression};
pub use numbers::Numbers;
