//! What a call answers.

/// The answer is written.
pub const DONE: u32 = 0;

/// A text that was given is not UTF-8.
pub const NOT_UTF8: u32 = 1;

/// Memory ran out.
pub const OUT_OF_MEMORY: u32 = 2;

/// The room is shorter than the answer, whose length is reported.
pub const TOO_SMALL: u32 = 3;

/// The options are of another version, a number that was given means nothing, or
/// `textwrap_wrap_columns` is to make no columns.
pub const UNKNOWN_OPTIONS: u32 = 4;

/// A number needs more than 128 bits: the sum of all widths, or the cost of some first fragments.
pub const OVERFLOW: u32 = 5;

/// Offsets that were given do not increase, or are no places to cut at.
pub const WRONG_PLACES: u32 = 6;
