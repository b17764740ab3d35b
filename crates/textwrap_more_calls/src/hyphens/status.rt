//! What a call on hyphenation answers beside the statuses of `textwrap_calls`.

/// A line of a dictionary is wrong. The first one that is wrong is reported.
pub const WRONG_PATTERNS: u32 = 7;

/// The numbers that are handed over as a dictionary are none of this version, or were damaged. Nothing
/// was read from them.
pub const DAMAGED_TABLE: u32 = 8;
