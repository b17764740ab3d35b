//! The version of the library.

/// The version of the library: 10,000 times its first number, 100 times its second, and its third.
pub const LIBRARY_VERSION: u32 = 20_000;
