//! Callers that show how the library is used, and the tests of the crates beside `textwrap` that are no
//! rows of `textwrap_rows`: of lines for display, of texts with marks, of Unicode line breaking, of
//! hyphenation, of these callers, of the calls for C, and of the programs.
#![tactic(auto)]

#[cfg(test)]
mod tests;
#[cfg(test)]
mod uses;
