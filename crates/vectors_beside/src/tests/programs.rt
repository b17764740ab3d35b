//! The programs `reflow`, with what it writes as a diff, the one that is installed as `textwrap`, and
//! `hyphenate`.
mod fill;
mod hyphenate;
mod reflow;
