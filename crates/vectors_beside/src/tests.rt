//! In tables by what they are about. Each row has the rule that it shows.
mod balance;
mod breaks;
mod calls;
mod display;
mod hyphenated;
mod hyphens;
mod marked;
mod plain;
mod programs;
mod refusals;
mod uses;
