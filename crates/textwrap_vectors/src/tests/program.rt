//! The program: what its words mean, what becomes of what it reads and writes, and what it says.
mod arguments;
mod filling;
mod plain;
mod program;
