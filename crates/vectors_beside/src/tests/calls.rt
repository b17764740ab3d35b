//! The calls for C: what they write, what they answer, and what they leave as it was. Those that write
//! alike are cases of one enum, and their rows stand in tables by what they are about.
mod alone;
mod bounds;
mod display;
mod fragments;
mod hyphens;
mod known;
mod large;
mod large_lists;
mod lines;
mod pieces;
mod places;
mod plain;
mod reflowed;
mod steps;
mod text_steps;
mod texts;
