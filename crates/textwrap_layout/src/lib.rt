//! How a text is laid out: the options, what a call measures once for all its paragraphs, the pieces of a
//! paragraph, and where its lines go as they are found.
#![tactic(auto)]

pub mod built_in;
pub mod frame;
pub mod layout;
pub mod lent_places;
pub mod line_bounds;
pub mod line_sinks;
pub mod options;
pub mod paragraph_pieces;
pub mod parts;
pub mod pieces;
pub mod places;
pub mod printable_cuts;
mod written;
