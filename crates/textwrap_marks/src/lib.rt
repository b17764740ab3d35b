//! What is read of the words of a line in which marks stand before them: which are marks, and the signs
//! by which a reader tells running text from all else.
#![tactic(auto)]

pub mod marks;
pub mod options;
pub mod signs;
pub mod words;
