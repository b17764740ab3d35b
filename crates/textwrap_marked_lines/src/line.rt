//! What is kept of a line that was read.

/// A line, and what is read of it.
#[derive(Drop)]
pub struct MarkedLine<'t> {
    /// The line with the carriage returns at its end.
    pub raw: &'t str,
    /// Whether a line feed follows.
    pub fed: bool,
    /// What stands before its text: white, a comment mark, quote marks and bullets.
    pub prefix: &'t str,
    /// What the later lines of a paragraph begin with.
    pub hanging: String,
    /// Its text behind that.
    pub text: &'t str,
    /// Whether its text has no byte of those of which each word that no paragraph contains has
    /// one.
    pub plain: bool,
    /// Whether it is, or begins, in a block comment without a mark of its own here.
    pub starred: bool,
    /// Whether it leaves a block comment open.
    pub opens_block: bool,
    /// Whether it is deeper than the text before.
    pub deeper: bool,
    /// Whether it stays, and belongs to no paragraph.
    pub apart: bool,
    /// Whether it begins with a key, and has no bullet.
    pub field: bool,
    /// Whether the next line begins another paragraph.
    pub ended: bool,
    /// Whether its marks are among those that are filled.
    pub chosen: bool,
}
