//! The frame of a paragraph: what a call measures once for all its paragraphs.
ghost use Rattle.std.specs.Prelude.{◌≡◌, [], if◌then◌else◌, false, true};
ghost use Rattle.textwrap_layout.specs.Layout.{break_limit, front_of};
ghost use Rattle.textwrap_layout.specs.Options.{layout_view};
ghost use Rattle.textwrap_layout.specs.Paragraph.{first_width, indent_of, later_width};
ghost use Rattle.textwrap_words.specs.Pieces.{empty_front};

use crate::layout::Layout;
use textwrap_words::words::display_width;

/// The widths and the indents of a paragraph's lines, and where its words are broken. They come from
/// its options, so a call measures the indents once, however many paragraphs it has.
#[derive(Clone, Copy)]
pub struct Frame<'a> {
    /// The options.
    pub layout: Layout<'a>,
    /// Whether a line stands before the paragraph.
    pub is_later: bool,
    /// What is printed before its first line.
    pub indent: &'a str,
    /// The columns that its first line is divided for.
    pub first_columns: usize,
    /// Those that its other lines are divided for.
    pub later_columns: usize,
    /// The columns past which a word is broken.
    pub limit: usize,
    /// Whether a piece without text stands before its words: where the first word has no room beside
    /// the indent, the line is the indent alone.
    pub has_front: bool,
    ghost indented: { indent.now ≡ indent_of (layout_view layout) is_later },
    ghost first: { first_columns ≡ first_width (layout_view layout) is_later },
    ghost later: { later_columns ≡ later_width (layout_view layout) },
    ghost limited: { limit ≡ break_limit (layout_view layout) },
    ghost front: { (if has_front then empty_front else []) ≡ front_of (layout_view layout) },
}

impl<'a> Frame<'a> {
    /// That of a text's first paragraph.
    pub fn of(layout: Layout<'a>) -> Frame<'a>
        ensures layout { result.layout ≡ layout.entry }
        ensures first { result.is_later ≡ false }
    {
        let width = layout.width;
        let later_columns = width.saturating_sub(display_width(layout.subsequent_indent));
        Frame {
            layout,
            is_later: false,
            indent: layout.initial_indent,
            first_columns: width.saturating_sub(display_width(layout.initial_indent)),
            later_columns,
            // No text has as many columns as the greatest number, so words stay whole.
            limit: if layout.break_words {
                later_columns
            } else {
                usize::MAX
            },
            has_front: layout.break_words && !layout.initial_indent.is_empty(),
        }
    }

    /// That of a paragraph, where `is_later` says that a line stands before it.
    pub fn at(layout: Layout<'a>, is_later: bool) -> Frame<'a>
        ensures layout { result.layout ≡ layout.entry }
        ensures later { result.is_later ≡ is_later }
    {
        let first = Frame::of(layout);
        if is_later { first.later() } else { first }
    }

    /// That of a paragraph which a line stands before.
    pub fn later(self) -> Frame<'a>
        ensures layout { result.layout ≡ self.entry.layout }
        ensures later { result.is_later ≡ true }
    {
        let layout = self.layout;
        Frame {
            layout,
            is_later: true,
            indent: layout.subsequent_indent,
            first_columns: if layout.even_paragraphs {
                self.later_columns
            } else {
                self.first_columns
            },
            later_columns: self.later_columns,
            limit: self.limit,
            has_front: self.has_front,
        }
    }
}
