//! The lines of a text that are not empty.
ghost use Rattle.std.specs.Prelude.{List, filter};
ghost use Rattle.std.specs.Iterator.{YieldsFirstBy, item_count};
ghost use Rattle.textwrap_text.specs.LineViews.{ended_line_view};
ghost use Rattle.textwrap_text.specs.TextLines.{EndedLine};
ghost use Rattle.textwrap.specs.Refilling.{has_text};

use std::marker::Model;
use textwrap_text::text_lines::{Lines, TextLine};

/// An iterator over the lines to come, without the empty ones. To contracts it is the list of them.
#[derive(Drop)]
pub(crate) struct NonEmptyLines<'t>(pub(crate) Lines<'t>);

impl<'t> Model for NonEmptyLines<'t> {
    ghost Value = { List EndedLine };

    ghost view = { λ lines. filter has_text lines.0 };
}

impl<'t> Iterator for NonEmptyLines<'t> {
    type Item = TextLine<'t>;

    ghost next_gives = { YieldsFirstBy ended_line_view (λ lines. lines) };

    ghost remaining = { item_count (λ lines. lines) };

    fn next(&mut self) -> Option<TextLine<'t>> {
        while let Some(line) = self.0.next() {
            if !line.text.is_empty() {
                return Some(line);
            }
        }
        None
    }
}
