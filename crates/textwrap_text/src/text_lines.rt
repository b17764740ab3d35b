//! The lines of a text, each with its ending.
ghost use Rattle.std.specs.Prelude.{◌≡◌, ◌++◌, Some};
ghost use Rattle.textwrap_text.specs.TextLines.{bytes_at_end, line_before_feed};

use crate::line_ending::LineEnding;
use crate::line_feeds::split_at_line_feed;
use std::marker::Model;

/// A line of a text.
#[derive(Clone, Copy, Debug)]
pub struct TextLine<'t> {
    /// Its text, without what ends it.
    pub text: &'t str,
    /// What ends it. Only the last line of a text may have no ending.
    pub ending: Option<LineEnding>,
    /// The line as it stands in the text, with its ending.
    pub whole: &'t str,
    ghost ended: { whole.now ≡ text.now ++ bytes_at_end ending },
}

/// An iterator over the lines of a text. To contracts it is the list of the lines to come. The lines
/// of `"a\n\nb"` are `"a"`, `""` and `"b"`, of which the last has no ending; the empty text has no
/// lines.
#[derive(Drop)]
pub struct Lines<'t>(&'t str);

impl<'t> Model for Lines<'t> {
    ghost use Rattle.std.specs.Prelude.{List};
    ghost use Rattle.textwrap_text.specs.TextLines.{EndedLine, ended_lines};

    ghost Value = { List EndedLine };

    ghost view = { λ lines. ended_lines lines.0.now };
}

impl<'t> Lines<'t> {
    ghost use Rattle.std.specs.Prelude.{◌<◌, ◌∷◌, length};
    ghost use Rattle.textwrap_text.specs.LineViews.{ended_line_view};
    ghost use Rattle.textwrap_text.specs.TextLines.{ended_lines};

    /// The lines of this text, from the first on.
    pub fn of(text: &'t str) -> Lines<'t>
        ensures { result ≡ ended_lines text.now }
    {
        Lines(text)
    }

    /// The first line of a text, and what follows it.
    #[inline(always)]
    fn first(text: &str) -> (TextLine<'_>, &str)
        requires { 0 < length text.now }
        ensures { ended_lines text.now ≡ ended_line_view result.0 ∷ ended_lines result.1.now }
    {
        let Some((part, rest)) = split_at_line_feed(text) else {
            let line = TextLine {
                text,
                ending: None,
                whole: text,
            };
            return (line, "");
        };
        let whole = &text[..part.len() + 1];
        let (text, ending) = before_line_feed(part);
        let line = TextLine {
            text,
            ending: Some(ending),
            whole,
        };
        (line, rest)
    }
}

/// The line that is this text before a line feed, and its ending.
#[inline(always)]
fn before_line_feed(part: &str) -> (&str, LineEnding)
    ensures line { (line_before_feed part.now).line ≡ result.0.now }
    ensures ending { (line_before_feed part.now).ending ≡ Some result.1 }
{
    match part.as_bytes() {
        [.., b'\r'] => (&part[..part.len() - 1], LineEnding::CRLF),
        _ => (part, LineEnding::LF),
    }
}

impl<'t> Iterator for Lines<'t> {
    ghost use Rattle.std.specs.Iterator.{YieldsFirstBy, item_count};
    ghost use Rattle.textwrap_text.specs.LineViews.{ended_line_view};

    type Item = TextLine<'t>;

    ghost next_gives = { YieldsFirstBy ended_line_view (λ lines. lines) };

    ghost remaining = { item_count (λ lines. lines) };

    // In a loop it is a fifth of the instructions of a call, which returns six words by memory.
    #[inline(always)]
    fn next(&mut self) -> Option<TextLine<'t>> {
        if self.0.is_empty() {
            return None;
        }
        let (line, rest) = Lines::first(self.0);
        self.0 = rest;
        Some(line)
    }
}
