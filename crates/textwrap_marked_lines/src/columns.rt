//! Columns with tabs, and how deep text stands.
ghost use Rattle.std.specs.Prelude.{◌≡◌, ◌-◌, IfOk};
ghost use Rattle.textwrap_marked_lines.specs.Columns.{text_columns, depth_of, depth_view, is_deeper};
ghost use Rattle.textwrap_marked_lines.specs.Columns.{marks_of, next_stop, plus_columns};
ghost use Rattle.textwrap_marked_lines.specs.Columns.{without_final_white};
ghost use Rattle.textwrap_marks.specs.Words.{is_white};

use std::alloc::{AllocError, Global};
use textwrap_marks::words::{is_white, split_at, split_white};
use textwrap_words::words::display_width;

/// The columns of a text that begins a line, in which a tab reaches the next column that eight divides.
pub fn columns(text: &str) -> usize
    ensures { result ≡ text_columns text.now }
{
    let (part, mut rest) = split_at(text, '\t');
    let mut at = display_width(part);
    while let Some(text) = rest {
        let (part, after) = split_at(text, '\t');
        at = plus_columns(next_stop(at), display_width(part));
        rest = after;
    }
    at
}

fn plus_columns(at: usize, more: usize) -> usize
    ensures { result ≡ plus_columns at more }
{
    at.saturating_add(more)
}

fn next_stop(at: usize) -> usize
    ensures { result ≡ next_stop at }
{
    plus_columns(at, 8 - at % 8)
}

/// The text without the white at its end.
pub fn without_final_white(text: &str) -> &str
    ensures { result.now ≡ without_final_white text.now }
{
    let bytes = text.as_bytes();
    let mut end = bytes.len();
    while end > 0 && is_white(bytes[end - 1]) {
        end -= 1;
    }
    &text[..end]
}

/// A prefix without the white at both ends.
pub fn marks_of(prefix: &str) -> &str
    ensures { result.now ≡ marks_of prefix.now }
{
    let (_, behind) = split_white(prefix);
    without_final_white(behind)
}

/// The marks of a prefix, and the columns of the white before and behind them.
#[derive(Drop)]
pub struct Depth {
    pub marks: String,
    pub lead: usize,
    pub behind: usize,
}

pub fn depth_of(alloc: Global, prefix: &str) -> Result<Depth, AllocError>
    ensures { IfOk result (λ depth. depth_view depth ≡ depth_of prefix.now) }
{
    // As most lines of prose have none.
    if prefix.is_empty() {
        return Ok(Depth {
            marks: String::new(alloc),
            lead: 0,
            behind: 0,
        });
    }
    let (white, _) = split_white(prefix);
    let marks = String::from_str(alloc, marks_of(prefix))?;
    Ok(Depth {
        marks,
        lead: columns(white),
        behind: columns(prefix).saturating_sub(columns(without_final_white(prefix))),
    })
}

/// Whether a margin has so many columns of white more than the text before.
pub fn is_deeper(by: usize, before: &Depth, own: &Depth) -> bool
    ensures { result ≡ is_deeper by (depth_view before.now) (depth_view own.now) }
{
    if own.marks.is_empty() {
        own.lead.saturating_sub(before.lead) >= by
    } else {
        (own.marks.as_str() == before.marks.as_str())
            & (own.lead == before.lead)
            & (own.behind.saturating_sub(before.behind) >= by)
    }
}
