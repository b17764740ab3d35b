//! What is read of a line.
ghost use Rattle.std.specs.Prelude.{◌≡◌, ◌≤◌, ◌&&◌, nat_eq, not, true, IfOk};
ghost use Rattle.std.specs.List.{list_any, starts_with};
ghost use Rattle.textwrap_marked_lines.specs.Columns.{depth_view};
ghost use Rattle.textwrap_marked_lines.specs.Lines.{begins_code, is_chosen, is_deep, is_ended, is_title};
ghost use Rattle.textwrap_marked_lines.specs.Lines.{line_from_words, line_as_read, is_return};
ghost use Rattle.textwrap_marked_lines.specs.Lines.{marked_line_view, stands_apart, state_view};
ghost use Rattle.textwrap_marked_lines.specs.Lines.{without_returns};
ghost use Rattle.textwrap_marks.specs.Signs.{ArePlain, closes_block};
ghost use Rattle.textwrap_marks.specs.Words.{spaced_words};

use crate::columns::{Depth, depth_of, is_deeper};
use crate::hanging::{hanging_margin, has_opening, push_hanging_bullets, words_between};
pub use crate::line::MarkedLine;
use crate::prefixes::{PrefixEnds, prefix_ends};
use crate::states::ReadState;
use std::alloc::{AllocError, Global};
use textwrap_marks::options::ReflowOptions;
use textwrap_marks::signs::{
    begins_text, closes_block, closes_early, first_word, has_column_byte, has_columns, is_key,
    is_rule, last_white, last_word,
};
use textwrap_marks::words::{ends_with, has_byte, split_white, split_words};
use textwrap_text::starts::starts_with;

/// The line without the carriage returns at its end.
pub fn without_returns(raw: &str) -> &str
    ensures { result.now ≡ without_returns raw.now }
{
    let bytes = raw.as_bytes();
    let mut end = bytes.len();
    while end > 0 && is_return(bytes[end - 1]) {
        end -= 1;
    }
    &raw[..end]
}

fn is_return(byte: u8) -> bool
    ensures { result ≡ is_return byte }
{
    byte == b'\r'
}

/// A line, where this is open.
pub fn read_line<'t>(
    alloc: Global,
    raw: &'t str,
    fed: bool,
    state: &ReadState,
    options: &ReflowOptions<'_>,
) -> Result<MarkedLine<'t>, AllocError>
    ensures line { IfOk result (λ line. marked_line_view line
        ≡ line_as_read options.now (state_view state.now) raw.now fed) }
    ensures plain { IfOk result (λ line. line.plain ≡ true → ArePlain (marked_line_view line).words) }
{
    let ends = prefix_ends(without_returns(raw), state.in_block, options);
    line_from(alloc, raw, fed, &ends, state, options)
}

/// A line whose prefix ends there, where this is open.
fn line_from<'t>(
    alloc: Global,
    raw: &'t str,
    fed: bool,
    ends: &PrefixEnds,
    state: &ReadState,
    options: &ReflowOptions<'_>,
) -> Result<MarkedLine<'t>, AllocError>
    requires lead { ends.now.lead ≤ ends.now.comment }
    requires comment { ends.now.comment ≤ ends.now.margin }
    requires margin { ends.now.margin ≤ ends.now.text }
    ensures line { IfOk result (λ line. marked_line_view line ≡ line_from_words options.now
        (state_view state.now) raw.now fed (spaced_words (without_returns raw.now)) ends.now) }
    ensures plain { IfOk result (λ line. line.plain ≡ true → ArePlain (marked_line_view line).words) }
{
    let line = without_returns(raw);
    let (margin, _) = split_words(line, ends.margin);
    let (prefix, text) = split_words(line, ends.text);
    let mut hanging = hanging_margin(alloc, line, ends, options.bare)?;
    let form = hanging.as_str();
    let deeper = is_deep(alloc, form, state, options)?;
    let opening = has_opening(line, ends);
    let in_block = state.in_block | opening;
    let starred = in_block & !has_byte(b'*', form.as_bytes());
    let field = is_key(first_word(text)) & (ends.margin == ends.text);
    push_hanging_bullets(&mut hanging, words_between(line, ends.margin, ends.text))?;
    let fenced = state.fence.is_some();
    let plain = !has_column_byte(line.as_bytes());
    let by_words = stands_apart(options.justify, in_block, starred, field, plain, text);
    let apart = fenced | deeper | state.prompted | by_words;
    let opens_block = stays_open(opening, text);
    let ended = is_ended(in_block, text);
    let chosen = is_chosen(margin, options);
    Ok(MarkedLine {
        raw,
        fed,
        prefix,
        hanging,
        text,
        plain,
        starred,
        opens_block,
        deeper,
        apart,
        field,
        ended,
        chosen,
    })
}

/// Whether text of Markdown so deep is code where no text stands before it behind the same marks.
fn begins_code(own: &Depth) -> bool
    ensures { result ≡ begins_code (depth_view own.now) }
{
    if own.marks.is_empty() {
        own.lead > 3
    } else {
        own.behind > 4
    }
}

/// Whether a margin is deeper than the text before.
fn is_deep(
    alloc: Global,
    margin: &str,
    state: &ReadState,
    options: &ReflowOptions<'_>,
) -> Result<bool, AllocError>
    ensures { IfOk result (λ deep. deep ≡ is_deep options.now (state_view state.now) margin.now) }
{
    if options.indented {
        return Ok(false);
    }
    let own = depth_of(alloc, margin)?;
    let begins = options.markdown && begins_code(&own);
    match &state.before {
        Some(before) => {
            let other = before.marks.as_str() != own.marks.as_str();
            Ok(is_deeper(state.by, before, &own) || begins && other)
        }
        None => Ok(begins),
    }
}

/// Whether a block comment that opens before a text stays open behind it.
fn stays_open(opening: bool, text: &str) -> bool
    ensures { result ≡ (opening && not (closes_block (spaced_words text.now))) }
{
    opening && !closes_block(text)
}

/// Whether a line stands apart by its text alone.
fn stands_apart(
    justify: bool,
    in_block: bool,
    starred: bool,
    field: bool,
    plain: bool,
    text: &str,
) -> bool
    requires { plain ≡ true → ArePlain (spaced_words text.now) }
    ensures { result ≡ stands_apart justify in_block starred field (spaced_words text.now) }
{
    !begins_text(starred, first_word(text))
        || has_columns(justify, plain, text)
        || field && has_byte(b'-', first_word(text).as_bytes())
        || in_block && closes_block(text) && closes_early(text)
}

/// Whether the line behind this text begins another paragraph: it ends in a backslash or two blanks,
/// or ends a block comment.
fn is_ended(in_block: bool, text: &str) -> bool
    ensures { result ≡ is_ended in_block (spaced_words text.now) }
{
    ends_with(last_word(text), "\\")
        || ends_with(last_white(text), "  ")
        || in_block && closes_block(text)
}

/// Whether a paragraph behind this margin is filled.
fn is_chosen(margin: &str, options: &ReflowOptions<'_>) -> bool
    ensures { result ≡ is_chosen options.now margin.now }
{
    let (_, behind) = split_white(margin);
    options.prefixes.is_empty() | begins_with_any(behind, options.prefixes)
}

/// Whether a text begins with one of these.
fn begins_with_any(text: &str, prefixes: &[&str]) -> bool
    ensures { result ≡ list_any (λ prefix. starts_with nat_eq text.now prefix.now) prefixes.now }
{
    prefixes.iter().any(|prefix| starts_with(text, prefix))
}

/// Whether a line is a title: the next one is a rule behind its hanging form.
pub fn is_title(line: &MarkedLine<'_>, next: &MarkedLine<'_>) -> bool
    ensures { result ≡ is_title (marked_line_view line.now) (marked_line_view next.now) }
{
    is_rule(next.text) & (next.prefix == line.hanging.as_str())
}
