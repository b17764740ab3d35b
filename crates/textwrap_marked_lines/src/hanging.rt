//! The hanging form of a prefix, which stands before the later lines.
ghost use Rattle.std.specs.Prelude.{◌≡◌, ◌≤◌, ◌++◌, slice_range, IfOk, OnOk, string_bytes};
ghost use Rattle.std.specs.List.{list_any};
ghost use Rattle.textwrap_marks.specs.Marks.{is_comment_opening};
ghost use Rattle.textwrap_marks.specs.Words.{spaced_words};
ghost use Rattle.textwrap_marked_lines.specs.Hanging.{blanks, hanging_bullets, hanging_comments};
ghost use Rattle.textwrap_marked_lines.specs.Hanging.{hanging_margin, hanging_mark, has_opening};

use crate::prefixes::PrefixEnds;
use std::alloc::{AllocError, Global};
use textwrap_marks::marks::is_opening;
use textwrap_marks::words::{SpacedWords, split_words};
use textwrap_words::words::display_width;

fn push_blanks(text: &mut String, count: usize) -> Result<(), AllocError>
    ensures { OnOk result (string_bytes text.new ≡ string_bytes text.old ++ blanks count) }
{
    let mut len = 0;
    while len < count {
        text.push_str(" ")?;
        len += 1;
    }
    Ok(())
}

/// Adds the hanging form of a comment mark.
fn push_hanging_mark(text: &mut String, word: &str, bare: bool) -> Result<(), AllocError>
    ensures { OnOk result (string_bytes text.new
        ≡ string_bytes text.old ++ hanging_mark bare word.now) }
{
    if !is_opening(word) {
        text.push_str(word)
    } else if bare {
        push_blanks(text, display_width(word))
    } else {
        text.push_str(" *")
    }
}

fn push_hanging_comments(output: &mut String, text: &str, bare: bool) -> Result<(), AllocError>
    ensures { OnOk result (string_bytes output.new
        ≡ string_bytes output.old ++ hanging_comments bare (spaced_words text.now)) }
{
    for word in SpacedWords::of(text) {
        push_hanging_mark(output, word.word, bare)?;
        output.push_str(word.white)?;
    }
    Ok(())
}

/// Adds the hanging form of bullets: blanks of as many columns, each with its white.
pub fn push_hanging_bullets(output: &mut String, text: &str) -> Result<(), AllocError>
    ensures { OnOk result (string_bytes output.new
        ≡ string_bytes output.old ++ hanging_bullets (spaced_words text.now)) }
{
    for word in SpacedWords::of(text) {
        push_blanks(output, display_width(word.word))?;
        output.push_str(word.white)?;
    }
    Ok(())
}

/// The text of the words of a line from one place to another, counted in words.
pub fn words_between(line: &str, start: usize, end: usize) -> &str
    requires { start ≤ end }
    ensures { spaced_words result.now ≡ slice_range (spaced_words line.now) start end }
{
    let (_, behind) = split_words(line, start);
    let (words, _) = split_words(behind, end - start);
    words
}

/// The hanging form of what comes before the bullets.
pub fn hanging_margin(
    alloc: Global,
    line: &str,
    ends: &PrefixEnds,
    bare: bool,
) -> Result<String, AllocError>
    requires lead { ends.now.lead ≤ ends.now.comment }
    requires comment { ends.now.comment ≤ ends.now.margin }
    ensures { IfOk result (λ text.
        string_bytes text ≡ hanging_margin bare ends.now (spaced_words line.now)) }
{
    let (lead, _) = split_words(line, ends.lead);
    let mut text = String::from_str(alloc, lead)?;
    push_hanging_comments(
        &mut text,
        words_between(line, ends.lead, ends.comment),
        bare,
    )?;
    text.push_str(words_between(line, ends.comment, ends.margin))?;
    Ok(text)
}

fn any_opening(text: &str) -> bool
    ensures { result ≡ list_any (λ w. is_comment_opening w.word) (spaced_words text.now) }
{
    for word in SpacedWords::of(text) {
        if is_opening(word.word) {
            return true;
        }
    }
    false
}

/// Whether the comment mark is an opening.
pub fn has_opening(line: &str, ends: &PrefixEnds) -> bool
    requires { ends.now.lead ≤ ends.now.comment }
    ensures { result ≡ has_opening ends.now (spaced_words line.now) }
{
    any_opening(words_between(line, ends.lead, ends.comment))
}
