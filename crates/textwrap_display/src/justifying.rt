//! A line whose gaps between words are widened up to a width.
ghost use Rattle.std.specs.Prelude.{◌≡◌, ◌≢◌, ◌-◌, ◌/◌, ◌%◌, ◌++◌, length, drop, string_bytes};
ghost use Rattle.std.specs.Prelude.{take, IfOk, MatchOption, OnOk};
ghost use Rattle.textwrap_display.specs.Justifying.{gaps, indent_len, justified, line_words};
ghost use Rattle.textwrap_display.specs.Justifying.{widened_words};
ghost use Rattle.textwrap_layout.specs.Paragraph.{Built, Slice, line_bytes, line_view};
ghost use Rattle.textwrap_words.specs.Words.{tiled, words_of};

use std::alloc::{AllocError, Allocator};
use std::borrow::CowStr;
use textwrap::words::display_width;
use textwrap_text::blanks::{blanks_end, push_blanks};
use textwrap_text::chunks::Chunks;

/// The line with its gaps between words widened, so that it is as wide as the width, which is in
/// columns. Each gap gets the same number of blanks more, and the first ones get one more of what is
/// left over. Blanks before the first word and after the last are no gaps, and stay.
///
/// In 14 columns `"a few words"` is `"a   few  words"`. A line without gaps stays as it is, and so
/// does one that is as wide or wider; these are not copied.
///
/// # Errors
/// Out of memory, also where the text would be longer than 64 bits can say.
pub fn justify<'t, A: Allocator>(
    alloc: A,
    line: &'t str,
    width: usize,
) -> Result<CowStr<'t, A>, AllocError>
    ensures { IfOk result (λ text. line_view text ≡ justified width line.now) }
{
    let Some((spare, gaps)) = spare_and_gaps(line, width) else {
        return Ok(CowStr::Borrowed(line));
    };
    let mut text = String::new(alloc);
    push_spread(&mut text, line, spare, gaps)?;
    Ok(CowStr::Owned(text))
}

/// Adds the line to the text, as [`justify`] makes it.
///
/// # Errors
/// Those of [`justify`].
pub(crate) fn push_justified<A: Allocator>(
    text: &mut String<A>,
    line: &str,
    width: usize,
) -> Result<(), AllocError>
    ensures { OnOk result (string_bytes text.new
        ≡ string_bytes text.old ++ line_bytes (justified width line.now)) }
{
    match spare_and_gaps(line, width) {
        Some((spare, gaps)) => push_spread(text, line, spare, gaps),
        None => text.push_str(line),
    }
}

/// How many columns the line falls short of the width, and over how many gaps these are spread;
/// nothing of a line that stays as it is.
fn spare_and_gaps(line: &str, width: usize) -> Option<(usize, usize)>
    ensures { MatchOption result (justified width line.now ≡ Slice line.now)
        (λ (spare, gaps). (gaps ≢ 0) × (justified width line.now ≡ Built
        (take (indent_len line.now) line.now
        ++ tiled (widened_words (spare / gaps) (spare % gaps) (line_words line.now))))) }
{
    let spare = width.saturating_sub(display_width(line));
    let (_indent, rest) = split_indent(line);
    let gaps = count_gaps(rest);
    if spare == 0 || gaps == 0 {
        return None;
    }
    Some((spare, gaps))
}

/// Adds the line to the text, with so many blanks more in so many gaps.
fn push_spread<A: Allocator>(
    text: &mut String<A>,
    line: &str,
    spare: usize,
    gaps: usize,
) -> Result<(), AllocError>
    requires { gaps ≢ 0 }
    ensures { OnOk result (string_bytes text.new ≡ string_bytes text.old
        ++ (take (indent_len line.now) line.now
        ++ tiled (widened_words (spare / gaps) (spare % gaps) (line_words line.now)))) }
{
    // Reserved before a blank is written, so that a text that fits no memory is refused at once.
    let len = line.len().checked_add(spare).ok_or(AllocError)?;
    text.reserve(len)?;
    let (indent, rest) = split_indent(line);
    text.push_str(indent)?;
    push_widened(text, rest, spare / gaps, spare % gaps)
}

/// The blanks before the first word, and what follows them.
pub(crate) fn split_indent(line: &str) -> (&str, &str)
    ensures indent { result.0.now ≡ take (indent_len line.now) line.now }
    ensures rest { result.1.now ≡ drop (indent_len line.now) line.now }
{
    line.split_at(blanks_end(line.as_bytes(), 0))
}

/// How many gaps between words a text has that begins with a word.
fn count_gaps(text: &str) -> usize
    ensures { result ≡ length (words_of text.now) - 1 }
{
    let mut words = 0_usize;
    for _word in Chunks::of(text) {
        words += 1;
    }
    words.saturating_sub(1)
}

/// Adds the words of a text, and blanks after all but the last: `each`, and one more after the first
/// `extra` of them.
fn push_widened<A: Allocator>(
    text: &mut String<A>,
    line: &str,
    each: usize,
    extra: usize,
) -> Result<(), AllocError>
    ensures { OnOk result (string_bytes text.new
        ≡ string_bytes text.old ++ tiled (widened_words each extra (words_of line.now))) }
{
    let mut words = Chunks::of(line);
    let Some(first) = words.next() else {
        return Ok(());
    };
    text.push_str(first)?;
    let mut left = extra;
    for word in words {
        push_blanks(text, each)?;
        push_blanks(text, left.min(1))?;
        left = left.saturating_sub(1);
        text.push_str(word)?;
    }
    Ok(())
}
