//! Lines that are cut, and end in a placeholder.
ghost use Rattle.std.specs.Prelude.{◌≡◌, ◌↔◌, ℕ, false, true, ◌+◌, ◌++◌, ◌<◌, ◌≤◌, [], List};
ghost use Rattle.std.specs.Prelude.{length, map, string_bytes, IfOk, OnOk};
ghost use Rattle.textwrap_display.specs.Shortening.{AreShortened, IsCut, IsKeptLength, IsKeptBeginning};
ghost use Rattle.textwrap_display.specs.Shortening.{IsShortened, word_width};
ghost use Rattle.textwrap_styles.specs.Styles.{texts_of};
ghost use Rattle.textwrap_layout.specs.Paragraph.{Built, Slice, line_view};
ghost use Rattle.textwrap_text.specs.Units.{text_width};
ghost use Rattle.textwrap_text.specs.declared.escapes.State.TheVariants.{Text};

use crate::justifying::split_indent;
use std::alloc::{AllocError, Allocator};
use std::borrow::CowStr;
use textwrap::words::display_width;
use textwrap_styles::inner::closing_of;
use textwrap_text::characters::{Characters, columns};
use textwrap_text::escapes::State;

/// How lines are cut that are too wide.
#[derive(Clone, Copy, Debug)]
pub struct Shortening<'p> {
    /// How many columns a line may take.
    pub width: usize,
    /// What a line that was cut ends in.
    pub placeholder: &'p str,
    /// Whether a word is cut between its characters where it is wider than what the placeholder
    /// leaves of the width.
    pub break_words: bool,
}

impl<'p> Shortening<'p> {
    /// To so many columns, with this placeholder. No word is cut.
    pub fn new(width: usize, placeholder: &'p str) -> Self
        ensures width { result.width ≡ width }
        ensures placeholder { result.placeholder.now ≡ placeholder.now }
        ensures break_words { result.break_words ≡ false }
    {
        Shortening {
            width,
            placeholder,
            break_words: false,
        }
    }

    /// The same, with words cut or not that are wider than what the placeholder leaves of the
    /// width.
    pub fn break_words(self, break_words: bool) -> Self
        ensures { result ≡ record self.entry { break_words = break_words } }
    {
        Shortening {
            break_words,
            ..self
        }
    }
}

/// The lines, at most so many, as [`shorten_lines_by`] gives them where no word is cut.
///
/// # Errors
/// Out of memory, also where the cut line would be longer than 64 bits can say.
pub fn shorten_lines<'l, A: Allocator + Copy>(
    alloc: A,
    lines: &'l [CowStr<'_, A>],
    most: usize,
    width: usize,
    placeholder: &str,
) -> Result<Vec<CowStr<'l, A>, A>, AllocError>
    ensures none { most ≡ 0 → IfOk result (λ short. map line_view short.items ≡ []) }
    ensures whole { length lines.now ≤ most
        → IfOk result (λ short. map line_view short.items ≡ map Slice (texts_of lines.now)) }
    ensures cut { 0 < most → most < length lines.now
        → IfOk result (λ short. AreShortened false most width placeholder.now
        (texts_of lines.now) (map line_view short.items)) }
{
    shorten_lines_by(alloc, lines, most, &Shortening::new(width, placeholder))
}

/// The lines, at most so many. Where some are left out, the last one that is not ends in the
/// placeholder: it is cut as [`shorten_by`] cuts a line that is too wide, or, where there is room
/// for both, stands before the placeholder whole, but for blanks at its end. The other lines stay
/// as they are, and are not copied.
///
/// Of `"one"`, `"two three"` and `"four"`, two at most in 8 columns are `"one"` and `"two .."`, where
/// the placeholder is `" .."`. With `most` 0 there are no lines.
///
/// # Errors
/// Out of memory, also where the cut line would be longer than 64 bits can say.
pub fn shorten_lines_by<'l, A: Allocator + Copy>(
    alloc: A,
    lines: &'l [CowStr<'_, A>],
    most: usize,
    shortening: &Shortening<'_>,
) -> Result<Vec<CowStr<'l, A>, A>, AllocError>
    ensures none { most ≡ 0 → IfOk result (λ short. map line_view short.items ≡ []) }
    ensures whole { length lines.now ≤ most
        → IfOk result (λ short. map line_view short.items ≡ map Slice (texts_of lines.now)) }
    ensures cut { 0 < most → most < length lines.now
        → IfOk result (λ short. AreShortened shortening.now.break_words most shortening.now.width
        shortening.now.placeholder.now (texts_of lines.now) (map line_view short.items)) }
{
    let mut short = Vec::with_capacity(alloc, most.min(lines.len()))?;
    if lines.len() <= most {
        push_whole(&mut short, lines)?;
    } else if let Some(whole) = most.checked_sub(1) {
        push_whole(&mut short, &lines[..whole])?;
        let last = shortened(alloc, &lines[whole], shortening)?;
        short.push(CowStr::Owned(last))?;
    }
    Ok(short)
}

/// Adds lines as they are, borrowed.
fn push_whole<'l, A: Allocator>(
    short: &mut Vec<CowStr<'l, A>, A>,
    lines: &'l [CowStr<'_, A>],
) -> Result<(), AllocError>
    ensures { OnOk result (map line_view short.new.items
        ≡ map line_view short.old.items ++ map Slice (texts_of lines.now)) }
{
    for line in lines {
        short.push(CowStr::Borrowed(line.as_str()))?;
    }
    Ok(())
}

/// A line that is wider than the width, cut so that it ends in the placeholder, as [`shorten_by`]
/// cuts it where no word is cut: in 9 columns `"Hello world"` is `"Hello ..."`, where the
/// placeholder is `" ..."`.
///
/// # Errors
/// Out of memory, also where the text would be longer than 64 bits can say.
pub fn shorten<'t, A: Allocator>(
    alloc: A,
    line: &'t str,
    width: usize,
    placeholder: &str,
) -> Result<CowStr<'t, A>, AllocError>
    ensures whole { text_width line.now ≤ width
        → IfOk result (λ short. line_view short ≡ Slice line.now) }
    ensures cut { width < text_width line.now
        → IfOk result (λ short.
        IsShortened false width placeholder.now line.now (line_view short)) }
{
    shorten_by(alloc, line, &Shortening::new(width, placeholder))
}

/// A line that is wider than the width, cut so that it ends in the placeholder. The width is in
/// columns, as [`display_width`] measures them.
///
/// The line is cut before a blank that follows no blank, as late as leaves room for the
/// placeholder, and never inside an escape sequence: in 9 columns `"Hello world"` is `"Hello ..."`,
/// where that is `" ..."`. If no place leaves room, the placeholder stands alone, even where it is
/// wider than the width. A line that is not wider than the width stays as it is, and is not copied.
///
/// A word is cut only if `break_words` says so, and the first one that is left out is by itself
/// wider than what the placeholder leaves of the width. Then as many of its characters are kept as
/// fit: in 10 columns `"a Supercalifragilistic"` is `"a Superc.."`, where the placeholder is `".."`.
/// The cut is directly before a character that takes columns, so escape sequences and characters of
/// no columns before it are kept.
///
/// A style or a link that is open where the line is cut is ended before the placeholder, as
/// [`carry_styles`](crate::carry_styles) ends it: `"\x1b[1mHello world"` is
/// `"\x1b[1mHello\x1b[0m ..."`.
///
/// # Errors
/// Out of memory, also where the text would be longer than 64 bits can say.
pub fn shorten_by<'t, A: Allocator>(
    alloc: A,
    line: &'t str,
    shortening: &Shortening<'_>,
) -> Result<CowStr<'t, A>, AllocError>
    ensures whole { text_width line.now ≤ shortening.now.width
        → IfOk result (λ short. line_view short ≡ Slice line.now) }
    ensures cut { shortening.now.width < text_width line.now
        → IfOk result (λ short. IsShortened shortening.now.break_words shortening.now.width
        shortening.now.placeholder.now line.now (line_view short)) }
{
    if display_width(line) <= shortening.width {
        return Ok(CowStr::Borrowed(line));
    }
    Ok(CowStr::Owned(shortened(alloc, line, shortening)?))
}

/// What is kept of a line, what ends the styles and the link that are open there, and the
/// placeholder.
fn shortened<A: Allocator>(
    alloc: A,
    line: &str,
    shortening: &Shortening<'_>,
) -> Result<String<A>, AllocError>
    ensures { IfOk result (λ text. IsShortened shortening.now.break_words shortening.now.width
        shortening.now.placeholder.now line.now (Built (string_bytes text))) }
{
    let kept = &line[..kept_len(line, shortening)];
    let closing = closing_of(&alloc, kept)?;
    let added = shortening
        .placeholder
        .len()
        .checked_add(closing.len())
        .ok_or(AllocError)?;
    let len = kept.len().checked_add(added).ok_or(AllocError)?;
    let mut text = String::with_capacity(alloc, len)?;
    text.push_str(kept)?;
    text.push_str(closing)?;
    text.push_str(shortening.placeholder)?;
    Ok(text)
}

/// How many bytes of a line are kept before the placeholder.
fn kept_len(line: &str, shortening: &Shortening<'_>) -> usize
    ensures { IsKeptLength shortening.now.break_words shortening.now.width
        shortening.now.placeholder.now line.now result }
{
    let placeholder = display_width(shortening.placeholder);
    let Some(room) = shortening.width.checked_sub(placeholder) else {
        return 0;
    };
    let words = words_len(line, room);
    if !shortening.break_words {
        return words;
    }
    let (blanks, rest) = split_indent(&line[words..]);
    let start = words + blanks.len();
    let Some(left) = room.checked_sub(display_width(&line[..start])) else {
        return words;
    };
    let broken = broken_len(rest, room, left);
    if broken == 0 { words } else { start + broken }
}

/// How many bytes of a line's first words have room together. The line is read once, and only as
/// far as it has room.
fn words_len(line: &str, room: usize) -> usize
    ensures { (width : ℕ) (placeholder : List ℕ) → room + text_width placeholder ≡ width
        → IsKeptBeginning width placeholder line.now result }
{
    let mut state = State::Text;
    let mut taken = 0;
    let mut kept = 0;
    let mut after_blank = true;
    for (at, ch) in line.char_indices() {
        if taken > room {
            return kept;
        }
        let outside = is_outside(state);
        if ch == ' ' && !after_blank && outside {
            kept = at;
        }
        let (next, is_visible) = state.step(ch);
        taken += if is_visible { columns(ch) } else { 0 };
        state = next;
        after_blank = ch == ' ';
    }
    let outside = is_outside(state);
    if taken > room || after_blank || !outside {
        kept
    } else {
        line.len()
    }
}

/// Whether no escape sequence goes on.
fn is_outside(state: State) -> bool
    ensures { result ≡ true ↔ state ≡ Text }
{
    matches!(state, State::Text)
}

/// How many bytes of the word that a text begins with are kept in `left` columns, where the word is
/// wider than the room. The text is read only as far as that shows.
fn broken_len(text: &str, room: usize, left: usize) -> usize
    requires { left ≤ room }
    ensures whole { word_width text.now ≤ room → result ≡ 0 }
    ensures cut { room < word_width text.now → IsCut left [] text.now 0 0 result }
{
    let mut taken = 0;
    let mut cut = 0;
    for character in Characters::of(text) {
        if character.is_visible {
            if character.ch == ' ' {
                return 0;
            }
            let width = columns(character.ch);
            if taken > 0 && taken <= left && width > 0 {
                cut = character.at;
            }
            taken += width;
            if taken > room {
                return cut;
            }
        }
    }
    0
}
