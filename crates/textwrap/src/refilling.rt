//! Unfilling, which joins the lines of a filled text, and refilling, which fills them again.
ghost use Rattle.std.specs.Prelude.{◌≡◌, ℕ, List, [], ◌∷◌, ◌++◌, length, drop, IfOk};
ghost use Rattle.std.specs.Prelude.{IfSome, IsOk, OnOk, string_bytes, map, option_to_list};
ghost use Rattle.std.specs.Prelude.{slice_index_or};
ghost use Rattle.std.specs.Io.{StartsWith};
ghost use Rattle.std.specs.Str.{IsAscii};
ghost use Rattle.textwrap_base.specs.Penalties.{default_penalties};
ghost use Rattle.textwrap_words.specs.declared.wrap_algorithms.WrapAlgorithm.TheVariants.{OptimalFit};
ghost use Rattle.textwrap_layout.specs.Paragraph.{DividesWith, MayPass64BitsWith};
ghost use Rattle.textwrap_layout.specs.Options.{Settings, settings_at, settings_view, HasParts};
ghost use Rattle.textwrap_layout.specs.Options.{MayOverflow, layout_view};
ghost use Rattle.textwrap_layout.specs.Filling.{IsFilled};
ghost use Rattle.textwrap_layout.specs.Paragraph.{DividesAs, DividesUnder};
ghost use Rattle.textwrap_layout.specs.Text.{HasParagraphThat, SomeMayPass64BitsUnder};
ghost use Rattle.textwrap_words.specs.WordSplitters.{Splitter};
ghost use Rattle.textwrap_words.specs.WrapAlgorithms.{Algorithm};
ghost use Rattle.textwrap.specs.Refilling.{is_prefix_character, line_prefix, common_start};
ghost use Rattle.textwrap.specs.Refilling.{unfilled_text, unfilled_settings, joined_text};
ghost use Rattle.textwrap.specs.Refilling.{added_ending, keeps_ending, IsRefilled, HasDefaultMethods};
ghost use Rattle.textwrap.specs.Refilling.{layout_settings};
ghost use Rattle.textwrap.specs.Refilling.{unfilled_width, unfilled_initial, unfilled_subsequent};
ghost use Rattle.textwrap.specs.Refilling.{unfilled_parts, with_indents_of};
ghost use Rattle.textwrap.specs.Refilling.{detected_among, detected_ending, common_prefix};
ghost use Rattle.textwrap_text.specs.LentText.{as_len, written_over};
ghost use Rattle.textwrap_words.specs.declared.word_separators.WordSeparator.TheVariants.{AsciiSpace};
ghost use Rattle.textwrap_words.specs.declared.word_splitters.WordSplitter.TheVariants.{HyphenSplitter};
ghost use Rattle.textwrap_base.specs.Errors.{OnlyMemoryRunsOut};

use crate::text_sinks::TextSink;
use crate::words::display_width;
use crate::wrap_algorithms::WrapError;
use lines::NonEmptyLines;
use std::alloc::{AllocError, Allocator};
use textwrap_layout::layout::Layout;
use textwrap_layout::options::DEFAULTS;
use textwrap_layout::parts::Parts;
use textwrap_lines::inner::fill_by;
use textwrap_lines::{LineEnding, Options};
use textwrap_text::lent_text::LentText;
use textwrap_text::text_lines::Lines;

mod lines;

/// Joins the lines of a filled text, and finds out how it was filled. The text is one paragraph.
///
/// The indents are what the lines begin with of blanks and `-`, `+`, `*`, `>`, `#`, `/`: the first
/// line's is the initial indent, and what all later lines have in common is the subsequent indent.
/// Without their indents, the lines that are not empty are joined by blanks. `"* foo\n  bar\n"`
/// becomes `"foo bar\n"`, with the indents `"* "` and two blanks and a width of 5 columns, which is
/// that of the widest line.
///
/// The line ending is LF where a line that is not empty ends in it, else CRLF where one ends in
/// that; if the text ends in it, so does the unfilled text. Where there is none, it is LF. All
/// other options are the defaults.
///
/// # Errors
/// [`AllocError`] where memory runs out.
pub fn unfill<'t, A: Allocator + Copy>(
    alloc: A,
    text: &'t str,
) -> Result<(String<A>, Options<'t>), AllocError>
    ensures text { IfOk result (λ unfilled. string_bytes unfilled.0 ≡ unfilled_text text.now) }
    ensures settings { IfOk result (λ unfilled. settings_view unfilled.1
        ≡ unfilled_settings text.now) }
    ensures algorithm { IfOk result (λ unfilled. unfilled.1.wrap_algorithm
        ≡ OptimalFit default_penalties) }
    ensures separator { IfOk result (λ unfilled. unfilled.1.word_separator ≡ AsciiSpace) }
    ensures splitter { IfOk result (λ unfilled. unfilled.1.word_splitter ≡ HyphenSplitter) }
{
    let mut unfilled = String::new(alloc);
    let layout = push_unfilled(text, &mut unfilled)?;
    Ok((unfilled, with_layout(layout)))
}

/// Writes the text of [`unfill`] into lent room, and after it the initial indent and the subsequent
/// one, as much of these as there is room for. Returns how many bytes they have together, and the
/// options. The rest of the room stays as it was. Of `"* foo\n  bar\n"` it writes `"foo bar\n*   "`.
pub fn unfill_into<'t>(text: &'t str, room: &mut [u8]) -> (usize, Options<'t>)
    ensures len { result.0 ≡ as_len (length (unfilled_parts text.now)) }
    ensures room { room.new ≡ written_over room.old (unfilled_parts text.now) }
    ensures settings { settings_view result.1 ≡ unfilled_settings text.now }
{
    let mut parts = LentText::new(room);
    match push_unfilled(text, &mut parts) {
        Ok(layout) => {
            parts.push(layout.initial_indent.as_bytes());
            parts.push(layout.subsequent_indent.as_bytes());
            (parts.len(), with_layout(layout))
        }
        Err(_) => unreachable!(),
    }
}

/// Pushes the unfilled text to what has taken nothing, and returns its layout.
///
/// # Errors
/// [`AllocError`] where memory runs out.
fn push_unfilled<'t, S: TextSink>(
    text: &'t str,
    unfilled: &mut S,
) -> Result<TextLayout<'t>, AllocError>
    requires none { S.holds unfilled.now unfilled.now [] }
    ensures name { S.name unfilled.new ≡ S.name unfilled.old }
    ensures done { S.never_fails → IsOk result }
    ensures unfilled { OnOk result (S.holds unfilled.old unfilled.new (unfilled_text text.now)) }
    ensures layout { IfOk result (λ layout. layout_settings layout ≡ unfilled_settings text.now) }
{
    let (layout, keeps_ending) = push_joined(text, unfilled)?;
    if keeps_ending {
        unfilled.push_part(layout.line_ending.as_str())?;
    }
    Ok(layout)
}

/// Fills a filled paragraph again, with the indents that it has.
///
/// The text is unfilled as [`unfill`] does it, and filled with the options, but for the indents,
/// which are its own. Where the unfilled text ends in a line ending, the new text ends in that of
/// the options. At 12 columns `"/// foo\n/// bar baz\n"` becomes `"/// foo bar\n/// baz\n"`.
///
/// A text of more than one paragraph becomes one: at 20 columns `"> one two\n>\n> three four\n"`, whose
/// later lines have only `>` in common, becomes `"> one two   three\n>four\n"`. And the end of a
/// comment is a word like any other: `"/* one two\n * three */\n"` may end in a line of its own,
/// ` * */`. Refill each paragraph by itself, without what ends it.
///
/// # Errors
/// Those of `wrap`.
pub fn refill<A: Allocator + Copy>(
    alloc: A,
    filled_text: &str,
    options: Options<'_>,
) -> Result<String<A>, WrapError>
    ensures refilled { IfOk result (λ refilled. IsRefilled (settings_view options.entry)
        (DividesUnder options.entry) filled_text.now (string_bytes refilled)) }
    // The same text, where all parts are built in and can be named.
    ensures built_in { IfOk result (λ refilled.
        (settings : Settings) (splitter : Splitter) (algorithm : Algorithm)
        → HasParts options.entry settings splitter algorithm → IsRefilled settings
        (DividesAs splitter algorithm) filled_text.now (string_bytes refilled)) }
    ensures only_memory { ¬ MayOverflow options.entry → OnlyMemoryRunsOut result }
    // Overflow only where a paragraph of the joined text may have pieces that pass 64 bits together.
    ensures no_overflow { ¬ SomeMayPass64BitsUnder options.entry
        (with_indents_of filled_text.now (settings_view options.entry)) (joined_text filled_text.now)
        → OnlyMemoryRunsOut result }
{
    refill_by(alloc, filled_text, Layout::of(&options), &options)
}

/// The same by this layout and any parts.
///
/// # Errors
/// Those of `wrap`.
pub fn refill_by<A: Allocator + Copy, P: Parts<A>>(
    alloc: A,
    filled_text: &str,
    layout: Layout<'_>,
    parts: &P,
) -> Result<String<A>, WrapError>
    ensures refilled { IfOk result (λ refilled. IsRefilled (layout_view layout.entry)
        (DividesWith (P.may parts.now)) filled_text.now (string_bytes refilled)) }
    ensures only_memory { ¬ P.may_overflow parts.now → OnlyMemoryRunsOut result }
    ensures no_overflow { ¬ HasParagraphThat (MayPass64BitsWith (P.may parts.now)
        (with_indents_of filled_text.now (layout_view layout.entry)))
        (layout_view layout.entry).line_ending (joined_text filled_text.now)
        → OnlyMemoryRunsOut result }
{
    let (unfilled, found, keeps_ending) = join_lines(alloc, filled_text)?;
    let layout = Layout {
        initial_indent: found.initial_indent,
        subsequent_indent: found.subsequent_indent,
        ..layout
    };
    fill_joined(alloc, &unfilled, keeps_ending, layout, parts)
}

/// Fills the joined lines of a text, and adds the line ending, if the text ends in its own.
///
/// # Errors
/// Those of `wrap`.
fn fill_joined<A: Allocator + Copy, P: Parts<A>>(
    alloc: A,
    joined: &str,
    keeps_ending: bool,
    layout: Layout<'_>,
    parts: &P,
) -> Result<String<A>, WrapError>
    ensures filled { IfOk result (λ refilled. (filled : List ℕ) × IsFilled (layout_view layout.entry)
        (DividesWith (P.may parts.now) (layout_view layout.entry)) joined.now filled
        × (string_bytes refilled
        ≡ filled ++ added_ending keeps_ending (layout_view layout.entry).line_ending)) }
    ensures only_memory { ¬ P.may_overflow parts.now → OnlyMemoryRunsOut result }
    ensures no_overflow { ¬ HasParagraphThat (MayPass64BitsWith (P.may parts.now)
        (layout_view layout.entry)) (layout_view layout.entry).line_ending joined.now
        → OnlyMemoryRunsOut result }
{
    let mut filled = fill_by(alloc, joined, layout, parts)?;
    if keeps_ending {
        filled.push_str(layout.line_ending.as_str())?;
    }
    Ok(filled)
}

/// How a text seems to have been filled.
#[derive(Clone, Copy)]
struct TextLayout<'t> {
    /// The columns of its widest line.
    width: usize,
    line_ending: LineEnding,
    initial_indent: &'t str,
    subsequent_indent: &'t str,
}

/// The options with this layout, all else by the defaults.
fn with_layout(layout: TextLayout<'_>) -> Options<'_>
    ensures settings { settings_view result ≡ layout_settings layout.entry }
    ensures methods { HasDefaultMethods result }
{
    Options {
        width: layout.width,
        line_ending: layout.line_ending,
        initial_indent: layout.initial_indent,
        subsequent_indent: layout.subsequent_indent,
        ..DEFAULTS
    }
}

/// The joined lines of the text without an ending, its layout, and whether it ends in the line
/// ending of that.
fn join_lines<'t, A: Allocator>(
    alloc: A,
    text: &'t str,
) -> Result<(String<A>, TextLayout<'t>, bool), AllocError>
    ensures joined { IfOk result (λ unfilled. string_bytes unfilled.0 ≡ joined_text text.now) }
    ensures layout { IfOk result (λ unfilled. layout_settings unfilled.1
        ≡ unfilled_settings text.now) }
    ensures keeps { IfOk result (λ unfilled. unfilled.2 ≡ keeps_ending text.now) }
{
    let mut joined = String::new(alloc);
    let (layout, keeps_ending) = push_joined(text, &mut joined)?;
    Ok((joined, layout, keeps_ending))
}

/// Pushes the joined lines of the text without an ending to what has taken nothing, and returns its
/// layout, and whether it ends in the line ending of that.
///
/// # Errors
/// [`AllocError`] where memory runs out.
fn push_joined<'t, S: TextSink>(
    text: &'t str,
    joined: &mut S,
) -> Result<(TextLayout<'t>, bool), AllocError>
    requires none { S.holds joined.now joined.now [] }
    ensures name { S.name joined.new ≡ S.name joined.old }
    ensures done { S.never_fails → IsOk result }
    ensures joined { OnOk result (S.holds joined.old joined.new (joined_text text.now)) }
    ensures layout { IfOk result (λ found. layout_settings found.0 ≡ unfilled_settings text.now) }
    ensures keeps { IfOk result (λ found. found.1 ≡ keeps_ending text.now) }
{
    let layout = find_layout(text);
    let (initial, subsequent) = (layout.initial_indent, layout.subsequent_indent);
    let Some(ending) = push_without_indents(text, initial, subsequent, joined)? else {
        return Ok((layout, false));
    };
    let keeps_ending = text.ends_with(ending.as_str());
    let layout = TextLayout {
        line_ending: ending,
        ..layout
    };
    Ok((layout, keeps_ending))
}

/// The width and the indents of the text, and LF.
fn find_layout(text: &str) -> TextLayout<'_>
    ensures { layout_settings result
        ≡ with_indents_of text.now (settings_at (unfilled_width text.now)) }
{
    let mut lines = Lines::of(text);
    let first = next_text(&mut lines);
    let mut width = display_width(first);
    let mut common = None;
    for line in lines {
        width = width.max(display_width(line.text));
        common = Some(narrow(common, line_prefix(line.text)));
    }
    TextLayout {
        width,
        line_ending: LineEnding::LF,
        initial_indent: line_prefix(first),
        subsequent_indent: common.unwrap_or(""),
    }
}

/// Takes the next line, and returns its text, which is empty where there is none.
fn next_text<'t>(lines: &mut Lines<'t>) -> &'t str
    ensures text { result.now ≡ slice_index_or (map (λ l. l.line) lines.old) 0 [] }
    ensures left { lines.new ≡ drop 1 lines.old }
{
    match lines.next() {
        Some(line) => line.text,
        None => "",
    }
}

/// Pushes the lines of the text that are not empty, without its indents and joined by blanks, to what
/// has taken nothing, and returns the ending that is detected among them.
///
/// # Errors
/// [`AllocError`] where memory runs out.
fn push_without_indents<S: TextSink>(
    text: &str,
    initial_indent: &str,
    subsequent_indent: &str,
    joined: &mut S,
) -> Result<Option<LineEnding>, AllocError>
    requires initial { initial_indent.now ≡ unfilled_initial text.now }
    requires subsequent { subsequent_indent.now ≡ unfilled_subsequent text.now }
    requires none { S.holds joined.now joined.now [] }
    ensures name { S.name joined.new ≡ S.name joined.old }
    ensures done { S.never_fails → IsOk result }
    ensures joined { OnOk result (S.holds joined.old joined.new (joined_text text.now)) }
    ensures detected { IfOk result (λ detected. detected ≡ detected_ending text.now) }
{
    let mut lines = NonEmptyLines(Lines::of(text));
    let Some(line) = lines.next() else {
        return Ok(None);
    };
    let first = without_indent(line.text, initial_indent);
    // No unfilled text is longer than the text. Of an indent alone nothing may be left, and then no
    // memory is needed.
    joined.reserve_bytes(if first.is_empty() { 0 } else { text.len() })?;
    joined.push_part(first)?;
    let mut detected = line.ending;
    for line in lines {
        joined.push_part(" ")?;
        joined.push_part(without_indent(line.text, subsequent_indent))?;
        detected = stronger_ending(detected, line.ending);
    }
    Ok(detected)
}

/// The line without the indent that it begins with.
fn without_indent<'t>(line: &'t str, indent: &str) -> &'t str
    requires { StartsWith line.now indent.now }
    ensures { result.now ≡ drop (length indent.now) line.now }
{
    &line[indent.len()..]
}

/// The ending that counts: LF before CRLF, and any before none.
fn stronger_ending(first: Option<LineEnding>, second: Option<LineEnding>) -> Option<LineEnding>
    ensures { result ≡ detected_among (first ∷ second ∷ []) }
{
    match (first, second) {
        (None, ending) => ending,
        (Some(LineEnding::CRLF), Some(LineEnding::LF)) => second,
        _ => first,
    }
}

/// What the texts so far have in common, if there are any, and this one has too.
fn narrow<'a>(common: Option<&'a str>, text: &'a str) -> &'a str
    requires { IfSome common (λ common. IsAscii common.now) }
    ensures { result.now ≡ common_prefix (map (λ text. text.now) (option_to_list common.entry)
        ++ text.now ∷ []) }
{
    match common {
        Some(common) => common_start(common, text),
        None => text,
    }
}

/// What the line begins with of the characters of an indent.
fn line_prefix(line: &str) -> &str
    ensures { result.now ≡ line_prefix line.now }
{
    let len = line
        .bytes()
        .take_while(|byte| is_prefix_character(*byte))
        .count();
    &line[..len]
}

/// Whether an indent may have this character.
fn is_prefix_character(byte: u8) -> bool
    ensures { result ≡ is_prefix_character byte }
{
    matches!(byte, b' ' | b'-' | b'+' | b'*' | b'>' | b'#' | b'/')
}

/// What both texts begin with, of which the first is ASCII.
fn common_start<'a>(first: &'a str, second: &str) -> &'a str
    requires { IsAscii first.now }
    ensures { result.now ≡ common_start first.now second.now }
{
    let pairs = first.bytes().zip(second.bytes());
    let len = pairs.take_while(|(one, other)| one == other).count();
    &first[..len]
}
