//! How much room an answer takes at most, by the length of its text, so that a caller can bring the
//! room at the first call. A bound that no number holds is `usize::MAX`.
ghost use Rattle.std.specs.Prelude.{◌≡◌, ◌≤◌, ◌+◌, ◌-◌, ◌*◌, max, length};
ghost use Rattle.textwrap.specs.Filling.{IsFilled};
ghost use Rattle.textwrap_calls.specs.Bounds.{ForLinesOf, ForTextsOf, HoldsEach, Suffices, as_len};
ghost use Rattle.textwrap_calls.specs.Bounds.{ForRowsOf, columns_room_bound, fill_bound, hyphens_of};
ghost use Rattle.textwrap_calls.specs.Bounds.{rows_bound, wrap_room_bound};
ghost use Rattle.textwrap_calls.specs.Options.{options_settings, Divides};
ghost use Rattle.textwrap_calls.specs.declared.columns.TextwrapGaps.{TextwrapGaps};
ghost use Rattle.textwrap_calls.specs.declared.options.TextwrapOptions.{TextwrapOptions};
ghost use Rattle.textwrap_layout.specs.Places.{built_text};

use crate::columns::TextwrapGaps;
use crate::options::TextwrapOptions;

/// How many bytes `textwrap_fill` writes at most for a text of so many bytes: 13 for a text of 5 with
/// indents of 3 and 0 bytes, and 19 if a dictionary splits words.
pub fn textwrap_fill_bound(text_len: usize, options: &TextwrapOptions<'_>) -> usize
    ensures value { result ≡ as_len (fill_bound options.now text_len) }
    ensures enough { ForTextsOf text_len (λ text. HoldsEach (IsFilled (options_settings options.now)
        (Divides options.now (options_settings options.now))
        text) result) }
{
    // A byte, and the ending of the line before it.
    let byte_and_ending: usize = if options.crlf == 0 { 2 } else { 3 };
    let line = byte_and_ending
        .saturating_add(options.subsequent_indent.len())
        .saturating_add(hyphens(options));
    text_len
        .saturating_mul(line)
        .saturating_add(options.initial_indent.len())
        .saturating_add(hyphens(options))
}

/// How many lines `textwrap_wrap` reports at most of a text of so many bytes, under any options: one
/// more than it has bytes.
pub fn textwrap_wrap_lines_bound(text_len: usize) -> usize
    ensures value { result ≡ as_len (text_len + 1) }
    ensures enough { (options : TextwrapOptions) → ForTextsOf text_len (λ text.
        ForLinesOf options text (λ lines. Suffices result (length lines))) }
{
    text_len.saturating_add(1)
}

/// How many bytes `textwrap_wrap` writes at most to the room for a text of so many bytes: none without
/// indents and a dictionary, and 18 for a text of 5 with indents of 3 and 2 bytes.
pub fn textwrap_wrap_room_bound(text_len: usize, options: &TextwrapOptions<'_>) -> usize
    ensures value { result ≡ as_len (wrap_room_bound options.now text_len) }
    ensures enough { ForTextsOf text_len (λ text. ForLinesOf options.now text
        (λ lines. Suffices result (length (built_text lines)))) }
{
    if options.initial_indent.is_empty()
        && options.subsequent_indent.is_empty()
        && hyphens(options) == 0
    {
        return 0;
    }
    bytes_and_indents(text_len, options)
}

/// How many rows `textwrap_wrap_columns` writes at most of a text of so many bytes, in so many columns:
/// 4 of 7 in 2. No columns have no rows.
pub fn textwrap_wrap_columns_rows_bound(text_len: usize, columns: usize) -> usize
    ensures value { result ≡ as_len (rows_bound text_len columns) }
    ensures enough { 1 ≤ columns → (options : TextwrapOptions) (gaps : TextwrapGaps)
        → ForTextsOf text_len (λ text. ForRowsOf options gaps columns text
        (λ rows. Suffices result (length rows))) }
{
    if columns == 0 {
        return 0;
    }
    (text_len / columns).saturating_add(1)
}

/// How many bytes `textwrap_wrap_columns` writes at most to the room: 44 for a text of 5 in 2 columns at
/// a width of 10, with gaps of one byte each and no indents.
pub fn textwrap_wrap_columns_room_bound(
    text_len: usize,
    columns: usize,
    options: &TextwrapOptions<'_>,
    gaps: &TextwrapGaps<'_>,
) -> usize
    ensures value { result ≡ as_len (columns_room_bound options.now gaps.now text_len columns) }
    ensures enough { 1 ≤ columns → ForTextsOf text_len (λ text. ForRowsOf options.now gaps.now
        columns text (λ rows. Suffices result (length (built_text rows)))) }
{
    textwrap_wrap_columns_rows_bound(text_len, columns)
        .saturating_mul(gaps_and_columns(columns, options.width, gaps))
        .saturating_add(bytes_and_indents(text_len, options))
}

/// The gaps of a row, and the columns that its cells are filled up to.
fn gaps_and_columns(columns: usize, width: usize, gaps: &TextwrapGaps<'_>) -> usize
    ensures { result ≡ as_len (length gaps.now.left.now + length gaps.now.right.now
        + (columns - 1) * length gaps.now.middle.now + max width columns) }
{
    columns
        .saturating_sub(1)
        .saturating_mul(gaps.middle.len())
        .saturating_add(gaps.left.len())
        .saturating_add(gaps.right.len())
        .saturating_add(width.max(columns))
}

/// The bytes of a text, each on a line of its own, and the indents and hyphens of all these lines.
fn bytes_and_indents(text_len: usize, options: &TextwrapOptions<'_>) -> usize
    ensures { result ≡ as_len (length options.now.initial_indent.now + hyphens_of options.now
        + text_len * (1 + length options.now.subsequent_indent.now + hyphens_of options.now)) }
{
    let line = 1_usize
        .saturating_add(options.subsequent_indent.len())
        .saturating_add(hyphens(options));
    text_len
        .saturating_mul(line)
        .saturating_add(options.initial_indent.len())
        .saturating_add(hyphens(options))
}

/// How many hyphens are printed behind a line at most.
fn hyphens(options: &TextwrapOptions<'_>) -> usize
    ensures { result ≡ hyphens_of options.now }
{
    if options.dictionary.numbers.is_empty() {
        0
    } else {
        1
    }
}
