//! Words, and the pieces that they are split and broken into, by where they stand.
ghost use Rattle.std.specs.Prelude.{◌≡◌, ◌⊎◌, ◌↔◌, ◌≤◌, [], IfOk, IsUtf8, true, map};
ghost use Rattle.textwrap_calls.specs.Options.{TellsFaults, AreKnown, AreTexts, separator_of};
ghost use Rattle.textwrap_calls.specs.Options.{options_settings, options_points};
ghost use Rattle.textwrap_calls.specs.Room.{WritesText};
ghost use Rattle.textwrap_calls.specs.Status.{done, not_utf8, too_small, wrong_places};
ghost use Rattle.textwrap_hyphens.specs.Outside.{hyphens_outside};
ghost use Rattle.textwrap_layout.specs.Options.{settings_view};
ghost use Rattle.textwrap_layout.specs.Paragraph.{broken_pieces_of, pieces_of};
ghost use Rattle.textwrap_more_calls.specs.Pieces.{AreOffsets, offsets_past, piece_places};
ghost use Rattle.textwrap_plain.specs.Options.{points_by, split_by_points, words_by};
ghost use Rattle.textwrap_plain.specs.Options.{plain_settings};
ghost use Rattle.textwrap_text.specs.Units.{stripped};
ghost use Rattle.textwrap_words.specs.Breaking.{broken_pieces, pieces_left};
ghost use Rattle.textwrap_words.specs.Pieces.{as_splitter};
ghost use Rattle.textwrap_words.specs.WordOffsets.{words_at};
ghost use Rattle.textwrap_words.specs.WordSplitters.{hyphen_points};
ghost use Rattle.textwrap_words.specs.Words.{piece, word_view, Tiles};

use simdutf8::basic::from_utf8;
use std::alloc::{AllocError, Global};
use textwrap::Options;
use textwrap::word_separators::find_words_at;
use textwrap::word_splitters::WordSplitter;
use textwrap::words::{BreakApart, Word, display_width};
use textwrap_calls::options::{TextwrapOptions, read_options, with_layout};
use textwrap_calls::room::put;
use textwrap_calls::status::{NOT_UTF8, OUT_OF_MEMORY, WRONG_PLACES};
use textwrap_hyphens::outside::hyphens_outside;
use textwrap_lines::inner::paragraph_pieces;
use textwrap_plain::placed::paragraph_pieces as paragraph_pieces_by;
use textwrap_plain::{PlainOptions, PlainSeparator, PlainSplitter};
use textwrap_text::characters::Characters;
use textwrap_words::inner::BuiltInSplitter;

/// Where a word stands, or a part of one.
#[repr(C)]
#[derive(Clone, Copy)]
pub struct TextwrapPiece {
    /// How many bytes of the text come before it.
    pub offset: usize,
    /// How many bytes it has, without the blanks after it.
    pub len: usize,
    /// How many blanks stand after it.
    pub whitespace_len: usize,
    /// How many bytes a line that ends with it shows instead of its blanks: 1 for a hyphen, else 0.
    pub penalty_len: usize,
    /// Its columns.
    pub width: usize,
}

/// Writes the pieces of a paragraph that `textwrap_wrap` divides into lines: its words, split and broken
/// as the options say. With words neither split nor broken these are its
/// words. If words are broken and there is an initial indent, an empty piece stands before them.
pub fn textwrap_pieces(
    alloc: Global,
    paragraph: &[u8],
    options: &TextwrapOptions<'_>,
    pieces: &mut [TextwrapPiece],
    count: &mut usize,
) -> u32
    ensures pieces { WritesText (λ answer. answer ≡ piece_places 0 (broken_pieces_of
        (options_settings options.now) (split_by_points (options_points options.now)
        (words_by (separator_of options.now) paragraph.now)))) result pieces.old pieces.new count.old count.new }
    ensures faults { TellsFaults result (AreKnown options.now)
        (IsUtf8 paragraph.now × AreTexts options.now) }
{
    let options = match read_options(options) {
        Ok(options) => options,
        Err(status) => return status,
    };
    let Ok(paragraph) = from_utf8(paragraph) else {
        return NOT_UTF8;
    };
    match listed_pieces(alloc, paragraph, &options) {
        Ok(found) => put(&found, pieces, count),
        Err(_) => OUT_OF_MEMORY,
    }
}

/// The pieces of a paragraph, by where they stand in it.
fn listed_pieces(
    alloc: Global,
    paragraph: &str,
    options: &PlainOptions<'_>,
) -> Result<Vec<TextwrapPiece>, AllocError>
    ensures { IfOk result (λ pieces. pieces.items ≡ piece_places 0 (broken_pieces_of
        (plain_settings options.now) (split_by_points (points_by options.now.word_splitter)
        (words_by options.now.word_separator paragraph.now)))) }
{
    match (options.word_separator, options.word_splitter) {
        (PlainSeparator::AtBlanks, PlainSplitter::BuiltIn(splitter)) => {
            let layout = with_layout(options.layout());
            placed_pieces(alloc, paragraph, &layout, splitter)
        }
        _ => {
            let found = paragraph_pieces_by(alloc, paragraph, options)?;
            place_words(alloc, paragraph, &found)
        }
    }
}

/// The pieces of a paragraph whose words stand between blanks, without a list of these.
fn placed_pieces(
    alloc: Global,
    paragraph: &str,
    options: &Options<'_>,
    splitter: BuiltInSplitter,
) -> Result<Vec<TextwrapPiece>, AllocError>
    ensures { IfOk result (λ pieces. pieces.items ≡ piece_places 0
        (pieces_of (settings_view options.now) (as_splitter splitter) paragraph.now)) }
{
    let mut pieces = Vec::new(alloc);
    let mut offset = 0;
    for piece in paragraph_pieces(paragraph, options, splitter) {
        pieces.push(TextwrapPiece {
            offset,
            len: piece.word_end - offset,
            whitespace_len: piece.end - piece.word_end,
            // The built-in splitters add no hyphen.
            penalty_len: 0,
            width: piece.width,
        })?;
        offset = piece.end;
    }
    Ok(pieces)
}

/// Writes the words of a line that may be broken at these offsets, as the library's `find_words_at`
/// finds them. They count the bytes of the line without its escape sequences, increase, and are
/// character boundaries of that text; else the call answers `WRONG_PLACES`, even if there is no memory.
pub fn textwrap_find_words_at(
    alloc: Global,
    line: &[u8],
    offsets: &[usize],
    words: &mut [TextwrapPiece],
    count: &mut usize,
) -> u32
    ensures words { WritesText (λ answer. answer ≡ piece_places 0 (words_at offsets.now line.now))
        result words.old words.new count.old count.new }
    ensures not_utf8 { result ≡ not_utf8 ↔ ¬ IsUtf8 line.now }
    ensures wrong_places { result ≡ wrong_places ↔ IsUtf8 line.now
        × ¬ AreOffsets (stripped line.now) offsets.now }
    ensures right_places { (result ≡ done) ⊎ (result ≡ too_small)
        → AreOffsets (stripped line.now) offsets.now }
    ensures statuses { (result ≤ too_small) ⊎ (result ≡ wrong_places) }
{
    let Ok(line) = from_utf8(line) else {
        return NOT_UTF8;
    };
    if !are_offsets(line, offsets) {
        return WRONG_PLACES;
    }
    match words_at(alloc, line, offsets) {
        Ok(found) => put(&found, words, count),
        Err(_) => OUT_OF_MEMORY,
    }
}

/// Whether offsets increase, and are character boundaries of the line without its escape sequences.
fn are_offsets(line: &str, offsets: &[usize]) -> bool
    ensures { result ≡ true ↔ AreOffsets (stripped line.now) offsets.now }
{
    let mut shown = 0;
    let mut left = offsets_past(shown, offsets);
    for character in Characters::of(line) {
        if character.is_visible {
            shown += character.ch.len_utf8();
            left = offsets_past(shown, left);
        }
    }
    left.is_empty()
}

/// The offsets that are left when a place is reached: without the first, if it is this place.
fn offsets_past(place: usize, offsets: &[usize]) -> &[usize]
    ensures { result.now ≡ offsets_past place offsets.now }
{
    match offsets {
        [offset, rest @ ..] if *offset == place => rest,
        _ => offsets,
    }
}

/// The words of a line at these offsets.
fn words_at(alloc: Global, line: &str, offsets: &[usize]) -> Result<Vec<TextwrapPiece>, AllocError>
    requires { AreOffsets (stripped line.now) offsets.now }
    ensures { IfOk result (λ words.
        words.items ≡ piece_places 0 (words_at offsets.now line.now)) }
{
    let words = find_words_at(alloc, line, offsets)?;
    place_words(alloc, line, &words)
}

/// Writes the offsets at which a word may be split: after each hyphen between letters or digits.
pub fn textwrap_split_points(
    alloc: Global,
    word: &[u8],
    points: &mut [usize],
    count: &mut usize,
) -> u32
    ensures points { WritesText (λ answer. answer ≡ hyphen_points word.now)
        result points.old points.new count.old count.new }
    ensures not_utf8 { result ≡ not_utf8 ↔ ¬ IsUtf8 word.now }
    ensures statuses { result ≤ too_small }
{
    let Ok(word) = from_utf8(word) else {
        return NOT_UTF8;
    };
    match WordSplitter::HyphenSplitter.split_points(alloc, word) {
        Ok(found) => put(&found, points, count),
        Err(_) => OUT_OF_MEMORY,
    }
}

/// Writes those of these offsets that stand within no escape sequence, as `split_at_hyphens` 2 of the
/// options has words split.
pub fn textwrap_split_points_outside(
    alloc: Global,
    word: &[u8],
    points: &mut [usize],
    count: &mut usize,
) -> u32
    ensures points { WritesText (λ answer. answer ≡ hyphens_outside word.now)
        result points.old points.new count.old count.new }
    ensures not_utf8 { result ≡ not_utf8 ↔ ¬ IsUtf8 word.now }
    ensures statuses { result ≤ too_small }
{
    let Ok(word) = from_utf8(word) else {
        return NOT_UTF8;
    };
    match hyphens_outside(alloc, word) {
        Ok(found) => put(&found, points, count),
        Err(_) => OUT_OF_MEMORY,
    }
}

/// Writes the pieces of a word that is broken into pieces of so many columns at most. A piece that
/// has a single character with columns may be wider.
pub fn textwrap_break_apart(
    alloc: Global,
    word: &[u8],
    line_width: usize,
    pieces: &mut [TextwrapPiece],
    count: &mut usize,
) -> u32
    ensures pieces { WritesText (λ answer.
        answer ≡ piece_places 0 (broken_pieces line_width (piece word.now [] [])))
        result pieces.old pieces.new count.old count.new }
    ensures not_utf8 { result ≡ not_utf8 ↔ ¬ IsUtf8 word.now }
    ensures statuses { result ≤ too_small }
{
    let Ok(word) = from_utf8(word) else {
        return NOT_UTF8;
    };
    match broken_apart(alloc, word, line_width) {
        Ok(found) => put(&found, pieces, count),
        Err(_) => OUT_OF_MEMORY,
    }
}

/// The pieces of a word, by where they stand in it.
fn broken_apart(
    alloc: Global,
    word: &str,
    line_width: usize,
) -> Result<Vec<TextwrapPiece>, AllocError>
    ensures { IfOk result (λ pieces.
        pieces.items ≡ piece_places 0 (broken_pieces line_width (piece word.now [] []))) }
{
    let whole = Word {
        word,
        whitespace: "",
        penalty: "",
        width: display_width(word),
    };
    let pieces = listed(alloc, whole.break_apart(line_width))?;
    place_words(alloc, word, &pieces)
}

/// The pieces of a word, in a list.
fn listed(alloc: Global, pieces: BreakApart<'_>) -> Result<Vec<Word<'_>>, AllocError>
    ensures { IfOk result (λ list. map word_view list.items ≡ pieces_left pieces.entry) }
{
    let mut list = Vec::new(alloc);
    for piece in pieces {
        list.push(piece)?;
    }
    Ok(list)
}

/// Where the words stand that are a text, one after another.
pub(crate) fn place_words(
    alloc: Global,
    text: &str,
    words: &[Word<'_>],
) -> Result<Vec<TextwrapPiece>, AllocError>
    requires { Tiles (map word_view words.now) text.now }
    ensures { IfOk result (λ places. places.items ≡ piece_places 0 (map word_view words.now)) }
{
    let mut places = Vec::new(alloc);
    let mut offset = 0;
    for word in words {
        let (len, whitespace_len) = (word.word.len(), word.whitespace.len());
        places.push(TextwrapPiece {
            offset,
            len,
            whitespace_len,
            penalty_len: word.penalty.len(),
            width: word.width,
        })?;
        offset += len + whitespace_len;
    }
    Ok(places)
}
