//! The pieces of a paragraph, as a list: its words, split as parts say, and broken where a layout asks
//! for it.
ghost use Rattle.textwrap_text.specs.Units.{text_width};
ghost use Rattle.std.specs.Prelude.{◌≡◌, ◌-◌, ◌++◌, All, List, Option, length, map, ℕ, IfOk, IfSome, IsSomeAnd, OnOk};
ghost use Rattle.std.specs.List.{flat_map};
ghost use Rattle.textwrap_words.specs.Breaking.{broken_word};
ghost use Rattle.textwrap_layout.specs.Direct.{AreWordsCut, CanBeCut, HasMethods, IsDirect};
ghost use Rattle.textwrap_layout.specs.Direct.{as_algorithm, words_cut};
ghost use Rattle.textwrap_layout.specs.Frame.{frame_settings};
ghost use Rattle.textwrap_words.specs.Pieces.{as_splitter};
ghost use Rattle.textwrap_words.specs.Words.{word_view, Tiles};
ghost use Rattle.textwrap_layout.specs.Paragraph.{ArePieces, broken_pieces_of, broken_split};
ghost use Rattle.textwrap_layout.specs.Paragraph.{fitting_pieces};
ghost use Rattle.textwrap_words.specs.WordSplitters.{AreSplit, split_pieces};

use crate::frame::Frame;
use crate::options::Options;
use crate::parts::{BuiltInAlgorithm, BuiltInParts, Parts};
use crate::printable_cuts::BlankCuts;
use std::alloc::{AllocError, Allocator};
use textwrap_words::inner::{
    BuiltInSplitter, given_cuts, push_broken, push_split, stay_whole, words_at_blanks,
    words_between,
};
use textwrap_words::word_separators::{WordSeparator, Words};
use textwrap_words::word_splitters::WordSplitter;
use textwrap_words::words::{Word, break_words};
use textwrap_words::wrap_algorithms::{WrapAlgorithm, WrapError};

/// The pieces of a paragraph that are divided.
///
/// # Errors
/// [`AllocError`] where memory runs out, or a function of the caller says so.
pub fn find_pieces<'t, A: Allocator + Copy, P: Parts<A>>(
    alloc: A,
    paragraph: &'t str,
    frame: &Frame<'_>,
    parts: &P,
) -> Result<Vec<Word<'t>, A>, AllocError>
    ensures pieces { IfOk result (λ pieces. ArePieces (frame_settings frame.now)
        (P.may parts.now).Words (P.may parts.now).Points paragraph.now
        (map word_view pieces.items)) }
    ensures cut { IfOk result (λ pieces. ArePieces (frame_settings frame.now) AreWordsCut
        (P.may parts.now).Points paragraph.now (map word_view pieces.items)) }
    ensures tiles { IfOk result (λ pieces. Tiles (map word_view pieces.items) paragraph.now) }
{
    let split = find_split_words(alloc, paragraph, parts)?;
    break_pieces(alloc, split, frame)
}

/// The pieces that split words are broken into, where that is asked. Where words are broken and there
/// is an initial indent, an empty piece stands in front.
///
/// # Errors
/// [`AllocError`] where memory runs out.
pub fn break_pieces<'t, A: Allocator + Copy>(
    alloc: A,
    split: Vec<Word<'t>, A>,
    frame: &Frame<'_>,
) -> Result<Vec<Word<'t>, A>, AllocError>
    ensures { IfOk result (λ pieces. map word_view pieces.items
        ≡ broken_pieces_of (frame_settings frame.now) (map word_view split.entry.items)) }
{
    if !frame.layout.break_words {
        return Ok(split);
    }
    let mut broken = break_wide(alloc, split, frame)?;
    if !frame.layout.initial_indent.is_empty() {
        // Where the first word has no room beside the indent, the first line is the indent alone.
        broken.insert(0, Word::from(""))?;
    }
    Ok(broken)
}

/// The words, each that is wider than its room replaced by its pieces.
fn break_wide<'t, A: Allocator + Copy>(
    alloc: A,
    words: Vec<Word<'t>, A>,
    frame: &Frame<'_>,
) -> Result<Vec<Word<'t>, A>, AllocError>
    ensures { IfOk result (λ pieces. map word_view pieces.items
        ≡ fitting_pieces (frame_settings frame.now) (map word_view words.entry.items)) }
{
    if frame.layout.room_for_hyphens {
        return break_with_hyphens(alloc, &words, frame.later_columns);
    }
    // Most words are narrow, and then the list is not copied.
    if stay_whole(&words, frame.later_columns) {
        return Ok(words);
    }
    // By reference, since the checker does not cover handing on a list that any allocator made.
    break_words(alloc, words.iter().copied(), frame.later_columns)
}

/// The words, each that is wider than the line without its penalty replaced by its pieces.
fn break_with_hyphens<'t, A: Allocator>(
    alloc: A,
    words: &[Word<'t>],
    line_width: usize,
) -> Result<Vec<Word<'t>, A>, AllocError>
    ensures { IfOk result (λ pieces. map word_view pieces.items
        ≡ flat_map (λ w. broken_word (line_width - length w.penalty) w) (map word_view words.now)) }
{
    let mut pieces = Vec::with_capacity(alloc, words.len())?;
    for word in words {
        push_broken(
            &mut pieces,
            *word,
            line_width.saturating_sub(word.penalty.len()),
        )?;
    }
    Ok(pieces)
}

/// The words of a paragraph, not yet split.
///
/// # Errors
/// [`AllocError`] where memory runs out, or a function of the caller says so.
pub fn find_words<'t, A: Allocator + Copy, P: Parts<A>>(
    alloc: A,
    paragraph: &'t str,
    parts: &P,
) -> Result<Vec<Word<'t>, A>, AllocError>
    ensures { IfOk result (λ words. (cuts : Option (List ℕ)) × CanBeCut cuts paragraph.now
        × (P.may parts.now).Words paragraph.now (words_cut cuts paragraph.now)
        × (map word_view words.items ≡ words_cut cuts paragraph.now)) }
{
    if let Some(cuts) = parts.word_cuts(paragraph)? {
        return words_between(alloc, paragraph, &cuts);
    }
    let mut words = Vec::new(alloc);
    for word in words_at_blanks::<A>(paragraph) {
        words.push(word)?;
    }
    Ok(words)
}

/// The pieces of a word, whose width is that of its text: split as parts say, and broken where that
/// is asked.
///
/// # Errors
/// [`AllocError`] where memory runs out, or a function of the caller says so.
pub fn pieces_of_word<'t, A: Allocator + Copy, P: Parts<A>>(
    alloc: A,
    word: Word<'t>,
    parts: &P,
    frame: &Frame<'_>,
) -> Result<Vec<Word<'t>, A>, AllocError>
    requires { word.width ≡ text_width word.word.now }
    ensures { IfOk result (λ pieces. (points : List ℕ)
        × (P.may parts.now).Points word.entry.word.now points × (map word_view pieces.items
        ≡ broken_split (frame_settings frame.now) (split_pieces points (word_view word.entry)))) }
{
    let mut split = Vec::new(alloc);
    push_pieces(alloc, &mut split, word, parts)?;
    if frame.layout.break_words {
        break_wide(alloc, split, frame)
    } else {
        Ok(split)
    }
}

/// The words of a paragraph, split.
fn find_split_words<'t, A: Allocator + Copy, P: Parts<A>>(
    alloc: A,
    paragraph: &'t str,
    parts: &P,
) -> Result<Vec<Word<'t>, A>, AllocError>
    ensures { IfOk result (λ pieces. (cuts : Option (List ℕ)) × CanBeCut cuts paragraph.now
        × (P.may parts.now).Words paragraph.now (words_cut cuts paragraph.now)
        × AreSplit (P.may parts.now).Points (words_cut cuts paragraph.now)
        (map word_view pieces.items)) }
{
    let Some(cuts) = parts.word_cuts(paragraph)? else {
        return split_each(alloc, words_at_blanks(paragraph), parts);
    };
    let words = words_between(alloc, paragraph, &cuts)?;
    split_list(alloc, &words, parts)
}

/// The words, split.
fn split_each<'t, A: Allocator + Copy, P: Parts<A>>(
    alloc: A,
    words: Words<'t, A>,
    parts: &P,
) -> Result<Vec<Word<'t>, A>, AllocError>
    requires { All (λ word. word.width ≡ text_width word.word) words }
    ensures { IfOk result (λ pieces.
        AreSplit (P.may parts.now).Points words.entry (map word_view pieces.items)) }
{
    let mut pieces = Vec::new(alloc);
    for word in words {
        push_pieces(alloc, &mut pieces, word, parts)?;
    }
    Ok(pieces)
}

/// The same of words that are listed.
fn split_list<'t, A: Allocator + Copy, P: Parts<A>>(
    alloc: A,
    words: &[Word<'t>],
    parts: &P,
) -> Result<Vec<Word<'t>, A>, AllocError>
    requires { All (λ word. word.width ≡ text_width word.word) (map word_view words.now) }
    ensures { IfOk result (λ pieces. AreSplit (P.may parts.now).Points
        (map word_view words.now) (map word_view pieces.items)) }
{
    let mut pieces = Vec::new(alloc);
    for word in words {
        push_pieces(alloc, &mut pieces, *word, parts)?;
    }
    Ok(pieces)
}

/// Adds the pieces of a word whose width is that of its text. One that stays whole is not measured again.
fn push_pieces<'t, A: Allocator + Copy, P: Parts<A>>(
    alloc: A,
    pieces: &mut Vec<Word<'t>, A>,
    word: Word<'t>,
    parts: &P,
) -> Result<(), AllocError>
    requires { word.width ≡ text_width word.word.now }
    ensures { OnOk result ((points : List ℕ) × (P.may parts.now).Points word.entry.word.now points
        × (map word_view pieces.new.items ≡ map word_view pieces.old.items
        ++ split_pieces points (word_view word.entry))) }
{
    let points = parts.split_points(alloc, word.word)?;
    if points.is_empty() {
        pieces.push(word)?;
        return Ok(());
    }
    push_split(pieces, word, &points)
}

impl<A: Allocator + Copy> Parts<A> for Options<'_> {
    ghost use Rattle.textwrap_words.proofs.Word.Parts.{MaySplit-cuts};
    ghost use Rattle.textwrap_words.specs.WordSeparators.{MaySeparate};
    ghost use Rattle.textwrap_words.specs.WordSplitters.{MaySplit};
    ghost use Rattle.textwrap_words.specs.WrapAlgorithms.{MayDivide};
    ghost use Rattle.textwrap_layout.specs.Direct.{IsDirect};
    ghost use Rattle.textwrap_layout.specs.Options.{MayOverflow};

    type Words = BlankCuts;

    ghost may = { λ options. record {
      Words = MaySeparate options.word_separator;
      Points = MaySplit options.word_splitter;
      Lines = MayDivide options.wrap_algorithm (λ w. w);
    } };

    ghost may_overflow = { λ options. MayOverflow options };

    ghost is_direct = { λ options. IsDirect options };

    ghost can_split = { λ options. MaySplit-cuts options.word_splitter };

    fn built_in(&self) -> Option<BuiltInParts> {
        built_in_parts(self)
    }

    fn printable_cuts(&self) -> Option<BlankCuts> {
        match self.word_separator {
            WordSeparator::AsciiSpace => Some(BlankCuts {}),
            WordSeparator::Custom(_) => None,
        }
    }

    fn word_cuts(&self, paragraph: &str) -> Result<Option<Vec<usize>>, AllocError> {
        match self.word_separator {
            WordSeparator::AsciiSpace => Ok(None),
            WordSeparator::Custom(line_cuts) => Ok(Some(given_cuts(line_cuts, paragraph)?)),
        }
    }

    fn split_points(&self, alloc: A, word: &str) -> Result<Vec<usize, A>, AllocError> {
        self.word_splitter.split_points(alloc, word)
    }

    fn divide<'a, 'w>(
        &self,
        alloc: A,
        pieces: &'w [Word<'a>],
        line_widths: &[usize],
    ) -> Result<Vec<&'w [Word<'a>], A>, WrapError> {
        self.wrap_algorithm.wrap(alloc, pieces, line_widths)
    }

    fn takes_what_fits(&self) -> bool {
        matches!(self.wrap_algorithm, WrapAlgorithm::FirstFit)
    }

    fn has_points(&self) -> bool {
        false
    }
}

/// The splitter and the algorithm of options, if they are built in.
fn built_in_parts(options: &Options<'_>) -> Option<BuiltInParts>
    ensures parts { IfSome result (λ parts. HasMethods options.now
        (as_splitter parts.splitter) (as_algorithm parts.algorithm)) }
    ensures first_fit { IsDirect options.now
        → IsSomeAnd result (λ parts. parts.algorithm ≡ BuiltInAlgorithm.FirstFit) }
{
    let splitter = match options.word_splitter {
        WordSplitter::NoHyphenation => BuiltInSplitter::NoHyphenation,
        WordSplitter::HyphenSplitter => BuiltInSplitter::HyphenSplitter,
        WordSplitter::Custom(_) => return None,
    };
    let algorithm = match options.wrap_algorithm {
        WrapAlgorithm::FirstFit => BuiltInAlgorithm::FirstFit,
        WrapAlgorithm::OptimalFit(penalties) => BuiltInAlgorithm::OptimalFit(penalties),
        WrapAlgorithm::Custom(_) => return None,
    };
    Some(BuiltInParts {
        splitter,
        algorithm,
    })
}
