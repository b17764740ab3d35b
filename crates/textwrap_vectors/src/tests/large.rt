//! One large row for each call on words and lines that allocates. A body that gave up on what is
//! longer than the rows of the other tables would pass those.
use super::given::{Found, assert_found};
use super::plain::{
    plain_break, plain_divide, plain_find_words, plain_find_words_at, plain_first_fit,
    plain_optimal_fit, plain_points, plain_split,
};
use crate::functions::{cut_characters, end_each, split_characters};
use std::alloc::{AllocError, Global};
use std::process::Abort;
use textwrap::word_separators::LineCuts;
use textwrap::word_splitters::WordCuts;
use textwrap::words::Word;
use textwrap::wrap_algorithms::{LineEnds, Penalties};
use textwrap::{WordSeparator, WordSplitter, WrapAlgorithm, WrapError};

/// How many of what a call counts.
const MANY: usize = 20_000;

/// A word of two columns and a blank.
const WORD: Word<'_> = Word {
    word: "ab",
    whitespace: " ",
    penalty: "",
    width: 2,
};

/// Whether these are so many words, each with this text and these blanks.
fn are_many(words: &[Word<'_>], text: &str, blanks: &str) -> bool {
    for word in words {
        if word.word != text || word.whitespace != blanks {
            return false;
        }
    }
    words.len() == MANY
}

/// Whether a call gave so many words, each with this text and these blanks.
fn has_many(given: Result<Vec<Word<'_>>, WrapError>, text: &str, blanks: &str) -> Found {
    let words = given?;
    Ok(are_many(&words, text, blanks))
}

/// Whether these are so many lines of one word each.
fn are_single(lines: &[&[Word<'_>]], count: usize) -> bool {
    for line in lines {
        if line.len() != 1 {
            return false;
        }
    }
    lines.len() == count
}

/// Whether a call gave so many lines of one word each.
fn has_single(given: Result<Vec<&[Word<'_>]>, WrapError>, count: usize) -> Found {
    let lines = given?;
    Ok(are_single(&lines, count))
}

/// So many copies of a text.
fn many(rt: &(impl Abort + AllocGlobal), text: &str) -> String {
    text.repeat(rt.alloc(), MANY).expect(rt, text)
}

/// So many words.
fn many_words(rt: &(impl Abort + AllocGlobal), count: usize) -> Vec<Word<'static>> {
    vec![in rt.alloc(); WORD; count].expect(rt, "words")
}

/// Each third offset of so many.
fn every_third(alloc: Global, count: usize) -> Result<Vec<usize>, AllocError> {
    let mut offsets = Vec::new(alloc);
    for offset in (0..count).step_by(3) {
        offsets.push(offset)?;
    }
    Ok(offsets)
}

#[test]
fn many_words_are_found_at_blanks_and_offsets(rt: HostRuntime) {
    let line = many(&rt, "ab ");
    let words = plain_find_words(rt.alloc(), rt.alloc(), WordSeparator::AsciiSpace, &line);
    assert_found(&rt, "at blanks", has_many(words, "ab", " "));
    let offsets = every_third(rt.alloc(), line.len()).expect(&rt, "offsets");
    let words = plain_find_words_at(&rt, rt.alloc(), &line, &offsets);
    assert_found(&rt, "at offsets", has_many(words, "ab", " "));
}

#[test]
fn many_words_are_split_and_broken(rt: HostRuntime) {
    let words = many_words(&rt, MANY);
    let pieces = plain_split(rt.alloc(), &words, &WordSplitter::HyphenSplitter);
    assert_found(&rt, "split", has_many(pieces, "ab", " "));
    let pieces = plain_break(rt.alloc(), &words, 2);
    assert_found(&rt, "broken", has_many(pieces, "ab", " "));
}

/// Whether a word may be split between so many pieces, and is split into them, with this text each.
fn is_split(alloc: Global, word: &str, splitter: WordSplitter, piece: &str) -> Found {
    let points = plain_points(alloc, &splitter, word)?.len();
    let pieces = plain_split(alloc, &[Word::from(word)], &splitter);
    Ok(has_many(pieces, piece, "")? && points == MANY - 1)
}

#[test]
fn a_word_has_many_pieces(rt: HostRuntime) {
    let word = many(&rt, "a-");
    let hyphens = WordSplitter::HyphenSplitter;
    assert_found(&rt, "split", is_split(rt.alloc(), &word, hyphens, "a-"));
    let word = many(&rt, "あ");
    let pieces = plain_break(rt.alloc(), &[Word::from(word.as_str())], 2);
    assert_found(&rt, "broken", has_many(pieces, "あ", ""));
}

/// Each letter of the text is a word by itself, or a piece of the one word.
#[test]
fn a_caller_gives_many_cuts_and_points(rt: HostRuntime) {
    let text = many(&rt, "é");
    let cuts = WordSeparator::Custom(LineCuts::new(rt.alloc(), cut_characters));
    let words = plain_find_words(rt.alloc(), rt.alloc(), cuts, &text);
    assert_found(&rt, "cuts", has_many(words, "é", ""));
    let points = WordSplitter::Custom(WordCuts::new(rt.alloc(), split_characters));
    assert_found(&rt, "points", is_split(rt.alloc(), &text, points, "é"));
}

#[test]
fn a_caller_gives_many_ends(rt: HostRuntime) {
    let words = many_words(&rt, MANY);
    let algorithm = WrapAlgorithm::Custom(LineEnds::new(rt.alloc(), end_each));
    let lines = plain_divide(rt.alloc(), algorithm, &words, &[80]);
    assert_found(&rt, "ends", has_single(lines, MANY));
}

/// Lines of many widths, each with room for one word.
#[test]
fn lines_have_many_widths(rt: HostRuntime) {
    let words = many_words(&rt, MANY);
    let widths = vec![in rt.alloc(); 4; MANY].expect(&rt, "widths");
    let lines = plain_first_fit(rt.alloc(), &words, &widths);
    assert_found(&rt, "first fit", has_single(lines, MANY));
    let lines = plain_optimal_fit(rt.alloc(), &words, &widths, &Penalties::new());
    assert_found(&rt, "optimal fit", has_single(lines, MANY));
}

/// Where later widths differ, the least cost is found by the table, whose rows grow with the words,
/// so there are fewer of them.
#[test]
fn a_table_may_be_large(rt: HostRuntime) {
    let words = many_words(&rt, MANY / 6);
    let mut widths = vec![in rt.alloc(); 4; MANY / 6].expect(&rt, "widths");
    widths[1] = 3;
    let lines = plain_optimal_fit(rt.alloc(), &words, &widths, &Penalties::new());
    assert_found(&rt, "by the table", has_single(lines, MANY / 6));
}
