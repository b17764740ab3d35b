//! The pieces that words are broken into.
use super::given::{Found, assert_found};
use super::plain::plain_break;
use std::alloc::Global;
use textwrap::WordSplitter;
use textwrap::words::Word;

/// Built-in splitters are equal if they are the same.
#[test]
fn splitters_are_equal_where_their_cases_are(rt: HostRuntime) {
    let clone = WordSplitter::NoHyphenation.clone().expect(&rt, "splitter");
    assert!(rt; WordSplitter::NoHyphenation == clone);
    assert!(rt; WordSplitter::NoHyphenation != WordSplitter::HyphenSplitter);
}

/// A word with whitespace and a penalty, of another width than that of its text.
const ENDED: Word<'_> = Word {
    word: "abcd",
    whitespace: "  ",
    penalty: "-",
    width: 9,
};

/// Its pieces of two columns, and what is given after the last.
#[rattlefmt::skip]
const PIECES: [Option<Word<'_>>; 4] = [
    Some(Word { word: "ab", whitespace: "", penalty: "", width: 2 }),
    Some(Word { word: "cd", width: 2, ..ENDED }),
    None,
    None,
];

/// The last piece has the whitespace and the penalty of the word, and each piece its own width.
#[test]
fn the_last_piece_has_the_ends_of_the_word(rt: HostRuntime) {
    let mut pieces = ENDED.break_apart(2);
    let given = [pieces.next(), pieces.next(), pieces.next(), pieces.next()];
    assert!(rt; given == PIECES);
}

const WORDS_OF_ANY_WIDTH: &[(&str, usize, usize, usize)] = &[
    ("abcd", 2, 2, 2),
    ("ab", 3, 2, 2),
    ("abcd", 0, 0, 0),
    ("a", 1, 0, 1),
    ("abcd", usize::MAX, usize::MAX, usize::MAX),
    ("abcd", usize::MAX, usize::MAX - 1, 4),
    ("abcd", usize::MAX - 1, usize::MAX - 1, usize::MAX - 1),
];

/// Whether a word of this width is broken into one piece of that width.
fn is_one_piece(alloc: Global, word: Word<'_>, line_width: usize, width: usize) -> Found {
    let pieces = plain_break(alloc, &[word], line_width)?;
    Ok(pieces.len() == 1 && pieces[0] == Word { width, ..word })
}

/// Whether a word is broken is decided by its field `width`, and a piece has the width of its text.
#[test]
fn a_word_is_kept_by_its_width_alone(rt: HostRuntime) {
    for &(text, width, line_width, expected) in WORDS_OF_ANY_WIDTH {
        let word = Word {
            width,
            ..Word::from(text)
        };
        let holds = is_one_piece(rt.alloc(), word, line_width, expected);
        assert_found(&rt, word, holds);
    }
}
