//! The widths of words.
use super::given::assert_row;
use textwrap::words::{Fragment, Word};

const WORDS: &[(&str, &str, &str, usize)] = &[
    ("", "", "", 0),
    ("foo", "foo", "", 3),
    ("bar  ", "bar", "  ", 3),
    ("Hello!  ", "Hello!", "  ", 6),
    ("  foo bar ", "  foo bar", " ", 9),
    ("   ", "", "   ", 0),
    ("ab\u{1b}[0m", "ab\u{1b}[0m", "", 2),
    ("あ", "あ", "", 2),
    ("\u{301}", "\u{301}", "", 0),
    (" ", "", " ", 0),
    ("-", "-", "", 1),
    ("\n", "\n", "", 0),
    ("\u{ad}", "\u{ad}", "", 0),
    ("\u{a0}", "\u{a0}", "", 1),
    ("\u{17d8} ", "\u{17d8}", " ", 3),
    ("\u{1b}[ ", "\u{1b}[", " ", 0),
];

/// The word of a text is the text without its final blanks, which are its whitespace; it has no
/// penalty, and the width of its columns.
#[test]
fn a_word_is_a_text_without_its_final_blanks(rt: HostRuntime) {
    for &(text, word, whitespace, width) in WORDS {
        let of_text = Word::from(text);
        let expected = Word {
            word,
            whitespace,
            penalty: "",
            width,
        };
        assert_row(&rt, text, of_text == expected && of_text.as_str() == word);
    }
}

/// Blanks, a penalty and a width.
#[rattlefmt::skip]
const THREE_WIDTHS: &[(&str, &str, usize)] = &[("", "", 0), ("  ", "-", 3), (" ", "->", usize::MAX)];

/// As a fragment a word has its field `width`, and the bytes of its whitespace and of its penalty.
#[test]
fn a_word_has_three_widths(rt: HostRuntime) {
    for &(whitespace, penalty, width) in THREE_WIDTHS {
        let word = Word {
            word: "foo",
            whitespace,
            penalty,
            width,
        };
        let has_width = word.width() == width;
        let has_blanks = word.whitespace_width() == whitespace.len();
        let has_penalty = word.penalty_width() == penalty.len();
        assert_row(&rt, word, has_width && has_blanks && has_penalty);
    }
}

const WORD: Word<'_> = Word {
    word: "foo",
    whitespace: "  ",
    penalty: "-",
    width: 3,
};

/// Words that differ from it in one field each.
#[rattlefmt::skip]
const OTHERS: &[Word<'_>] = &[
    Word { word: "bar", whitespace: "  ", penalty: "-", width: 3 },
    Word { word: "foo", whitespace: " ", penalty: "-", width: 3 },
    Word { word: "foo", whitespace: "  ", penalty: "", width: 3 },
    Word { word: "foo", whitespace: "  ", penalty: "-", width: 4 },
];

/// A copy equals its word; words that differ in one field are not equal.
#[test]
fn words_are_copied_and_compared_by_all_fields(rt: HostRuntime) {
    let word = WORD;
    let copy = word;
    assert_row(&rt, word, word == copy);
    for other in OTHERS {
        assert_row(&rt, *other, word != *other);
    }
}
