//! The words of a line at offsets.
use super::given::{assert_found, has_words};
use super::plain::plain_find_words_at;

#[rattlefmt::skip]
const LINES_AT_OFFSETS: &[(&str, &[usize], &[&str])] = &[
    ("", &[], &[]),
    ("", &[0], &[]),
    ("foo bar", &[], &["foo bar"]),
    ("foo bar", &[0, 4, 7], &["foo ", "bar"]),
    // Nothing is cut after hyphens, and an offset at the end says nothing of those before it.
    ("foo bar-", &[4, 8], &["foo ", "bar-"]),
    ("foo bar-", &[8], &["foo bar-"]),
    ("a-b c", &[2, 4], &["a-b ", "c"]),
    ("a\u{ad}b", &[3], &["a\u{ad}b"]),
    ("éa", &[2], &["é", "a"]),
    ("안녕", &[3, 6], &["안", "녕"]),
    // Escape sequences are not counted, and go to the next word.
    ("a\x1b[1mb", &[1], &["a", "\x1b[1mb"]),
    ("\x1b[1mab", &[1], &["\x1b[1ma", "b"]),
    ("\x1b[1mab", &[0, 2], &["\x1b[1mab"]),
    ("ab\x1b[0m", &[1, 2], &["a", "b\x1b[0m"]),
    ("\x1b[1m\x1b[0m", &[0], &["\x1b[1m\x1b[0m"]),
    ("foo \x1b]8;;u-v w\x1b\\bar", &[4], &["foo ", "\x1b]8;;u-v w\x1b\\bar"]),
    ("a-\x1b[1mb", &[2], &["a-\x1b[1mb"]),
    ("a \x1b[12", &[1], &["a", " \x1b[12"]),
    // All offsets that a text has.
    ("ab", &[0, 1, 2], &["a", "b"]),
    ("a b", &[0, 1, 2, 3], &["a", " ", "b"]),
    ("\u{301}あ\u{301}", &[0, 2, 5, 7], &["\u{301}", "あ", "\u{301}"]),
    // A sequence that is cut short is not counted either.
    ("ab\x1b[3", &[0, 1, 2], &["a", "b\x1b[3"]),
    ("a\x1bbc", &[1, 2], &["a", "\x1bbc"]),
    ("\x1b]0;ta", &[0], &["\x1b]0;ta"]),
    // One character may be cut at all offsets of its visible text, and is one word.
    ("\u{301}", &[0, 2], &["\u{301}"]),
    ("\u{200d}", &[0, 3], &["\u{200d}"]),
    ("\u{ad}", &[0, 2], &["\u{ad}"]),
    ("\x07", &[0, 1], &["\x07"]),
    ("\t", &[0, 1], &["\t"]),
    ("\n", &[0, 1], &["\n"]),
    ("\r\n", &[0, 2], &["\r\n"]),
    ("\x1b", &[0], &["\x1b"]),
    ("a", &[0, 1], &["a"]),
    ("é", &[0, 2], &["é"]),
    ("-", &[0, 1], &["-"]),
    ("\u{a0}", &[0, 2], &["\u{a0}"]),
    (" ", &[0, 1], &[" "]),
    ("あ", &[0, 3], &["あ"]),
    ("\u{17d8}", &[0, 3], &["\u{17d8}"]),
];

/// At offsets, which count its text without escape sequences, a line is cut right after the visible
/// character that ends there; not at its ends, and not after a hyphen or a soft hyphen.
#[test]
fn lines_are_cut_at_offsets_of_their_visible_text(rt: HostRuntime) {
    for &(line, offsets, texts) in LINES_AT_OFFSETS {
        let words = plain_find_words_at(&rt, rt.alloc(), line, offsets);
        assert_found(&rt, line, has_words(words, texts));
    }
}
