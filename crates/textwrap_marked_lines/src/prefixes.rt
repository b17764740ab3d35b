//! The prefix of a line: where its parts end.
ghost use Rattle.std.specs.Prelude.{◌≡◌, ◌+◌, ◌≤◌, ◌<◌, true, false, length, drop, MatchOption};
ghost use Rattle.textwrap_marked_lines.specs.Prefixes.{begins_box, bullets_len, comment_len, is_box};
ghost use Rattle.textwrap_marked_lines.specs.Prefixes.{lead_len, prefix_ends, quotes_len};
ghost use Rattle.textwrap_marks.specs.Words.{spaced_view, spaced_words};

use textwrap_marks::marks::{is_bullet, is_quote};
use textwrap_marks::options::ReflowOptions;
use textwrap_marks::signs::first_word;
use textwrap_marks::words::{SpacedWord, SpacedWords, split_first, split_words};

/// Where the parts of a prefix end, in words: the white before all words, the comment mark, the
/// quote marks, which end the margin, and the bullets, behind which the text begins.
#[derive(Clone, Copy, Debug)]
pub struct PrefixEnds {
    pub lead: usize,
    pub comment: usize,
    pub margin: usize,
    pub text: usize,
}

/// Where the parts of the prefix of a line end.
#[tactic(auto, using(textwrap_marks::proofs::WordCuts::words_fewer))]
pub fn prefix_ends(text: &str, in_block: bool, options: &ReflowOptions<'_>) -> PrefixEnds
    ensures ends { result ≡ prefix_ends options.now in_block (spaced_words text.now) }
    ensures lead { result.lead ≤ result.comment }
    ensures comment { result.comment ≤ result.margin }
    ensures margin { result.margin ≤ result.text }
    ensures within { result.text ≤ length (spaced_words text.now) }
{
    let lead = lead_len(text);
    let (_, behind) = split_words(text, lead);
    let comment = lead + comment_len(behind, in_block, options);
    let (_, behind) = split_words(text, comment);
    let margin = comment + quotes_len(behind);
    let (_, behind) = split_words(text, margin);
    let text = margin + bullets_len(behind);
    PrefixEnds {
        lead,
        comment,
        margin,
        text,
    }
}

/// How many words are the white before all words.
#[tactic(auto, using(textwrap_marks::proofs::WordCuts::words_some, crate::proofs::FirstWords::lead_is))]
fn lead_len(text: &str) -> usize
    ensures len { result ≡ lead_len (spaced_words text.now) }
    ensures within { result ≤ length (spaced_words text.now) }
{
    if !text.is_empty() & first_word(text).is_empty() {
        1
    } else {
        0
    }
}

/// How many words are a comment mark: at most one.
fn comment_len(text: &str, in_block: bool, options: &ReflowOptions<'_>) -> usize
    ensures len { result ≡ comment_len options.now in_block (spaced_words text.now) }
    ensures within { result ≤ length (spaced_words text.now) }
{
    if text.is_empty() {
        return 0;
    }
    if options.is_comment_at(in_block, first_word(text)) {
        1
    } else {
        0
    }
}

/// How many words are quote marks.
#[tactic(auto, using(textwrap_marks::proofs::WordCuts::words_fewer))]
fn quotes_len(text: &str) -> usize
    ensures len { result ≡ quotes_len (spaced_words text.now) }
    ensures within { result ≤ length (spaced_words text.now) }
{
    let mut len = 0;
    for word in SpacedWords::of(text) {
        if !is_quote(word.word) {
            return len;
        }
        len += 1;
    }
    len
}

/// How many words are bullets. An empty box is one of two words.
#[tactic(auto, using(textwrap_marks::proofs::WordCuts::words_fewer))]
fn bullets_len(text: &str) -> usize
    ensures len { result ≡ bullets_len (spaced_words text.now) }
    ensures within { result ≤ length (spaced_words text.now) }
{
    let mut len = 0;
    let mut rest = text;
    while !rest.is_empty() {
        let (word, behind) = split_first(rest);
        if is_bullet(word.word) {
            len += 1;
            rest = behind;
        } else if let Some(later) = behind_box(&word, behind) {
            len += 2;
            rest = later;
        } else {
            return len;
        }
    }
    len
}

/// What follows an empty box, where a word and the next one are one.
fn behind_box<'t>(word: &SpacedWord<'_>, behind: &'t str) -> Option<&'t str>
    ensures { MatchOption result (begins_box (spaced_view word.now) (spaced_words behind.now) ≡ false)
        (λ later. (begins_box (spaced_view word.now) (spaced_words behind.now) ≡ true)
        × (spaced_words later.now ≡ drop 1 (spaced_words behind.now))
        × (length later.now < length behind.now)) }
{
    if behind.is_empty() {
        return None;
    }
    let (second, later) = split_first(behind);
    if is_box(word, &second) {
        Some(later)
    } else {
        None
    }
}

/// Whether two words are an empty box: `[ ]`.
fn is_box(first: &SpacedWord<'_>, second: &SpacedWord<'_>) -> bool
    ensures { result ≡ is_box (spaced_view first.now) (spaced_view second.now) }
{
    (first.word == "[") & (first.white == " ") & (second.word == "]")
}
