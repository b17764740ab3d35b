//! Functions of a caller, which say where words and lines end, and a test of lines: what several
//! tests share.
ghost use Rattle.std.specs.Prelude.{◌≡◌, ℕ, ◌+◌, ◌<◌, ◌==◌, [], ◌∷◌, length, map, IfOk, OnOk};
ghost use Rattle.std.specs.Prelude.{codes, false, IsTrue, if◌then◌else◌, Contains, IsCharBoundary};
ghost use Rattle.std.specs.List.{range_with_len};
ghost use Rattle.std.specs.Str.{bytes_eq};
ghost use Rattle.textwrap.specs.Cuts.{AreCuts, AreInnerCuts, AreNext};
ghost use Rattle.textwrap.specs.LineEnds.{AreEnds, IsNextEnd};
ghost use Rattle.textwrap_vectors.specs.Given.{only_of, only_for, wide_line};

use std::alloc::{AllocError, Global};
use std::borrow::CowStr;
use textwrap::words::Word;

/// These cuts of this text, and none of another.
fn cuts_of(alloc: Global, text: &str, cuts: &[usize], line: &str) -> Result<Vec<usize>, AllocError>
    requires { AreInnerCuts text.now cuts.now }
    ensures cuts { IfOk result (λ found. found.items ≡ only_of text.now cuts.now line.now) }
    ensures inner { IfOk result (λ found. AreInnerCuts line.now found.items) }
{
    if line == text {
        return Vec::from_slice(alloc, cuts);
    }
    Ok(Vec::new(alloc))
}

/// These ends of so many words, and none of fewer or more.
fn ends_of(
    alloc: Global,
    count: usize,
    ends: &[usize],
    words: &[Word<'_>],
) -> Result<Vec<usize>, AllocError>
    requires { AreNext (IsNextEnd count) ends.now 0 }
    ensures ends { IfOk result (λ found. found.items ≡ only_for count ends.now words.now) }
    ensures are { IfOk result (λ found. AreEnds words.now found.items) }
{
    if words.len() == count {
        return Vec::from_slice(alloc, ends);
    }
    Ok(Vec::new(alloc))
}

/// Cuts `foobar` in its middle, and no other line.
pub fn cut_foobar(alloc: Global, line: &str) -> Result<Vec<usize>, AllocError>
    ensures cuts { IfOk result (λ cuts. cuts.items ≡ only_of (codes "foobar") (3 ∷ []) line.now) }
    ensures inner { IfOk result (λ cuts. AreInnerCuts line.now cuts.items) }
{
    cuts_of(alloc, "foobar", &[3], line)
}

/// Cuts no line.
pub fn cut_nowhere(alloc: Global, line: &str) -> Result<Vec<usize>, AllocError>
    ensures cuts { IfOk result (λ cuts. cuts.items ≡ []) }
    ensures inner { IfOk result (λ cuts. AreInnerCuts line.now cuts.items) }
{
    cuts_of(alloc, line, &[], line)
}

/// Cuts `abcde` and `안 b` between each two characters, and no other line.
pub fn cut_everywhere(alloc: Global, line: &str) -> Result<Vec<usize>, AllocError>
    ensures cuts { IfOk result (λ cuts. cuts.items ≡ (if bytes_eq line.now wide_line
        then 3 ∷ 4 ∷ [] else only_of (codes "abcde") (1 ∷ 2 ∷ 3 ∷ 4 ∷ []) line.now)) }
    ensures inner { IfOk result (λ cuts. AreInnerCuts line.now cuts.items) }
{
    if line == "안 b" {
        return cuts_of(alloc, "안 b", &[3, 4], line);
    }
    cuts_of(alloc, "abcde", &[1, 2, 3, 4], line)
}

/// Refuses `baz`, and cuts no other line.
pub fn refuse_line(alloc: Global, line: &str) -> Result<Vec<usize>, AllocError>
    ensures cuts { IfOk result (λ cuts. cuts.items ≡ []) }
    ensures inner { IfOk result (λ cuts. AreInnerCuts line.now cuts.items) }
    ensures refused { OnOk result (bytes_eq line.now (codes "baz") ≡ false) }
{
    if line == "baz" {
        return Err(AllocError);
    }
    cut_nowhere(alloc, line)
}

/// Splits `foobar` and `fo-bar` in the middle, and no other word.
pub fn split_in_middle(alloc: Global, word: &str) -> Result<Vec<usize>, AllocError>
    ensures points { IfOk result (λ points. points.items ≡ (if bytes_eq word.now (codes "fo-bar")
        then 3 ∷ [] else only_of (codes "foobar") (3 ∷ []) word.now)) }
    ensures cuts { IfOk result (λ points. AreCuts word.now points.items) }
{
    if word == "fo-bar" {
        return cuts_of(alloc, "fo-bar", &[3], word);
    }
    cut_foobar(alloc, word)
}

/// Refuses `baz`, and splits no other word.
pub fn refuse_word(alloc: Global, word: &str) -> Result<Vec<usize>, AllocError>
    ensures points { IfOk result (λ points. points.items ≡ []) }
    ensures cuts { IfOk result (λ points. AreCuts word.now points.items) }
    ensures refused { OnOk result (bytes_eq word.now (codes "baz") ≡ false) }
{
    refuse_line(alloc, word)
}

/// Cuts a line before each of its characters but the first.
pub fn cut_characters(alloc: Global, line: &str) -> Result<Vec<usize>, AllocError>
    ensures all { IfOk result (λ cuts. (place : ℕ) → 0 < place → place < length line.now
        → IsCharBoundary line.now place → Contains cuts.items place) }
    ensures inner { IfOk result (λ cuts. AreInnerCuts line.now cuts.items) }
{
    let mut cuts = Vec::new(alloc);
    for place in 1..line.len() {
        if line.is_char_boundary(place) {
            cuts.push(place)?;
        }
    }
    Ok(cuts)
}

/// Splits a word before each of its characters but the first.
pub fn split_characters(alloc: Global, word: &str) -> Result<Vec<usize>, AllocError>
    ensures all { IfOk result (λ points. (place : ℕ) → 0 < place → place < length word.now
        → IsCharBoundary word.now place → Contains points.items place) }
    ensures cuts { IfOk result (λ points. AreCuts word.now points.items) }
{
    cut_characters(alloc, word)
}

/// Ends a line after each word.
pub fn end_each(
    alloc: Global,
    words: &[Word<'_>],
    _line_widths: &[usize],
) -> Result<Vec<usize>, AllocError>
    ensures ends { IfOk result (λ ends. ends.items
        ≡ map (λ before. before + 1) (range_with_len 0 (length words.now))) }
    ensures are { IfOk result (λ ends. AreEnds words.now ends.items) }
{
    let mut ends = Vec::new(alloc);
    for before in 0..words.len() {
        ends.push(before + 1)?;
    }
    Ok(ends)
}

/// Ends lines of six words after the first, the third and the last of them.
pub fn end_all(
    alloc: Global,
    words: &[Word<'_>],
    _line_widths: &[usize],
) -> Result<Vec<usize>, AllocError>
    ensures ends { IfOk result (λ ends. ends.items ≡ only_for 6 (1 ∷ 3 ∷ 6 ∷ []) words.now) }
    ensures are { IfOk result (λ ends. AreEnds words.now ends.items) }
{
    ends_of(alloc, 6, &[1, 3, 6], words)
}

/// Ends lines of six words after the first and the third; later words are in no line.
pub fn end_early(
    alloc: Global,
    words: &[Word<'_>],
    _line_widths: &[usize],
) -> Result<Vec<usize>, AllocError>
    ensures ends { IfOk result (λ ends. ends.items ≡ only_for 6 (1 ∷ 3 ∷ []) words.now) }
    ensures are { IfOk result (λ ends. AreEnds words.now ends.items) }
{
    ends_of(alloc, 6, &[1, 3], words)
}

/// Gives no line.
pub fn end_nowhere(
    alloc: Global,
    words: &[Word<'_>],
    _line_widths: &[usize],
) -> Result<Vec<usize>, AllocError>
    ensures ends { IfOk result (λ ends. ends.items ≡ []) }
    ensures are { IfOk result (λ ends. AreEnds words.now ends.items) }
{
    ends_of(alloc, words.len(), &[], words)
}

/// Ends two lines after the first of six words, so that the second line is empty.
pub fn end_twice(
    alloc: Global,
    words: &[Word<'_>],
    _line_widths: &[usize],
) -> Result<Vec<usize>, AllocError>
    ensures ends { IfOk result (λ ends. ends.items ≡ only_for 6 (1 ∷ 1 ∷ 6 ∷ []) words.now) }
    ensures are { IfOk result (λ ends. AreEnds words.now ends.items) }
{
    ends_of(alloc, 6, &[1, 1, 6], words)
}

/// Refuses words that begin with `baz`, and gives all others one line.
pub fn refuse_words(
    alloc: Global,
    words: &[Word<'_>],
    _line_widths: &[usize],
) -> Result<Vec<usize>, AllocError>
    ensures ends { IfOk result (λ ends. ends.items ≡ length words.now ∷ []) }
    ensures are { IfOk result (λ ends. AreEnds words.now ends.items) }
{
    if words.first().is_some_and(|word| word.word == "baz") {
        return Err(AllocError);
    }
    ends_of(alloc, words.len(), &[words.len()], words)
}

/// Whether the lines have these texts, each line a part of the text that was wrapped.
pub fn are_borrowed(lines: &[CowStr<'_>], expected: &[&str]) -> bool
    ensures count { IsTrue result → length lines.now ≡ length expected.now }
{
    for (line, expected) in lines.iter().zip(expected) {
        if !matches!(line, CowStr::Borrowed(_)) || line.as_str() != *expected {
            return false;
        }
    }
    lines.len() == expected.len()
}
