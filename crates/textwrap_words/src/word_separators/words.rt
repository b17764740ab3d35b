//! The words of a line, one after the other.
ghost use Rattle.std.specs.Prelude.{◌≡◌, ℕ, ◌-◌, ◌<◌, List, IfOk, map};
ghost use Rattle.std.specs.Iterator.{YieldsFirstBy, item_count};
ghost use Rattle.textwrap_words.specs.Words.{Tiles, WordText, word_view, word_of, words_of, chunks};
ghost use Rattle.textwrap_words.specs.Cuts.{AreCuts, AreInnerCuts, parts_between};
ghost use Rattle.textwrap_words.specs.WordSeparators.{MayCut};
ghost use Rattle.textwrap_words.specs.WordsLeft.{words_left};

use super::line_cuts::LineCuts;
use crate::words::Word;
use std::alloc::{AllocError, Allocator};
use std::marker::Model;
use std::vec;
use textwrap_text::chunks::Chunks;

/// The words of a line, one after the other: of `"foo bar"` these are `"foo "` and `"bar"`. Those at
/// a caller's cuts were found beforehand and lie in memory of `A`. To contracts it is the list of
/// the words to come.
#[derive(Debug, Drop)]
pub struct Words<'a, A: Allocator> {
    source: Source<'a, A>,
}

/// Where the words to come are taken from.
#[derive(Debug, Drop)]
enum Source<'a, A: Allocator> {
    /// What is left of a line that is cut at its blanks.
    Line(Chunks<'a>),
    /// What is left of the words that were found.
    Found(vec::IntoIter<Word<'a>, A>),
}

impl<'a, A: Allocator> Words<'a, A> {
    /// The words of a line that is cut at its blanks.
    pub(crate) fn of_line(line: &'a str) -> Words<'a, A>
        ensures { result ≡ words_of line.now }
    {
        Words {
            source: Source::Line(Chunks::of(line)),
        }
    }

    /// The words of a line that is cut where the caller's function says.
    ///
    /// # Errors
    /// Out of memory, also where the function says so.
    pub(super) fn at_cuts(
        alloc: A,
        line: &'a str,
        line_cuts: LineCuts,
    ) -> Result<Words<'a, A>, AllocError>
        ensures words { IfOk result (λ words. (cuts : List ℕ) × MayCut line_cuts line.now cuts
            × (words ≡ map word_of (parts_between cuts line.now))) }
        ensures tiles { IfOk result (λ words. Tiles words line.now) }
    {
        let cuts = given_cuts(line_cuts, line)?;
        let words = words_between(alloc, line, &cuts)?;
        Ok(Words {
            source: Source::Found(words.into_iter()),
        })
    }
}

/// Where the function of a caller cuts a line.
///
/// # Errors
/// [`AllocError`] where memory runs out, or the function says so.
pub fn given_cuts(line_cuts: LineCuts, line: &str) -> Result<Vec<usize>, AllocError>
    ensures given { IfOk result (λ cuts. MayCut line_cuts line.now cuts.items) }
    ensures inner { IfOk result (λ cuts. AreInnerCuts line.now cuts.items) }
{
    let cuts = (line_cuts.function)(line_cuts.alloc, line)?;
    Ok(cuts)
}

/// The parts of a line between these cuts, each as a word.
pub fn words_between<'a, A: Allocator>(
    alloc: A,
    line: &'a str,
    cuts: &[usize],
) -> Result<Vec<Word<'a>, A>, AllocError>
    requires { AreCuts line.now cuts.now }
    ensures { IfOk result (λ words.
        map word_view words.items ≡ map word_of (parts_between cuts.now line.now)) }
{
    let mut words = Vec::new(alloc);
    if line.is_empty() {
        return Ok(words);
    }
    let mut start = 0;
    for cut in cuts {
        words.push(Word::from(&line[start..*cut]))?;
        start = *cut;
    }
    words.push(Word::from(&line[start..]))?;
    Ok(words)
}

impl<'a, A: Allocator> Model for Words<'a, A> {
    ghost Value = { List WordText };

    ghost view = { λ words. words_left words.source };
}

impl<'a, A: Allocator> Iterator for Words<'a, A> {
    type Item = Word<'a>;

    ghost next_gives = { YieldsFirstBy word_view (λ words. words) };

    ghost remaining = { item_count (λ words. words) };

    fn next(&mut self) -> Option<Word<'a>> {
        match &mut self.source {
            Source::Line(chunks) => chunks.next().map(Word::from),
            Source::Found(words) => words.next(),
        }
    }
}
