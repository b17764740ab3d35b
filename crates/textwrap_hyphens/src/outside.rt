//! Words, split behind hyphens of their own, but within no escape sequence.
ghost use Rattle.std.specs.Prelude.{◌≡◌, IfOk, chars, filter};
ghost use Rattle.std.specs.List.{fold};
ghost use Rattle.textwrap_words.specs.Cuts.{AreCuts, AreInnerCuts};
ghost use Rattle.textwrap_hyphens.specs.Outside.{hyphens_outside, is_outside};
ghost use Rattle.textwrap_text.specs.Escapes.{next_of};

use std::alloc::{AllocError, Allocator};
use textwrap_text::escapes::State;
use textwrap_words::word_splitters::WordSplitter;

/// The offsets in bytes, in order, behind each hyphen between alphanumeric characters that stands within
/// no escape sequence: of `"\x1b]8;;x-y\x1b\\b-c\x1b]8;;\x1b\\"`, which is a link, 12 alone.
///
/// # Errors
/// [`AllocError`] where memory runs out.
pub fn hyphens_outside<A: Allocator + Copy>(
    alloc: A,
    word: &str,
) -> Result<Vec<usize, A>, AllocError>
    ensures points { IfOk result (λ points. points.items ≡ hyphens_outside word.now) }
    ensures cuts { IfOk result (λ points. AreCuts word.now points.items) }
{
    let hyphens = WordSplitter::HyphenSplitter.split_points(alloc, word)?;
    if hyphens.is_empty() || !word.as_bytes().contains(&0x1B) {
        return Ok(hyphens);
    }
    only_outside(alloc, word, &hyphens)
}

/// Those of these points that stand within no escape sequence.
fn only_outside<A: Allocator>(
    alloc: A,
    word: &str,
    points: &[usize],
) -> Result<Vec<usize, A>, AllocError>
    requires { AreInnerCuts word.now points.now }
    ensures { IfOk result (λ outside. outside.items ≡ filter (is_outside word.now) points.now) }
{
    let mut outside = Vec::new(alloc);
    let mut state = State::Text;
    let mut read = 0;
    for point in points {
        state = state_behind(state, &word[read..*point]);
        read = *point;
        if matches!(state, State::Text) {
            outside.push(read)?;
        }
    }
    Ok(outside)
}

/// The state behind a text before which it was this one.
fn state_behind(state: State, text: &str) -> State
    ensures { result ≡ fold next_of state (chars text.now) }
{
    let mut state = state;
    for ch in text.chars() {
        (state, _) = state.step(ch);
    }
    state
}
