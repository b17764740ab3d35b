//! Where words may be split after their hyphens.
ghost use Rattle.std.specs.Prelude.{◌≡◌, ◌<◌, length, IfOk};
ghost use Rattle.textwrap_words.specs.Cuts.{AreCuts};
ghost use Rattle.textwrap_words.specs.WordSplitters.{is_alphanumeric};
ghost use Rattle.textwrap_words.specs.WordSplitters.{is_hyphen_point, hyphen_points};

use std::alloc::{AllocError, Allocator};
use unicode::properties::{GeneralCategory, GeneralCategoryGroup, is_alphabetic};

/// The offsets after the hyphens between alphanumeric characters.
pub(super) fn hyphen_points<A: Allocator>(alloc: A, word: &str) -> Result<Vec<usize, A>, AllocError>
    ensures points { IfOk result (λ points. points.items ≡ hyphen_points word.now) }
    ensures cuts { IfOk result (λ points. AreCuts word.now points.items) }
{
    let mut points = Vec::new(alloc);
    if !word.as_bytes().contains(&b'-') {
        return Ok(points);
    }
    for point in 1..word.len() {
        if is_hyphen_point(word, point) {
            points.push(point)?;
        }
    }
    Ok(points)
}

/// Whether a hyphen between alphanumeric characters ends at the offset, which is inside the word.
pub(crate) fn is_hyphen_point(word: &str, point: usize) -> bool
    requires after_start { 0 < point }
    requires before_end { point < length word.now }
    ensures point { result ≡ is_hyphen_point word.now point }
{
    if word.as_bytes()[point - 1] != b'-' {
        return false;
    }
    let before = word[..point - 1].chars().next_back();
    let after = word[point..].chars().next();
    before.is_some_and(is_alphanumeric) && after.is_some_and(is_alphanumeric)
}

/// Whether a character is Alphabetic or a number (general category Nd, Nl or No).
fn is_alphanumeric(ch: char) -> bool
    ensures { result ≡ is_alphanumeric ch }
{
    is_alphabetic(ch) || GeneralCategoryGroup::Number.contains(GeneralCategory::for_char(ch))
}
