//! Patterns at whose hyphen letters change, as libhyphen has them: `c1k/k=k`.
ghost use Rattle.std.specs.Prelude.{◌≡◌, ◌≤◌, ◌<◌, ◌-◌, length, true, IfOk, IfSome};
ghost use Rattle.textwrap_patterns.specs.Changes.{barred_at, barred_from, before, dots, has_comma};
ghost use Rattle.textwrap_patterns.specs.Changes.{has_equals, number_of, region_at, region_said};
ghost use Rattle.textwrap_patterns.specs.Changes.{text_before, text_behind, without_changes};
ghost use Rattle.textwrap_patterns.specs.Listed.{pattern_view};
ghost use Rattle.textwrap_patterns.specs.Written.{is_digit};

use crate::patterns::Pattern;
use crate::written::is_digit;
use std::alloc::{AllocError, Allocator};

/// The places before, between and behind letters that change.
#[derive(Clone, Copy, Debug)]
pub struct Region {
    /// The first place, behind so many letters.
    pub first: usize,
    /// The last place.
    pub last: usize,
}

/// Where the letters of a pattern change, by what stands behind its slash.
pub fn region_said(letters: &[char], change: &[char]) -> Option<Region>
    ensures { result ≡ region_said letters.now change.now }
{
    if !has_equals(text_before(change, ',')) {
        return None;
    }
    if has_comma(change) {
        let numbers = text_behind(change, ',');
        let from = number_of(text_before(numbers, ','));
        let count = number_of(text_before(text_behind(numbers, ','), ','));
        return region_at(dots(letters), from, count);
    }
    Some(Region {
        first: 0,
        last: letters.len(),
    })
}

fn region_at(dots: usize, from: Option<usize>, count: Option<usize>) -> Option<Region>
    requires dots { dots ≤ 1 }
    requires from { IfSome from (λ n. n < 100) }
    requires count { IfSome count (λ n. n < 100) }
    ensures { result ≡ region_at dots from count }
{
    let first = dots + from?.saturating_sub(1);
    Some(Region {
        first,
        last: first + count?,
    })
}

/// How many dots stand in front of letters: one, or none.
fn dots(letters: &[char]) -> usize
    ensures dots { result ≡ dots letters.now }
    ensures few { result ≤ 1 }
{
    match letters {
        ['.', ..] => 1,
        _ => 0,
    }
}

fn has_equals(text: &[char]) -> bool
    ensures { result ≡ has_equals text.now }
{
    text.iter().any(|ch| *ch == '=')
}

fn has_comma(text: &[char]) -> bool
    ensures { result ≡ has_comma text.now }
{
    text.iter().any(|ch| *ch == ',')
}

/// The number of one digit or two.
fn number_of(digits: &[char]) -> Option<usize>
    ensures number { result ≡ number_of digits.now }
    ensures small { IfSome result (λ n. n < 100) }
{
    match digits {
        [one] if is_digit(*one) => Some(digit_of(*one)),
        [ten, one] if is_digit(*ten) && is_digit(*one) => {
            Some(10 * digit_of(*ten) + digit_of(*one))
        }
        _ => None,
    }
}

fn digit_of(ch: char) -> usize
    requires { is_digit ch ≡ true }
    ensures digit { result ≡ ch - 0x30 }
    ensures small { result < 10 }
{
    (ch as u32 - 0x30) as usize
}

/// What stands before the first of a sign.
pub fn text_before(text: &[char], sign: char) -> &[char]
    ensures { result.now ≡ text_before sign text.now }
{
    &text[..find(text, sign)]
}

/// What stands behind the first of a sign.
pub fn text_behind(text: &[char], sign: char) -> &[char]
    ensures { result.now ≡ text_behind sign text.now }
{
    match &text[find(text, sign)..] {
        [_, rest @ ..] => rest,
        none => none,
    }
}

/// Where a character stands first, else the length.
pub fn find(characters: &[char], wanted: char) -> usize
    ensures at { result ≡ before wanted characters.now }
    ensures within { result ≤ length characters.now }
{
    for (i, ch) in characters.iter().enumerate() {
        if *ch == wanted {
            return i;
        }
    }
    characters.len()
}

/// A pattern that allows no hyphen where letters would change.
pub fn without_changes<A: Allocator + Copy>(
    alloc: A,
    pattern: Pattern<A>,
    region: Region,
) -> Result<Pattern<A>, AllocError>
    ensures { IfOk result (λ made. pattern_view made ≡ without_changes region (pattern_view pattern)) }
{
    let levels = barred_levels(alloc, &pattern.levels, region)?;
    Ok(Pattern {
        letters: pattern.letters,
        levels,
    })
}

fn barred_levels<A: Allocator>(
    alloc: A,
    levels: &[u8],
    region: Region,
) -> Result<Vec<u8, A>, AllocError>
    ensures levels { IfOk result (λ barred. barred.items ≡ barred_from region 0 levels.now) }
    ensures count { IfOk result (λ barred. length barred.items ≡ length levels.now) }
{
    let mut barred = Vec::new(alloc);
    for (place, level) in levels.iter().enumerate() {
        barred.push(barred_at(region, place, *level))?;
    }
    Ok(barred)
}

fn barred_at(region: Region, place: usize, level: u8) -> u8
    ensures { result ≡ barred_at region place level }
{
    if region.first <= place && place <= region.last && level < 10 {
        level + level % 2
    } else {
        level
    }
}
