//! The points at which a dictionary has a hyphen.
ghost use Rattle.std.specs.List.{list_any};
ghost use Rattle.std.specs.Prelude.{◌≡◌, ℕ, ◌++◌, ◌+◌, ◌<◌, ◌≤◌, ◌&&◌, All, List, length, map, not, take};
ghost use Rattle.std.specs.Prelude.{slice_index, IfOk, OnOk};
ghost use Rattle.textwrap_hyphens.specs.Hyphenation.{is_allowed, is_far, is_place, joints_of, part};
ghost use Rattle.textwrap_hyphens.specs.Hyphenation.{part_places, places_from, places_of, first_levels};
ghost use Rattle.textwrap_hyphens.specs.Levels.{dot, dotted, levels_of};
ghost use Rattle.textwrap_hyphens.specs.Points.{hyphenation_points, is_behind_soft, pattern_points};
ghost use Rattle.textwrap_hyphens.specs.Points.{points_at, points_in, points_past, soft_places, soft_points};
ghost use Rattle.textwrap_hyphens.specs.Table.{held};
ghost use Rattle.textwrap_patterns.specs.Letters.{is_hyphen_character, letters_of};
ghost use Rattle.textwrap_patterns.specs.Places.{AreInnerPlaces};
ghost use Rattle.textwrap_words.specs.Cuts.{AreInnerCuts};

use crate::levels::{is_odd, joints, levels, raise_all};
use crate::table::PatternTable;
use std::alloc::{AllocError, Allocator};
use textwrap_patterns::letters::{
    Letter, counts, has_letters, is_hyphen, is_letter, letters_of, put_letters, run_len,
};

/// For so many letters there is room that needs no memory.
const ROOM: usize = 32;

/// The offsets in bytes at which a word has a hyphen by a dictionary. They increase, inside the
/// word, and are character boundaries.
///
/// Each longest run of letters is a word for itself: of `"(hyphenation),"` the letters between the
/// parentheses. An apostrophe (U+0027 or U+2019) between letters does not end it. Soft hyphens
/// (U+00AD) and escape sequences (ECMA-48) are left out, so the letters beside them stand next to
/// each other; a table may take soft hyphens for the only points, by [`PatternTable::soft_hyphens`]. A
/// word with a hyphen (`-` or U+2010) has no points, unless the dictionary is asked
/// for its parts. No point that patterns give stands before a combining mark or beside an
/// apostrophe.
///
/// # Errors
/// [`AllocError`] where memory runs out.
pub fn points<A: Allocator + Copy>(
    alloc: A,
    word: &str,
    patterns: &PatternTable<'_>,
) -> Result<Vec<usize, A>, AllocError>
    ensures points { IfOk result (λ points. points.items
        ≡ hyphenation_points (held patterns.now) word.now) }
    ensures cuts { IfOk result (λ points. AreInnerCuts word.now points.items) }
{
    found_points(alloc, word, patterns)
}

/// The points of soft hyphens, else those of the patterns.
fn found_points<A: Allocator + Copy>(
    alloc: A,
    word: &str,
    patterns: &PatternTable<'_>,
) -> Result<Vec<usize, A>, AllocError>
    ensures { IfOk result (λ points. points.items ≡ hyphenation_points (held patterns.now) word.now) }
{
    let mut room = [Letter { at: 0, ch: '.' }; ROOM];
    if let Some(count) = put_letters(word, &mut room) {
        return points_of(alloc, word.as_bytes(), &room[..count], patterns);
    }
    let letters = letters_of(alloc, word)?;
    points_of(alloc, word.as_bytes(), &letters, patterns)
}

/// The same for a word whose letters are known.
fn points_of<A: Allocator + Copy>(
    alloc: A,
    word: &[u8],
    letters: &[Letter],
    patterns: &PatternTable<'_>,
) -> Result<Vec<usize, A>, AllocError>
    requires { letters.now ≡ letters_of word.now }
    ensures { IfOk result (λ points. points.items ≡ hyphenation_points (held patterns.now) word.now) }
{
    let points = soft_points(alloc, word, letters, patterns)?;
    if !points.is_empty() {
        return Ok(points);
    }
    pattern_points(alloc, letters, patterns)
}

/// The points that soft hyphens give, if they are asked for.
fn soft_points<A: Allocator + Copy>(
    alloc: A,
    word: &[u8],
    letters: &[Letter],
    patterns: &PatternTable<'_>,
) -> Result<Vec<usize, A>, AllocError>
    ensures { IfOk result (λ points. points.items ≡ soft_points (held patterns.now) word.now letters.now) }
{
    let mut points = Vec::new(alloc);
    if patterns.has_soft_hyphens() {
        let places = soft_places(alloc, word, letters)?;
        push_begins(&mut points, letters, &places)?;
    }
    Ok(points)
}

/// Before which letters but the first a soft hyphen stands.
fn soft_places<A: Allocator>(
    alloc: A,
    word: &[u8],
    letters: &[Letter],
) -> Result<Vec<usize, A>, AllocError>
    ensures { IfOk result (λ places. places.items ≡ soft_places word.now letters.now) }
{
    let mut places = Vec::new(alloc);
    for place in 1..letters.len() {
        if is_behind_soft(word, letters[place].at) {
            places.push(place)?;
        }
    }
    Ok(places)
}

/// Whether the bytes of a soft hyphen stand directly before an offset.
fn is_behind_soft(word: &[u8], at: usize) -> bool
    ensures { result ≡ is_behind_soft word.now at }
{
    2 <= at && at <= word.len() && word[at - 2] == 0xc2 && word[at - 1] == 0xad
}

/// The points that the patterns give.
fn pattern_points<A: Allocator + Copy>(
    alloc: A,
    letters: &[Letter],
    patterns: &PatternTable<'_>,
) -> Result<Vec<usize, A>, AllocError>
    ensures { IfOk result (λ points. points.items ≡ pattern_points (held patterns.now) letters.now) }
{
    if is_left_whole(letters, patterns) {
        return Ok(Vec::new(alloc));
    }
    points_of_runs(alloc, letters, patterns)
}

/// Whether a word is left whole, as it has a hyphen and its parts are not asked for.
fn is_left_whole(letters: &[Letter], patterns: &PatternTable<'_>) -> bool
    ensures { result ≡ (not (held patterns.now).in_parts && list_any
        (λ c. is_hyphen_character c.ch) letters.now) }
{
    !patterns.in_parts() && has_hyphen(letters)
}

fn has_hyphen(letters: &[Letter]) -> bool
    ensures { result ≡ list_any (λ c. is_hyphen_character c.ch) letters.now }
{
    letters.iter().any(|letter| is_hyphen(letter.ch))
}

/// The points of the runs of letters.
fn points_of_runs<A: Allocator + Copy>(
    alloc: A,
    letters: &[Letter],
    patterns: &PatternTable<'_>,
) -> Result<Vec<usize, A>, AllocError>
    ensures { IfOk result (λ points. points.items
        ≡ points_past (held patterns.now) 0 letters.now) }
{
    let mut points = Vec::new(alloc);
    let mut at = 0;
    while at < letters.len() {
        if is_letter(letters[at].ch) {
            let end = at + run_len(&letters[at..]);
            push_points(alloc, &mut points, &letters[at..end], patterns)?;
            at = end;
        } else {
            at += 1;
        }
    }
    Ok(points)
}

/// Adds the points of a run of letters.
fn push_points<A: Allocator + Copy>(
    alloc: A,
    points: &mut Vec<usize, A>,
    run: &[Letter],
    patterns: &PatternTable<'_>,
) -> Result<(), AllocError>
    ensures { OnOk result (points.new.items
        ≡ points.old.items ++ points_in (held patterns.now) run.now) }
{
    if run.len() <= ROOM && patterns.joints().is_none() {
        let mut room = ['.'; ROOM + 2];
        put_between(run, &mut room);
        let whole = &room[..run.len() + 2];
        return push_places(points, run, &whole[1..run.len() + 1], whole, patterns);
    }
    let letters = letters_in(alloc, run)?;
    let places = places(alloc, &letters, patterns)?;
    push_begins(points, run, &places)
}

/// Puts the letters of a run between dots.
fn put_between(run: &[Letter], room: &mut [char])
    requires dots { All (λ c. c ≡ dot) room.old }
    requires room { length run.now + 2 ≤ length room.old }
    ensures { take (length run.now + 2) room.new ≡ dotted (map (λ c. c.ch) run.now) }
{
    for (at, letter) in run.iter().enumerate() {
        room[at + 1] = letter.ch;
    }
}

/// The same by a dictionary without joints, for few letters, which stand between two dots: no memory is
/// needed for what is between.
fn push_places<A: Allocator>(
    points: &mut Vec<usize, A>,
    run: &[Letter],
    letters: &[char],
    whole: &[char],
    patterns: &PatternTable<'_>,
) -> Result<(), AllocError>
    requires few { length run.now ≤ ROOM }
    requires letters { letters.now ≡ map (λ c. c.ch) run.now }
    requires whole { whole.now ≡ dotted letters.now }
    requires joints { (text : List ℕ) (place : ℕ) → (held patterns.now).joint_from text place ≡ 0 }
    ensures { OnOk result (points.new.items
        ≡ points.old.items ++ points_in (held patterns.now) run.now) }
{
    if let Some(places) = patterns.exception(letters) {
        return push_begins(points, run, places);
    }
    if !has_letters(letters, patterns.left().saturating_add(patterns.right())) {
        return Ok(());
    }
    let mut room = [0; ROOM + 3];
    // Behind the last place that has enough letters behind it no level is needed.
    let levels = &mut room[..letters.len().saturating_sub(patterns.right()) + 2];
    raise_all(levels, whole, &patterns.patterns());
    push_odd(points, run, letters, levels, patterns)
}

/// Adds where the letters of a run begin that stand behind places of odd levels. These are the levels up
/// to that of the last place which has enough letters behind it.
fn push_odd<A: Allocator>(
    points: &mut Vec<usize, A>,
    run: &[Letter],
    letters: &[char],
    levels: &[usize],
    patterns: &PatternTable<'_>,
) -> Result<(), AllocError>
    requires letters { letters.now ≡ map (λ c. c.ch) run.now }
    requires levels { levels.now ≡ first_levels (held patterns.now) letters.now }
    ensures { OnOk result (points.new.items ≡ points.old.items
        ++ points_at run.now (part_places (held patterns.now) letters.now 0 (length letters.now))) }
{
    for place in 1..letters.len() {
        if is_point(place, letters, levels, patterns) {
            points.push(run[place].at)?;
        }
    }
    Ok(())
}

/// Whether a place of a word without joints is one of its points, by these first levels.
#[inline]
fn is_point(place: usize, letters: &[char], levels: &[usize], patterns: &PatternTable<'_>) -> bool
    requires before { 0 < place }
    requires behind { place < length letters.now }
    requires levels { levels.now ≡ first_levels (held patterns.now) letters.now }
    ensures { result ≡ is_place (held patterns.now) letters.now 0 (length letters.now) place }
{
    if levels.len() <= place + 1 {
        return false;
    }
    is_odd(levels, place) && is_allowed(place, letters, patterns)
}

/// The letters of a run.
fn letters_in<A: Allocator>(alloc: A, run: &[Letter]) -> Result<Vec<char, A>, AllocError>
    ensures { IfOk result (λ letters. letters.items ≡ map (λ c. c.ch) run.now) }
{
    let mut letters = Vec::with_capacity(alloc, run.len())?;
    for letter in run {
        letters.push(letter.ch)?;
    }
    Ok(letters)
}

/// Adds where the letters of a run begin that stand behind these places.
fn push_begins<A: Allocator>(
    points: &mut Vec<usize, A>,
    run: &[Letter],
    places: &[usize],
) -> Result<(), AllocError>
    requires { All (λ place. place < length run.now) places.now }
    ensures { OnOk result (points.new.items ≡ points.old.items
        ++ points_at run.now places.now) }
{
    for place in places {
        points.push(run[*place].at)?;
    }
    Ok(())
}

/// The places of a word of these letters at which a dictionary has a hyphen, each behind so many
/// letters.
///
/// # Errors
/// [`AllocError`] where memory runs out.
pub fn places<A: Allocator + Copy>(
    alloc: A,
    letters: &[char],
    patterns: &PatternTable<'_>,
) -> Result<Vec<usize, A>, AllocError>
    ensures places { IfOk result (λ places. places.items
        ≡ places_of (held patterns.now) letters.now) }
    ensures inner { IfOk result (λ places. AreInnerPlaces (length letters.now) places.items) }
{
    if let Some(places) = patterns.exception(letters) {
        return Vec::from_slice(alloc, places);
    }
    places_by_patterns(alloc, letters, patterns)
}

/// The places that the patterns allow: where compounds are joined, and those of the parts between.
fn places_by_patterns<A: Allocator + Copy>(
    alloc: A,
    letters: &[char],
    patterns: &PatternTable<'_>,
) -> Result<Vec<usize, A>, AllocError>
    ensures places { IfOk result (λ places. places.items
        ≡ places_from (held patterns.now) letters.now 0 (joints_of (held patterns.now) letters.now)) }
    ensures inner { IfOk result (λ places. AreInnerPlaces (length letters.now) places.items) }
{
    // Most words of a text are so short that no place has enough letters on both sides.
    if !has_letters(letters, patterns.left().saturating_add(patterns.right())) {
        return Ok(Vec::new(alloc));
    }
    let joints = joints(alloc, letters, patterns)?;
    places_between(alloc, letters, &joints, patterns)
}

/// These joints, and the places of the parts between them.
fn places_between<A: Allocator + Copy>(
    alloc: A,
    letters: &[char],
    joints: &[usize],
    patterns: &PatternTable<'_>,
) -> Result<Vec<usize, A>, AllocError>
    requires { AreInnerPlaces (length letters.now) joints.now }
    ensures { IfOk result (λ places. places.items
        ≡ places_from (held patterns.now) letters.now 0 joints.now) }
{
    let mut places = Vec::new(alloc);
    let mut from = 0;
    for joint in joints {
        push_part(alloc, &mut places, letters, from, *joint, patterns)?;
        if is_allowed(*joint, letters, patterns) {
            places.push(*joint)?;
        }
        from = *joint;
    }
    push_part(alloc, &mut places, letters, from, letters.len(), patterns)?;
    Ok(places)
}

/// Adds the places of the part of a word between two places.
fn push_part<A: Allocator + Copy>(
    alloc: A,
    places: &mut Vec<usize, A>,
    letters: &[char],
    from: usize,
    to: usize,
    patterns: &PatternTable<'_>,
) -> Result<(), AllocError>
    requires order { from ≤ to }
    requires inside { to ≤ length letters.now }
    ensures { OnOk result (places.new.items
        ≡ places.old.items ++ part_places (held patterns.now) letters.now from to) }
{
    let levels = levels(alloc, &letters[from..to], patterns)?;
    for place in from + 1..to {
        if is_place(place, from, to, letters, &levels, patterns) {
            places.push(place)?;
        }
    }
    Ok(())
}

/// Whether a place of a part of a word has an odd level there, and is far enough from its ends.
#[inline(always)]
fn is_place(
    place: usize,
    from: usize,
    to: usize,
    letters: &[char],
    levels: &[usize],
    patterns: &PatternTable<'_>,
) -> bool
    requires before { from < place }
    requires behind { place < to }
    requires inside { to ≤ length letters.now }
    requires levels { levels.now ≡ levels_of (held patterns.now).level_from (part from to letters.now) }
    ensures { result ≡ is_place (held patterns.now) letters.now from to place }
{
    is_odd(levels, place - from) && is_far(place, from, to, letters, patterns)
}

/// Whether a place of a part of a word has enough letters between it and a joint, and is allowed.
#[inline(always)]
fn is_far(
    place: usize,
    from: usize,
    to: usize,
    letters: &[char],
    patterns: &PatternTable<'_>,
) -> bool
    requires before { from < place }
    requires behind { place < to }
    requires inside { to ≤ length letters.now }
    ensures { result ≡ is_far (held patterns.now) letters.now from to place }
{
    (from == 0 || has_letters(&letters[from..place], patterns.compound_left()))
        && (to == letters.len() || has_letters(&letters[place..to], patterns.compound_right()))
        && is_allowed(place, letters, patterns)
}

/// Whether a place inside a word has enough letters on both sides, no mark behind it, and no
/// apostrophe beside it.
fn is_allowed(place: usize, letters: &[char], patterns: &PatternTable<'_>) -> bool
    requires inside { 0 < place }
    requires end { place < length letters.now }
    ensures { result ≡ is_allowed (held patterns.now) letters.now place }
{
    (letters[place - 1] != '\'')
        & counts(letters[place])
        & has_letters(&letters[..place], patterns.left())
        & has_letters(&letters[place..], patterns.right())
}
