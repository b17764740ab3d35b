//! What changes from one text to another, written as a unified diff: the form that POSIX gives for
//! `diff -u`, which `patch` and `git apply` read.
ghost use Rattle.std.specs.List.{flat_map, list_any};
ghost use Rattle.std.specs.Prelude.{◌≡◌, ◌⊎◌, ◌+◌, ◌<◌, ◌≤◌, ◌++◌, ◌∷◌, ◌^◌, ℕ, [], length, map};
ghost use Rattle.std.specs.Prelude.{drop, take, not, IfOk, IfSome, OnOk, Some};
ghost use Rattle.text_files.specs.Differences.{AreLean, AreSameAt, AreSameOrAll, HasFirstPlaces};
ghost use Rattle.text_files.specs.Differences.{IsDiffText, IsNearIf, IsNearest, IsNearestBefore};
ghost use Rattle.text_files.specs.Differences.{place_in, place_of, ArePushed, head_text};
ghost use Rattle.text_files.specs.Differences.{is_change, is_new, is_old, is_escaped, line_text};
ghost use Rattle.text_files.specs.Differences.{missing_feed, name_text, names_text, quoted_byte};
ghost use Rattle.text_files.specs.Differences.{news, olds, range_text, sign_byte, signed_text};
ghost use Rattle.text_files.specs.Differences.{signed_view, text_lines};

use itoa::Buffer;
use std::alloc::{AllocError, Allocator};
use std::collections::HashMap;
use std::hash::{BuildHasherDefault, FoldHasher};

/// How many lines before and behind a change are shown with it.
const CONTEXT: usize = 3;

/// What becomes of a line.
#[derive(Clone, Copy, Debug, PartialEq, Eq)]
pub enum Sign {
    /// Both texts have it.
    Kept,
    /// The old text has it.
    Removed,
    /// The new text has it.
    Added,
}

/// A line, and what becomes of it.
#[derive(Clone, Copy, Debug)]
pub struct SignedLine<'t> {
    /// What becomes of it.
    pub sign: Sign,
    /// The line, with its line feed if it has one.
    pub line: &'t [u8],
}

/// The unified diff of two texts, under the name of the file that has the one and is to have the
/// other.
///
/// # Errors
/// [`AllocError`] where memory runs out.
pub fn diff_text<A: Allocator + Copy>(
    alloc: A,
    name: &str,
    old: &[u8],
    new: &[u8],
) -> Result<Vec<u8, A>, AllocError>
    ensures { IfOk result (λ text. IsDiffText name.now old.now new.now text.items) }
{
    let old = lines_of(alloc, old)?;
    let new = lines_of(alloc, new)?;
    let signed = signed_lines(alloc, &old, &new)?;
    let mut text = Vec::new(alloc);
    push_names(&mut text, name)?;
    push_hunks(&mut text, &signed)?;
    Ok(text)
}

// ---- lines

/// The lines of a text, each with its line feed, which only the last may lack.
fn lines_of<'t, A: Allocator>(alloc: A, text: &'t [u8]) -> Result<Vec<&'t [u8], A>, AllocError>
    ensures { IfOk result (λ lines. map (λ line. line.now) lines.items ≡ text_lines text.now) }
{
    let mut lines = Vec::new(alloc);
    let mut rest = text;
    while !rest.is_empty() {
        let (line, behind) = rest.split_at(line_len(rest));
        lines.push(line)?;
        rest = behind;
    }
    Ok(lines)
}

/// How long the first line of a text is, with its line feed.
fn line_len(text: &[u8]) -> usize
    ensures within { result ≤ length text.now }
    ensures some { 0 < length text.now → 0 < result }
    ensures line { 0 < length text.now
        → text_lines text.now ≡ take result text.now ∷ text_lines (drop result text.now) }
{
    for (at, byte) in text.iter().enumerate() {
        if *byte == b'\n' {
            return at + 1;
        }
    }
    text.len()
}

/// All lines of both texts, in an order that is the one of each.
fn signed_lines<'t, A: Allocator + Copy>(
    alloc: A,
    old: &[&'t [u8]],
    new: &[&'t [u8]],
) -> Result<Vec<SignedLine<'t>, A>, AllocError>
    ensures olds { IfOk result (λ signed.
        olds (map signed_view signed.items) ≡ map (λ line. line.now) old.now) }
    ensures news { IfOk result (λ signed.
        news (map signed_view signed.items) ≡ map (λ line. line.now) new.now) }
    ensures lean { IfOk result (λ signed. AreLean (map signed_view signed.items)) }
{
    let mut signed = Vec::new(alloc);
    let (mut old_at, mut new_at) = (0, 0);
    while old_at < old.len() || new_at < new.len() {
        let (old_len, new_len) = push_next(alloc, &mut signed, &old[old_at..], &new[new_at..])?;
        old_at += old_len;
        new_at += new_len;
    }
    Ok(signed)
}

/// Adds the lines that both texts begin with, and the change behind them. Returns how many lines of
/// either these are.
fn push_next<'t, A: Allocator + Copy>(
    alloc: A,
    signed: &mut Vec<SignedLine<'t>, A>,
    old: &[&'t [u8]],
    new: &[&'t [u8]],
) -> Result<(usize, usize), AllocError>
    ensures within_old { IfOk result (λ lens. lens.0 ≤ length old.now) }
    ensures within_new { IfOk result (λ lens. lens.1 ≤ length new.now) }
    ensures some { IfOk result (λ lens. 0 < length old.now + length new.now → 0 < lens.0 + lens.1) }
    ensures olds { IfOk result (λ lens. olds (map signed_view signed.new.items)
        ≡ olds (map signed_view signed.old.items) ++ take lens.0 (map (λ line. line.now) old.now)) }
    ensures news { IfOk result (λ lens. news (map signed_view signed.new.items)
        ≡ news (map signed_view signed.old.items) ++ take lens.1 (map (λ line. line.now) new.now)) }
    ensures lean { OnOk result (AreLean (map signed_view signed.old.items)
        → (signed.old.items ≡ []) ⊎ AreSameAt (map (λ line. line.now) old.now) 0
        (map (λ line. line.now) new.now) 0
        → AreLean (map signed_view signed.new.items)) }
    ensures next { IfOk result (λ lens. AreSameOrAll (map (λ line. line.now) old.now) lens.0
        (map (λ line. line.now) new.now) lens.1) }
{
    let kept_len = common_len(old, new);
    let (kept, old_behind) = old.split_at(kept_len);
    let (_, new_behind) = new.split_at(kept_len);
    let (removed_len, added_len) = change_lens(alloc, old_behind, new_behind)?;
    push_signed(signed, Sign::Kept, kept)?;
    push_signed(signed, Sign::Removed, &old_behind[..removed_len])?;
    push_signed(signed, Sign::Added, &new_behind[..added_len])?;
    Ok((kept_len + removed_len, kept_len + added_len))
}

/// Adds lines, of all of which the same becomes.
fn push_signed<'t, A: Allocator>(
    signed: &mut Vec<SignedLine<'t>, A>,
    sign: Sign,
    lines: &[&'t [u8]],
) -> Result<(), AllocError>
    ensures { OnOk result (map signed_view signed.new.items
        ≡ map signed_view signed.old.items
        ++ map (signed_text sign) (map (λ line. line.now) lines.now)) }
{
    for line in lines {
        signed.push(SignedLine { sign, line })?;
    }
    Ok(())
}

/// How many lines both begin with.
fn common_len(old: &[&[u8]], new: &[&[u8]]) -> usize
    ensures old { result ≤ length old.now }
    ensures new { result ≤ length new.now }
    ensures same { take result (map (λ line. line.now) old.now)
        ≡ take result (map (λ line. line.now) new.now) }
    ensures longest { ¬ AreSameAt (map (λ line. line.now) old.now) result
        (map (λ line. line.now) new.now) result }
{
    let mut len = 0;
    while len < old.len() && len < new.len() && old[len] == new[len] {
        len += 1;
    }
    len
}

/// How many lines are removed, and how many added, before the nearest line that both have: all where
/// none is.
fn change_lens<A: Allocator + Copy>(
    alloc: A,
    old: &[&[u8]],
    new: &[&[u8]],
) -> Result<(usize, usize), AllocError>
    ensures old { IfOk result (λ lens. lens.0 ≤ length old.now) }
    ensures new { IfOk result (λ lens. lens.1 ≤ length new.now) }
    ensures nearest { IfOk result (λ lens. IsNearest (map (λ line. line.now) old.now)
        (map (λ line. line.now) new.now) lens.0 lens.1) }
{
    let mut olds = HashMap::new(alloc);
    let mut news = HashMap::new(alloc);
    let (mut removed, mut added) = (old.len(), new.len());
    let mut at = 0;
    // So the time that it takes grows with the change, and not with its square.
    while at < removed + added {
        note_line(&mut olds, old, at)?;
        note_line(&mut news, new, at)?;
        let (old_len, new_len) = nearest_with(&news, old, at, (removed, added));
        let (new_len, old_len) = nearest_with(&olds, new, at, (new_len, old_len));
        removed = old_len;
        added = new_len;
        at += 1;
    }
    Ok((removed, added))
}

/// Notes the place of the line there, unless it stands at an earlier one.
fn note_line<'t, A: Allocator + Copy>(
    places: &mut HashMap<&'t [u8], usize, BuildHasherDefault<FoldHasher>, A>,
    lines: &[&'t [u8]],
    at: usize,
) -> Result<(), AllocError>
    ensures { OnOk result (HasFirstPlaces (map (λ line. line.now) lines.now) at (place_in places.old)
        → HasFirstPlaces (map (λ line. line.now) lines.now) (at + 1) (place_in places.new)) }
{
    match lines.get(at) {
        Some(line) => {
            if !places.contains_key(*line) {
                places.insert(*line, at)?;
            }
            Ok(())
        }
        None => Ok(()),
    }
}

/// Where the line at a place stands first in the other text, as far as its places were noted.
fn place_of<A: Allocator>(
    places: &HashMap<&[u8], usize, BuildHasherDefault<FoldHasher>, A>,
    lines: &[&[u8]],
    at: usize,
) -> Option<usize>
    ensures { result ≡ place_of (place_in places.now) (map (λ line. line.now) lines.now) at }
{
    match lines.get(at) {
        Some(line) => places.get(*line).copied(),
        None => None,
    }
}

/// Where a line stands in two texts: the nearest so far, or the line at a place of this text, if it
/// stands nearer in the other one.
fn nearest_with<A: Allocator>(
    places: &HashMap<&[u8], usize, BuildHasherDefault<FoldHasher>, A>,
    lines: &[&[u8]],
    at: usize,
    nearest: (usize, usize),
) -> (usize, usize)
    requires at { at < 2 ^ 62 }
    requires place { IfSome (place_of (place_in places.now) (map (λ line. line.now) lines.now) at)
        (λ place. place ≤ at) }
    requires nearest { nearest.0 + nearest.1 < 2 ^ 62 }
    ensures one_of { ((result.0 ≡ nearest.0) × (result.1 ≡ nearest.1)) ⊎ ((result.0 ≡ at)
        × (place_of (place_in places.now) (map (λ line. line.now) lines.now) at ≡ Some result.1)) }
    ensures nearer { result.0 + result.1 ≤ nearest.0 + nearest.1 }
    ensures here { IfSome (place_of (place_in places.now) (map (λ line. line.now) lines.now) at)
        (λ place. result.0 + result.1 ≤ at + place) }
{
    match place_of(places, lines, at) {
        Some(place) => {
            if at + place < nearest.0 + nearest.1 {
                (at, place)
            } else {
                nearest
            }
        }
        None => nearest,
    }
}

// ---- signs

/// Whether the old text has a line of this sign.
fn is_old(sign: Sign) -> bool
    ensures { result ≡ is_old sign }
{
    match sign {
        Sign::Kept | Sign::Removed => true,
        Sign::Added => false,
    }
}

/// Whether the new text has a line of this sign.
fn is_new(sign: Sign) -> bool
    ensures { result ≡ is_new sign }
{
    match sign {
        Sign::Kept | Sign::Added => true,
        Sign::Removed => false,
    }
}

/// Whether only one text has a line of this sign.
fn is_change(sign: Sign) -> bool
    ensures { result ≡ is_change sign }
{
    match sign {
        Sign::Removed | Sign::Added => true,
        Sign::Kept => false,
    }
}

// ---- hunks

/// Whether the line at a place is changed, or near one that is.
fn is_near(lines: &[SignedLine<'_>], at: usize) -> bool
    requires { at < length lines.now }
    ensures { IsNearIf result (map signed_view lines.now) at }
{
    let first = at.saturating_sub(CONTEXT);
    let behind = lines.len().min(at + CONTEXT + 1);
    for place in first..behind {
        if is_change(lines[place].sign) {
            return true;
        }
    }
    false
}

/// The first place from this one on at which a line is near a change, or at which none is.
fn next_place(lines: &[SignedLine<'_>], from: usize, near: bool) -> usize
    requires { from ≤ length lines.now }
    ensures from { from ≤ result }
    ensures within { result ≤ length lines.now }
    ensures passed { (at : ℕ) → at < result → from ≤ at
        → IsNearIf (not near) (map signed_view lines.now) at }
    ensures here { result < length lines.now → IsNearIf near (map signed_view lines.now) result }
{
    for at in from..lines.len() {
        if is_near(lines, at) == near {
            return at;
        }
    }
    lines.len()
}

/// Adds the hunks of these lines.
fn push_hunks<A: Allocator>(
    text: &mut Vec<u8, A>,
    lines: &[SignedLine<'_>],
) -> Result<(), AllocError>
    ensures { OnOk result (AreLean (map signed_view lines.now)
        → ArePushed (map signed_view lines.now) text.old.items text.new.items) }
{
    let (mut old_start, mut new_start) = (0, 0);
    let mut at = 0;
    while at < lines.len() {
        let first = next_place(lines, at, true);
        let last = next_place(lines, first, false);
        if first == last {
            return Ok(());
        }
        let hunk = &lines[first..last];
        old_start += first - at;
        new_start += first - at;
        let (old_len, new_len) = (old_len(hunk), new_len(hunk));
        push_head(text, (old_start, old_len), (new_start, new_len))?;
        push_lines(text, hunk)?;
        old_start += old_len;
        new_start += new_len;
        at = last;
    }
    Ok(())
}

/// How many of these lines the old text has.
fn old_len(lines: &[SignedLine<'_>]) -> usize
    ensures { result ≡ length (olds (map signed_view lines.now)) }
{
    lines.iter().filter(|line| is_old(line.sign)).count()
}

/// How many of these lines the new text has.
fn new_len(lines: &[SignedLine<'_>]) -> usize
    ensures { result ≡ length (news (map signed_view lines.now)) }
{
    lines.iter().filter(|line| is_new(line.sign)).count()
}

// ---- how they are written

/// Adds the lines that say of which file the texts are.
fn push_names<A: Allocator>(text: &mut Vec<u8, A>, name: &str) -> Result<(), AllocError>
    ensures { OnOk result (text.new.items ≡ text.old.items ++ names_text name.now) }
{
    let name = name.as_bytes();
    text.extend_from_slice(b"--- ")?;
    push_name(text, name)?;
    text.extend_from_slice(b"+++ ")?;
    push_name(text, name)
}

/// Adds a name and a line feed. A name is quoted as in C where it has a byte that both `patch` and
/// `git apply` would read otherwise; behind any other with a blank stands a tab.
fn push_name<A: Allocator>(text: &mut Vec<u8, A>, name: &[u8]) -> Result<(), AllocError>
    ensures { OnOk result (text.new.items ≡ text.old.items ++ name_text name.now) }
{
    if has_escaped(name) {
        text.push(b'"')?;
        push_quoted(text, name)?;
        return text.extend_from_slice(b"\"\n");
    }
    text.extend_from_slice(name)?;
    text.extend_from_slice(if name.contains(&b' ') { b"\t\n" } else { b"\n" })
}

/// Whether a name has a byte that stands in a quoted name by its number.
fn has_escaped(name: &[u8]) -> bool
    ensures { result ≡ list_any is_escaped name.now }
{
    for byte in name {
        if is_escaped(*byte) {
            return true;
        }
    }
    false
}

/// Whether a byte stands in a quoted name by its number: a quote, a backslash, or one that is not
/// shown.
fn is_escaped(byte: u8) -> bool
    ensures { result ≡ is_escaped byte }
{
    (byte == b'"') | (byte == b'\\') | (byte == 127) | (byte < b' ')
}

/// Adds the bytes of a quoted name.
fn push_quoted<A: Allocator>(text: &mut Vec<u8, A>, name: &[u8]) -> Result<(), AllocError>
    ensures { OnOk result (text.new.items ≡ text.old.items ++ flat_map quoted_byte name.now) }
{
    for byte in name {
        push_quoted_byte(text, *byte)?;
    }
    Ok(())
}

/// Adds a byte of a quoted name.
fn push_quoted_byte<A: Allocator>(text: &mut Vec<u8, A>, byte: u8) -> Result<(), AllocError>
    ensures { OnOk result (text.new.items ≡ text.old.items ++ quoted_byte byte) }
{
    if is_escaped(byte) {
        text.extend_from_slice(&[
            b'\\',
            b'0' + byte / 64,
            b'0' + byte / 8 % 8,
            b'0' + byte % 8,
        ])
    } else {
        text.push(byte)?;
        Ok(())
    }
}

/// Adds the line that a hunk begins with: for either text how many lines stand before the hunk, and
/// how many it has.
fn push_head<A: Allocator>(
    text: &mut Vec<u8, A>,
    old: (usize, usize),
    new: (usize, usize),
) -> Result<(), AllocError>
    requires old { old.0 < 2 ^ 63 }
    requires new { new.0 < 2 ^ 63 }
    ensures { OnOk result (text.new.items
        ≡ text.old.items ++ head_text (range_text old.0 old.1) (range_text new.0 new.1)) }
{
    text.extend_from_slice(b"@@ -")?;
    push_range(text, old.0, old.1)?;
    text.extend_from_slice(b" +")?;
    push_range(text, new.0, new.1)?;
    text.extend_from_slice(b" @@\n")
}

/// Adds the number of the first of so many lines that stand behind so many others, and how many
/// they are, if not one. Of no lines, it is the number of the line before them.
fn push_range<A: Allocator>(
    text: &mut Vec<u8, A>,
    start: usize,
    len: usize,
) -> Result<(), AllocError>
    requires { start < 2 ^ 63 }
    ensures { OnOk result (text.new.items ≡ text.old.items ++ range_text start len) }
{
    let first = if len == 0 { start } else { start + 1 };
    text.extend_from_slice(Buffer::new().format(first).as_bytes())?;
    if len == 1 {
        return Ok(());
    }
    text.push(b',')?;
    text.extend_from_slice(Buffer::new().format(len).as_bytes())
}

/// Adds the lines of a hunk.
fn push_lines<A: Allocator>(
    text: &mut Vec<u8, A>,
    lines: &[SignedLine<'_>],
) -> Result<(), AllocError>
    ensures { OnOk result (text.new.items
        ≡ text.old.items ++ flat_map line_text (map signed_view lines.now)) }
{
    for line in lines {
        push_line(text, line)?;
    }
    Ok(())
}

/// Adds a line behind its sign.
fn push_line<A: Allocator>(text: &mut Vec<u8, A>, signed: &SignedLine<'_>) -> Result<(), AllocError>
    ensures { OnOk result (text.new.items
        ≡ text.old.items ++ line_text (signed_view signed.now)) }
{
    text.push(sign_byte(signed.sign))?;
    text.extend_from_slice(signed.line)?;
    text.extend_from_slice(missing_feed(signed.line))
}

/// What stands behind a line that has no line feed: one, and a line that says so.
fn missing_feed(line: &[u8]) -> &'static [u8]
    ensures { result.now ≡ missing_feed line.now }
{
    if line.ends_with(b"\n") {
        b""
    } else {
        b"\n\\ No newline at end of file\n"
    }
}

/// What stands before a line.
fn sign_byte(sign: Sign) -> u8
    ensures { result ≡ sign_byte sign }
{
    match sign {
        Sign::Kept => b' ',
        Sign::Removed => b'-',
        Sign::Added => b'+',
    }
}
