//! The function for `LineCuts` that cuts a line into words where it may end.
ghost use Rattle.std.specs.Prelude.{◌≡◌, ℕ, ◌+◌, ◌*◌, ◌^◌, ◌<◌, ◌≤◌, [], ◌∷◌, ◌++◌, true, IfOk, chars, drop};
ghost use Rattle.std.specs.Prelude.{if◌then◌else◌, length, slice_index, IsCharBoundary};
ghost use Rattle.textwrap_unicode.specs.BreaksLeft.{and};
ghost use Rattle.textwrap_unicode.specs.Rules.{decide_by, numbers_rule};
ghost use Rattle.textwrap_text.specs.Escapes.{visible_in};
ghost use Rattle.textwrap_unicode.specs.Cuts.{cuts_by, may_end, unicode_cuts};
ghost use Rattle.textwrap_unicode.specs.WordStarts.{IsPlainLetter, IsWordByte, IsWordClass};
ghost use Rattle.textwrap_unicode.specs.WordStarts.{is_behind_blank, is_behind_sign, word_starts};
ghost use Rattle.textwrap_text.specs.Ideographs.{IsIdeographAt, ideograph_places};
ghost use Rattle.textwrap_text.specs.ClassSets.{is_infix, is_letter, is_space};
ghost use Rattle.textwrap_text.specs.Classes.{class_of};
ghost use Rattle.textwrap_unicode.specs.declared.numbers.Numbers.TheVariants.{ByExpression};
ghost use Rattle.textwrap_text.specs.declared.escapes.State.TheVariants.{Text};
ghost use Rattle.textwrap_words.specs.Cuts.{AreInnerCuts};
ghost use Rattle.textwrap_words.specs.WordOffsets.{is_any_hyphen};

use crate::before::Before;
use crate::numbers::{Numbers, decide_among_visible};
use crate::rules::Verdict;
use std::alloc::{AllocError, Global};
use textwrap_text::ascii::CLASSES;
use textwrap_text::class_sets::{is_letter, is_space};
use textwrap_text::classes::{Unit, is_common_ideograph};
use textwrap_text::escapes::State;
use unicode::properties::LineBreak;

/// Where a line is cut into words, by the Unicode line breaking algorithm
/// ([UAX #14](https://www.unicode.org/reports/tr14/)): at the places of
/// [`line_breaks`](crate::line_breaks) inside its text without escape sequences (ECMA-48), but not
/// directly after a hyphen `-` or a soft hyphen (U+00AD), which are left to a word splitter. A
/// sequence at a cut belongs to the word after it. `"foo-bar 日本"` is cut at 8 and 11.
///
/// It is the function of a separator:
/// `WordSeparator::Custom(LineCuts::new(alloc, unicode_cuts))`.
///
/// # Errors
/// [`AllocError`] where memory runs out.
pub fn unicode_cuts(alloc: Global, line: &str) -> Result<Vec<usize>, AllocError>
    ensures cuts { IfOk result (λ cuts. cuts.items ≡ unicode_cuts line.now) }
    ensures inner { IfOk result (λ cuts. AreInnerCuts line.now cuts.items) }
{
    find_cuts(alloc, line, Numbers::ByPairs)
}

/// The same, with numbers kept together by the expression of numbers: the function of a separator
/// that cuts at the places of [`line_breaks_by`](crate::line_breaks_by).
///
/// # Errors
/// [`AllocError`] where memory runs out.
pub fn unicode_cuts_by_expression(alloc: Global, line: &str) -> Result<Vec<usize>, AllocError>
    ensures cuts { IfOk result (λ cuts. cuts.items ≡ cuts_by ByExpression line.now) }
    ensures inner { IfOk result (λ cuts. AreInnerCuts line.now cuts.items) }
{
    find_cuts(alloc, line, Numbers::ByExpression)
}

fn find_cuts(alloc: Global, line: &str, numbers: Numbers) -> Result<Vec<usize>, AllocError>
    ensures cuts { IfOk result (λ cuts. cuts.items ≡ cuts_by numbers line.now) }
    ensures inner { IfOk result (λ cuts. AreInnerCuts line.now cuts.items) }
{
    let mut cuts = Vec::new(alloc);
    let mut at = 0;
    let mut state = State::Text;
    let mut before = Before::new();
    // Where the last visible character ends, and whether it is a hyphen.
    let mut end = 0;
    let mut is_hyphen = false;
    while let Some(ch) = line[at..].chars().next() {
        let (next, is_visible) = state.step(ch);
        at += ch.len_utf8();
        if is_visible {
            let unit = Unit::of(ch);
            let (verdict, after) = step_past(line, at, next, before, unit, numbers);
            let is_cut = !is_hyphen & may_end(verdict);
            push_cut(&mut cuts, is_cut, end)?;
            before = after;
            end = at;
            is_hyphen = is_any_hyphen(ch);
        }
        state = next;
        if end == at && !is_hyphen && is_in_text(state) {
            if before.is_in_word() {
                let rest = line[at..].as_bytes();
                let passed = push_words(rest, at, &mut cuts)?;
                before = before.and_words(passed.is_behind_blank, passed.is_behind_sign);
                at += passed.len;
                end = at;
            } else if before.is_behind_ideograph() {
                at += 3 * push_ideographs(&line[at..], at, &mut cuts)?;
                end = at;
            }
        }
    }
    Ok(cuts)
}

/// Adds a place where it is a cut.
///
/// # Errors
/// [`AllocError`] where memory runs out.
fn push_cut(cuts: &mut Vec<usize>, is_cut: bool, place: usize) -> Result<(), AllocError>
    ensures { IfOk result (λ _. cuts.new.items
        ≡ cuts.old.items ++ (if is_cut then place ∷ [] else [])) }
{
    if !is_cut {
        return Ok(());
    }
    cuts.push(place)?;
    Ok(())
}

/// Letters, blanks and signs such as commas, which stand behind a letter of a word.
#[derive(Clone, Copy)]
struct Passed {
    /// How many they are.
    len: usize,
    /// Whether the last is a blank.
    is_behind_blank: bool,
    /// Whether the last that is no blank is a sign.
    is_behind_sign: bool,
}

/// Goes over the letters, blanks and signs that a rest of a line begins with, behind a letter of a
/// word, and adds where a word begins among them.
///
/// # Errors
/// [`AllocError`] where memory runs out.
fn push_words(rest: &[u8], at: usize, cuts: &mut Vec<usize>) -> Result<Passed, AllocError>
    requires { at + length rest.now < 2 ^ 64 }
    ensures within { IfOk result (λ passed. passed.len ≤ length rest.now) }
    ensures words { IfOk result (λ passed. (k : ℕ) → k < passed.len
        → IsWordByte (slice_index rest.now k)) }
    ensures blank { IfOk result (λ passed. passed.is_behind_blank
        ≡ is_behind_blank rest.now passed.len) }
    ensures sign { IfOk result (λ passed. passed.is_behind_sign
        ≡ is_behind_sign rest.now passed.len) }
    ensures cuts { IfOk result (λ passed. cuts.new.items
        ≡ cuts.old.items ++ word_starts at rest.now passed.len) }
{
    let mut len = 0;
    let mut is_behind_blank = false;
    let mut is_behind_sign = false;
    while len < rest.len() && is_word_byte(rest[len]) {
        let class = ascii_class(rest[len]);
        let is_start = is_behind_blank & is_letter(class);
        push_cut(cuts, is_start, at + len)?;
        is_behind_blank = is_space(class);
        is_behind_sign = is_sign_behind(class, is_behind_sign);
        len += 1;
        len += letters_len(rest, len, is_behind_blank | is_behind_sign);
    }
    Ok(Passed {
        len,
        is_behind_blank,
        is_behind_sign,
    })
}

/// How many letters come from a place on, behind a letter. Behind anything else none are counted.
fn letters_len(rest: &[u8], from: usize, is_behind_other: bool) -> usize
    requires { from ≤ length rest.now }
    ensures none { is_behind_other ≡ true → result ≡ 0 }
    ensures within { from + result ≤ length rest.now }
    ensures letters { (k : ℕ) → k < result → IsPlainLetter (slice_index rest.now (from + k)) }
{
    let mut len = 0;
    while !is_behind_other && from + len < rest.len() && is_plain_letter(rest[from + len]) {
        len += 1;
    }
    len
}

/// Whether a byte is a letter of ASCII: AL.
#[tactic(auto, using(textwrap_text::proofs::ClassLemmas::ascii_unit))]
fn is_plain_letter(byte: u8) -> bool
    ensures { result ≡ true → IsPlainLetter byte }
{
    byte < 128 && matches!(CLASSES[byte as usize], LineBreak::Alphabetic)
}

/// Whether a sign is the last that is no blank, with one character more of this class.
fn is_sign_behind(class: LineBreak, is_before: bool) -> bool
    ensures { result ≡ (if is_space class then is_before else is_infix class) }
{
    if is_space(class) {
        is_before
    } else {
        matches!(class, LineBreak::InfixNumeric)
    }
}

/// Whether a byte is a letter of ASCII, a blank or a sign such as a comma: AL, SP or IS.
fn is_word_byte(byte: u8) -> bool
    ensures { result ≡ true → IsWordByte byte }
{
    byte < 128 && is_word_class(ascii_class(byte))
}

/// AL, SP or IS.
fn is_word_class(class: LineBreak) -> bool
    ensures { result ≡ true → IsWordClass class }
{
    matches!(
        class,
        LineBreak::Alphabetic | LineBreak::Space | LineBreak::InfixNumeric
    )
}

/// The class of a character of ASCII.
fn ascii_class(byte: u8) -> LineBreak
    requires { byte < 128 }
    ensures { result ≡ class_of byte }
{
    CLASSES[byte as usize]
}

/// Goes over the common ideographs that a rest of a line begins with, behind such a one, and adds a cut
/// before each. Gives how many they are, of three bytes each.
///
/// # Errors
/// [`AllocError`] where memory runs out.
fn push_ideographs(rest: &str, at: usize, cuts: &mut Vec<usize>) -> Result<usize, AllocError>
    requires { at + length rest.now < 2 ^ 64 }
    ensures within { IfOk result (λ count. 3 * count ≤ length rest.now) }
    ensures ideographs { IfOk result (λ count. (k : ℕ) → k < count → IsIdeographAt rest.now (3 * k)) }
    ensures cuts { IfOk result (λ count. cuts.new.items
        ≡ cuts.old.items ++ ideograph_places at count) }
{
    let mut count = 0;
    for (after, ch) in rest.char_indices() {
        if !is_common_ideograph(ch) {
            return Ok(count);
        }
        cuts.push(at + after)?;
        count += 1;
    }
    Ok(count)
}

/// What the rules say of the place before a visible unit of the line, which is read up to its end, and
/// what they ask of the text with it.
fn step_past(
    line: &str,
    end: usize,
    state: State,
    before: Before,
    unit: Unit,
    numbers: Numbers,
) -> (Verdict, Before)
    requires { IsCharBoundary line.now end }
    ensures verdict { result.0
        ≡ decide_by (numbers_rule numbers (visible_in state (chars (drop end line.now)))) before unit }
    ensures before { result.1 ≡ and before unit }
{
    // No line ends between two letters of a word, and the second changes nothing.
    if before.is_in_word() && unit.is_plain_letter() {
        return (Verdict::Prohibited, before);
    }
    // A line may end between two ideographs, and the second changes nothing.
    if before.is_behind_ideograph() && unit.is_wide_ideograph() {
        return (Verdict::Allowed, before);
    }
    let verdict = decide_among_visible(line, end, state, &before, unit, numbers);
    (verdict, before.and(unit))
}

/// Whether a line may or must end there.
fn may_end(verdict: Verdict) -> bool
    ensures { result ≡ may_end verdict }
{
    matches!(verdict, Verdict::Mandatory | Verdict::Allowed)
}

/// Whether the next character belongs to no escape sequence that has begun.
fn is_in_text(state: State) -> bool
    ensures { result ≡ true → state ≡ Text }
{
    matches!(state, State::Text)
}

/// Whether this is a hyphen or a soft hyphen.
fn is_any_hyphen(ch: char) -> bool
    ensures { result ≡ is_any_hyphen ch }
{
    ch == '-' || ch == '\u{ad}'
}
