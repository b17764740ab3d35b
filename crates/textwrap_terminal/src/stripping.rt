//! A text without those sequences that only a terminal takes as such.
ghost use Rattle.std.specs.Prelude.{◌≡◌, ◌<◌, ◌&&◌, ◌++◌, length, take, drop, [], not, if◌then◌else◌};
ghost use Rattle.std.specs.Prelude.{IfOk, IsCharBoundary, string_bytes};
ghost use Rattle.textwrap_terminal.specs.States.{stays};
ghost use Rattle.textwrap_terminal.specs.Stripped.{cow_bytes, is_borrowed};
ghost use Rattle.textwrap_terminal.specs.TerminalUnits.{without_other_sequences, has_no_other};

use crate::states::TerminalState;
use std::alloc::{AllocError, Allocator};
use std::borrow::CowStr;

/// The text without those sequences that a terminal takes as such by the grammar of ECMA-48 (see
/// `terminal_width`) but the crate `textwrap` does not.
///
/// What is visible on a terminal stays, and so do the sequences that begin with ESC and `[` and those
/// that begin with ESC and `]`, if they have an end that `textwrap` takes as such, too: a command
/// that U+009C ends is left out, as is a sequence without an end. `"\x1b(Ba\x1b[1mb"` becomes
/// `"a\x1b[1mb"`. What is left has for `display_width` of `textwrap` the columns that the text takes
/// on a terminal. Where nothing is left out, the result is borrowed from the text.
///
/// # Errors
/// [`AllocError`] where memory runs out.
pub fn strip_other_sequences<'t, A: Allocator>(
    alloc: A,
    text: &'t str,
) -> Result<CowStr<'t, A>, AllocError>
    ensures text { IfOk result (λ plain. cow_bytes plain ≡ without_other_sequences text.now) }
    ensures borrowed { IfOk result (λ plain. is_borrowed plain ≡ has_no_other text.now) }
{
    if !has_other(text) {
        return Ok(CowStr::Borrowed(text));
    }
    let mut plain = String::new(alloc);
    push_kept(&mut plain, text)?;
    Ok(CowStr::Owned(plain))
}

/// Whether there are such sequences in a text.
fn has_other(text: &str) -> bool
    ensures { result ≡ not (has_no_other text.now) }
{
    let mut rest = text;
    while !rest.is_empty() {
        let (len, is_kept) = first_unit(rest);
        if !is_kept {
            return true;
        }
        rest = &rest[len..];
    }
    false
}

/// Appends what is left of a text without them.
fn push_kept<A: Allocator>(plain: &mut String<A>, text: &str) -> Result<(), AllocError>
    ensures { IfOk result (λ _. string_bytes plain.new
        ≡ string_bytes plain.old ++ without_other_sequences text.now) }
{
    let mut rest = text;
    while !rest.is_empty() {
        let (len, is_kept) = first_unit(rest);
        if is_kept {
            plain.push_str(&rest[..len])?;
        }
        rest = &rest[len..];
    }
    Ok(())
}

/// How many bytes the first visible character of a text takes, or the sequence that it begins with,
/// and whether it stays.
fn first_unit(text: &str) -> (usize, bool)
    requires { 0 < length text.now }
    ensures boundary { IsCharBoundary text.now result.0 }
    ensures some { 0 < result.0 }
    ensures kept { without_other_sequences text.now
        ≡ (if result.1 then take result.0 text.now else [])
        ++ without_other_sequences (drop result.0 text.now) }
    ensures other { has_no_other text.now ≡ (result.1 && has_no_other (drop result.0 text.now)) }
{
    let mut chars = text.char_indices();
    let Some((_, first)) = chars.next() else {
        unreachable!();
    };
    let (mut state, _) = TerminalState::Text.step(first);
    let mut is_common = false;
    for (at, ch) in chars {
        if matches!(state, TerminalState::Text) {
            return (at, stays(first, is_common));
        }
        is_common = state.ends_common(ch);
        state = state.step(ch).0;
    }
    (text.len(), stays(first, is_common))
}

/// Whether a unit stays that begins with this character, where it is told whether the library, too,
/// ends a sequence with its last character.
fn stays(first: char, is_common: bool) -> bool
    ensures { result ≡ stays first is_common }
{
    let (_, is_visible) = TerminalState::Text.step(first);
    is_visible || first == '\x1b' && is_common
}
