//! Many styles, which are carried over the ends of lines.
use super::super::plain::{assert_found, plain_carry_styles, plain_options, plain_wrap};
use std::alloc::{AllocError, Global};
use std::borrow::CowStr;
use textwrap::{Options, WrapAlgorithm, WrapError};

/// The lines of a text, filled under indents, with the styles carried behind them.
fn wrapped_and_carried(alloc: Global, text: &str, last: &str) -> Result<bool, WrapError> {
    let options = plain_options(40, "* ", "  ", WrapAlgorithm::FirstFit);
    let lines = plain_wrap(alloc, text, options)?;
    let options = plain_options(40, "* ", "  ", WrapAlgorithm::FirstFit);
    let carried = plain_carry_styles(alloc, &lines, &options)?;
    let mut len = 0usize;
    for line in &carried {
        len = len.saturating_add(line.len());
    }
    // Each of the lines is longer by a color, bold and a reset at most, and by its indent and end.
    let most = text.len().saturating_add(carried.len().saturating_mul(30));
    Ok(len <= most && carried.last().is_some_and(|line| line.as_str() == last))
}

/// So many words, each in a color of its own that does not end, and among them bold ones that do.
fn colored_words(alloc: Global, count: usize) -> Result<String, AllocError> {
    let mut text = String::new(alloc);
    for number in 0..count {
        let color = number % 256;
        text.push_str(&format!(in alloc; "\x1b[38;5;{color}mword\x1b[1mbold\x1b[22m ")?)?;
    }
    text.push_str("end")?;
    Ok(text)
}

/// Whether a thousand of them stay short.
fn are_colored_words_short(alloc: Global) -> Result<bool, WrapError> {
    let text = colored_words(alloc, 1_000)?;
    wrapped_and_carried(alloc, &text, "  \x1b[38;5;231mend\x1b[0m")
}

#[test]
fn many_colored_words_stay_short(rt: HostRuntime) {
    assert_found(&rt, "the last", are_colored_words_short(rt.alloc()));
}

/// So many settings in one line, each different and unknown, and each ended all but the last.
fn settings(alloc: Global, count: usize) -> Result<String, AllocError> {
    let mut text = String::new(alloc);
    for number in 0..count {
        text.push_str(&format!(in alloc; "\x1b[31m\x1b[39m\x1b[{number}:1m")?)?;
    }
    Ok(text)
}

/// Whether the line after so many settings sets as many anew as are unknown, and the end of the
/// foreground behind them.
fn are_settings_carried(alloc: Global) -> Result<bool, AllocError> {
    let text = settings(alloc, 20_000)?;
    let mut lines = Vec::new(alloc);
    lines.push(CowStr::Borrowed(text.as_str()))?;
    lines.push(CowStr::Borrowed("a"))?;
    let carried = plain_carry_styles(alloc, &lines, &Options::new(0))?;
    Ok(carried.last().is_some_and(|line| line.as_str().ends_with("\x1b[39m\x1b[19999:1ma\x1b[0m")))
}

#[test]
fn many_settings_are_carried(rt: HostRuntime) {
    assert_found(&rt, "the last", are_settings_carried(rt.alloc()));
}
