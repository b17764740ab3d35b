//! What is given by the calls that append the lines of a paragraph to a list, and what all calls give
//! that lay a text out.
use crate::faults::Fault;
use crate::notation::{lines_written, text_written};
use crate::settings::options;
use std::alloc::{AllocError, Global};
use std::borrow::CowStr;
use textwrap::fuzzing::{fill_slow_path, wrap_single_line, wrap_single_line_slow_path};
use textwrap::{Options, WrapError, fill, wrap};

/// Appends the lines of a text, one paragraph after the other, with the shortcut for short ones or
/// without.
fn append<'t>(
    alloc: Global,
    text: &'t str,
    options: &Options<'_>,
    is_slow: bool,
    lines: &mut Vec<CowStr<'t>>,
) -> Result<(), WrapError> {
    for paragraph in text.split('\n') {
        if is_slow {
            wrap_single_line_slow_path(alloc, paragraph, options, lines)?;
        } else {
            wrap_single_line(alloc, paragraph, options, lines)?;
        }
    }
    Ok(())
}

/// `paragraph LINE TEXT WIDTH SETTINGS..`, or `slowparagraph`: the line, unless it is `none`, and after
/// it the lines of the text.
pub fn appended(alloc: Global, arguments: &[String], is_slow: bool) -> Result<String, Fault> {
    let [line, text, settings @ ..] = arguments else {
        return Err(Fault::Malformed);
    };
    let options = options(settings)?;
    let mut lines = Vec::new(alloc);
    if line.as_str() != "none" {
        lines.push(CowStr::Borrowed(line.as_str()))?;
    }
    append(alloc, text.as_str(), &options, is_slow, &mut lines)?;
    Ok(lines_written(alloc, &lines)?)
}

/// Whether a text is these lines, with a line feed between each two.
fn is_joined(alloc: Global, lines: &[CowStr<'_>], text: &str) -> Result<bool, AllocError> {
    let mut joined = String::new(alloc);
    for (i, line) in lines.iter().enumerate() {
        joined.push_str(if i == 0 { "" } else { "\n" })?;
        joined.push_str(line.as_str())?;
    }
    Ok(joined.as_str() == text)
}

/// Whether the calls on paragraphs give the lines of the filled text.
fn is_appended(
    alloc: Global,
    text: &str,
    options: &Options<'_>,
    is_slow: bool,
    filled: &str,
) -> Result<bool, Fault> {
    let mut lines = Vec::new(alloc);
    append(alloc, text, options, is_slow, &mut lines)?;
    Ok(is_joined(alloc, &lines, filled)?)
}

/// Whether `wrap` gives the lines of the filled text, and `fill_slow_path` the text.
fn is_wrapped(
    alloc: Global,
    text: &str,
    options: &Options<'_>,
    filled: &str,
) -> Result<bool, Fault> {
    let lines = wrap(alloc, text, Options::from(options))?;
    let slow = fill_slow_path(alloc, text, Options::from(options))?;
    Ok(is_joined(alloc, &lines, filled)? && slow.as_str() == filled)
}

/// `laid TEXT WIDTH SETTINGS..`: the filled text, if all calls that wrap or fill give it or its lines.
pub fn laid_out(alloc: Global, arguments: &[String]) -> Result<String, Fault> {
    let [text, settings @ ..] = arguments else {
        return Err(Fault::Malformed);
    };
    let (text, options) = (text.as_str(), options(settings)?);
    let filled = fill(alloc, text, Options::from(&options))?;
    let is_laid_out = is_wrapped(alloc, text, &options, &filled)?
        && is_appended(alloc, text, &options, false, &filled)?
        && is_appended(alloc, text, &options, true, &filled)?;
    if is_laid_out {
        text_written(alloc, &filled)
    } else {
        Ok(String::from_str(alloc, "no one text")?)
    }
}
