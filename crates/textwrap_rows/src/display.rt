//! What the calls for lines on display give. A line has `+` before it if it is no part of what it was
//! made of.
use crate::faults::Fault;
use crate::notation::{lines_written, or_none, text_written};
use crate::settings::{number, options};
use crate::tables::{fitted, needed, tabled};
use std::alloc::{AllocError, Global};
use std::borrow::CowStr;
use textwrap::{Options, wrap};
use textwrap_display::{
    Alignment, Shortening, align, carry_styles, expand_tabs, fill_justified, justify, shorten,
    shorten_by, shorten_lines, shorten_lines_by,
};
use textwrap_layout::layout::Layout;

/// What the call of this name gives on its arguments.
pub fn answer(alloc: Global, name: &str, arguments: &[String]) -> Result<String, Fault> {
    match name {
        "align" => aligned(alloc, arguments),
        "justify" => justified(alloc, arguments),
        "expand" => expanded(alloc, arguments),
        "shorten" => shortened(alloc, arguments, false),
        "cut" => shortened(alloc, arguments, true),
        "fewer" => fewer(alloc, arguments, false),
        "fewercut" => fewer(alloc, arguments, true),
        "carry" => carried(alloc, arguments),
        "wrapcarry" => wrapped_and_carried(alloc, arguments),
        "justified" => filled(alloc, arguments),
        "table" => tabled(alloc, arguments),
        "fit" => fitted(alloc, arguments),
        "needs" => needed(alloc, arguments),
        _ => Err(Fault::Malformed),
    }
}

/// `align LINE WIDTH`: the line at the left, at the right and in the middle.
fn aligned(alloc: Global, arguments: &[String]) -> Result<String, Fault> {
    let [line, width] = arguments else {
        return Err(Fault::Malformed);
    };
    let width = number(width.as_str())?;
    let mut lines = Vec::new(alloc);
    for alignment in [Alignment::Left, Alignment::Right, Alignment::Centre] {
        lines.push(align(alloc, line.as_str(), width, alignment)?)?;
    }
    Ok(lines_written(alloc, &lines)?)
}

/// `justify LINE WIDTH`: the line with more blanks in its gaps.
fn justified(alloc: Global, arguments: &[String]) -> Result<String, Fault> {
    let [line, width] = arguments else {
        return Err(Fault::Malformed);
    };
    let line = justify(alloc, line.as_str(), number(width.as_str())?)?;
    Ok(lines_written(alloc, &[line])?)
}

/// `expand TEXT STOP`: the text with blanks in the place of its tabs.
fn expanded(alloc: Global, arguments: &[String]) -> Result<String, Fault> {
    let [text, stop] = arguments else {
        return Err(Fault::Malformed);
    };
    let text = expand_tabs(alloc, text.as_str(), number(stop.as_str())?)?;
    Ok(lines_written(alloc, &[text])?)
}

/// `shorten LINE WIDTH PLACEHOLDER`, or `cut` where words may be cut: the line.
fn shortened(alloc: Global, arguments: &[String], is_cut: bool) -> Result<String, Fault> {
    let [line, width, placeholder] = arguments else {
        return Err(Fault::Malformed);
    };
    let (line, width) = (line.as_str(), number(width.as_str())?);
    let line = if is_cut {
        let shortening = Shortening::new(width, placeholder.as_str()).break_words(true);
        shorten_by(alloc, line, &shortening)?
    } else {
        shorten(alloc, line, width, placeholder.as_str())?
    };
    Ok(lines_written(alloc, &[line])?)
}

/// Texts as lines, of which each second is a text of its own: neither it nor the others are copied
/// where they stay.
fn lines_of<'t>(alloc: Global, texts: &'t [String]) -> Result<Vec<CowStr<'t>>, AllocError> {
    let mut lines = Vec::new(alloc);
    for (i, text) in texts.iter().enumerate() {
        if i % 2 == 0 {
            lines.push(CowStr::Borrowed(text.as_str()))?;
        } else {
            lines.push(CowStr::Owned(String::from_str(alloc, text.as_str())?))?;
        }
    }
    Ok(lines)
}

/// `fewer MOST WIDTH PLACEHOLDER LINES..`, or `fewercut` where words may be cut: at most so many lines.
fn fewer(alloc: Global, arguments: &[String], is_cut: bool) -> Result<String, Fault> {
    let [most, width, placeholder, texts @ ..] = arguments else {
        return Err(Fault::Malformed);
    };
    let (most, width) = (number(most.as_str())?, number(width.as_str())?);
    let lines = lines_of(alloc, texts)?;
    let lines = if is_cut {
        let shortening = Shortening::new(width, placeholder.as_str()).break_words(true);
        shorten_lines_by(alloc, &lines, most, &shortening)?
    } else {
        shorten_lines(alloc, &lines, most, width, placeholder.as_str())?
    };
    Ok(or_none(lines_written(alloc, &lines)?)?)
}

/// `carry INITIAL SUBSEQUENT LINES..`: the lines with styles and links carried over their ends, behind
/// these indents.
fn carried(alloc: Global, arguments: &[String]) -> Result<String, Fault> {
    let [initial, later, texts @ ..] = arguments else {
        return Err(Fault::Malformed);
    };
    let lines = lines_of(alloc, texts)?;
    let options = Options::new(0)
        .initial_indent(initial.as_str())
        .subsequent_indent(later.as_str());
    let carried = carry_styles(alloc, &lines, &options)?;
    Ok(or_none(lines_written(alloc, &carried)?)?)
}

/// `wrapcarry TEXT WIDTH SETTINGS..`: the lines of the text, so.
fn wrapped_and_carried(alloc: Global, arguments: &[String]) -> Result<String, Fault> {
    let [text, settings @ ..] = arguments else {
        return Err(Fault::Malformed);
    };
    let options = options(settings)?;
    let lines = wrap(alloc, text.as_str(), Options::from(&options))?;
    let carried = carry_styles(alloc, &lines, &options)?;
    Ok(lines_written(alloc, &carried)?)
}

/// `justified TEXT WIDTH SETTINGS..`: the filled text with its lines justified.
fn filled(alloc: Global, arguments: &[String]) -> Result<String, Fault> {
    let [text, settings @ ..] = arguments else {
        return Err(Fault::Malformed);
    };
    let options = options(settings)?;
    let filled = fill_justified(alloc, text.as_str(), Layout::of(&options), &options)?;
    text_written(alloc, &filled)
}
