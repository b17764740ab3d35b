//! The calls for texts that are known to be UTF-8. Each writes and answers what the call does that tests
//! its text.
use super::plain::{BEFORE, LinesCall, NO_LAYOUT, TextCall, assert_told};
use std::alloc::Global;
use std::str::from_utf8;
use textwrap_calls::filling::textwrap_fill_utf8;
use textwrap_calls::indentation::{textwrap_dedent_utf8, textwrap_indent_utf8};
use textwrap_calls::refilling::{textwrap_refill_utf8, textwrap_unfill_utf8};
use textwrap_calls::status::DONE;
use textwrap_calls::widths::textwrap_display_width_utf8;
use textwrap_calls::wrapping::{TextwrapLine, textwrap_wrap_utf8};

/// Makes the call on a text that is known, and answers the status, where there is such a call and the
/// text is UTF-8.
pub(super) fn write_known_text(
    alloc: Global,
    call: TextCall<'_>,
    text: &[u8],
    room: &mut [u8],
    len: &mut usize,
) -> Option<u32> {
    let Ok(text) = from_utf8(text) else {
        return None;
    };
    let text = text.as_bytes();
    match call {
        TextCall::Fill(options) => Some(textwrap_fill_utf8(alloc, text, &options, room, len)),
        TextCall::Refill(options) => Some(textwrap_refill_utf8(alloc, text, &options, room, len)),
        TextCall::Unfill => {
            let mut layout = NO_LAYOUT;
            Some(textwrap_unfill_utf8(text, room, len, &mut layout))
        }
        TextCall::Indent(prefix) => match from_utf8(prefix) {
            Ok(prefix) => Some(textwrap_indent_utf8(text, prefix.as_bytes(), room, len)),
            Err(_) => None,
        },
        TextCall::Dedent => Some(textwrap_dedent_utf8(text, room, len)),
        _ => None,
    }
}

/// The same of a call that writes lines.
pub(super) fn write_known_lines(
    alloc: Global,
    call: LinesCall<'_>,
    text: &[u8],
    lines: &mut [TextwrapLine],
    count: &mut usize,
    room: &mut [u8],
    len: &mut usize,
) -> Option<u32> {
    match (call, from_utf8(text)) {
        (LinesCall::Wrap(options), Ok(text)) => {
            let text = text.as_bytes();
            Some(textwrap_wrap_utf8(alloc, text, &options, lines, count, room, len))
        }
        _ => None,
    }
}

/// The status and the columns that are told of a text.
pub(super) fn told_known_width(text: &str) -> (u32, usize) {
    let mut columns = BEFORE;
    let status = textwrap_display_width_utf8(text.as_bytes(), &mut columns);
    (status, columns)
}

#[test]
fn columns_of_known_texts_are_counted(rt: HostRuntime) {
    assert_told(&rt, 0, told_known_width("Café"), (DONE, 4));
    assert_told(&rt, 1, told_known_width(""), (DONE, 0));
}
