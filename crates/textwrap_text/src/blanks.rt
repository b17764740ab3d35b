//! Blanks: those at the end of a text, such as the two of `"bar  "`, and blanks that are added. A blank
//! is U+0020 and nothing else.
ghost use Rattle.std.specs.Prelude.{◌≡◌, ◌≢◌, ◌<◌, ◌≤◌, ◌++◌, length, slice_index, replicate};
ghost use Rattle.std.specs.Prelude.{string_bytes, OnOk};
ghost use Rattle.textwrap_text.specs.Blanks.{blank, trimmed_len, without_final_blanks};
ghost use Rattle.textwrap_text.specs.Blanks.{final_blanks, BlanksBetween};

use std::alloc::{AllocError, Allocator};

/// Splits a text before its final blanks, of which there may be none: `"bar  "` into `"bar"` and
/// two blanks. The call always succeeds.
pub fn split_final_blanks<'a>(text: &'a str) -> (&'a str, &'a str)
    ensures front { result.0.now ≡ without_final_blanks text.now }
    ensures back { result.1.now ≡ final_blanks text.now }
{
    text.split_at(trimmed_len(text.as_bytes()))
}

/// How many bytes of a text come before its final blanks: 3 of `"bar  "`. The call always succeeds.
pub fn trimmed_len(bytes: &[u8]) -> usize
    ensures value { result ≡ trimmed_len bytes.now }
    ensures within { result ≤ length bytes.now }
    ensures at_blank { result < length bytes.now → slice_index bytes.now result ≡ blank }
{
    let mut end = bytes.len();
    while end > 0 && bytes[end - 1] == b' ' {
        end -= 1;
    }
    end
}

/// Where the blanks end that stand from a place on: 5 in `"bar  baz"` from 3 on. The call always
/// succeeds.
pub fn blanks_end(text: &[u8], start: usize) -> usize
    requires { start ≤ length text.now }
    ensures after { start ≤ result }
    ensures within { result ≤ length text.now }
    ensures blanks { BlanksBetween text.now start result }
    ensures stops { result < length text.now → slice_index text.now result ≢ blank }
{
    let mut end = start;
    while end < text.len() && text[end] == b' ' {
        end += 1;
    }
    end
}

/// Adds so many blanks at the end of a text.
pub fn push_blanks<A: Allocator>(text: &mut String<A>, count: usize) -> Result<(), AllocError>
    ensures { OnOk result
        (string_bytes text.new ≡ string_bytes text.old ++ replicate count blank) }
{
    for _ in 0..count {
        text.push(' ')?;
    }
    Ok(())
}
