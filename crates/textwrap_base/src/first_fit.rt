//! First fit: the greedy division of fragments into lines.
ghost use Rattle.std.specs.Prelude.{◌+◌, ◌≤◌, ◌<◌, length, map, take, IfOk};
ghost use Rattle.textwrap_base.specs.Division.{closed_width, Fits, IsAdmissible, IsGreedy};

use crate::fragments::Fragment;
use crate::line_widths::line_width;
use std::alloc::{AllocError, Allocator};

/// Divides the fragments into lines: each line takes fragments while they fit, and its first one in
/// any case. Line l, counted from 0, may be `line_widths[l]` wide. The last width serves all later
/// lines, and without any width it is 0. No fragments give one empty line. A line fits if each of
/// its prefixes of two or more fragments closes within its width, and no division whose lines all
/// fit has fewer lines.
///
/// At the line widths 10 and 5, four fragments of width 5, without whitespace or penalty, make
/// lines of 2, 1 and 1.
///
/// # Errors
/// Out of memory only. There is no overflow, whatever the widths.
pub fn wrap_first_fit<'a, A: Allocator + Copy, T: Fragment>(
    alloc: A,
    fragments: &'a [T],
    line_widths: &[usize],
) -> Result<Vec<&'a [T], A>, AllocError>
    ensures greedy { IfOk result (λ lines.
        IsGreedy T.sizes line_widths.now fragments.now (map (λ line. line.now) lines.items)) }
    ensures fewest { IfOk result (λ lines. (others : _) →
        IsAdmissible T.sizes line_widths.now fragments.now others
        → length lines.items ≤ length others) }
{
    let mut lines = Vec::new(alloc);
    if fragments.is_empty() {
        lines.push(fragments)?;
        return Ok(lines);
    }
    let mut rest = fragments;
    while !rest.is_empty() {
        let width = line_width(line_widths, lines.len());
        let (line, after) = rest.split_at(fitting_len(rest, width));
        lines.push(line)?;
        rest = after;
    }
    Ok(lines)
}

/// How many of the fragments the first line takes: all that fit, and the first in any case.
fn fitting_len<T: Fragment>(fragments: &[T], line_width: usize) -> usize
    ensures within { result ≤ length fragments.now }
    ensures some { 0 < length fragments.now → 0 < result }
    ensures fits { Fits T.sizes line_width (take result fragments.now) }
    ensures full { result < length fragments.now →
        line_width < closed_width T.sizes (take (result + 1) fragments.now) }
{
    let mut width = 0u128;
    for (i, fragment) in fragments.iter().enumerate() {
        let with_fragment = width + fragment.width() as u128;
        let closed = with_fragment + fragment.penalty_width() as u128;
        if i > 0 && closed > line_width as u128 {
            return i;
        }
        width = with_fragment + fragment.whitespace_width() as u128;
    }
    fragments.len()
}
