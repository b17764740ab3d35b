//! The points of a paragraph that are inside one of its words.
ghost use Rattle.std.specs.Prelude.{◌≡◌, ◌+◌, ◌^◌, ◌<◌, IfOk, filter};
ghost use Rattle.std.specs.List.Sorted.{IsNonDecreasing};
ghost use Rattle.textwrap_lines.specs.Steps.{is_between, points_within};

use std::alloc::{AllocError, Allocator};

/// The points that are inside a part of the text, of `len` bytes after the first `start`, as offsets
/// of that part.
pub(crate) fn points_within<A: Allocator>(
    alloc: A,
    points: &[usize],
    start: usize,
    len: usize,
) -> Result<Vec<usize, A>, AllocError>
    requires in_order { IsNonDecreasing points.now }
    requires fits { start + len < 2 ^ 63 }
    ensures { IfOk result (λ inner. inner.items ≡ points_within start len points.now) }
{
    let inside = points_between(points, start, start + len);
    let mut inner = Vec::new(alloc);
    for point in inside {
        inner.push(*point - start)?;
    }
    Ok(inner)
}

/// The points between two places.
fn points_between(points: &[usize], start: usize, end: usize) -> &[usize]
    requires { IsNonDecreasing points.now }
    ensures { result.now ≡ filter (is_between start end) points.now }
{
    let later = &points[points.partition_point(|point| *point <= start)..];
    &later[..later.partition_point(|point| *point < end)]
}
