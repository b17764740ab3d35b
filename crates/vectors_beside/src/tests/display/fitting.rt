//! The widths of columns that fit what stands in them.
use super::super::plain::assert_holds;
use std::alloc::{AllocError, Allocator};
use textwrap::WrapError;
use textwrap_display::{Need, fitting_widths, needs_of};
use textwrap_vectors::heap::Heap;

/// The greatest number of columns.
const MOST: usize = usize::MAX;

/// `fitting_widths`, and whether the widths are these.
fn has_widths<A: Allocator>(
    alloc: A,
    total: usize,
    needs: &[Need],
    wanted: &[usize],
) -> Result<bool, AllocError> {
    let widths = fitting_widths(alloc, total, needs)?;
    Ok(widths.as_slice() == wanted)
}

/// How wide so many columns of the same need are together.
fn sum_of_widths<A: Allocator + Copy>(
    alloc: A,
    total: usize,
    need: Need,
    count: usize,
) -> Result<usize, AllocError> {
    let needs = vec![in alloc; need; count]?;
    let mut sum = 0_usize;
    for width in &fitting_widths(alloc, total, &needs)? {
        sum = sum.wrapping_add(*width);
    }
    Ok(sum)
}

/// Many columns, at a total that has room for no line, for some and for all.
#[test]
fn many_widths_add_up(rt: HostRuntime) {
    let need = Need { least: 2, most: 9 };
    for total in [7, 30_007, 100_001, MOST] {
        let sum = sum_of_widths(rt.alloc(), total, need, 10_000);
        assert_holds(&rt, "10000 columns", matches!(sum, Ok(sum) if sum == total));
    }
}

/// Whether the columns of two texts need and get what they are to.
pub fn is_fitted(heap: &Heap) -> Result<bool, WrapError> {
    let needs = needs_of(heap, &["a b", "c"], 2)?;
    Ok(has_widths(heap, 4, &needs, &[3, 1])?)
}
