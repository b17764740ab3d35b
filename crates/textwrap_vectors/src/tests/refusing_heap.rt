//! The allocator that refuses an allocation.
use crate::heap::Heap;
use std::alloc::AllocError;
use std::process::Abort;

/// Which of four allocations are made where so many are allowed, and whether none is left then.
fn made_of_four(heap: &Heap, allowed: usize) -> ([bool; 4], bool) {
    heap.allow(allowed);
    let mut made = [false; 4];
    for is_made in &mut made {
        *is_made = Box::new(heap, 'a').is_ok();
    }
    (made, heap.left() == 0)
}

/// The allocation after those that are allowed is refused, and no other: what comes after it is
/// allowed again. Only where none was refused, no allocation is left.
#[rattlefmt::skip]
const MADE: &[([bool; 4], bool)] = &[
    ([false, true, true, true], false), ([true, false, true, true], false), ([true, true, false, true], false),
    ([true, true, true, false], false), ([true, true, true, true], true),
];

#[test]
fn one_allocation_is_refused(rt: HostRuntime) {
    let heap = Heap::new(rt.alloc(), 0);
    for (allowed, made) in MADE.iter().enumerate() {
        assert!(rt; made_of_four(&heap, allowed) == *made, "{allowed}");
    }
}

/// How many allocations are left once a list has grown, whether it is refused more and is then as it
/// was, and how many of three more are left once it is let go.
fn left_by_growing(heap: &Heap) -> Result<(usize, bool, usize), AllocError> {
    let mut letters = Vec::with_capacity(heap, 1)?;
    letters.push('a')?;
    letters.reserve(1)?;
    let left = heap.left();
    let is_kept = letters.reserve(100).is_err() && letters.as_slice() == ['a'].as_slice();
    heap.allow(3);
    drop(letters);
    Ok((left, is_kept, heap.left()))
}

/// A block that grows counts as one allocation, and is as it was where that is refused. Freeing it
/// costs nothing.
#[test]
fn a_block_that_grows_counts_as_one_allocation(rt: HostRuntime) {
    let heap = Heap::new(rt.alloc(), 2);
    let left = left_by_growing(&heap);
    assert!(rt; left == Ok((0, true, 3)));
}
