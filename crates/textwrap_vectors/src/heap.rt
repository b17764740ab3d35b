//! An allocator that refuses an allocation, for tests of calls that run out of memory.
//!
//! A call that allocates takes its allocator, so it can be given a [`Heap`]:
//!
//! ```rust
//! let heap = Heap::new(rt.alloc(), 0);
//! assert!(rt; fill(&heap, "foo bar", Options::new(3)).is_err());
//! heap.allow(100);
//! assert!(rt; fill(&heap, "foo bar", Options::new(3)).is_ok());
//! ```

ghost use Rattle.std.specs.contracts.impls.GlobalAllocator.TheImpl.{ghosts};

use std::alloc::{AllocError, Allocator, Global};
use std::cell::Cell;

/// An allocator that refuses one allocation: the one after so many others.
///
/// Those after it are allowed again, so that a call which overlooks the refusal goes on, and a test
/// sees that it did. What needs an allocator that is `Copy` takes a `&Heap`. Each allocation counts
/// as one, however long the block, and so does each block that grows; only freeing a block costs
/// nothing.
#[derive(Drop)]
pub struct Heap {
    inner: Global,
    left: Cell<usize>,
}

impl Heap {
    /// A heap that allows so many allocations, which `inner` makes, and refuses the next.
    pub fn new(inner: Global, allocations: usize) -> Heap {
        Heap {
            inner,
            left: Cell::new(allocations),
        }
    }

    /// Allows so many allocations from now on, and refuses the next, whatever was left.
    pub fn allow(&self, allocations: usize) {
        self.left.set(allocations);
    }

    /// How many allocations are left before the one that is refused: 0 if all that were allowed
    /// have been made, and none was refused.
    pub fn left(&self) -> usize {
        self.left.get()
    }
}

/// Whether an allocation was left, which is spent then. Where none was, all later ones are allowed.
fn spend(left: &Cell<usize>) -> bool {
    match left.get().checked_sub(1) {
        Some(fewer) => {
            left.set(fewer);
            true
        }
        None => {
            left.set(usize::MAX);
            false
        }
    }
}

unsafe impl Allocator for Heap {
    ghost dealloc_token = { λ heap ty ptr. ghosts.dealloc_token heap.inner ty ptr };

    fn allocate(&self, size: usize, align: usize) -> Result<*mut u8, AllocError> {
        if spend(&self.left) {
            self.inner.allocate(size, align)
        } else {
            Err(AllocError)
        }
    }

    unsafe fn deallocate(&self, ptr: *mut u8, size: usize, align: usize) {
        unsafe { self.inner.deallocate(ptr, size, align) }
    }
}
