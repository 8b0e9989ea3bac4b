//! A test allocator, no part of the product: don't begin reading the repository here, begin with `blog_event`.
//!
//! It refuses the request of one number, and passes all others on.
#![tactic(auto)]

mod countdown;

use countdown::Countdown;
use std::alloc::{AllocError, Allocator};
use std::cell::Cell;

#[cfg(test)]
mod tests;

/// Passes requests on to another allocator, but refuses the request of one number.
///
/// A request is a call that asks for a block: also one that makes a block larger or smaller, which is served by a new
/// block and a copy. A collection takes a `&` to it for its allocator.
#[derive(Drop)]
pub struct Refusing<A: Allocator> {
    inner: A,
    countdown: Cell<Countdown>,
}

impl<A: Allocator> Refusing<A> {
    /// Passes requests on to `inner`, but refuses the one of this number, counted from 1; none where it is 0.
    pub fn new(inner: A, number: usize) -> Refusing<A> {
        Refusing {
            inner,
            countdown: Cell::new(Countdown::new(number)),
        }
    }

    /// Whether the request of that number has come, and was refused.
    pub fn has_refused(&self) -> bool {
        self.countdown.get().is_over()
    }
}

/// Counts one more request, and answers whether it is the refused one.
fn is_refused(countdown: &Cell<Countdown>) -> bool {
    let mut requests = countdown.get();
    let refused = requests.next();
    countdown.set(requests);
    refused
}

unsafe impl<A: Allocator> Allocator for Refusing<A> {
    ghost dealloc_token = { λ heap ty ptr. A.dealloc_token heap.inner ty ptr };

    fn allocate(&self, size: usize, align: usize) -> Result<*mut u8, AllocError> {
        if is_refused(&self.countdown) {
            Err(AllocError)
        } else {
            self.inner.allocate(size, align)
        }
    }

    unsafe fn deallocate(&self, ptr: *mut u8, size: usize, align: usize) {
        self.inner.deallocate(ptr, size, align);
    }
}
