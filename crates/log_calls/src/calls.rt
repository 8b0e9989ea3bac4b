//! The answers to a log in its two modes that write logs.

use blog_event::Fault;
use blog_flash::{Mode, answer};
use blog_trans::Selection;
use std::alloc::Allocator;

/// The log that undoes the selected changes.
pub fn flashback<A: Allocator + Copy>(
    alloc: A,
    bytes: &[u8],
    sel: &Selection<'_>,
) -> Result<Vec<u8, A>, Fault> {
    answer(alloc, bytes, Mode::Flashback, sel)
}

/// The selected changes in normal form.
pub fn forward<A: Allocator + Copy>(
    alloc: A,
    bytes: &[u8],
    sel: &Selection<'_>,
) -> Result<Vec<u8, A>, Fault> {
    answer(alloc, bytes, Mode::Forward, sel)
}
