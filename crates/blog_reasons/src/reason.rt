//! Why nothing is wanted.

use crate::near::NearTable;
use std::alloc::{Allocator, Global};

/// Why no unit of some logs is wanted: the first of these that holds.
#[derive(Drop)]
pub enum Reason<'r, A: Allocator = Global> {
    /// No unit starts in the range of positions.
    NoUnit,
    /// Units do, but none of them is of the wanted times.
    NoTime {
        /// The least time of these units, in seconds since 1970 in UTC.
        first: u32,
        /// The greatest time of these units, in seconds since 1970 in UTC.
        last: u32,
    },
    /// Tables or a database are asked for, and no table map of the logs names a chosen table.
    NoTable {
        /// Tables that the logs name and whose names come close to one that is asked for: at most five, the nearest first.
        near: &'r [NearTable<A>],
    },
    /// Tables, threads and global transaction ids together choose none.
    Other,
}
