//! Memory that runs out: each request is refused in turn.

use crate::rows_left::left_of;
use blog_left_out::LeaveOutFault;
use blog_trans::Selection;
use linked_list_allocator::LocalHeap;
use refusing::Refusing;
use sample_logs::logs::{two_tables, two_transactions, two_updates};
use std::process::Abort;
use std::test::Fail;

/// A heap with room for each call, in bytes.
const ROOM: usize = 1 << 16;

/// Requests up to this number are refused in turn.
const MOST_REQUESTS: usize = 50;

/// Refuses the first request, then the second and so on, up to the first call that comes to its end: how many requests it makes.
fn requests_of(
    rt: &(impl AllocGlobal + Abort),
    bytes: &[u8],
    marks: &[bool],
) -> Result<usize, Fail> {
    let heap = LocalHeap::new(rt.alloc(), ROOM)?;
    for number in 0..MOST_REQUESTS {
        let alloc = Refusing::new(&heap, number + 1);
        let left = left_of(&alloc, rt, bytes, &Selection::all(), marks)?;
        match left {
            Ok(left) => {
                assert!(rt; !alloc.has_refused());
                assert!(rt; left.len() > 0);
                return Ok(number);
            }
            Err(fault) => assert!(rt; fault == LeaveOutFault::OutOfMemory),
        }
        assert!(rt; alloc.has_refused());
        assert!(rt; heap.used() == 0);
    }
    Err("more requests than are tried".into())
}

#[test]
fn a_refused_request_is_answered(rt: HostRuntime) -> Result<(), Fail> {
    let marks = [true, true, true];
    assert!(rt; requests_of(&rt, &two_updates(&rt)?, &marks)? >= 2);
    assert!(rt; requests_of(&rt, &two_tables(&rt)?, &marks)? >= 2);
    assert!(rt; requests_of(&rt, &two_transactions(&rt)?, &marks)? >= 2);
    Ok(())
}
