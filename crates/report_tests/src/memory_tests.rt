//! Memory that runs out: each request is refused in turn.

use crate::sample::{LOGS, small};
use jiff::tz::TimeZone;
use linked_list_allocator::LocalHeap;
use refusing::Refusing;
use std::alloc::{AllocError, Allocator};
use std::test::Fail;

/// A heap with room for the calls, in bytes.
const ROOM: usize = 1 << 19;

/// At most this many requests are refused, in turn.
const MOST_REQUESTS: usize = 400;

/// The small report as a page, and behind it as lines.
fn printed<A: Allocator + Copy>(alloc: A) -> Result<Vec<u8, A>, AllocError> {
    let report = small(alloc)?;
    let mut out = Vec::new(alloc);
    report.put_html(&mut out, LOGS.as_slice(), TimeZone::UTC)?;
    report.put_lines(&mut out, LOGS.as_slice(), TimeZone::UTC)?;
    Ok(out)
}

#[test]
fn a_refused_request_is_reported(rt: HostRuntime) -> Result<(), Fail> {
    let expected = printed(rt.alloc())?;
    let heap = LocalHeap::new(rt.alloc(), ROOM)?;
    let mut refused = 0_usize;
    for number in 0..MOST_REQUESTS {
        let alloc = Refusing::new(&heap, number.wrapping_add(1));
        match printed(&alloc) {
            Ok(out) => {
                assert!(rt; out.as_slice() == expected.as_slice());
                if !alloc.has_refused() {
                    assert!(rt; refused >= 20);
                    return Ok(());
                }
            }
            Err(AllocError) => {
                assert!(rt; alloc.has_refused());
                refused = refused.wrapping_add(1);
            }
        }
    }
    Err("more requests than are tried".into())
}
