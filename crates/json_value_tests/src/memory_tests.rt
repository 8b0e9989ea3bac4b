//! Memory that runs out: each request is refused in turn.

use blog_json::put_document;
use linked_list_allocator::LocalHeap;
use refusing::Refusing;
use std::alloc::AllocError;
use std::test::Fail;

/// A heap with room for the calls, in bytes.
const ROOM: usize = 1 << 16;

/// At most this many requests are refused, in turn.
const MOST_REQUESTS: usize = 50;

#[test]
fn a_refused_request_leaves_the_text_as_it_was(rt: HostRuntime) -> Result<(), Fail> {
    let document =
        b"\x00\x02\x00\x1e\x00\x12\x00\x01\x00\x13\x00\x01\x00\x05\x01\x00\x02\x14\x00ab\x02\x00\x0a\x00\x04\x01\x00\x04\x00\x00";
    let heap = LocalHeap::new(rt.alloc(), ROOM)?;
    let mut refused = 0_usize;
    for number in 0..MOST_REQUESTS {
        let alloc = Refusing::new(&heap, number.wrapping_add(1));
        let mut out = Vec::new(&alloc);
        match put_document(&mut out, document) {
            Ok(printed) => {
                assert!(rt; printed);
                assert!(rt; out.as_slice() == b"{\"a\": 1, \"b\": [true, null]}".as_slice());
                if !alloc.has_refused() {
                    assert!(rt; refused >= 1);
                    return Ok(());
                }
            }
            Err(AllocError) => {
                assert!(rt; alloc.has_refused());
                assert!(rt; out.as_slice().is_empty());
                refused = refused.wrapping_add(1);
            }
        }
    }
    Err("more requests than are tried".into())
}
