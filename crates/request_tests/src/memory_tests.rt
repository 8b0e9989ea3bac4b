//! Memory that runs out: each request is refused in turn.

use crate::calls::{maps, of_tables, text_of};
use blog_choice::TableName;
use blog_event::Log;
use blog_reasons::Reasons;
use blog_request::Wanted;
use linked_list_allocator::LocalHeap;
use refusing::Refusing;
use std::alloc::{AllocError, Allocator};
use std::test::Fail;

/// A heap with room for the calls, in bytes.
const ROOM: usize = 1 << 16;

/// At most this many requests are refused, in turn.
const MOST_REQUESTS: usize = 200;

/// Looks at a log.
fn look<'w, A: Allocator + Copy>(
    alloc: A,
    wanted: &Wanted<'w>,
    log: &Log<'_>,
) -> Result<Reasons<'w, A>, AllocError> {
    let mut reasons = Reasons::new(alloc, wanted)?;
    reasons.look(log, None, None)?;
    Ok(reasons)
}

#[test]
fn a_refused_request_is_reported(rt: HostRuntime) -> Result<(), Fail> {
    let bytes = maps(
        &rt,
        &[
            (b"shop", b"orders"),
            (b"shop", b"items"),
            (b"shop", b"ordrss"),
        ],
    )?;
    let log = Log::open(&bytes)?;
    let tables = [TableName::read(b"ordrs"), TableName::read(b"shop.itms")];
    let wanted = of_tables(&tables);
    let heap = LocalHeap::new(rt.alloc(), ROOM)?;
    let mut refused = 0_usize;
    for number in 0..MOST_REQUESTS {
        let alloc = Refusing::new(&heap, number.wrapping_add(1));
        match look(&alloc, &wanted, &log) {
            Ok(reasons) => {
                let text = text_of(&rt, &reasons.reason())?;
                assert!(rt; text.as_str() == "no table: shop.orders shop.items shop.ordrss");
                if !alloc.has_refused() {
                    assert!(rt; refused >= 20);
                    return Ok(());
                }
            }
            Err(AllocError) => {
                assert!(rt; alloc.has_refused());
                refused = refused.wrapping_add(1);
            }
        }
    }
    Err("more requests than are tried".into())
}
