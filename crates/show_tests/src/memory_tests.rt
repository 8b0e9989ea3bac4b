//! Memory that runs out: each request is refused in turn.

use crate::form_tests::{CSV, JSON, LINES};
use crate::orders::shown;
use blog_show::RowForm;
use linked_list_allocator::LocalHeap;
use refusing::Refusing;
use std::process::Abort;
use std::test::Fail;

/// A heap with room for the rows in each form, in bytes.
const ROOM: usize = 1 << 16;

/// At most this many requests are refused, in turn.
const MOST_REQUESTS: usize = 100;

/// Checks that a refused request is reported, and nothing else is shown where none is refused.
fn check(rt: &(impl AllocGlobal + Abort), form: RowForm<'_>, expected: &str) -> Result<(), Fail> {
    let heap = LocalHeap::new(rt.alloc(), ROOM)?;
    for number in 0..MOST_REQUESTS {
        let alloc = Refusing::new(&heap, number.wrapping_add(1));
        match shown(rt, &alloc, form)? {
            Ok(text) => {
                assert!(rt; text.as_slice() == expected.as_bytes());
                if !alloc.has_refused() {
                    assert!(rt; number >= 5);
                    return Ok(());
                }
            }
            Err(_) => assert!(rt; alloc.has_refused()),
        }
    }
    Err("more requests than are tried".into())
}

#[test]
fn a_refused_request_is_reported(rt: HostRuntime) -> Result<(), Fail> {
    check(&rt, RowForm::Lines, LINES)?;
    check(&rt, RowForm::Json { log: b"b.1" }, JSON)?;
    check(&rt, RowForm::Csv, CSV)
}
