//! Memory that runs out: each request is refused in turn.

use blog_untouched::{Kept, SelectedRow, TakenRow, Taker, Touched, kept_changes};
use linked_list_allocator::LocalHeap;
use refusing::Refusing;
use std::alloc::AllocError;
use std::test::Fail;

/// A heap with room for the calls, in bytes.
const ROOM: usize = 1 << 16;

/// At most this many requests are refused, in turn.
const MOST_REQUESTS: usize = 50;

#[test]
fn a_refused_request_is_reported(rt: HostRuntime) -> Result<(), Fail> {
    let rows = [
        SelectedRow::Updated(1, 2),
        SelectedRow::Updated(2, 3),
        SelectedRow::Inserted(4),
    ];
    let taken = [TakenRow {
        before: 2,
        print: 3,
    }];
    let heap = LocalHeap::new(rt.alloc(), ROOM)?;
    let mut refused = 0_usize;
    for number in 0..MOST_REQUESTS {
        let alloc = Refusing::new(&heap, number.wrapping_add(1));
        match kept_changes(&alloc, 0, &rows, &taken) {
            Ok(Kept { marks, touched }) => {
                assert!(rt; marks.as_slice() == [false, false, true].as_slice());
                let last = Touched {
                    row: 1,
                    by: Taker::Other(0),
                };
                let first = Touched {
                    row: 0,
                    by: Taker::Selected(1),
                };
                assert!(rt; touched.as_slice() == [last, first].as_slice());
                if !alloc.has_refused() {
                    assert!(rt; refused >= 4);
                    return Ok(());
                }
            }
            Err(AllocError) => {
                assert!(rt; alloc.has_refused());
                refused = refused.wrapping_add(1);
            }
        }
    }
    Err("more requests than are tried".into())
}
