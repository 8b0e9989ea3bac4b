//! Memory that runs out: each request of a call is refused in turn, and the call answers that memory was refused.

use crate::splits::split;
use blog_device::Watched;
use blog_event::Fault;
use blog_flash::{Selection, selected};
use blog_row::Order;
use blog_run::{Writing, WritingFault, write_changes};
use blog_split::{SplitFault, SplitRunFault, write_cut};
use linked_list_allocator::LocalHeap;
use refusing::Refusing;
use sample_logs::logs::two_tables;
use std::test::Fail;

/// A heap with room for the call, in bytes.
const ROOM: usize = 1 << 16;

/// Requests up to this number are refused in turn.
const MOST_REQUESTS: usize = 200;

#[test]
fn a_refused_request_is_answered(rt: HostRuntime) -> Result<(), Fail> {
    let log = two_tables(&rt)?;
    let cut = split(&rt, &log, 1).ok().ok_or("the log is not split")?;
    let heap = LocalHeap::new(rt.alloc(), ROOM)?;
    let writing = Writing {
        order: Order::Forward,
        limit: 1,
        sql: None,
    };
    for number in 0..MOST_REQUESTS {
        let alloc = Refusing::new(&heap, number + 1);
        let mut writer = Watched::new(Vec::new(rt.alloc()));
        match write_changes(&alloc, &mut writer, &log, &Selection::all(), 0, &writing) {
            Ok(()) => {
                assert!(rt; writer.device().as_slice() == cut.as_slice());
                assert!(rt; !alloc.has_refused());
                // The cut log is longer.
                assert!(rt; cut.len() > log.len());
                assert!(rt; number >= 5);
                return Ok(());
            }
            Err(fault) => {
                assert!(rt; alloc.has_refused());
                assert!(rt; fault == WritingFault::Log(Fault::OutOfMemory));
                assert!(rt; writer.device().is_empty());
            }
        }
    }
    Err("more requests than are tried".into())
}

#[test]
fn a_refused_request_writes_nothing(rt: HostRuntime) -> Result<(), Fail> {
    let log = two_tables(&rt)?;
    let heap = LocalHeap::new(rt.alloc(), ROOM)?;
    let index = selected(rt.alloc(), &log, &Selection::all(), 0)?;
    for number in 0..MOST_REQUESTS {
        let alloc = Refusing::new(&heap, number + 1);
        let mut writer = Watched::new(Vec::new(rt.alloc()));
        let answer = write_cut(&alloc, &mut writer, &index, Order::Backward, 1, 1);
        if answer.is_ok() {
            assert!(rt; !alloc.has_refused());
            assert!(rt; writer.device().len() > log.len());
            assert!(rt; number >= 5);
            return Ok(());
        }
        let refused = SplitFault::Log(Fault::OutOfMemory);
        assert!(rt; answer == Err(SplitRunFault::Split(refused)));
        assert!(rt; alloc.has_refused());
        assert!(rt; writer.device().is_empty());
    }
    Err("more requests than are tried".into())
}
