//! Memory that runs out: each request is refused in turn.

use crate::logs::{net_of, source_of};
use blog_event::Fault;
use blog_net::{NetFault, NetLog};
use linked_list_allocator::LocalHeap;
use refusing::Refusing;
use sample_logs::logs::two_updates;
use std::alloc::Allocator;
use std::test::Fail;

/// A heap with room for each call, in bytes.
const ROOM: usize = 1 << 16;

/// Requests up to this number are refused in turn.
const MOST_REQUESTS: usize = 50;

#[test]
fn a_refused_request_of_a_log_is_answered(rt: HostRuntime) -> Result<(), Fail> {
    let log = two_updates(&rt)?;
    let source = source_of(rt.alloc(), &log)?;
    let heap = LocalHeap::new(rt.alloc(), ROOM)?;
    for number in 0..MOST_REQUESTS {
        let alloc = Refusing::new(&heap, number + 1);
        match net_of(&alloc, &source) {
            Ok(net) => {
                assert!(rt; !alloc.has_refused());
                assert!(rt; net.len() > log.len());
                assert!(rt; number >= 4);
                return Ok(());
            }
            Err(fault) => assert!(rt; fault == NetFault::OutOfMemory),
        }
        assert!(rt; alloc.has_refused());
        assert!(rt; heap.used() == 0);
    }
    Err("more requests than are tried".into())
}

/// How many statements a log has, by its index.
fn statements_of<A: Allocator + Copy>(alloc: A, net: &NetLog) -> Result<usize, Fault> {
    let index = net.index(alloc, 0)?;
    Ok(index.all_statements())
}

#[test]
fn a_refused_request_of_an_index_is_answered(rt: HostRuntime) -> Result<(), Fail> {
    let log = two_updates(&rt)?;
    let net = net_of(rt.alloc(), &source_of(rt.alloc(), &log)?).expect(&rt, "a log of them");
    let heap = LocalHeap::new(rt.alloc(), ROOM)?;
    for number in 0..MOST_REQUESTS {
        let alloc = Refusing::new(&heap, number + 1);
        match statements_of(&alloc, &net) {
            Ok(statements) => {
                assert!(rt; !alloc.has_refused());
                assert!(rt; statements == 2);
                assert!(rt; number >= 2);
                return Ok(());
            }
            Err(fault) => assert!(rt; fault == Fault::OutOfMemory),
        }
        assert!(rt; alloc.has_refused());
    }
    Err("more requests than are tried".into())
}
