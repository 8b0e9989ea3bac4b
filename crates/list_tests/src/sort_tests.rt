//! Lists that are sorted by rows.

use blog_device::{RunFault, Watched};
use blog_event::Fault;
use blog_list::{Sorting, Style, list};
use blog_source::{Reading, Source};
use blog_sum::SumFault;
use linked_list_allocator::LocalHeap;
use list_calls::lists::{ALL, TEXT};
use list_calls::parts::{MAP, ONE, TWO};
use list_calls::sources::source_of;
use refusing::Refusing;
use sample_logs::builder::{BEGIN, XID, build};
use sample_logs::summed::CLOSED;
use std::alloc::Allocator;
use std::process::Abort;
use std::test::Fail;

/// As text, with the most rows first.
const BY_ROWS: Style<'static> = Style {
    sorting: Sorting::Rows,
    ..TEXT
};

/// So many transactions that their lines are more than a chunk.
const MANY: usize = 1000;

/// A log of many transactions of one row, and of one with two behind them.
fn many(rt: &(impl AllocGlobal + Abort)) -> Result<Vec<u8>, Fail> {
    let mut parts = Vec::new(rt.alloc());
    for _ in 0..MANY {
        parts.extend_from_slice(&[BEGIN, MAP, ONE, XID])?;
    }
    parts.extend_from_slice(&[BEGIN, MAP, TWO, XID])?;
    Ok(build(rt, &parts)?)
}

#[test]
fn a_list_of_more_than_a_chunk_is_sorted(rt: HostRuntime) -> Result<(), Fail> {
    let bytes = many(&rt)?;
    let source = source_of(&rt, &bytes)?;
    let mut output = Watched::new(Vec::new(rt.alloc()));
    let answer = list(rt.alloc(), rt.alloc(), &source, &ALL, &BY_ROWS, &mut output);
    assert!(rt; answer == Ok(None));
    let text = str::from_utf8(output.device().as_slice())?;
    let mut lines = text.lines();
    assert!(rt; lines.next().is_some());
    assert!(rt;
        lines
            .next()
            .expect(&rt, "a line")
            .ends_with("`d`.`t` inserts 2")
    );
    let mut start = 120_usize;
    for _ in 0..MANY {
        let line = lines.next().expect(&rt, "a line");
        let place = format!(in rt.alloc(); "{start:>10} ")?;
        assert!(rt; line.starts_with(place.as_str()), "{line}");
        start = start.wrapping_add(139);
    }
    assert!(rt;
        lines
            .next()
            .expect(&rt, "totals")
            .starts_with("units 1001, ")
    );
    assert!(rt; lines.next().is_none());
    Ok(())
}

/// A heap with room for the lists, in bytes.
const ROOM: usize = 1 << 16;

/// At most this many requests are refused, in turn.
const MOST_REQUESTS: usize = 200;

/// Lists a log with the most rows first. Memory for the log and its list is taken from `alloc`.
fn list_with<A: Allocator + Copy>(
    rt: &impl AllocGlobal,
    alloc: A,
    bytes: &[u8],
    output: &mut Watched<Vec<u8>>,
) -> Result<Option<SumFault>, RunFault> {
    let mut log = Vec::new(alloc);
    log.extend_from_slice(bytes)?;
    match Source::open(log, Reading::ALL) {
        Ok(source) => list(rt.alloc(), alloc, &source, &ALL, &BY_ROWS, output),
        Err(_) => Err(RunFault::Read),
    }
}

#[test]
fn a_refused_request_is_reported(rt: HostRuntime) -> Result<(), Fail> {
    let mut whole = Watched::new(Vec::new(rt.alloc()));
    assert!(rt; list_with(&rt, rt.alloc(), &CLOSED, &mut whole) == Ok(None));
    let heap = LocalHeap::new(rt.alloc(), ROOM)?;
    for number in 0..MOST_REQUESTS {
        let alloc = Refusing::new(&heap, number.wrapping_add(1));
        let mut output = Watched::new(Vec::new(rt.alloc()));
        let answer = list_with(&rt, &alloc, &CLOSED, &mut output);
        if alloc.has_refused() {
            assert!(rt; answer == Err(RunFault::Log(Fault::OutOfMemory)));
            assert!(rt; whole.device().starts_with(output.device().as_slice()));
        } else {
            assert!(rt; answer == Ok(None));
            assert!(rt; output.device().as_slice() == whole.device().as_slice());
            assert!(rt; number > 5);
            return Ok(());
        }
    }
    Err("more requests than are tried".into())
}
