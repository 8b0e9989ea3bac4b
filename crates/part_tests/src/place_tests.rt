//! Parts of logs with sums, by their places, beside the same parts of their plain copies.

ghost use Rattle.blog_run.specs.Writing.{HasShortWriting};

use crate::runs::{Came, UNDO, between, changes_of, part_of, undone};
use blog_event::event_at;
use blog_row::Order;
use blog_run::{Writing, WritingFault};
use blog_sql::SqlOptions;
use sample_logs::summed::{CLOSED, CLOSED_PLAIN, IN_USE, IN_USE_PLAIN};
use std::process::Abort;
use std::test::Fail;

/// Where the events of a log begin, and where it ends.
fn places<R: AllocGlobal>(rt: &R, log: &[u8]) -> Result<Vec<u32>, Fail> {
    let mut all = Vec::new(rt.alloc());
    let mut at = 4;
    for _ in 0..log.len() {
        all.push(at)?;
        let Some(event) = event_at(log, at) else {
            return Ok(all);
        };
        at = at.wrapping_add(event.header.size);
    }
    Ok(all)
}

/// The place at which the event of a position stands.
fn place_of(places: &[u32], positions: &[u32], pos: u32) -> Option<u32> {
    let n = positions.iter().position(|at| *at == pos)?;
    places.get(n).copied()
}

/// Each part from an event to another, of the log and of its plain copy, written so.
fn check_parts<R: AllocGlobal + Abort>(
    rt: &R,
    log: &[u8],
    copy: &[u8],
    writing: &Writing<'_>,
    done: &mut usize,
) -> Result<(), Fail>
    requires { HasShortWriting writing.now }
{
    let places = places(rt, log)?;
    let positions = crate::place_tests::places(rt, copy)?;
    assert!(rt; places.len() == positions.len());
    for (start, from) in places.iter().zip(positions.iter()) {
        for (stop, to) in places.iter().zip(positions.iter()) {
            let (came, text, _) = part_of(rt, log, &between(*start, Some(*stop)), writing)?;
            let (wanted, wanted_text) = changes_of(rt, copy, &between(*from, Some(*to)), writing)?;
            let is_same = match (came, wanted) {
                (Came::Done, Ok(())) => {
                    *done = done.wrapping_add(1);
                    text == wanted_text
                }
                // a log without transactions
                (Came::NothingSelected, Ok(())) => wanted_text.len() < 800,
                (Came::Log(fault), Err(WritingFault::Log(other))) => {
                    fault.name() == other.name()
                        && fault.at() == other.at().and_then(|at| place_of(&places, &positions, at))
                }
                _ => false,
            };
            if !is_same {
                return Err(Fail::new(format_args!("{start} to {stop}: {came:?}")));
            }
        }
    }
    Ok(())
}

#[test]
fn parts_are_those_of_the_plain_copy(rt: HostRuntime) -> Result<(), Fail> {
    let logs = [
        (CLOSED.as_slice(), CLOSED_PLAIN.as_slice()),
        (IN_USE.as_slice(), IN_USE_PLAIN.as_slice()),
        (CLOSED_PLAIN.as_slice(), CLOSED_PLAIN.as_slice()),
    ];
    let mut done = 0;
    for (log, copy) in logs {
        check_parts(&rt, log, copy, &UNDO, &mut done)?;
    }
    assert!(rt; done >= 30, "{done}");
    Ok(())
}

#[test]
fn parts_are_cut_and_printed(rt: HostRuntime) -> Result<(), Fail> {
    let sql = SqlOptions {
        each_transaction: false,
        time: Some(7),
        schemas: &[],
    };
    let mut done = 0;
    for order in [Order::Forward, Order::Backward] {
        for sql in [None, Some(sql)] {
            let writing = Writing {
                order,
                limit: 60,
                sql,
            };
            check_parts(&rt, &CLOSED, &CLOSED_PLAIN, &writing, &mut done)?;
        }
    }
    assert!(rt; done >= 40, "{done}");
    Ok(())
}

/// A start that is no event's isn't taken, up to the end of the log and behind it.
#[test]
fn parts_start_where_an_event_does(rt: HostRuntime) -> Result<(), Fail> {
    let places = places(&rt, &CLOSED)?;
    let end = CLOSED.len() as u32;
    for start in 0..end.wrapping_add(20) {
        let came = undone(&rt, &CLOSED, &between(start, None))?;
        let is_place = start <= 4 || places.contains(&start);
        assert!(rt; (came != Came::NoEventAt(start)) == is_place);
        // the part is empty, wherever it starts
        for stop in [0, 4, start] {
            let part = between(start, Some(stop.min(start)));
            let came = undone(&rt, &CLOSED, &part)?;
            assert!(rt; came == Came::NothingSelected);
        }
    }
    let came = undone(&rt, &CLOSED, &between(end, None))?;
    assert!(rt; came == Came::NothingSelected);
    let came = undone(&rt, &CLOSED, &between(u32::MAX, None))?;
    assert!(rt; came == Came::NoEventAt(u32::MAX));
    Ok(())
}
