//! Parts of several logs, beside the same parts of one log with all of their events.

use crate::runs::{Came, between, logs_with};
use blog_choice::TableChoice;
use blog_event::Fault;
use blog_request::Wanted;
use blog_sum::SumFault;
use sample_logs::builder::{
    BEGIN, GTID, PREVIOUS_GTIDS, Part, ROTATE, T, XID, build, build_after, delete, front, insert,
};
use std::process::Abort;
use std::test::Fail;
use undo_run::{FurtherFault, OpeningFault, UnitRequest};

/// Where the first event of a log begins, and how long its transactions are.
const FIRST: u32 = 120;

const UNIT: u32 = 183;

/// A log of some of three transactions with a Gtid event each, from one to another, with events before and behind these. Rows are inserted, and one
/// of them is deleted again.
fn log_of<'p, R: AllocGlobal>(
    rt: &R,
    before: &'p [Part<'p>],
    from: usize,
    to: usize,
    behind: &'p [Part<'p>],
) -> Result<Vec<u8>, Fail> {
    let units = [
        [GTID, BEGIN, Part::Map(T), insert(1, &[5]), XID],
        [GTID, BEGIN, Part::Map(T), insert(1, &[6]), XID],
        [GTID, BEGIN, Part::Map(T), delete(1, &[5]), XID],
    ];
    let mut parts = before.to_vec(rt.alloc())?;
    for unit in units.get(from..to).ok_or("no such transactions")? {
        parts.extend_from_slice(unit)?;
    }
    parts.extend_from_slice(behind)?;
    Ok(build(rt, &parts)?)
}

/// The transactions of some threads.
fn of_threads(threads: &[u32]) -> UnitRequest<'_> {
    UnitRequest {
        wanted: Wanted {
            start: None,
            stop: None,
            from_time: None,
            to_time: None,
            threads,
            gtids: &[],
            choice: TableChoice {
                database: None,
                tables: &[],
                excluded: &[],
            },
        },
        at: &[],
        leaves: false,
        merges: false,
    }
}

/// The events of a log, cut into two logs or three between two transactions, are undone as those of one log. The stop is one of the last
/// log.
#[test]
fn several_logs_are_as_one(rt: HostRuntime) -> Result<(), Fail> {
    let whole = log_of(&rt, &[], 0, 3, &[])?;
    let stop = FIRST + 2 * UNIT;
    let (_, came, wanted, _) = logs_with(
        &rt,
        &whole,
        &[],
        &between(4, Some(stop)),
        None,
        false,
        &[],
    )?;
    assert!(rt; came == Came::Done);
    let first = log_of(&rt, &[], 0, 1, &[])?;
    let second = log_of(&rt, &[], 1, 3, &[])?;
    let more: [(&str, &[u8]); 1] = [("b", &second)];
    let (_, came, text, told) = logs_with(
        &rt,
        &first,
        &more,
        &between(4, Some(FIRST + UNIT)),
        None,
        false,
        &[],
    )?;
    assert!(rt; came == Came::Done);
    assert!(rt; text == wanted);
    assert!(rt;
        told.starts_with(b"undoes 2 transactions of binlog.000042, b: `d`.`t` deletes 2\n")
    );
    // with Rotate and Previous_gtids events between them, and all chosen by their thread
    let first = log_of(&rt, &[], 0, 1, &[ROTATE])?;
    let second = log_of(&rt, &[PREVIOUS_GTIDS], 1, 2, &[ROTATE])?;
    let third = log_of(&rt, &[], 2, 3, &[])?;
    let more: [(&str, &[u8]); 2] = [("b", &second), ("c", &third)];
    let threads = [7, 0, 1, 2, 3, 4, 5, 6, 8, 9];
    for asked in [None, Some(of_threads(&threads))] {
        let (_, came, text, _) = logs_with(
            &rt,
            &first,
            &more,
            &between(4, Some(FIRST)),
            asked,
            false,
            &[],
        )?;
        assert!(rt; came == Came::Done);
        assert!(rt; text == wanted);
    }
    Ok(())
}

/// What came later is looked at in the rest of the last log, and told by its name and place.
#[test]
fn a_later_change_has_the_name_of_its_log(rt: HostRuntime) -> Result<(), Fail> {
    let first = log_of(&rt, &[], 0, 1, &[])?;
    let second = log_of(&rt, &[], 1, 3, &[])?;
    let more: [(&str, &[u8]); 1] = [("b", &second)];
    let (_, came, _, lines) = logs_with(
        &rt,
        &first,
        &more,
        &between(4, Some(FIRST + UNIT)),
        None,
        true,
        &[],
    )?;
    assert!(rt; came == Came::ChangedSince(1));
    assert!(rt; lines.starts_with(b"b 423 ") && lines.ends_with(b" `d`.`t`: delete\n"));
    // all of it is undone
    let (_, came, _, told) = logs_with(&rt, &first, &more, &between(4, None), None, true, &[])?;
    assert!(rt; came == Came::Done);
    assert!(rt;
        told.ends_with(b"looked at 0 later transactions, up to 486 of b: none changes these rows\n")
            || told.len() > 80
    );
    Ok(())
}

/// The start is one of the first log.
#[test]
fn the_start_is_in_the_first_log(rt: HostRuntime) -> Result<(), Fail> {
    let first = log_of(&rt, &[], 0, 2, &[])?;
    let second = log_of(&rt, &[], 2, 3, &[])?;
    let more: [(&str, &[u8]); 1] = [("b", &second)];
    for (start, wanted) in [
        (FIRST + UNIT, Came::Done),
        (FIRST + 2 * UNIT, Came::NoEventAt(FIRST + 2 * UNIT)),
        (
            FIRST + 2 * UNIT + FIRST,
            Came::NoEventAt(FIRST + 2 * UNIT + FIRST),
        ),
        (FIRST + 1, Came::NoEventAt(FIRST + 1)),
    ] {
        let (n, came, _, _) = logs_with(
            &rt,
            &first,
            &more,
            &between(start, Some(FIRST)),
            None,
            false,
            &[],
        )?;
        assert!(rt; came == wanted);
        assert!(rt; n == 0);
    }
    Ok(())
}

/// A fault is told with the number of its log, and its place there.
#[test]
fn a_fault_has_its_log(rt: HostRuntime) -> Result<(), Fail> {
    let statement = Part::Query {
        status: &[],
        text: b"DROP TABLE t",
    };
    let first = log_of(&rt, &[], 0, 1, &[])?;
    let second = build(
        &rt,
        &[GTID, BEGIN, Part::Map(T), insert(1, &[6]), XID, statement],
    )?;
    let more: [(&str, &[u8]); 2] = [("b", &second), ("c", &first)];
    let (n, came, _, _) = logs_with(&rt, &first, &more, &between(4, None), None, false, &[])?;
    assert!(rt; n == 1);
    assert!(rt; came == Came::Log(Fault::Statement { pos: FIRST + UNIT }));
    // a unit that the end of the last log cuts
    let cut = build(&rt, &[GTID, BEGIN, Part::Map(T), insert(1, &[6])])?;
    let more: [(&str, &[u8]); 2] = [("b", &first), ("c", &cut)];
    let (n, came, _, _) = logs_with(&rt, &first, &more, &between(4, None), None, false, &[])?;
    assert!(rt; n == 2);
    assert!(rt; matches!(came, Came::Log(Fault::Unended { .. })));
    Ok(())
}

/// Damage of the last log is refused as that of one log, and damage of one before it always.
#[test]
fn a_damaged_log_is_told(rt: HostRuntime) -> Result<(), Fail> {
    let first = log_of(&rt, &[], 0, 1, &[])?;
    let cut = first
        .get(..first.len().saturating_sub(1))
        .ok_or("no bytes")?;
    let fault = SumFault::Log(Fault::CutEvent { pos: 276 });
    let more: [(&str, &[u8]); 2] = [("b", cut), ("c", &first)];
    let (n, came, _, _) = logs_with(&rt, &first, &more, &between(4, Some(4)), None, false, &[])?;
    assert!(rt; n == 2);
    assert!(rt; came == Came::Further(2, FurtherFault::Damaged(fault)));
    let more: [(&str, &[u8]); 1] = [("b", cut)];
    let (n, came, _, _) = logs_with(&rt, &first, &more, &between(4, None), None, false, &[])?;
    assert!(rt; n == 1);
    assert!(rt; came == Came::Sums(fault));
    // in front of it
    let (_, came, _, _) = logs_with(&rt, &first, &more, &between(4, Some(4)), None, false, &[])?;
    assert!(rt; came == Came::Done);
    Ok(())
}

/// A log of another server, or of another version, is refused, and so is one that is no log.
#[test]
fn a_log_of_another_server_is_refused(rt: HostRuntime) -> Result<(), Fail> {
    let first = log_of(&rt, &[], 0, 1, &[])?;
    // the number of the server, the patch level of the version; the time of the format description isn't compared
    for (at, wanted) in [
        (9_usize, Came::Further(1, FurtherFault::OtherServer)),
        (29, Came::Further(1, FurtherFault::OtherServer)),
        (4, Came::Done),
        (75, Came::Done),
    ] {
        let mut other = front().to_vec(rt.alloc())?;
        *other.get_mut(at).ok_or("an edit past the end")? ^= 1;
        let parts = [GTID, BEGIN, Part::Map(T), insert(1, &[6]), XID];
        let second = build_after(&rt, &other, &parts)?;
        let more: [(&str, &[u8]); 1] = [("b", &second)];
        let (_, came, _, _) = logs_with(&rt, &first, &more, &between(4, None), None, false, &[])?;
        assert!(rt; came == wanted);
    }
    let more: [(&str, &[u8]); 1] = [("b", b"no log")];
    let (n, came, _, _) = logs_with(&rt, &first, &more, &between(4, None), None, false, &[])?;
    let fault = SumFault::Log(Fault::NotABinlog { pos: 0 });
    assert!(rt; n == 1);
    assert!(rt; came == Came::Further(1, FurtherFault::Opening(OpeningFault::Sums(fault))));
    Ok(())
}
