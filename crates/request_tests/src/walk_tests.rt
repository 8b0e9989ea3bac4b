//! Which events each unit of a log has, and what is told of it.

use blog_event::{Fault, Log};
use blog_trans::{Index, Selection, index};
use blog_units::{Unit, Units};
use list_calls::parts::{INSERTED_NONE, MAP, ONE, PAYLOAD, ROLLBACK, TWO};
use sample_logs::builder::{
    ANONYMOUS_GTID, BEGIN, COMMIT, DROP_TABLE, GTID, PREVIOUS_GTIDS, Part, ROTATE, ROWS_QUERY, XID,
    build,
};
use std::process::Abort;
use std::test::Fail;

/// What is told of a range.
#[derive(Clone, Copy)]
enum Answer<'p> {
    /// So many rows are changed.
    Rows(u64),
    /// It is refused by this fault, where this part begins.
    Refused(&'p str, usize),
}

/// A unit, by its first part and the part behind its last.
type Told<'p> = (usize, usize, Answer<'p>);

const ROLLBACK_TO: Part<'static> = Part::Query {
    status: &[],
    text: b"ROLLBACK TO `s`",
};

const XA_START: Part<'static> = Part::Query {
    status: &[],
    text: b"XA START X'31',X'',1",
};

const XA_END: Part<'static> = Part::Query {
    status: &[],
    text: b"XA END X'31',X'',1",
};

const XA_COMMIT: Part<'static> = Part::Query {
    status: &[],
    text: b"XA COMMIT X'31',X'',1",
};

const XA_PREPARE: Part<'static> = Part::Other {
    kind: 38,
    flags: 0,
    body: &[0; 12],
};

const INTVAR: Part<'static> = Part::Other {
    kind: 5,
    flags: 0,
    body: &[0; 9],
};

const SKIPPED: Part<'static> = Part::Other {
    kind: 36,
    flags: 0x80,
    body: &[0; 9],
};

/// Where the part of this number begins in a log of these parts, or the log ends.
fn start_of(
    rt: &(impl AllocGlobal + Abort),
    parts: &[Part<'_>],
    number: usize,
) -> Result<u32, Fail> {
    let log = build(rt, parts.get(..number).expect(rt, "parts"))?;
    Ok(u32::try_from(log.len()).expect(rt, "a short log"))
}

/// How many rows an index has, of all tables.
pub(crate) fn rows_of(index: &Index<'_, '_>) -> u64 {
    let mut rows = 0_u64;
    for n in 0..index.tables() {
        let count = index.table(n);
        rows = rows
            .wrapping_add(count.inserts)
            .wrapping_add(count.updates)
            .wrapping_add(count.deletes);
    }
    rows
}

/// Whether the range of a unit has the groups or the fault that it tells, by the whole log.
pub(crate) fn is_of_its_range(
    rt: &(impl AllocGlobal + Abort),
    log: &Log<'_>,
    unit: &Unit<'_>,
) -> bool {
    let sel = Selection {
        start: unit.facts.start,
        stop: Some(unit.facts.stop),
        database: None,
        table: None,
    };
    match (index(rt.alloc(), log, &sel), &unit.groups) {
        (Ok(whole), Ok(groups)) => {
            whole.entries() == groups.entries()
                && whole.tables() == groups.tables()
                && rows_of(&whole) == rows_of(groups)
        }
        (Err(whole), Err(fault)) => whole == *fault,
        _ => false,
    }
}

/// Checks the units of a log of these parts.
fn check(
    rt: &(impl AllocGlobal + Abort),
    parts: &[Part<'_>],
    wanted: &[Told<'_>],
) -> Result<(), Fail> {
    let bytes = build(rt, parts)?;
    check_log(rt, &bytes, parts, wanted)
}

fn check_log(
    rt: &(impl AllocGlobal + Abort),
    bytes: &[u8],
    parts: &[Part<'_>],
    wanted: &[Told<'_>],
) -> Result<(), Fail> {
    let log = Log::open(bytes)?;
    check_units(rt, &log, Units::new(&log), parts, wanted)
}

/// Checks the units of a log of these parts from the part of this number on.
fn check_from(
    rt: &(impl AllocGlobal + Abort),
    parts: &[Part<'_>],
    number: usize,
    wanted: &[Told<'_>],
) -> Result<(), Fail> {
    let bytes = build(rt, parts)?;
    let log = Log::open(&bytes)?;
    let units = Units::from_position(&log, start_of(rt, parts, number)?);
    check_units(rt, &log, units, parts, wanted)
}

fn check_units<'l>(
    rt: &(impl AllocGlobal + Abort),
    log: &Log<'l>,
    units: Units<'l>,
    parts: &[Part<'_>],
    wanted: &[Told<'_>],
) -> Result<(), Fail> {
    let mut units = units;
    for told in wanted {
        let unit = units.next().expect(rt, "a unit").with_groups(rt.alloc());
        check_unit(rt, parts, &unit, told)?;
        assert!(rt; is_of_its_range(rt, log, &unit));
    }
    assert!(rt; units.next().is_none());
    Ok(())
}

/// Checks where a unit of a log of these parts starts and stops, and what is told of its range.
fn check_unit(
    rt: &(impl AllocGlobal + Abort),
    parts: &[Part<'_>],
    unit: &Unit<'_>,
    told: &Told<'_>,
) -> Result<(), Fail> {
    let (first, last, answer) = *told;
    assert!(rt; unit.facts.start == start_of(rt, parts, first)?);
    assert!(rt; unit.facts.stop == start_of(rt, parts, last)?);
    match (answer, &unit.groups) {
        (Answer::Rows(rows), Ok(groups)) => assert!(rt; rows_of(groups) == rows),
        (Answer::Refused(name, part), Err(fault)) => check_told(rt, parts, name, part, *fault)?,
        _ => panic!(rt; "another answer"),
    }
    Ok(())
}

/// Checks that a fault has this name, and stands where this part begins.
fn check_told(
    rt: &(impl AllocGlobal + Abort),
    parts: &[Part<'_>],
    name: &str,
    part: usize,
    fault: Fault,
) -> Result<(), Fail> {
    let pos = start_of(rt, parts, part)?;
    let line = format!(in rt.alloc(); "{name} at {pos}")?;
    let told = format!(in rt.alloc(); "{fault}")?;
    assert!(rt; told.as_str() == line.as_str());
    Ok(())
}

/// Two transactions, and what stands around them.
const TWO_TRANSACTIONS: &[Part<'static>] = &[
    PREVIOUS_GTIDS,
    ANONYMOUS_GTID,
    BEGIN,
    MAP,
    ONE,
    XID,
    ROTATE,
    BEGIN,
    ROWS_QUERY,
    MAP,
    TWO,
    XID,
    ROTATE,
];

const OF_TWO_TRANSACTIONS: &[Told<'static>] = &[(1, 6, Answer::Rows(1)), (7, 12, Answer::Rows(2))];

#[test]
fn transactions_are_units(rt: HostRuntime) -> Result<(), Fail> {
    check(&rt, &[BEGIN, MAP, ONE, XID], &[(0, 4, Answer::Rows(1))])?;
    let parts = [GTID, BEGIN, MAP, TWO, COMMIT];
    check(&rt, &parts, &[(0, 5, Answer::Rows(2))])?;
    check(&rt, TWO_TRANSACTIONS, OF_TWO_TRANSACTIONS)
}

/// What is left of the second of two transactions behind its `BEGIN`.
const OF_THE_REST: &[Told<'static>] = &[
    (9, 11, Answer::Refused("OutOfPlace", 9)),
    (11, 12, Answer::Refused("OutOfPlace", 11)),
];

#[test]
fn units_begin_at_a_position_or_after_it(rt: HostRuntime) -> Result<(), Fail> {
    check_from(&rt, TWO_TRANSACTIONS, 0, OF_TWO_TRANSACTIONS)?;
    check_from(&rt, TWO_TRANSACTIONS, 1, OF_TWO_TRANSACTIONS)?;
    check_from(&rt, TWO_TRANSACTIONS, 6, &OF_TWO_TRANSACTIONS[1..])?;
    check_from(&rt, TWO_TRANSACTIONS, 7, &OF_TWO_TRANSACTIONS[1..])?;
    check_from(&rt, TWO_TRANSACTIONS, 8, OF_THE_REST)?;
    check_from(&rt, TWO_TRANSACTIONS, 13, &[])
}

const WITHOUT_CHANGES: &[Part<'static>] = &[BEGIN, MAP, COMMIT, BEGIN, INSERTED_NONE, XID];

const OF_WITHOUT_CHANGES: &[Told<'static>] = &[
    (0, 3, Answer::Rows(0)),
    (3, 6, Answer::Refused("NoMap", 4)),
];

#[test]
fn logs_without_changes_have_empty_units_or_none(rt: HostRuntime) -> Result<(), Fail> {
    check(&rt, &[], &[])?;
    check(&rt, &[PREVIOUS_GTIDS, ROWS_QUERY, SKIPPED, ROTATE], &[])?;
    check(&rt, &[BEGIN, XID], &[(0, 2, Answer::Rows(0))])?;
    check(&rt, WITHOUT_CHANGES, OF_WITHOUT_CHANGES)
}

#[rattlefmt::skip]
const REFUSED_BETWEEN: &[Part<'static>] = &[
    GTID, DROP_TABLE, GTID, BEGIN, MAP, ONE, COMMIT, DROP_TABLE, INTVAR, PAYLOAD, BEGIN, MAP, ONE, XID,
];

const OF_REFUSED_BETWEEN: &[Told<'static>] = &[
    (0, 2, Answer::Refused("Statement", 1)),
    (2, 7, Answer::Rows(1)),
    (7, 8, Answer::Refused("Statement", 7)),
    (8, 9, Answer::Refused("Statement", 8)),
    (9, 10, Answer::Refused("UnknownEvent", 9)),
    (10, 14, Answer::Rows(1)),
];

#[test]
fn what_is_refused_between_transactions_is_a_unit(rt: HostRuntime) -> Result<(), Fail> {
    check(&rt, REFUSED_BETWEEN, OF_REFUSED_BETWEEN)
}

#[rattlefmt::skip]
const REFUSED_INSIDE: &[Part<'static>] = &[
    BEGIN, MAP, ONE, PAYLOAD, XID, BEGIN, MAP, ONE, DROP_TABLE, MAP, ONE, COMMIT, BEGIN, MAP, ONE, XID,
];

const OF_REFUSED_INSIDE: &[Told<'static>] = &[
    (0, 5, Answer::Refused("UnknownEvent", 3)),
    (5, 12, Answer::Refused("Statement", 8)),
    (12, 16, Answer::Rows(1)),
];

#[test]
fn what_is_refused_in_a_transaction_is_of_its_unit(rt: HostRuntime) -> Result<(), Fail> {
    check(&rt, REFUSED_INSIDE, OF_REFUSED_INSIDE)
}

#[rattlefmt::skip]
const ROLLED_BACK: &[Part<'static>] = &[
    BEGIN, MAP, ONE, ROLLBACK, GTID, BEGIN, MAP, ONE, ROLLBACK_TO, MAP, ONE, XID,
];

const OF_ROLLED_BACK: &[Told<'static>] = &[
    (0, 4, Answer::Refused("RolledBack", 3)),
    (4, 12, Answer::Refused("RolledBack", 8)),
];

#[test]
fn a_transaction_ends_where_it_is_rolled_back(rt: HostRuntime) -> Result<(), Fail> {
    check(&rt, ROLLED_BACK, OF_ROLLED_BACK)
}

#[rattlefmt::skip]
const UNENDED: &[Part<'static>] = &[
    GTID, GTID, BEGIN, MAP, ONE, BEGIN, MAP, ONE, GTID, BEGIN, MAP, ONE, XID,
];

const OF_UNENDED: &[Told<'static>] = &[
    (0, 1, Answer::Refused("Unended", 1)),
    (1, 5, Answer::Refused("Unended", 5)),
    (5, 8, Answer::Refused("Unended", 8)),
    (8, 13, Answer::Rows(1)),
];

#[test]
fn a_transaction_without_an_end_is_a_unit(rt: HostRuntime) -> Result<(), Fail> {
    let unended = Answer::Refused("Unended", 3);
    check(&rt, &[BEGIN, MAP, ONE], &[(0, 3, unended)])?;
    check(&rt, &[GTID], &[(0, 1, Answer::Refused("Unended", 1))])?;
    check(&rt, UNENDED, OF_UNENDED)
}

const OF_CUT: &[Told<'static>] = &[
    (0, 4, Answer::Rows(1)),
    (4, 7, Answer::Refused("Unended", 7)),
];

#[test]
fn a_cut_log_has_the_units_of_its_whole_events(rt: HostRuntime) -> Result<(), Fail> {
    let parts = [BEGIN, MAP, ONE, XID, BEGIN, MAP, ONE, XID];
    let bytes = build(&rt, &parts)?;
    let cut = bytes
        .get(..bytes.len().wrapping_sub(1))
        .expect(&rt, "a log");
    check_log(&rt, cut, &parts, OF_CUT)
}

#[rattlefmt::skip]
const ROWS_OUTSIDE: &[Part<'static>] = &[
    GTID, XA_START, ROWS_QUERY, MAP, ONE, SKIPPED, MAP, ONE, XA_END, XA_PREPARE, GTID, XA_COMMIT, MAP, ONE,
];

const OF_ROWS_OUTSIDE: &[Told<'static>] = &[
    (0, 8, Answer::Refused("Statement", 1)),
    (8, 9, Answer::Refused("Statement", 8)),
    (9, 10, Answer::Refused("UnknownEvent", 9)),
    (10, 14, Answer::Refused("Statement", 11)),
];

const OF_ROWS_ALONE: &[Told<'static>] = &[
    (0, 2, Answer::Refused("OutOfPlace", 0)),
    (2, 3, Answer::Refused("OutOfPlace", 2)),
];

#[test]
fn rows_outside_of_transactions_are_of_the_unit_before(rt: HostRuntime) -> Result<(), Fail> {
    check(&rt, ROWS_OUTSIDE, OF_ROWS_OUTSIDE)?;
    check(&rt, &[MAP, ONE, XID], OF_ROWS_ALONE)
}
