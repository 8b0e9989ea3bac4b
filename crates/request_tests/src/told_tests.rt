//! What is told of the units of a log: their ids, times and rows.

use crate::walk_tests::{is_of_its_range, rows_of};
use blog_event::Log;
use blog_units::{GlobalId, Unit, Units};
use sample_logs::builder::{BEGIN, Part, XID, build};
use sample_logs::samples::{ALTER_BETWEEN, INSERT, MULTI_TABLE, SAVEPOINT_KEPT, UPDATE};
use std::process::Abort;
use std::test::Fail;

/// The body of a Gtid event: a byte, the server's id, the transaction's number, and two bytes more.
const GTID_BODY: &[u8] = &[
    1, 0x28, 0x3C, 0x10, 0x5D, 0xE7, 0x30, 0x11, 0xF1, 0x97, 0xFF, 0x02, 0xFC, 0, 0, 0, 1, 9, 1, 0,
    0, 0, 0, 0, 0x80, 7,
];

/// The server's id in it.
const SERVER: &[u8] = &[
    0x28, 0x3C, 0x10, 0x5D, 0xE7, 0x30, 0x11, 0xF1, 0x97, 0xFF, 0x02, 0xFC, 0, 0, 0, 1,
];

const NUMBERED: Part<'static> = Part::Other {
    kind: 33,
    flags: 0,
    body: GTID_BODY,
};

/// The same without the last two bytes.
const SHORT: Part<'static> = Part::Other {
    kind: 33,
    flags: 0,
    body: &[
        1, 0x28, 0x3C, 0x10, 0x5D, 0xE7, 0x30, 0x11, 0xF1, 0x97, 0xFF, 0x02, 0xFC, 0, 0, 0, 1, 9,
        1, 0, 0, 0, 0, 0,
    ],
};

const ANONYMOUS: Part<'static> = Part::Other {
    kind: 34,
    flags: 0,
    body: GTID_BODY,
};

#[rattlefmt::skip]
const NUMBERED_UNITS: &[Part<'static>] = &[
    NUMBERED, BEGIN, XID, SHORT, BEGIN, XID, ANONYMOUS, BEGIN, XID, BEGIN, NUMBERED,
];

#[test]
fn units_tell_their_global_transaction_ids(rt: HostRuntime) -> Result<(), Fail> {
    let bytes = build(&rt, NUMBERED_UNITS)?;
    let log = Log::open(&bytes)?;
    let mut units = Units::new(&log);
    // Only the first and the last unit have one.
    for numbered in [true, false, false, false, true] {
        check_id(&rt, units.next().expect(&rt, "a unit").id, numbered);
    }
    assert!(rt; units.next().is_none());
    Ok(())
}

/// Checks that there is the id of `GTID_BODY`, or none.
fn check_id(rt: &impl Abort, id: Option<GlobalId<'_>>, numbered: bool) {
    let Some(id) = id else {
        assert!(rt; !numbered, "no id");
        return;
    };
    assert!(rt; numbered, "an id");
    assert!(rt; id.server == SERVER);
    assert!(rt; id.number == 0x8000_0000_0000_0109);
}

/// Checks the units of a server's log: where each starts and stops, its time, and how many rows it changes, or 1000 where it is refused.
fn check_sample(
    rt: &(impl AllocGlobal + Abort),
    bytes: &[u8],
    wanted: &[(u32, u32, u32, u64)],
) -> Result<(), Fail> {
    let log = Log::open(bytes)?;
    let mut units = Units::new(&log);
    for told in wanted {
        let unit = units.next().expect(rt, "a unit");
        let judged = unit.with_groups(rt.alloc());
        let seen = (unit.start, unit.stop, unit.time, rows_or_1000(&judged));
        assert!(rt; seen == *told);
        assert!(rt; is_of_its_range(rt, &log, &judged));
    }
    assert!(rt; units.next().is_none());
    Ok(())
}

fn rows_or_1000(unit: &Unit<'_>) -> u64 {
    match &unit.groups {
        Ok(groups) => rows_of(groups),
        Err(_) => 1000,
    }
}

#[test]
fn logs_of_a_server_have_their_units(rt: HostRuntime) -> Result<(), Fail> {
    check_sample(&rt, &INSERT, &[(154, 397, 1_795_332_401, 1)])?;
    check_sample(&rt, &UPDATE, &[(154, 479, 1_795_332_402, 3)])?;
    check_sample(&rt, &MULTI_TABLE, &[(154, 559, 1_795_332_403, 5)])?;
    check_sample(&rt, &SAVEPOINT_KEPT, &[(154, 625, 1_795_332_404, 2)])?;
    let wanted = [
        (240, 500, 1_795_332_415, 1),
        (500, 682, 1_795_332_415, 1000),
        (682, 947, 1_795_332_415, 1),
    ];
    check_sample(&rt, &ALTER_BETWEEN, &wanted)
}
