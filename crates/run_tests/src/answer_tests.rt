//! Answers to small logs.

use blog_flash::{Mode, Selection, Watched, answer, prepare};
use sample_logs::logs::{one_delete, one_insert, three_inserts};
use sample_logs::small::INSERT_ONE_ROW;
use std::process::Abort;
use std::test::Fail;

/// What stands at 196 in the log that inserts three rows, byte by byte.
#[rattlefmt::skip]
static INSERTS_THREE: [u8; 71] = [
    // 196: the rows event's header
    0x00, 0x00, 0x00, 0x00, 0x1E, 0x01, 0x00, 0x00, 0x00, 0x2C, 0x00, 0x00, 0x00, 0xF0, 0x00, 0x00,
    0x00, 0x00, 0x00,
    // 215: its body
    0x01, 0x00, 0x00, 0x00, 0x00, 0x00, 0x01, 0x00, 0x04, 0x00, 0xAA, 0xBB, 0x01, 0xFF, 0xFE, 0x01,
    0x00, 0x00, 0x00, 0xFF, 0x00, 0x03, 0x00, 0x00, 0x00,
    // 240: end of the transaction
    0x00, 0x00, 0x00, 0x00, 0x10, 0x01, 0x00, 0x00, 0x00, 0x1B, 0x00, 0x00, 0x00, 0x0B, 0x01, 0x00,
    0x00, 0x00, 0x00, 0x07, 0x00, 0x00, 0x00, 0x00, 0x00, 0x00, 0x00,
];

#[test]
fn logs_are_built_byte_by_byte(rt: HostRuntime) -> Result<(), Fail> {
    assert!(rt; one_insert(&rt)?.as_slice() == INSERT_ONE_ROW.as_slice());
    let mut spelled = INSERT_ONE_ROW[..196].to_vec(rt.alloc())?;
    spelled.extend_from_slice(&INSERTS_THREE)?;
    assert!(rt; three_inserts(&rt)?.as_slice() == spelled.as_slice());
    Ok(())
}

/// What reads a log from a reader prepares the output.
fn check_prepared<R: AllocGlobal + Abort>(rt: &R, log: &[u8], output: &[u8]) {
    let mut reader = Watched::new(log);
    let prepared = prepare(rt.alloc(), &mut reader, Mode::Flashback, &Selection::all());
    let text = prepared.expect(rt, "an accepted log");
    assert!(rt; text.as_slice() == output);
    assert!(rt; !reader.failed());
}

#[test]
fn prepares_what_the_log_is_answered_with(rt: HostRuntime) -> Result<(), Fail> {
    let log = one_insert(&rt)?;
    let undone = one_delete(&rt)?;
    let text = answer(rt.alloc(), &log, Mode::Flashback, &Selection::all())?;
    assert!(rt; text.as_slice() == undone.as_slice());
    check_prepared(&rt, &log, &undone);
    Ok(())
}
