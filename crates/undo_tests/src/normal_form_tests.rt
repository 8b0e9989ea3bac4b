//! Events of a server that are copied and undone.

use blog_trans::Selection;
use log_calls::calls::{flashback, forward};
use sample_logs::builder::with_bytes;
use sample_logs::samples::INSERT;
use std::process::Abort;
use std::test::Fail;

/// The ends of the query, of the map, of the rows event and of the transaction's end behind the server's format description.
const LOG_POSITIONS: &[(usize, u8)] = &[
    (140, 0xC2),
    (141, 0x00),
    (207, 0xEA),
    (208, 0x00),
    (247, 0x0E),
    (248, 0x01),
    (283, 0x29),
    (284, 0x01),
];

/// The events of a server's transaction that inserts a row, copied with new log positions.
fn copied_insert(rt: &impl AllocGlobal) -> Result<Vec<u8>, Fail> {
    let mut copied = INSERT[..127].to_vec(rt.alloc())?;
    copied.extend_from_slice(&INSERT[227..397])?;
    with_bytes(rt, &copied, LOG_POSITIONS)
}

#[test]
fn events_of_a_server_are_copied_with_new_log_positions(rt: HostRuntime) -> Result<(), Fail> {
    let normal = copied_insert(&rt)?;
    let written = forward(rt.alloc(), &INSERT, &Selection::all())?;
    assert!(rt; written.as_slice() == normal.as_slice());
    Ok(())
}

#[test]
fn the_undone_events_of_a_server_have_new_log_positions(rt: HostRuntime) -> Result<(), Fail> {
    let undone = with_bytes(&rt, &copied_insert(&rt)?, &[(238, 32)])?;
    let written = flashback(rt.alloc(), &INSERT, &Selection::all())?;
    assert!(rt; written.as_slice() == undone.as_slice());
    Ok(())
}
