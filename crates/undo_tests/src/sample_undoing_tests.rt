//! What is written of the logs of a server: pieces of these logs, put together anew.

use blog_trans::Selection;
use log_calls::calls::{flashback, forward};
use log_calls::selections::{BEFORE, BEHIND};
use sample_logs::samples::{ALTER_BETWEEN, INSERT, MULTI_TABLE, SAVEPOINT_KEPT, UPDATE};
use std::alloc::AllocError;
use std::process::Abort;
use std::test::Fail;

/// Where the magic number and the format description end in each of these logs.
const FRONT_LEN: usize = 127;

/// The type of events that delete rows.
const DELETE_ROWS: &[u8] = &[32];

/// The front of a log and these pieces of its events, joined. Where the events end is set anew.
fn copied(
    rt: &impl AllocGlobal,
    log: &[u8],
    pieces: &[&[u8]],
    ends: &[usize],
) -> Result<Vec<u8>, AllocError> {
    let mut copy = Vec::new(rt.alloc());
    copy.extend_from_slice(log.get(..FRONT_LEN).unwrap_or(&[]))?;
    for piece in pieces {
        copy.extend_from_slice(piece)?;
    }
    set_log_positions(&mut copy, ends);
    Ok(copy)
}

/// Sets the log positions of the events behind the front, which end there.
fn set_log_positions(log: &mut Vec<u8>, ends: &[usize]) {
    let mut start = FRONT_LEN;
    for end in ends {
        let [first, second, third, fourth, ..] = end.to_le_bytes();
        set_byte(log, start.wrapping_add(13), first);
        set_byte(log, start.wrapping_add(14), second);
        set_byte(log, start.wrapping_add(15), third);
        set_byte(log, start.wrapping_add(16), fourth);
        start = *end;
    }
}

fn set_byte(log: &mut Vec<u8>, at: usize, byte: u8) {
    if let Some(place) = log.get_mut(at) {
        *place = byte;
    }
}

/// Both ways of writing a log give these texts.
fn check_texts<R: AllocGlobal + Abort>(
    rt: &R,
    log: &[u8],
    sel: &Selection<'_>,
    normal: &[u8],
    undone: &[u8],
) -> Result<(), Fail> {
    assert!(rt; forward(rt.alloc(), log, sel)?.as_slice() == normal);
    assert!(rt; flashback(rt.alloc(), log, sel)?.as_slice() == undone);
    Ok(())
}

#[test]
fn an_insert_of_a_server_is_undone(rt: HostRuntime) -> Result<(), Fail> {
    let ends = [194, 234, 270, 297];
    let normal = copied(&rt, &INSERT, &[&INSERT[227..397]], &ends)?;
    let deleted = [&INSERT[227..338], DELETE_ROWS, &INSERT[339..397]];
    let undone = copied(&rt, &INSERT, &deleted, &ends)?;
    check_texts(&rt, &INSERT, &Selection::all(), &normal, &undone)
}

#[test]
fn updates_of_a_server_are_undone(rt: HostRuntime) -> Result<(), Fail> {
    let ends = [203, 252, 350, 377];
    let normal = copied(&rt, &UPDATE, &[&UPDATE[229..479]], &ends)?;
    // The images of three rows, before and after, the last first.
    let updated_back = [
        &UPDATE[229..386],
        &UPDATE[441..452],
        &UPDATE[430..441],
        &UPDATE[419..430],
        &UPDATE[408..419],
        &UPDATE[397..408],
        &UPDATE[386..397],
        &UPDATE[452..479],
    ];
    let undone = copied(&rt, &UPDATE, &updated_back, &ends)?;
    check_texts(&rt, &UPDATE, &Selection::all(), &normal, &undone)
}

/// The pieces of what undoes the updates of two tables. The second table's rows event comes first, and the end flag,
/// the lowest bit of the flags, is set in the other.
fn multi_table_undone(rt: &impl AllocGlobal) -> Result<Vec<u8>, AllocError> {
    let pieces: [&[u8]; 18] = [
        // The query and both maps.
        &MULTI_TABLE[229..394],
        // The second rows event up to its flags, the flags, and what stands before its images.
        &MULTI_TABLE[470..495],
        &[0x10],
        &MULTI_TABLE[496..502],
        &MULTI_TABLE[527..532],
        &MULTI_TABLE[522..527],
        &MULTI_TABLE[517..522],
        &MULTI_TABLE[512..517],
        &MULTI_TABLE[507..512],
        &MULTI_TABLE[502..507],
        // The first rows event.
        &MULTI_TABLE[394..419],
        &[0x11],
        &MULTI_TABLE[420..426],
        &MULTI_TABLE[459..470],
        &MULTI_TABLE[448..459],
        &MULTI_TABLE[437..448],
        &MULTI_TABLE[426..437],
        // The end of the transaction.
        &MULTI_TABLE[532..559],
    ];
    copied(rt, &MULTI_TABLE, &pieces, &[203, 252, 292, 354, 430, 457])
}

#[test]
fn updates_of_two_tables_are_undone(rt: HostRuntime) -> Result<(), Fail> {
    let ends = [203, 252, 292, 368, 430, 457];
    let normal = copied(&rt, &MULTI_TABLE, &[&MULTI_TABLE[229..559]], &ends)?;
    let undone = multi_table_undone(&rt)?;
    check_texts(&rt, &MULTI_TABLE, &Selection::all(), &normal, &undone)
}

#[test]
fn statements_between_savepoints_are_undone(rt: HostRuntime) -> Result<(), Fail> {
    let log = &SAVEPOINT_KEPT;
    let ends = [194, 234, 270, 310, 346, 373];
    let kept = [&log[229..372], &log[447..523], &log[598..625]];
    let normal = copied(&rt, log, &kept, &ends)?;
    let reversed = [
        // The query, the second statement, the first statement, and the end of the transaction.
        &log[229..296],
        &log[447..491],
        DELETE_ROWS,
        &log[492..523],
        &log[296..340],
        DELETE_ROWS,
        &log[341..372],
        &log[598..625],
    ];
    let undone = copied(&rt, log, &reversed, &ends)?;
    check_texts(&rt, log, &Selection::all(), &normal, &undone)
}

#[test]
fn what_stands_before_an_altered_table_is_undone(rt: HostRuntime) -> Result<(), Fail> {
    let log = &ALTER_BETWEEN;
    let ends = [194, 243, 285, 312];
    let normal = copied(&rt, log, &[&log[315..500]], &ends)?;
    let deleted = [&log[315..435], DELETE_ROWS, &log[436..500]];
    let undone = copied(&rt, log, &deleted, &ends)?;
    check_texts(&rt, log, &BEFORE, &normal, &undone)
}

#[test]
fn what_stands_behind_an_altered_table_is_undone(rt: HostRuntime) -> Result<(), Fail> {
    let log = &ALTER_BETWEEN;
    let ends = [194, 244, 290, 317];
    let normal = copied(&rt, log, &[&log[757..947]], &ends)?;
    let deleted = [&log[757..878], DELETE_ROWS, &log[879..947]];
    let undone = copied(&rt, log, &deleted, &ends)?;
    check_texts(&rt, log, &BEHIND, &normal, &undone)
}
