//! Plays scripts of `binlog`. Its arguments are files, each of which has some, and each script begins with a line `## NAME`. The
//! names of the scripts that do what they say go to standard output, and what is wrong with others to standard error.
#![tactic(auto)]

mod logs;

use command_runs::scripts::{named, play_files};
use logs::{MAP_OF_BYTES, TAGGED_GTID, cut, two_tables, whole};
use sample_logs::builder::{BEGIN, GTID, XID, build, insert};
use sample_logs::logs::no_changes;
use sample_logs::samples::{ALTER_BETWEEN, INSERT, MULTI_TABLE, SAVEPOINT_KEPT, UPDATE};
use server_logs::tagged::TAGGED;
use std::alloc::AllocError;
use std::process::ExitCode;

fn main(rt: HostRuntime) -> ExitCode {
    match play(&rt) {
        Ok(status) => status,
        Err(AllocError) => ExitCode::FAILURE,
    }
}

/// Plays the scripts, which can name these logs.
fn play(rt: &HostRuntime) -> Result<ExitCode, AllocError> {
    let none = no_changes(rt)?;
    let clash = two_tables(rt)?;
    let least = whole(rt, b"t")?;
    let more = whole(rt, b"t2")?;
    let cut = cut(rt, b"t2")?;
    let schema_of_bytes = build(rt, &[BEGIN, MAP_OF_BYTES, insert(1, &[5]), XID])?;
    let tag_with_control = build(rt, &[TAGGED_GTID, BEGIN, XID])?;
    let ids_of_kinds = build(rt, &[TAGGED_GTID, BEGIN, XID, GTID, BEGIN, XID, BEGIN, XID])?;
    let logs = [
        named("no_changes", &none),
        named("clash", &clash),
        named("least", &least),
        named("more", &more),
        named("cut", &cut),
        named("INSERT", &INSERT),
        named("UPDATE", &UPDATE),
        named("MULTI_TABLE", &MULTI_TABLE),
        named("SAVEPOINT_KEPT", &SAVEPOINT_KEPT),
        named("ALTER_BETWEEN", &ALTER_BETWEEN),
        named("tagged", &TAGGED),
        named("schema_of_bytes", &schema_of_bytes),
        named("tag_with_control", &tag_with_control),
        named("ids_of_kinds", &ids_of_kinds),
        named("index", b"./binlog.000042\n./binlog.000043\n"),
        named(
            "long_index",
            b"/var/lib/mysql/r\xC3\xA9seau-bin.1000000\r\n",
        ),
        named("late", b"\n./binlog.000042\n"),
        named("short", b"./binlog.00042\n"),
        named("pointless", b"./binlog000042\n"),
        named("zero", b"./binlog.000042\n\x00"),
        named("encrypted", b"\xFDbin\x01\x02\x03"),
        named("cut_magic", b"\xFDbi"),
    ];
    play_files(rt, logs.as_slice())
}
