//! What a server wrote and printed.

use crate::printing::{check_none, check_text};
use crate::server_documents::{BASE64, CONTAINERS, DECIMALS, DOUBLES, NUMBERS, STRINGS, TIMES};
use std::process::Abort;
use std::test::Fail;

/// Checks the text of each document, and that none of its beginnings is one.
fn check_each<R: AllocGlobal + Abort>(rt: &R, documents: &[(&[u8], &[u8])]) -> Result<(), Fail> {
    for (document, text) in documents {
        check_text(rt, document, text)?;
        for len in 0..document.len() {
            check_none(rt, &document[..len])?;
        }
    }
    Ok(())
}

#[test]
fn literals_and_whole_numbers(rt: HostRuntime) -> Result<(), Fail> {
    check_each(&rt, &NUMBERS)
}

#[test]
fn floating_point_numbers(rt: HostRuntime) -> Result<(), Fail> {
    check_each(&rt, &DOUBLES)
}

#[test]
fn strings(rt: HostRuntime) -> Result<(), Fail> {
    check_each(&rt, &STRINGS)
}

#[test]
fn objects_and_arrays(rt: HostRuntime) -> Result<(), Fail> {
    check_each(&rt, &CONTAINERS)
}

#[test]
fn decimal_numbers(rt: HostRuntime) -> Result<(), Fail> {
    check_each(&rt, &DECIMALS)
}

#[test]
fn dates_times_and_columns(rt: HostRuntime) -> Result<(), Fail> {
    check_each(&rt, &TIMES)
}

#[test]
fn bytes(rt: HostRuntime) -> Result<(), Fail> {
    check_each(&rt, &BASE64)
}
