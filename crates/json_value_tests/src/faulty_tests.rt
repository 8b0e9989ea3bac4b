//! Bytes that are no document.

use crate::printing::{check_none, check_text};
use std::process::Abort;
use std::test::Fail;

/// Checks that none of these is a document.
fn check_all<R: AllocGlobal + Abort>(rt: &R, faulty: &[&[u8]]) -> Result<(), Fail> {
    for bytes in faulty {
        check_none(rt, bytes)?;
    }
    Ok(())
}

#[test]
fn no_byte_is_no_document(rt: HostRuntime) -> Result<(), Fail> {
    check_none(&rt, b"")
}

#[test]
fn other_types_are_none(rt: HostRuntime) -> Result<(), Fail> {
    for kind in 0..256_u32 {
        if kind == 13 || kind == 14 || kind > 15 {
            let bytes = [(kind % 256) as u8, 0, 0, 4, 0, 0, 0, 0, 0];
            check_none(&rt, &bytes)?;
            let element = [2, 1, 0, 16, 0, bytes[0], 7, 0, 0, 0, 4, 0, 0, 0, 0, 0, 0];
            check_none(&rt, &element)?;
        }
    }
    Ok(())
}

#[test]
fn literals_are_three(rt: HostRuntime) -> Result<(), Fail> {
    check_all(&rt, &[b"\x04\x03", b"\x04\xff"])
}

#[test]
fn numbers_are_finite(rt: HostRuntime) -> Result<(), Fail> {
    check_all(
        &rt,
        &[
            b"\x0b\x00\x00\x00\x00\x00\x00\xf0\x7f",
            b"\x0b\x00\x00\x00\x00\x00\x00\xf0\xff",
            b"\x0b\x01\x00\x00\x00\x00\x00\xf8\x7f",
        ],
    )
}

#[test]
fn strings_are_utf8(rt: HostRuntime) -> Result<(), Fail> {
    check_all(
        &rt,
        &[
            b"\x0c\x01\xff",
            b"\x0c\x02\xc3\x28",
            b"\x0c\x02a\xe2",
            b"\x00\x01\x00\x0c\x00\x0b\x00\x01\x00\x04\x00\x00\xff",
        ],
    )
}

#[test]
fn lengths_lie_within_and_take_five_bytes_at_most(rt: HostRuntime) -> Result<(), Fail> {
    check_text(&rt, b"\x0c\x81\x80\x80\x80\x00a", b"\"a\"")?;
    check_all(
        &rt,
        &[
            b"\x0c\x02a",
            b"\x0c\x81",
            b"\x0c\x81\x80\x80\x80\x80\x00a",
            b"\x0c\x81\x80\x80\x80\x10a",
            b"\x0c\xff\xff\xff\xff\x7fa",
            b"\x0f",
            b"\x0f\xfc",
            b"\x0f\xfc\x02a",
        ],
    )
}

#[test]
fn sizes_and_entries_lie_within(rt: HostRuntime) -> Result<(), Fail> {
    check_text(&rt, b"\x02\x01\x00\x07\x00\x04\x01\x00", b"[true]")?;
    check_text(
        &rt,
        b"\x03\x01\x00\x00\x00\x0d\x00\x00\x00\x04\x01\x00\x00\x00",
        b"[true]",
    )?;
    check_all(
        &rt,
        &[
            // a size past the end, one that cuts the entry off, and counts without entries
            b"\x02\x01\x00\x08\x00\x04\x01\x00",
            b"\x02\x01\x00\x06\x00\x04\x01\x00",
            b"\x02\x02\x00\x07\x00\x04\x01\x00",
            b"\x02\xff\xff\x07\x00\x04\x01\x00",
            b"\x03\xff\xff\xff\xff\x0d\x00\x00\x00\x04\x01\x00\x00\x00",
            b"\x01\xff\xff\xff\xff\xff\xff\xff\xff\x04\x01\x00\x00\x00",
            b"\x00\x01\x00\x07\x00\x04\x01\x00",
        ],
    )
}

#[test]
fn offsets_lead_behind_their_entry_and_not_past_the_end(rt: HostRuntime) -> Result<(), Fail> {
    check_text(&rt, b"\x02\x01\x00\x09\x00\x0c\x07\x00\x01a", b"[\"a\"]")?;
    check_all(
        &rt,
        &[
            b"\x02\x01\x00\x09\x00\x0c\x06\x00\x01a",
            b"\x02\x01\x00\x09\x00\x0c\x00\x00\x01a",
            b"\x02\x01\x00\x09\x00\x0c\x09\x00\x01a",
            b"\x02\x01\x00\x09\x00\x0c\xff\xff\x01a",
            b"\x03\x01\x00\x00\x00\x0f\x00\x00\x00\x0c\xff\xff\xff\xff\x01a",
            // an array that would have itself
            b"\x02\x01\x00\x07\x00\x02\x00\x00",
        ],
    )
}

#[test]
fn keys_lie_behind_all_entries(rt: HostRuntime) -> Result<(), Fail> {
    check_text(
        &rt,
        b"\x00\x01\x00\x0c\x00\x0b\x00\x01\x00\x05\x07\x00k",
        b"{\"k\": 7}",
    )?;
    check_text(
        &rt,
        b"\x00\x01\x00\x0b\x00\x0b\x00\x00\x00\x05\x07\x00",
        b"{\"\": 7}",
    )?;
    check_all(
        &rt,
        &[
            b"\x00\x01\x00\x0c\x00\x0a\x00\x01\x00\x05\x07\x00k",
            b"\x00\x01\x00\x0c\x00\x0b\x00\x02\x00\x05\x07\x00k",
            b"\x00\x01\x00\x0c\x00\x0c\x00\x01\x00\x05\x07\x00k",
            b"\x00\x01\x00\x0c\x00\xff\xff\x01\x00\x05\x07\x00k",
        ],
    )
}

#[test]
fn dates_and_times_are_of_the_calendar_of_a_clock(rt: HostRuntime) -> Result<(), Fail> {
    check_text(
        &rt,
        b"\x0f\x0a\x08\x00\x00\x00\x00\x00\x6c\xbb\x19",
        b"\"2026-11-22\"",
    )?;
    check_all(
        &rt,
        &[
            // seven bytes, and nine
            b"\x0f\x0a\x07\x00\x00\x00\x00\x00\x6c\xbb",
            b"\x0f\x0a\x09\x00\x00\x00\x00\x00\x6c\xbb\x19\x00",
            // below zero
            b"\x0f\x0a\x08\x00\x00\x00\x00\x00\x6c\xbb\xff",
            // more than 999,999 millionths, a second 60, a minute 60
            b"\x0f\x0b\x08\x40\x42\x0f\x00\x00\x00\x00\x00",
            b"\x0f\x0b\x08\x00\x00\x00\x3c\x00\x00\x00\x00",
            b"\x0f\x0b\x08\x00\x00\x00\x00\x0f\x00\x00\x00",
            // an hour 24
            b"\x0f\x0c\x08\x00\x00\x00\x00\x80\x6d\xbb\x19",
        ],
    )
}

#[test]
fn decimal_numbers_have_the_bytes_of_their_digits(rt: HostRuntime) -> Result<(), Fail> {
    check_text(&rt, b"\x0f\xf6\x04\x03\x02\x81\x32", b"1.50")?;
    check_all(
        &rt,
        &[
            b"\x0f\xf6\x00",
            b"\x0f\xf6\x02\x03\x02",
            b"\x0f\xf6\x03\x03\x02\x81",
            b"\x0f\xf6\x05\x03\x02\x81\x32\x00",
            // a digit of 10, a scale above the precision, a precision of 82
            b"\x0f\xf6\x04\x03\x02\x8a\x32",
            b"\x0f\xf6\x04\x02\x03\x81\x32",
            b"\x0f\xf6\x04\x52\x02\x81\x32",
        ],
    )
}
