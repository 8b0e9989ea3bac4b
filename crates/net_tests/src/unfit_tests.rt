//! Events and images that don't make a log of updates.

use crate::logs::{
    check_text, check_unfit, check_unfit_update, first_of, source_of, with_front, with_images,
    with_kind, with_map,
};
use sample_logs::builder::{BEGIN, Part, T, Table, XID, build, map_of, update};
use sample_logs::logs::{one_delete, one_insert, two_updates};
use std::alloc::AllocError;
use std::process::Abort;
use std::test::Fail;

/// The body of an update of one column in front of its images, but for its bitmaps: table id 1, no flags, no extra bytes, one column.
const BEFORE_BITMAPS: &[u8] = &[1, 0, 0, 0, 0, 0, 0, 0, 2, 0, 1];

/// The image of the row 1 of one LONG column.
const FIRST: &[u8] = b"\xFE\x01\0\0\0";

/// That of the row 2.
const SECOND: &[u8] = b"\xFE\x02\0\0\0";

/// Where the body of the first event of a built log begins, in bytes.
const BODY_OF_FIRST: usize = 139;

/// A transaction that updates the row 1 to 2.
fn one_update(rt: &impl AllocGlobal) -> Result<Vec<u8>, AllocError> {
    build(rt, &[BEGIN, Part::Map(T), update(1, &[1, 2]), XID])
}

#[test]
fn an_image_that_is_cut_short(rt: HostRuntime) -> Result<(), Fail> {
    let log = one_update(&rt)?;
    let source = source_of(rt.alloc(), &log)?;
    let first = first_of(&source)?;
    check_text(&rt, &source, &log)?;
    let short = SECOND.get(..4).ok_or("an image")?;
    check_unfit_update(&rt, &source, with_images(&first, FIRST, short))?;
    check_unfit_update(&rt, &source, with_images(&first, &[], SECOND))?;
    check_unfit_update(&rt, &source, with_images(&first, FIRST, &[]))?;
    check_unfit_update(&rt, &source, with_images(&first, &[], &[]))
}

#[test]
fn an_image_that_is_two(rt: HostRuntime) -> Result<(), Fail> {
    let log = one_update(&rt)?;
    let mut two = FIRST.to_vec(rt.alloc())?;
    two.extend_from_slice(SECOND)?;
    let source = source_of(rt.alloc(), &log)?;
    let first = first_of(&source)?;
    check_unfit_update(&rt, &source, with_images(&first, &two, SECOND))?;
    check_unfit_update(&rt, &source, with_images(&first, &two, &two))?;
    // The log would have the update, but no image is the update's own.
    check_unfit_update(&rt, &source, with_images(&first, &[], &two))
}

#[test]
fn an_insert_or_a_delete(rt: HostRuntime) -> Result<(), Fail> {
    let log = one_insert(&rt)?;
    let source = source_of(rt.alloc(), &log)?;
    let first = first_of(&source)?;
    check_unfit_update(&rt, &source, first)?;
    check_unfit_update(&rt, &source, with_images(&first, FIRST, SECOND))?;
    let log = one_delete(&rt)?;
    let source = source_of(rt.alloc(), &log)?;
    let first = first_of(&source)?;
    check_unfit_update(&rt, &source, first)?;
    check_unfit_update(&rt, &source, with_images(&first, FIRST, SECOND))
}

#[test]
fn the_header_of_an_insert(rt: HostRuntime) -> Result<(), Fail> {
    let log = one_update(&rt)?;
    let source = source_of(rt.alloc(), &log)?;
    let first = first_of(&source)?;
    check_unfit_update(&rt, &source, with_kind(&first, 30))?;
    // Neither is one of version 1 the header of a body of version 2, nor that of a table map.
    check_unfit_update(&rt, &source, with_kind(&first, 24))?;
    check_unfit_update(&rt, &source, with_kind(&first, 19))
}

/// Checks that no log is written for an update with these bitmaps.
fn check_bitmaps(rt: &(impl AllocGlobal + Abort), bitmaps: &[u8]) -> Result<(), Fail> {
    let log = one_update(rt)?;
    let mut front = BEFORE_BITMAPS.to_vec(rt.alloc())?;
    front.extend_from_slice(bitmaps)?;
    let source = source_of(rt.alloc(), &log)?;
    let first = first_of(&source)?;
    check_unfit_update(rt, &source, with_front(&first, &front))
}

#[test]
fn a_front_without_a_column(rt: HostRuntime) -> Result<(), Fail> {
    check_bitmaps(&rt, &[0xFE, 0xFF])?;
    check_bitmaps(&rt, &[0xFF, 0xFE])
}

#[test]
fn a_front_that_is_cut_short(rt: HostRuntime) -> Result<(), Fail> {
    let log = one_update(&rt)?;
    let source = source_of(rt.alloc(), &log)?;
    let first = first_of(&source)?;
    for len in 0..=BEFORE_BITMAPS.len() {
        let front = BEFORE_BITMAPS.get(..len).ok_or("a front")?;
        check_unfit_update(&rt, &source, with_front(&first, front))?;
    }
    Ok(())
}

/// Checks that no log is written for an update with another table map.
fn check_map(rt: &(impl AllocGlobal + Abort), map: Part<'_>) -> Result<(), Fail> {
    let log = one_update(rt)?;
    let maps = build(rt, &[map])?;
    let source = source_of(rt.alloc(), &log)?;
    let first = first_of(&source)?;
    let body = maps.get(BODY_OF_FIRST..).ok_or("a map")?;
    check_unfit_update(rt, &source, with_map(&first, body))
}

#[test]
fn a_map_of_another_layout(rt: HostRuntime) -> Result<(), Fail> {
    check_map(&rt, Part::Map(Table { types: &[8], ..T }))?;
    check_map(&rt, Part::Map(Table { types: &[2], ..T }))?;
    check_map(
        &rt,
        Part::Map(Table {
            types: &[3, 3],
            ..T
        }),
    )?;
    check_map(&rt, Part::Map(Table { types: &[99], ..T }))
}

#[test]
fn a_map_of_another_id(rt: HostRuntime) -> Result<(), Fail> {
    check_map(&rt, map_of(2, b"t"))
}

#[test]
fn events_that_are_none_of_a_transaction(rt: HostRuntime) -> Result<(), Fail> {
    let log = one_update(&rt)?;
    let mut source = source_of(rt.alloc(), &log)?;
    source.begin = source.end;
    check_unfit(&rt, &source)?;
    let mut source = source_of(rt.alloc(), &log)?;
    source.end = source.begin;
    check_unfit(&rt, &source)?;
    let mut source = source_of(rt.alloc(), &log)?;
    source.front = source.front.get(..4).ok_or("a front")?;
    check_unfit(&rt, &source)?;
    source.front = &[];
    check_unfit(&rt, &source)
}

#[test]
fn one_of_several_updates(rt: HostRuntime) -> Result<(), Fail> {
    let log = two_updates(&rt)?;
    let mut source = source_of(rt.alloc(), &log)?;
    let update = with_images(&first_of(&source)?, SECOND, &[]);
    source.updates.push(update)?;
    check_unfit(&rt, &source)
}
