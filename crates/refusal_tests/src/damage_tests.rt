//! Logs that are cut: all ways of reading refuse them alike. And a log with two format descriptions.

use crate::refusing_calls::check_fault;
use blog_event::Fault;
use blog_trans::Selection;
use log_calls::calls::flashback;
use sample_logs::builder::front;
use sample_logs::logs::one_insert;
use std::process::Abort;
use std::test::Fail;

/// The fault of the log that inserts one row, where it ends behind so many bytes.
fn fault_of_cut(len: usize) -> Option<Fault> {
    match len {
        0..=3 => Some(Fault::NotABinlog { pos: 0 }),
        4..=119 => Some(Fault::CutEvent { pos: 4 }),
        120 => None,
        121..=158 => Some(Fault::CutEvent { pos: 120 }),
        159 => Some(Fault::Unended { pos: 159 }),
        160..=195 => Some(Fault::CutEvent { pos: 159 }),
        196 => Some(Fault::Unended { pos: 196 }),
        197..=231 => Some(Fault::CutEvent { pos: 196 }),
        232 => Some(Fault::Unended { pos: 232 }),
        233..=258 => Some(Fault::CutEvent { pos: 232 }),
        _ => None,
    }
}

#[test]
fn cut_logs(rt: HostRuntime) -> Result<(), Fail> {
    let log = one_insert(&rt)?;
    assert!(rt; log.len() == 259);
    for len in 0..=log.len() {
        check_fault(&rt, &log[..len], &Selection::all(), fault_of_cut(len));
    }
    let format = log.get(..120).expect(&rt, "a format description");
    let written = flashback(rt.alloc(), format, &Selection::all())?;
    assert!(rt; written.as_slice() == format);
    Ok(())
}

#[test]
fn a_second_format_description_is_out_of_place(rt: HostRuntime) -> Result<(), Fail> {
    let mut log = one_insert(&rt)?;
    log.extend_from_slice(&front()[4..])?;
    let fault = Fault::OutOfPlace { pos: 259 };
    check_fault(&rt, &log, &Selection::all(), Some(fault));
    Ok(())
}
