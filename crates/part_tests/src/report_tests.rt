//! What is reported of a part.

use crate::runs::{UNDO, between, no_logs};
use blog_device::Watched;
use jiff::tz::TimeZone;
use sample_logs::summed::CLOSED;
use std::process::Abort;
use std::test::Fail;
use testkit::devices::{ALL, Failure, SlowReader, SlowWriter};
use undo_run::write_part;

#[test]
fn the_name_of_the_log_is_escaped(rt: HostRuntime) -> Result<(), Fail> {
    let mut reader = Watched::new(SlowReader::new(&CLOSED, ALL, Failure::Never));
    let mut writer = Watched::new(SlowWriter::new(&rt, ALL, Failure::Never));
    let part = between(811, Some(1215));
    let name = b"a\x1b[1mb\nc\xFF";
    let told = match write_part(
        rt.alloc(),
        &mut reader,
        name,
        no_logs(rt.alloc()),
        &part,
        None,
        false,
        no_logs(rt.alloc()),
        0,
        TimeZone::UTC,
        &UNDO,
        &mut writer,
    ) {
        Ok(told) => told,
        Err(_) => return Err("the part is refused".into()),
    };
    assert!(rt; told.starts_with(b"undoes 1 transaction of a\\x1b[1mb\\nc\\xff: "));
    Ok(())
}
