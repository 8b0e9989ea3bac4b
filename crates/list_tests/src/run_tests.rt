//! Lists of several logs, of which one can't be read.

use blog_device::{RunFault, Watched};
use blog_source::Reading;
use list_calls::lists::{ALL, JSON};
use list_run::{GivenLog, ListFault, list_logs};
use sample_logs::builder::{BEGIN, XID, build};
use std::io;
use std::process::Abort;
use std::test::Fail;
use testkit::devices::{Failure, SlowReader};

const WHOLE: Reading = Reading {
    stop: None,
    skip_damaged: false,
};

#[test]
fn a_read_that_fails_ends_the_list(rt: HostRuntime) -> Result<(), Fail> {
    let whole = build(&rt, &[BEGIN, XID])?;
    let lines =
        "{\"log\":\"a\",\"start\":120,\"stop\":186,\"time\":\"1970-01-01T00:00:00+00:00\",\"timestamp\":0,\"thread\":0,\"gtid\":null,\"tables\":[]}\n";
    let mut given = Vec::new(rt.alloc());
    for (name, failing) in [("a", false), ("b", true), ("c", false)] {
        let failure = if failing {
            Failure::At(2, io::ErrorKind::Other)
        } else {
            Failure::Never
        };
        given.push(GivenLog {
            name,
            reader: Watched::new(SlowReader::new(&whole, 50, failure)),
        })?;
    }
    let mut output = Watched::new(Vec::new(rt.alloc()));
    let listed = list_logs(
        rt.alloc(),
        rt.alloc(),
        given,
        WHOLE,
        &ALL,
        &JSON,
        &mut None,
        &mut output,
    );
    assert!(rt; listed == Err((1, ListFault::Run(RunFault::Read))));
    assert!(rt; str::from_utf8(output.device().as_slice())? == lines);
    Ok(())
}
