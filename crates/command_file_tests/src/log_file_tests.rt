//! Runs over files that are no logs.

use binlog_command::{Failure, LogFault};
use blog_device::Watched;
use std::alloc::Global;
use std::io;
use std::process::Abort;
use std::test::Fail;

#[test]
fn the_text_of_a_permission_is_told(rt: HostRuntime) -> Result<(), Fail> {
    let cause = io::Error::from_raw_os_error(13);
    let failure: Failure<Global> = Failure::NoLog("binlog.000042", LogFault::NotPermitted(cause));
    let mut errors = Watched::new(Vec::new(rt.alloc()));
    failure.print(&mut errors);
    let line =
        b"binlog: cannot open the log binlog.000042: Permission denied (os error 13): run it as a user who may read it\n";
    assert!(rt; errors.device().as_slice() == line.as_slice());
    Ok(())
}
