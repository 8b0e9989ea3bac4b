//! What is printed for each fault of a result file, and what to do about it.

use binlog_command::Failure;
use blog_device::Watched;
use result_file::FileFault;
use std::alloc::Global;
use std::io;
use std::test::Fail;

/// The path of the result file.
const PATH: &str = "a/undo";

/// The fault is printed as this line.
fn check(rt: &HostRuntime, fault: FileFault<'_, Global>, line: &str) -> Result<(), Fail> {
    let wanted = format!(in rt.alloc(); "binlog: {line}\n")?;
    let mut errors = Watched::new(Vec::new(rt.alloc()));
    Failure::ResultFile(fault).print(&mut errors);
    if errors.device().as_slice() == wanted.as_bytes() {
        Ok(())
    } else {
        Err(Fail::new(format_args!("{line}")))
    }
}

#[test]
fn what_is_there_already_has_its_line(rt: HostRuntime) -> Result<(), Fail> {
    check(
        &rt,
        FileFault::IsThere(PATH),
        "the result file is there: a/undo: give another name, or --force",
    )?;
    check(
        &rt,
        FileFault::IsLog(PATH),
        "the result file is the log: a/undo: give another name",
    )?;
    check(
        &rt,
        FileFault::IsLink(PATH),
        "the result file is a symbolic link: a/undo: give the name of the file itself",
    )?;
    check(
        &rt,
        FileFault::IsLink("/proc/self/fd/1"),
        "the result file is standard output: /proc/self/fd/1: leave -r out",
    )?;
    check(
        &rt,
        FileFault::IsDirectory(PATH),
        "the result file is a directory: a/undo: give the name of a file",
    )?;
    check(
        &rt,
        FileFault::NamesTaken(PATH),
        "the temporary names beside the result file are taken: a/undo: remove old files .NAME.PROCESS.NUMBER.tmp there",
    )
}

#[test]
fn failed_calls_have_their_lines(rt: HostRuntime) -> Result<(), Fail> {
    let not_permitted = io::Error::from_raw_os_error(13);
    check(
        &rt,
        FileFault::NotCreated(PATH, not_permitted),
        "cannot create the result file a/undo: Permission denied (os error 13): see its folder and whether you may write there",
    )?;
    let no_space = io::Error::from_raw_os_error(28);
    check(
        &rt,
        FileFault::NotWritten(PATH, no_space),
        "cannot write the result file a/undo: No space left on device (os error 28): see whether its disk is full",
    )?;
    let failed = io::Error::from_raw_os_error(5);
    check(
        &rt,
        FileFault::NotSynced(PATH, failed),
        "cannot sync the result file a/undo: Input/output error (os error 5): see its disk",
    )?;
    let read_only = io::Error::from_raw_os_error(30);
    check(
        &rt,
        FileFault::NotNamed(PATH, read_only),
        "cannot give the result file its name a/undo: Read-only file system (os error 30): see its folder and whether you may write there",
    )?;
    let name = String::from_str(rt.alloc(), "a/.undo.7.0.tmp")?;
    check(
        &rt,
        FileFault::NameLeft(PATH, name, read_only),
        "cannot remove a/.undo.7.0.tmp: Read-only file system (os error 30): the result file a/undo is whole: remove the other name",
    )?;
    check(
        &rt,
        FileFault::OutOfMemory,
        "OutOfMemory: run it where one and a half times the log's size is free in memory",
    )
}
