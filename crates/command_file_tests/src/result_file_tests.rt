//! Runs whose output goes to a file.

use binlog_command::Failure;
use command_runs::scripts::play;
use command_runs::{path_of, run_log};
use result_file::FileFault;
use sample_logs::small::SUMMED;
use std::alloc::Global;
use std::fs;
use std::os::unix::fs::{MetadataExt, symlink};
use std::process::Abort;
use std::test::Fail;

#[test]
fn standard_output_needs_no_result_file(rt: HostRuntime) -> Result<(), Fail> {
    for (path, line) in [
        (
            "/dev/stdout",
            "the result file is standard output: /dev/stdout: leave -r out",
        ),
        (
            "/dev/fd/1",
            "the result file is standard output: /dev/fd/1: leave -r out",
        ),
        (
            "/dev/stdin",
            "the result file is a symbolic link: /dev/stdin: give the name of the file itself",
        ),
    ] {
        let failure: Failure<'_, Global> = Failure::ResultFile(FileFault::IsLink(path));
        let shown = format!(in rt.alloc(); "{failure}")?;
        assert!(rt; shown.as_str() == line);
    }
    Ok(())
}

#[test]
fn a_replaced_file_is_for_its_owner_alone(rt: HostRuntime) -> Result<(), Fail> {
    let result = path_of(&rt, "there")?;
    let path = result.as_str();
    fs::write(&rt, path, b"the old text")?;
    let arguments = ["plain", "--force", "-r", path];
    assert!(rt; run_log(&rt, "forces", &SUMMED, &arguments)?.is_done(b""));
    let mode = fs::metadata(&rt, path)?.mode();
    fs::remove_file(&rt, path)?;
    assert!(rt; mode & 0o777 == 0o600);
    Ok(())
}

#[test]
fn a_link_is_left_alone(rt: HostRuntime) -> Result<(), Fail> {
    let result = path_of(&rt, "link")?;
    let path = result.as_str();
    symlink(&rt, "nothing-is-there", path)?;
    let line = format!(in rt.alloc();
        "binlog: the result file is a symbolic link: {path}: give the name of the file itself\n"
    )?;
    for arguments in [
        &["plain", "-r", path] as &[&str],
        &["plain", "--force", "-r", path],
    ] {
        let outcome = run_log(&rt, "linked", &SUMMED, arguments)?;
        assert!(rt; outcome.is_refusal(1, line.as_str()));
    }
    assert!(rt; fs::symlink_metadata(&rt, path)?.is_symlink());
    fs::remove_file(&rt, path)?;
    Ok(())
}

#[test]
fn a_full_device_is_a_failed_write_and_stays(rt: HostRuntime) -> Result<(), Fail> {
    play(
        &rt,
        "\
file log SUMMED
$ plain -r /dev/full @log
! binlog: cannot write the result file /dev/full: No space left on device (os error 28): see whether its disk is full
= 1
file log INSERT_ONE_ROW
$ split --force -r /dev/full @log
! binlog: cannot write the result file /dev/full: No space left on device (os error 28): see whether its disk is full
= 1",
    )?;
    assert!(rt; fs::exists(&rt, "/dev/full")?);
    Ok(())
}
