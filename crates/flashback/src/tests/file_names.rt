//! Which files a run opens, and which it leaves alone.

use super::{check, check_done};
use sample_logs::small::INSERT_ONE_ROW;
use std::path::PathBuf;
use std::test::Fail;
use std::{env, fs, io, process};

/// A path in the folder for temporary files, of a name with a blank before it and behind it.
fn blank_path(rt: &HostRuntime, name: &str) -> io::Result<PathBuf> {
    let id = process::id(rt.process());
    let file = format!(in rt.alloc(); " flashback-{id}-{name}.binlog ")?;
    Ok(env::temp_dir(rt)?.join(rt.alloc(), file.as_str())?)
}

/// A log and a result file of these paths are found by them, blanks included.
fn check_blanks(rt: &HostRuntime, log: &str, file: &str) -> Result<(), Fail> {
    check_done(rt, &["--forward", log], INSERT_ONE_ROW.as_slice())?;
    check_done(rt, &["--forward", "-r", file, log], b"")?;
    let is_written = fs::read(rt, file)?.as_slice() == INSERT_ONE_ROW.as_slice();
    check(is_written, "bytes of the file", &[file])?;
    check(!fs::exists(rt, file.trim())?, "another file", &[file])?;
    Ok(())
}

#[test]
fn blanks_belong_to_names(rt: HostRuntime) -> Result<(), Fail> {
    let log = blank_path(&rt, "of-blanks")?;
    let result = blank_path(&rt, "to-blanks")?;
    fs::write(&rt, log.as_path(), INSERT_ONE_ROW.as_slice())?;
    check_blanks(&rt, log.as_str(), result.as_str())?;
    fs::remove_file(&rt, result.as_path())?;
    fs::remove_file(&rt, log.as_path())?;
    Ok(())
}

/// Scripts, each behind its name.
pub(super) const SCRIPTS: &str = "
## a_folder_is_no_log
# it is opened as a file, and every read of it fails
folder logs
$ -B -r @result @logs
! flashback: read failed
= 1
none result
file kept long
$ -B -r @kept @logs
! flashback: read failed
= 1
same kept long

## a_file_has_no_log_below_it
file log INSERT_ONE_ROW
$ -B @log/x
! flashback: cannot open the log
= 1
$ -B -r @result @log/x
! flashback: cannot open the log
= 1
none result
file kept long
$ -B -r @kept @log/x
! flashback: cannot open the log
= 1
same kept long

## a_log_with_blanks_is_another_log
file log INSERT_ONE_ROW
$ -B ' @log'
! flashback: cannot open the log
= 1
$ -B '@log '
! flashback: cannot open the log
= 1

## a_file_with_a_blank_is_another_file
# there is no folder of one blank
file log INSERT_ONE_ROW
$ -B -r ' @result' @log
! flashback: cannot create the result file
= 1
none result
";
