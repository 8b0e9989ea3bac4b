//! Runs whose output goes to a file.

use super::{check_done, path_of};
use sample_logs::small::INSERT_ONE_ROW;
use std::fs;
use std::fs::Permissions;
use std::os::unix::fs::{MetadataExt, PermissionsExt};
use std::path::Path;
use std::process::Abort;
use std::test::Fail;

/// Undoes the log of this path in a file. Returns the permissions of the file.
fn mode_of_result(rt: &HostRuntime, log: &str, file: &Path) -> Result<u32, Fail> {
    check_done(rt, &["-B", "-r", file.as_str(), log], b"")?;
    Ok(fs::metadata(rt, file)?.mode() & 0o777)
}

#[test]
fn a_new_file_is_for_its_owner_alone(rt: HostRuntime) -> Result<(), Fail> {
    let log = path_of(&rt, "mode-log")?;
    fs::write(&rt, log.as_path(), INSERT_ONE_ROW.as_slice())?;
    let file = path_of(&rt, "mode")?;
    assert_eq!(rt; mode_of_result(&rt, log.as_str(), &file.as_path())?, 0o600);
    fs::set_permissions(&rt, file.as_path(), Permissions::from_mode(0o640))?;
    assert_eq!(rt; mode_of_result(&rt, log.as_str(), &file.as_path())?, 0o640);
    fs::remove_file(&rt, file.as_path())?;
    fs::remove_file(&rt, log.as_path())?;
    Ok(())
}

/// Scripts, each behind its name.
pub(super) const SCRIPTS: &str = "
## an_accepted_log_fills_the_file
file log INSERT_ONE_ROW
$ -B @log
>+ INSERT_ONE_ROW 200=32
>* written
$ -B -r @new @log
same new @written
remove new
file old long
$ -B -r @old @log
same old @written

## the_log_may_be_the_file
file log INSERT_ONE_ROW
$ -B -r @log @log
same log INSERT_ONE_ROW 200=32

## a_refused_log_leaves_the_file_alone
text log no log
$ -B @log
! flashback: NotABinlog at 0
= 1
$ -B -r @new @log
! flashback: NotABinlog at 0
= 1
none new
file old long
$ -B -r @old @log
! flashback: NotABinlog at 0
= 1
same old long

## a_log_that_cannot_be_opened_leaves_the_file_alone
$ -B -r @result @absent
! flashback: cannot open the log
= 1
none result

## a_file_that_cannot_be_created_is_told
file log INSERT_ONE_ROW
text no_log no log
$ -B -r @absent/undo.binlog @log
! flashback: cannot create the result file
= 1
$ -B -r @absent/undo.binlog @no_log
! flashback: NotABinlog at 0
= 1

## a_folder_is_no_result_file
file log INSERT_ONE_ROW
text no_log no log
folder logs
$ -B -r @logs @log
! flashback: cannot create the result file
= 1
$ -B -r @logs @no_log
! flashback: NotABinlog at 0
= 1

## a_full_device_is_a_failed_write
file log INSERT_ONE_ROW
$ -B -r /dev/full @log
! flashback: write failed
= 1
";
