//! Runs over small logs, and what is wrong with others.

/// Scripts, each behind its name.
pub(super) const SCRIPTS: &str = "
## undoes_an_insert
file log INSERT_ONE_ROW
$ -B @log
>+ INSERT_ONE_ROW 200=32

## refuses_logs
text log 
$ -B @log
! flashback: NotABinlog at 0
= 1
file log INSERT_ONE_ROW ..3
$ -B @log
! flashback: NotABinlog at 0
= 1

## names_a_log_that_cannot_be_opened
$ -B @absent
! flashback: cannot open the log
= 1

## names_a_log_that_cannot_be_read
# a folder is opened as a file, and every read of it fails
folder logs
$ --flashback @logs
! flashback: read failed
= 1

## the_version_is_written
$ -V
>~ flashback 0.1.0 
$ --version
>~ flashback 0.1.0 
";
