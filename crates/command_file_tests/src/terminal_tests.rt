//! Runs whose standard output is a terminal.

use command_runs::scripts::play_on_terminal;
use std::test::Fail;

#[test]
fn a_new_log_is_not_written_to_a_terminal(rt: HostRuntime) -> Result<(), Fail> {
    play_on_terminal(
        &rt,
        "\
file log INSERT_ONE_ROW
$ plain @log
! binlog: the new log is binary, and standard output is a terminal: use -r FILE or > FILE
= 1
$ split @log
! binlog: the new log is binary, and standard output is a terminal: use -r FILE or > FILE
= 1
# LOG isn't looked at
$ plain absent
! binlog: the new log is binary, and standard output is a terminal: use -r FILE or > FILE
= 1
$ split absent
! binlog: the new log is binary, and standard output is a terminal: use -r FILE or > FILE
= 1
$ plain -r @result @log
same result INSERT_ONE_ROW
remove result
$ split -r @result @log
same result INSERT_ONE_ROW",
    )
}

#[test]
fn texts_are_written_to_a_terminal(rt: HostRuntime) -> Result<(), Fail> {
    play_on_terminal(
        &rt,
        "\
file log PLAIN
$ list --utc --json @log
>~ units
!~ binlog: nothing is listed: 
$ sql @log
>~ BINLOG '
$ --help
>~ Usage: binlog list",
    )
}
