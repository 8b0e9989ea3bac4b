//! Arguments that ask for nothing.

use super::{run_arguments, run_given};
use std::io;
use std::process::Abort;
use std::test::Fail;

/// Arguments with control characters, and how the text begins that tells what is wrong.
static WITH_CONTROLS: [(&[&str], &str); 4] = [
    (
        &["-B", "-j", "4\nflashback: done\x1b[2J", "a.binlog"],
        "error: invalid value '4\\nflashback: done\\x1b[2J' for '--start-position <POS>': not a position: ",
    ),
    (
        &["-B", "a.binlog", "b\nc\x7f\u{9b}\u{202e}"],
        "error: unexpected argument 'b\\nc\\x7f\\xc2\\x9b\\u{202e}' found\n",
    ),
    (
        &["-B", "--\x1b[31mred", "a.binlog"],
        "error: unexpected argument '--\\x1b[31mred' found\n",
    ),
    (
        &["-B", "-B", "a\n"],
        "error: the argument '--flashback' cannot be used multiple times\n",
    ),
];

#[test]
fn wrong_arguments_are_told_without_control_characters(rt: HostRuntime) -> Result<(), Fail> {
    for (arguments, text) in &WITH_CONTROLS {
        let outcome = run_arguments(&rt, arguments)?;
        let told = str::from_utf8(outcome.errors())?;
        assert!(rt; outcome.begins_refusal(2, text), "{told}");
        assert!(rt; told.chars().all(|c| c == '\n' || !c.is_control()));
    }
    Ok(())
}

#[test]
fn refuses_arguments_that_the_system_does_not_give(rt: HostRuntime) {
    let outcome = run_given(&rt, Err(io::Error::from(io::ErrorKind::InvalidData)));
    assert!(rt; outcome.is_refusal(2, "flashback: the arguments are not UTF-8\n"));
    let outcome = run_given(&rt, Err(io::Error::from(io::ErrorKind::OutOfMemory)));
    assert!(rt; outcome.is_refusal(1, "flashback: OutOfMemory\n"));
}

/// Scripts, each behind its name.
pub(super) const SCRIPTS: &str = "
## wants_exactly_one_mode
$ a.binlog
! flashback: choose one of -B, --forward, --summary
= 2
$ -j 4 -r undo.binlog a.binlog
! flashback: choose one of -B, --forward, --summary
= 2
$ --sql a.binlog
! flashback: choose one of -B, --forward, --summary
= 2
$ -B --forward a.binlog
! flashback: choose one of -B, --forward, --summary
= 2
$ -B --summary a.binlog
! flashback: choose one of -B, --forward, --summary
= 2
$ --forward --summary a.binlog
! flashback: choose one of -B, --forward, --summary
= 2
$ -B --forward --summary a.binlog
! flashback: choose one of -B, --forward, --summary
= 2
$ --sql -B --forward a.binlog
! flashback: choose one of -B, --forward, --summary
= 2
$ -B --summary --sql a.binlog
! flashback: choose one of -B, --forward, --summary
= 2
$ --sql -B --forward --summary a.binlog
! flashback: choose one of -B, --forward, --summary
= 2

## a_summary_is_no_sql
$ --summary --sql a.binlog
! flashback: --sql goes with -B or --forward
= 2
$ --sql a.binlog --summary
! flashback: --sql goes with -B or --forward
= 2
$ --sql --summary -r undo.binlog a.binlog
! flashback: --sql goes with -B or --forward
= 2

## refuses_wrong_arguments
$
!~ error: 
= 2
$ -B
!~ error: 
= 2
$ -B --no-such-word a.binlog
!~ error: 
= 2
$ -B a.binlog b.binlog
!~ error: 
= 2
$ -B -B a.binlog
!~ error: 
= 2
$ -B -d d -d e a.binlog
!~ error: 
= 2
$ -B a.binlog -r
!~ error: 
= 2
$ --summary
!~ error: 
= 2
$ -B --sql --sql a.binlog
!~ error: 
= 2
$ -B --sql=true a.binlog
!~ error: 
= 2

## what_an_argument_may_hold_comes_before_the_count_of_modes
$ --no-such-word
!~ error: unexpected argument '--no-such-word' found
= 2

## refuses_wrong_positions
$ -B -j x a.binlog
!~ error: invalid value 'x' for '--start-position <POS>': not a position: 
= 2
$ -B --stop-position x a.binlog
!~ error: invalid value 'x' for '--stop-position <POS>': not a position: 
= 2
$ -B -j '' a.binlog
!~ error: invalid value '' for '--start-position <POS>': not a position: 
= 2
$ -B --stop-position '' a.binlog
!~ error: invalid value '' for '--stop-position <POS>': not a position: 
= 2
$ -B -j +4 a.binlog
!~ error: invalid value '+4' for '--start-position <POS>': not a position: 
= 2
$ -B --stop-position +4 a.binlog
!~ error: invalid value '+4' for '--stop-position <POS>': not a position: 
= 2
$ -B -j -1 a.binlog
!~ error: invalid value '-1' for '--start-position <POS>': not a position: 
= 2
$ -B --stop-position -1 a.binlog
!~ error: invalid value '-1' for '--stop-position <POS>': not a position: 
= 2
$ -B -j -0 a.binlog
!~ error: invalid value '-0' for '--start-position <POS>': not a position: 
= 2
$ -B --stop-position -0 a.binlog
!~ error: invalid value '-0' for '--stop-position <POS>': not a position: 
= 2
$ -B -j ' 4' a.binlog
!~ error: invalid value ' 4' for '--start-position <POS>': not a position: 
= 2
$ -B --stop-position ' 4' a.binlog
!~ error: invalid value ' 4' for '--stop-position <POS>': not a position: 
= 2
$ -B -j '4 ' a.binlog
!~ error: invalid value '4 ' for '--start-position <POS>': not a position: 
= 2
$ -B --stop-position '4 ' a.binlog
!~ error: invalid value '4 ' for '--stop-position <POS>': not a position: 
= 2
$ -B -j 4_0 a.binlog
!~ error: invalid value '4_0' for '--start-position <POS>': not a position: 
= 2
$ -B --stop-position 4_0 a.binlog
!~ error: invalid value '4_0' for '--stop-position <POS>': not a position: 
= 2
$ -B -j 0x10 a.binlog
!~ error: invalid value '0x10' for '--start-position <POS>': not a position: 
= 2
$ -B --stop-position 0x10 a.binlog
!~ error: invalid value '0x10' for '--stop-position <POS>': not a position: 
= 2
$ -B -j 4.0 a.binlog
!~ error: invalid value '4.0' for '--start-position <POS>': not a position: 
= 2
$ -B --stop-position 4.0 a.binlog
!~ error: invalid value '4.0' for '--stop-position <POS>': not a position: 
= 2
$ -B -j 4294967296 a.binlog
!~ error: invalid value '4294967296' for '--start-position <POS>': not a position: 
= 2
$ -B --stop-position 4294967296 a.binlog
!~ error: invalid value '4294967296' for '--stop-position <POS>': not a position: 
= 2
$ -B -j 18446744073709551620 a.binlog
!~ error: invalid value '18446744073709551620' for '--start-position <POS>': not a position: 
= 2
$ -B --stop-position 18446744073709551620 a.binlog
!~ error: invalid value '18446744073709551620' for '--stop-position <POS>': not a position: 
= 2
";
