//! Scripts over a program that writes its arguments, and what is wrong with others.

use blog_device::{Watched, put};
use sample_logs::builder::{
    BEGIN, COMMIT, DROP_TABLE, Part, T, Table, XID, build, delete, insert, map_of, update,
};
use std::process::ExitCode;
use std::test::Fail;
use testkit::runs::Outcome;
use transcripts::{Named, Program, Wrong, play};

/// Writes each of its arguments to standard output, and their last to standard error too. The last is its status as well, if it
/// is a number.
struct Echo;

impl Program for Echo {
    fn name(&self) -> &'static str {
        "echo"
    }

    fn run(&self, rt: &HostRuntime, arguments: Vec<String>) -> Outcome {
        let mut output = Watched::new(Vec::new(rt.alloc()));
        let mut errors = Watched::new(Vec::new(rt.alloc()));
        let mut status = 0;
        for argument in &arguments {
            let _ = put(&mut output, argument.as_bytes());
            let _ = put(&mut output, b"\n");
            status = argument.as_str().parse::<u8>().unwrap_or(0);
        }
        if status > 0 {
            let _ = put(&mut errors, b"the status isn't 0\nbut another\n");
        }
        Outcome {
            status: ExitCode::from(status),
            output,
            errors,
        }
    }
}

static LOGS: [Named<'static>; 3] = [
    Named {
        name: "but",
        bytes: b"but another\n",
    },
    Named {
        name: "abc",
        bytes: b"abc",
    },
    Named {
        name: "lines",
        bytes: b"echo\na\n",
    },
];

/// A script, with a log of this name of its own.
fn played(rt: &HostRuntime, script: &str) -> Result<(), Wrong> {
    let given = [Named {
        name: "own",
        bytes: b"\xff\0",
    }];
    play(rt, &Echo, given.as_slice(), LOGS.as_slice(), script)
}

#[test]
fn what_is_written_is_compared(rt: HostRuntime) -> Result<(), Fail> {
    Ok(played(
        &rt,
        "\
$ a 'b  c' @d
> echo
> a
> b  c
> @d
$ 3
> echo
> 3
! the status isn't 0
! but another
= 3
$ 255
>~ 25
!~ the status
!~
= 255
$ 254
>~ 25
!~ the status
!~ but another
= 254
$ a
>+ lines
$ a b
>+ lines
> b
$ 1
> echo
> 1
! the status isn't 0
!+ but
= 1
$
> echo",
    )?)
}

#[test]
fn files_are_written_and_compared(rt: HostRuntime) -> Result<(), Fail> {
    Ok(played(
        &rt,
        "\
file first abc
file second @first ^1 2=33 ..2
text third ab c
text eighth \\x61b\\x63
link fourth third
folder below
file below/fifth own 1=255

# the files are there
same first abc
differ first abc ..2
same second abc 1=99 ..2
same fourth @third
same eighth abc
none sixth
$ a
>* sixth
same sixth lines
remove sixth
none sixth",
    )?)
}

/// The images of two rows of two columns, 5 and 1, 6 and 2.
const PAIRS: [u8; 18] = [0, 5, 0, 0, 0, 1, 0, 0, 0, 0, 6, 0, 0, 0, 2, 0, 0, 0];

#[test]
fn logs_are_made_of_words(rt: HostRuntime) -> Result<(), Fail> {
    let mut gtid = [0; 25];
    gtid[17] = 9;
    let log = build(
        &rt,
        &[
            Part::Other {
                kind: 33,
                flags: 0,
                body: &gtid,
            },
            BEGIN,
            Part::Map(T),
            insert(1, &[5]),
            XID,
            DROP_TABLE,
            BEGIN,
            map_of(2, b"u"),
            delete(2, &[5, 6]),
            map_of(3, b"v"),
            update(3, &[5, 6]),
            Part::Map(Table {
                types: &[3, 3],
                ..T
            }),
            update(1, &[]).over(2, &[0xFF, 0xFF], &PAIRS),
            COMMIT,
            Part::Other {
                kind: 4,
                flags: 0,
                body: b"\x04\0\0\0\0\0\0\0a.000043",
            },
            Part::Other {
                kind: 40,
                flags: 0,
                body: &[0; 9],
            },
        ],
    )?;
    let given = [Named {
        name: "built",
        bytes: &log,
    }];
    Ok(play(
        &rt,
        &Echo,
        given.as_slice(),
        &[],
        "\
log log gtid:9 begin map:1:t insert:1:5 xid 'query:DROP TABLE t' begin map:2:u delete:2:5,6 map:3:\\x76 update:3:5,6 map:1:t/2 update:1:5/1,6/2 commit rotate:a\\x2e000043 other:40:9
same log built",
    )?)
}

/// Scripts of one line behind these each have to fail.
const BEGINNING: &str =
    "file abc abc\n$ a 3\n> echo\n> a\n> 3\n! the status isn't 0\n! but another\n= 3\n";

static WRONG: [&'static str; 34] = [
    "= 2",
    "= x",
    "> b",
    "! b",
    ">+ abc",
    "!+ lines",
    ">~ b",
    "!~ but",
    "!~ the\n!~ the",
    "!~ the\n!~ but\n!~",
    "same abc lines",
    "same abc abc ..2",
    "differ abc abc",
    "none abc",
    "remove other",
    "same other abc",
    "file a nothing",
    "file a abc x",
    "file a abc ^3",
    "log a start",
    "log a insert:1",
    "log a map:t",
    "log a map:1:t/4",
    "log a insert:1:5/",
    "log a gtid:x",
    "log a other:40",
    "log a map:1:\\x",
    "log a query:\\xG0",
    "text no/folder t",
    "link a b",
    "folder abc",
    ">* no/file",
    "other",
    "$ 1",
];

#[test]
fn what_is_wrong_fails(rt: HostRuntime) -> Result<(), Fail> {
    played(&rt, BEGINNING)?;
    for line in &WRONG {
        let script = format!(in rt.alloc(); "{BEGINNING}{line}")?;
        if played(&rt, script.as_str()).is_ok() {
            return Err(Fail::new(format_args!("it doesn't fail: {line}")));
        }
    }
    Ok(())
}

/// A line that is left out is missing, of what is written and of the status.
#[test]
fn what_is_missing_fails(rt: HostRuntime) -> Result<(), Fail> {
    for missing in 2..8usize {
        let mut script = String::new(rt.alloc());
        for (n, line) in BEGINNING.lines().enumerate() {
            if n != missing {
                script.push_str(line)?;
                script.push('\n')?;
            }
        }
        if played(&rt, script.as_str()).is_ok() {
            return Err(Fail::new(format_args!("it doesn't fail without {missing}")));
        }
    }
    Ok(())
}
