//! How wide lines are.

use blog_device::Watched;
use blog_list::{Style, list};
use jiff::tz::{TimeZone, Tzif};
use list_calls::lists::{ALL, TEXT};
use list_calls::parts::event_of;
use list_calls::sources::source_of;
use list_calls::zones::BERLIN;
use sample_logs::builder::{BEGIN, Part, XID, build, delete, insert, map_of, update};
use std::process::Abort;
use std::test::Fail;
use unicode_width::UnicodeWidthStr;

/// The line of the only unit of a log that begins at 120, in a style.
fn line_of(
    rt: &(impl AllocGlobal + Abort),
    parts: &[Part<'_>],
    style: &Style<'_>,
) -> Result<String, Fail> {
    let bytes = build(rt, parts)?;
    let mut output = Watched::new(Vec::new(rt.alloc()));
    let source = source_of(rt, &bytes)?;
    let answer = list(rt.alloc(), rt.alloc(), &source, &ALL, style, &mut output);
    assert!(rt; answer == Ok(None));
    let text = str::from_utf8(output.device().as_slice())?;
    let line = text.split('\n').nth(1).expect(rt, "a line");
    assert!(rt; line.starts_with("       120 "), "{line}");
    Ok(String::from_str(rt.alloc(), line)?)
}

/// A time zone with the longest name of the IANA time zone database.
const LONG_NAME: &str = "America/Argentina/ComodRivadavia";

#[test]
fn beside_a_wide_heading_there_is_less_room(rt: HostRuntime) -> Result<(), Fail> {
    let table = Tzif::parse(rt.alloc(), Some(LONG_NAME), BERLIN)?;
    let style = Style {
        zone: TimeZone::tzif(&table),
        ..TEXT
    };
    let line = line_of(&rt, &[event_of(37)], &style)?;
    assert!(rt;
        line.as_str()
            == "       120        139  1970-01-01 01:00:00                                  UnknownEvent at 120: a change of view in .."
    );
    Ok(())
}

/// Whether a line is at most so wide as a line is to be.
fn is_narrow(line: &str) -> bool {
    line.width() <= 119
}

/// Names of tables and texts of statements that are hard to cut.
const AWKWARD: [&str; 8] = [
    "a",
    "orders_of_the_year",
    "\u{4E16}\u{754C}\u{4E16}\u{754C}\u{4E16}",
    "e\u{301}\u{301}e\u{301}\u{301}",
    "\u{202E}\u{200B}",
    "\u{85}\n\t",
    "`````",
    "\\\u{1F469}\u{200D}\u{1F469}",
];

/// Checks that the lines of a unit and of a statement with these names are narrow.
fn check_narrow<'n>(
    rt: &(impl AllocGlobal + Abort),
    first: &'n str,
    second: &'n str,
) -> Result<(), Fail> {
    let parts = [
        BEGIN,
        map_of(1, first.as_bytes()),
        insert(1, &[5]),
        map_of(2, second.as_bytes()),
        update(2, &[5, 6, 7, 8]),
        map_of(3, b"other"),
        delete(3, &[5]),
        map_of(4, b"another_one"),
        delete(4, &[5]),
        XID,
    ];
    let line = line_of(rt, &parts, &TEXT)?;
    assert!(rt; is_narrow(line.as_str()), "{line}");
    let text = format!(in rt.alloc(); "DROP TABLE {first}{second}{first}{second}{first}{second}")?;
    let query = Part::Query {
        status: &[],
        text: text.as_bytes(),
    };
    let line = line_of(rt, &[query], &TEXT)?;
    assert!(rt; is_narrow(line.as_str()), "{line}");
    Ok(())
}

#[test]
fn lines_have_at_most_119_columns(rt: HostRuntime) -> Result<(), Fail> {
    for first in AWKWARD {
        for second in AWKWARD {
            check_narrow(&rt, first, second)?;
        }
    }
    Ok(())
}
