//! Times in time zones, printed and read. The texts are those of Python's `zoneinfo`.

use blog_device::Watched;
use blog_list::{Side, Style, TimeFault, list, rfc_3339_text, seconds_of, time_text};
use jiff::tz::{TimeZone, Tzif};
use list_calls::lists::{ALL, TEXT};
use list_calls::shown_times::{
    BERLIN_TIMES, KOLKATA_TIMES, LORD_HOWE_TIMES, NEW_YORK_TIMES, Shown,
};
use list_calls::sources::source_of;
use list_calls::zones::{BERLIN, KOLKATA, LORD_HOWE, NEW_YORK};
use sample_logs::samples::INSERT;
use std::process::Abort;
use std::test::Fail;

/// Which time a text means.
type Meaning = Result<u32, TimeFault>;

/// Texts in `Europe/Berlin`, and what they mean as the start and as the stop of a range.
#[rattlefmt::skip]
static BERLIN_TEXTS: [(&'static str, Meaning, Meaning); 12] = [
    ("2026-03-29 01:59:59", Ok(1_774_745_999), Ok(1_774_745_999)),
    ("2026-03-29 02:00:00", SKIPPED, SKIPPED),
    ("2026-03-29 02:59:59", SKIPPED, SKIPPED),
    ("2026-03-29 03:00:00", Ok(1_774_746_000), Ok(1_774_746_000)),
    ("2026-10-25 01:59:59", Ok(1_792_886_399), Ok(1_792_886_399)),
    ("2026-10-25 02:00:00", Ok(1_792_886_400), Ok(1_792_890_000)),
    ("2026-10-25 02:59:59", Ok(1_792_889_999), Ok(1_792_893_599)),
    ("2026-10-25 03:00:00", Ok(1_792_893_600), Ok(1_792_893_600)),
    ("1970-01-01 00:59:59", NO_TIME, NO_TIME),
    ("1970-01-01 01:00:00", Ok(0), Ok(0)),
    ("2106-02-07 07:28:15", Ok(4_294_967_295), Ok(4_294_967_295)),
    ("2106-02-07 07:28:16", NO_TIME, NO_TIME),
];

/// Texts in `America/New_York`, and what they mean as the start and as the stop of a range.
#[rattlefmt::skip]
static NEW_YORK_TEXTS: [(&'static str, Meaning, Meaning); 7] = [
    ("2026-03-08 01:59:59", Ok(1_772_953_199), Ok(1_772_953_199)),
    ("2026-03-08 02:30:00", SKIPPED, SKIPPED),
    ("2026-03-08 03:00:00", Ok(1_772_953_200), Ok(1_772_953_200)),
    ("2026-11-01 00:59:59", Ok(1_793_509_199), Ok(1_793_509_199)),
    ("2026-11-01 01:30:00", Ok(1_793_511_000), Ok(1_793_514_600)),
    ("2026-11-01 02:00:00", Ok(1_793_516_400), Ok(1_793_516_400)),
    ("1969-12-31 19:00:00", Ok(0), Ok(0)),
];

/// Texts in `Asia/Kolkata`, and what they mean as the start and as the stop of a range.
#[rattlefmt::skip]
static KOLKATA_TEXTS: [(&'static str, Meaning, Meaning); 3] = [
    ("1970-01-01 05:29:59", NO_TIME, NO_TIME),
    ("1970-01-01 05:30:00", Ok(0), Ok(0)),
    ("2026-03-29 02:30:00", Ok(1_774_731_600), Ok(1_774_731_600)),
];

/// Texts in `Australia/Lord_Howe`, and what they mean as the start and as the stop of a range.
#[rattlefmt::skip]
static LORD_HOWE_TEXTS: [(&'static str, Meaning, Meaning); 7] = [
    ("2026-04-05 01:29:59", Ok(1_775_312_999), Ok(1_775_312_999)),
    ("2026-04-05 01:30:00", Ok(1_775_313_000), Ok(1_775_314_800)),
    ("2026-04-05 01:59:59", Ok(1_775_314_799), Ok(1_775_316_599)),
    ("2026-04-05 02:00:00", Ok(1_775_316_600), Ok(1_775_316_600)),
    ("2026-10-04 01:59:59", Ok(1_791_041_399), Ok(1_791_041_399)),
    ("2026-10-04 02:15:00", SKIPPED, SKIPPED),
    ("2026-10-04 02:30:00", Ok(1_791_041_400), Ok(1_791_041_400)),
];

const SKIPPED: Meaning = Err(TimeFault::Skipped);

const NO_TIME: Meaning = Err(TimeFault::NotATime);

/// Checks what a clock in the zone of this file shows.
fn check_times(rt: &(impl AllocGlobal + Abort), file: &[u8], times: &[Shown]) -> Result<(), Fail> {
    let table = Tzif::parse(rt.alloc(), None, file)?;
    let zone = TimeZone::tzif(&table);
    for (seconds, text, rfc) in times {
        assert!(rt; time_text(zone, *seconds).as_str() == *text);
        assert!(rt; rfc_3339_text(zone, *seconds).as_str() == *rfc);
    }
    Ok(())
}

#[test]
fn clocks_show_times(rt: HostRuntime) -> Result<(), Fail> {
    check_times(&rt, BERLIN, &BERLIN_TIMES)?;
    check_times(&rt, NEW_YORK, &NEW_YORK_TIMES)?;
    check_times(&rt, KOLKATA, &KOLKATA_TIMES)?;
    check_times(&rt, LORD_HOWE, &LORD_HOWE_TIMES)
}

/// Checks what texts mean in the zone of this file.
fn check_texts(
    rt: &(impl AllocGlobal + Abort),
    file: &[u8],
    texts: &[(&str, Meaning, Meaning)],
) -> Result<(), Fail> {
    let table = Tzif::parse(rt.alloc(), None, file)?;
    let zone = TimeZone::tzif(&table);
    for (text, start, stop) in texts {
        assert!(rt; seconds_of(text, zone, Side::Start) == *start, "{text}");
        assert!(rt; seconds_of(text, zone, Side::Stop) == *stop, "{text}");
    }
    Ok(())
}

#[test]
fn texts_mean_times(rt: HostRuntime) -> Result<(), Fail> {
    check_texts(&rt, BERLIN, &BERLIN_TEXTS)?;
    check_texts(&rt, NEW_YORK, &NEW_YORK_TEXTS)?;
    check_texts(&rt, KOLKATA, &KOLKATA_TEXTS)?;
    check_texts(&rt, LORD_HOWE, &LORD_HOWE_TEXTS)
}

/// Texts that mean no time in UTC.
const NO_TIMES: [&str; 9] = [
    "2106-02-07 06:28:16",
    "1969-12-31 23:59:59",
    "2026-02-29 00:00:00",
    "2026-11-23",
    "2026-11-23T10:53:06",
    "2026-11-23 10:53:06+01:00",
    "20261123 1053+02:00",
    "yesterday",
    "",
];

#[test]
fn times_are_read_in_utc(rt: HostRuntime) -> Result<(), Fail> {
    for side in [Side::Start, Side::Stop] {
        let read = |text: &str| seconds_of(text, TimeZone::UTC, side);
        assert!(rt; read("2026-11-23 10:53:06") == Ok(1_795_431_186));
        assert!(rt; read("1970-01-01 00:00:00") == Ok(0));
        assert!(rt; read("2106-02-07 06:28:15") == Ok(u32::MAX));
        for text in NO_TIMES {
            assert!(rt; read(text) == NO_TIME, "{text}");
        }
    }
    Ok(())
}

#[test]
fn an_offset_with_seconds_is_rounded_to_minutes(rt: HostRuntime) -> Result<(), Fail> {
    // the clock of Monrovia up to 1972
    let zone = TimeZone::posix("<-004430>0:44:30")?;
    assert!(rt; time_text(zone, 0).as_str() == "1969-12-31 23:15:30");
    assert!(rt; rfc_3339_text(zone, 0).as_str() == "1969-12-31T23:15:00-00:45");
    Ok(())
}

/// The header and the unit's line of the list of a log in this zone.
fn check_lines(
    rt: &(impl AllocGlobal + Abort),
    zone: TimeZone<'_>,
    lines: &str,
) -> Result<(), Fail> {
    let style = Style { zone, ..TEXT };
    let mut output = Watched::new(Vec::new(rt.alloc()));
    let answer = list(
        rt.alloc(),
        rt.alloc(),
        &source_of(rt, &INSERT)?,
        &ALL,
        &style,
        &mut output,
    );
    assert!(rt; answer == Ok(None));
    let text = str::from_utf8(output.device().as_slice())?;
    assert!(rt; text.strip_suffix("units 1, not undoable 0, rows 1\n") == Some(lines));
    Ok(())
}

#[test]
fn headings_name_the_zone(rt: HostRuntime) -> Result<(), Fail> {
    let table = Tzif::parse(rt.alloc(), Some("Europe/Berlin"), BERLIN)?;
    let lines = "     start       stop  time (Europe/Berlin)      thread  rows
       154        397  2026-11-22 08:26:41           13  `d`.`t` inserts 1
";
    check_lines(&rt, TimeZone::tzif(&table), lines)?;
    let lines = "     start       stop  time (CET/CEST)          thread  rows
       154        397  2026-11-22 08:26:41          13  `d`.`t` inserts 1
";
    let rule = TimeZone::posix("CET-1CEST,M3.5.0,M10.5.0/3")?;
    check_lines(&rt, rule, lines)?;
    let unnamed = Tzif::parse(rt.alloc(), None, BERLIN)?;
    check_lines(&rt, TimeZone::tzif(&unnamed), lines)?;
    let lines = "     start       stop  time (JST)               thread  rows
       154        397  2026-11-22 16:26:41          13  `d`.`t` inserts 1
";
    check_lines(&rt, TimeZone::posix("JST-9")?, lines)
}
