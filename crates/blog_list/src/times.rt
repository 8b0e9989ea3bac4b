//! Times: seconds since 1970 in UTC, and as a clock in a time zone shows them.

ghost use Rattle.std.specs.Prelude.{◌≡◌, ◌<◌};
ghost use Rattle.jiff.specs.Words.{plain_zone};
ghost use Rattle.blog_list.specs.Times.{IsRead, IsReadCivil, IsRfc3339Text, IsTimeText, IsWhole, instant, rounded, time_text, whole_minutes};

use arrayvec::ArrayString;
use jiff::Timestamp;
use jiff::civil::DateTime;
use jiff::fmt::temporal::DateTimePrinter;
use jiff::tz::{AmbiguousOffset, Offset, TimeZone};

/// Which end of a range of times one is.
#[derive(Clone, Copy, Debug, PartialEq, Eq)]
pub enum Side {
    /// The first time of the range. Of two times that a clock shows alike, the earlier one.
    Start,
    /// The first time after the range. Of two times that a clock shows alike, the later one.
    Stop,
}

/// Why a text means no time.
#[derive(Clone, Copy, Debug, PartialEq, Eq)]
pub enum TimeFault {
    /// The text isn't written `YYYY-MM-DD hh:mm:ss`, or no event can have the time.
    NotATime,
    /// The clock is put forward past the time, and never shows it.
    Skipped,
}

/// Returns the instant of a number of seconds since 1970 in UTC.
pub(crate) fn instant_of(seconds: u32) -> Timestamp
    ensures { result.nanosecond ≡ instant seconds }
{
    match Timestamp::from_second(i64::from(seconds)) {
        Ok(instant) => instant,
        Err(_) => Timestamp::UNIX_EPOCH,
    }
}

/// Returns a date and time as `YYYY-MM-DD hh:mm:ss`.
fn text_of(time: DateTime) -> ArrayString<32>
    ensures { result.bytes ≡ time_text time }
{
    DateTimePrinter::new()
        .separator(b' ')
        .precision(Some(0))
        .datetime_text(time.to_plain())
}

/// Returns what a clock in a time zone shows at a number of seconds since 1970 in UTC.
pub fn time_text(zone: TimeZone<'_>, seconds: u32) -> ArrayString<32>
    ensures { IsTimeText (plain_zone zone.entry) seconds result.bytes }
{
    text_of(zone.to_datetime(instant_of(seconds)))
}

/// The most seconds that an offset of whole minutes has: 25:59.
const MOST_SECONDS: u32 = 93_540;

/// Returns seconds rounded to the nearest whole minutes.
fn rounded(seconds: u32) -> u32
    requires { seconds < 93_600 }
    ensures { result ≡ rounded seconds }
{
    ((seconds + 30) / 60 * 60).min(MOST_SECONDS)
}

/// Returns the offset in whole minutes that is nearest to an offset.
fn whole_minutes(offset: Offset) -> Offset
    ensures { result.seconds ≡ whole_minutes offset.seconds }
{
    let minutes = rounded(offset.seconds().unsigned_abs()) as i32;
    let seconds = if offset.is_negative() {
        -minutes
    } else {
        minutes
    };
    match Offset::from_seconds(seconds) {
        Ok(offset) => offset,
        Err(_) => offset,
    }
}

/// Returns the same as RFC 3339 writes it, with the offset from UTC.
pub fn rfc_3339_text(zone: TimeZone<'_>, seconds: u32) -> ArrayString<38>
    ensures { IsRfc3339Text (plain_zone zone.entry) seconds result.bytes }
{
    let instant = instant_of(seconds);
    let offset = whole_minutes(zone.to_offset(instant));
    instant.display_with_offset(offset)
}

/// Returns the seconds since 1970 in UTC that a text means as the side of a range, where a clock in a time zone shows it.
/// The text is written `YYYY-MM-DD hh:mm:ss`.
///
/// Fails with `Skipped` where the clock never shows it, and with `NotATime` where it isn't written so, or where it is
/// a time that no event can have: before 1970-01-01 00:00:00 or after 2106-02-07 06:28:15 in UTC.
pub fn seconds_of(text: &str, zone: TimeZone<'_>, side: Side) -> Result<u32, TimeFault>
    ensures { IsRead (plain_zone zone.entry) side text.now result }
{
    let Some(time) = civil_of(text) else {
        return Err(TimeFault::NotATime);
    };
    let times = zone.to_ambiguous_timestamp(time);
    if let AmbiguousOffset::Gap { .. } = times.offset() {
        return Err(TimeFault::Skipped);
    }
    let instant = match side {
        Side::Start => times.earlier(),
        Side::Stop => times.later(),
    };
    match instant {
        Ok(instant) => whole_seconds(instant).ok_or(TimeFault::NotATime),
        Err(_) => Err(TimeFault::NotATime),
    }
}

/// Returns the date and time that this is the text of.
fn civil_of(text: &str) -> Option<DateTime>
    ensures { IsReadCivil text.now result }
{
    let Ok(time) = text.parse::<DateTime>() else {
        return None;
    };
    // the parser takes other forms too, and passes over an offset from UTC
    if text_of(time).as_str() == text {
        Some(time)
    } else {
        None
    }
}

/// Returns the seconds since 1970 in UTC at an instant, where that is at one of the seconds that an event can have.
fn whole_seconds(instant: Timestamp) -> Option<u32>
    ensures { IsWhole instant.nanosecond result }
{
    let Ok(nanos) = u64::try_from(instant.as_nanosecond()) else {
        return None;
    };
    if nanos % 1_000_000_000 != 0 {
        return None;
    }
    u32::try_from(nanos / 1_000_000_000).ok()
}
