//! The values of DATETIME and TIMESTAMP columns.

ghost use Rattle.std.specs.Prelude.{◌≡◌, ◌≤◌, ◌<◌, ◌^◌, ◌++◌, OnOk};
ghost use Rattle.blog_value.specs.Times.{datetime_from, datetime_in, datetime_of, datetime_text, old_datetime_of, old_timestamp_of, packed_datetime, timestamp_in, timestamp_of};

use crate::dates::{Date, date_from, put_date};
use crate::fractions::{Fraction, read_with_fraction, seconds_in};
use crate::integers::read_unsigned;
use crate::texts::{put_padded, put_text};
use crate::times::put_after_hour;
use std::alloc::{AllocError, Allocator};

/// A date with a time of day, in no time zone.
#[derive(Clone, Copy, Debug, PartialEq, Eq)]
pub struct DateTime {
    /// The date.
    pub date: Date,
    /// The hour, from 0 to 23.
    pub hour: u8,
    /// The minute, from 0 to 59.
    pub minute: u8,
    /// The second, from 0 to 59.
    pub second: u8,
    /// The fraction of a second.
    pub fraction: Fraction,
}

/// A point in time. `0000-00-00 00:00:00` is 0 seconds.
#[derive(Clone, Copy, Debug, PartialEq, Eq)]
pub struct Timestamp {
    /// The seconds since the beginning of 1970 in UTC.
    pub seconds: u32,
    /// The fraction of a second.
    pub fraction: Fraction,
}

/// What DATETIME adds to its number.
const DATETIME_OFFSET: u64 = 0x80_0000_0000;

/// Returns a date with a time of day, if all is in range.
#[inline(always)]
fn datetime_from(
    date: Option<Date>,
    hour: u64,
    minute: u64,
    second: u64,
    fraction: Fraction,
) -> Option<DateTime>
    ensures { result ≡ datetime_from date hour minute second fraction }
{
    let date = date?;
    if hour <= 23 && minute <= 59 && second <= 59 {
        Some(DateTime {
            date,
            hour: hour as u8,
            minute: minute as u8,
            second: second as u8,
            fraction,
        })
    } else {
        None
    }
}

/// Returns the value of a DATETIME column in the format before MySQL 5.6.
#[tactic(auto, unfolding(crate::specs::Times::old_datetime_of))]
pub(crate) fn read_old_datetime(bytes: &[u8]) -> Option<DateTime>
    ensures { result ≡ old_datetime_of bytes.now }
{
    let n = read_unsigned(8, bytes)?;
    let date = date_from(
        n / 10_000_000_000,
        n / 100_000_000 % 100,
        n / 1_000_000 % 100,
    );
    datetime_from(
        date,
        n / 10_000 % 100,
        n / 100 % 100,
        n % 100,
        Fraction::none(),
    )
}

/// Returns the date and time in a packed number.
fn packed_datetime(n: u64, fraction: Fraction) -> Option<DateTime>
    ensures { result ≡ packed_datetime n fraction }
{
    let months = n / 0x40_0000;
    let date = date_from(months / 13, months % 13, n / 0x2_0000 % 32);
    datetime_from(date, n / 4096 % 32, n / 64 % 64, n % 64, fraction)
}

/// Returns the date and time that a number of a DATETIME column spells.
#[tactic(auto, unfolding(crate::specs::Times::datetime_in))]
fn datetime_in(digits: u8, n: u64) -> Option<DateTime>
    requires { digits ≤ 6 }
    ensures { result ≡ datetime_in digits n }
{
    let packed = seconds_in(digits, n).checked_sub(DATETIME_OFFSET)?;
    let fraction = Fraction::in_number(digits, n)?;
    packed_datetime(packed, fraction)
}

/// Returns the value of a DATETIME column that keeps that many digits of a fraction.
pub(crate) fn read_datetime(digits: u8, bytes: &[u8]) -> Option<DateTime>
    ensures { result ≡ datetime_of digits bytes.now }
{
    let n = read_with_fraction(5, digits, bytes)?;
    datetime_in(digits, n)
}

/// Returns the value of a TIMESTAMP column in the format before MySQL 5.6.
#[tactic(auto, unfolding(crate::specs::Times::old_timestamp_of))]
pub(crate) fn read_old_timestamp(bytes: &[u8]) -> Option<Timestamp>
    ensures { result ≡ old_timestamp_of bytes.now }
{
    let seconds = read_unsigned(4, bytes)?;
    Some(Timestamp {
        seconds: seconds as u32,
        fraction: Fraction::none(),
    })
}

/// Returns the value of a TIMESTAMP column that keeps that many digits of a fraction.
#[tactic(auto, unfolding(crate::specs::Times::timestamp_in))]
pub(crate) fn read_timestamp(digits: u8, bytes: &[u8]) -> Option<Timestamp>
    ensures { result ≡ timestamp_of digits bytes.now }
{
    let n = read_with_fraction(4, digits, bytes)?;
    let fraction = Fraction::in_number(digits, n)?;
    Some(Timestamp {
        seconds: seconds_in(digits, n) as u32,
        fraction,
    })
}

/// Appends a date with a time of day: `2026-11-22 09:05:07.250`.
pub fn put_datetime<A: Allocator>(
    out: &mut Vec<u8, A>,
    datetime: &DateTime,
) -> Result<(), AllocError>
    ensures { OnOk result (out.new.items ≡ out.old.items ++ datetime_text datetime.now) }
{
    put_date(out, &datetime.date)?;
    put_text(out, b" ")?;
    put_padded(out, 2, u64::from(datetime.hour))?;
    put_after_hour(out, datetime.minute, datetime.second, &datetime.fraction)
}
