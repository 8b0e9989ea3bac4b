//! The values of TIME columns.

ghost use Rattle.std.specs.Prelude.{◌≡◌, ◌≤◌, ◌++◌, OnOk};
ghost use Rattle.blog_value.specs.Times.{after_hour_text, hour_text, old_time_of, time_from, time_in, time_of, time_text};

use crate::fractions::{Fraction, fraction_bytes, put_fraction, read_with_fraction, seconds_in};
use crate::integers::{put_unsigned, read_signed};
use crate::texts::{put_padded, put_text};
use std::alloc::{AllocError, Allocator};

/// A time, as long as from `-838:59:59` to `838:59:59`.
#[derive(Clone, Copy, Debug, PartialEq, Eq)]
pub struct Time {
    /// Whether it is below zero. The other fields have no sign.
    pub negative: bool,
    /// The hours, from 0 to 838.
    pub hour: u16,
    /// The minutes, from 0 to 59.
    pub minute: u8,
    /// The seconds, from 0 to 59.
    pub second: u8,
    /// The fraction of a second.
    pub fraction: Fraction,
}

/// Returns a time, if its hours, minutes and seconds are in range.
#[inline(always)]
fn time_from(
    negative: bool,
    hour: u64,
    minute: u64,
    second: u64,
    fraction: Fraction,
) -> Option<Time>
    ensures { result ≡ time_from negative hour minute second fraction }
{
    if hour <= 838 && minute <= 59 && second <= 59 {
        Some(Time {
            negative,
            hour: hour as u16,
            minute: minute as u8,
            second: second as u8,
            fraction,
        })
    } else {
        None
    }
}

/// Returns the value of a TIME column in the format before MySQL 5.6.
#[tactic(auto, unfolding(crate::specs::Times::old_time_of))]
pub(crate) fn read_old_time(bytes: &[u8]) -> Option<Time>
    ensures { result ≡ old_time_of bytes.now }
{
    let n = read_signed(3, bytes)?;
    let size = n.unsigned_abs();
    time_from(
        n < 0,
        size / 10_000,
        size / 100 % 100,
        size % 100,
        Fraction::none(),
    )
}

/// Returns the time that a number of a TIME column spells.
#[tactic(auto, unfolding(crate::specs::Times::time_in))]
fn time_in(digits: u8, n: u64) -> Option<Time>
    requires { digits ≤ 6 }
    ensures { result ≡ time_in digits n }
{
    let zero = 0x80_0000 * fraction_bytes(digits);
    let size = n.abs_diff(zero);
    let fraction = Fraction::in_number(digits, size)?;
    let seconds = seconds_in(digits, size);
    time_from(
        n < zero,
        seconds / 4096,
        seconds / 64 % 64,
        seconds % 64,
        fraction,
    )
}

/// Returns the value of a TIME column that keeps that many digits of a fraction.
pub(crate) fn read_time(digits: u8, bytes: &[u8]) -> Option<Time>
    ensures { result ≡ time_of digits bytes.now }
{
    let n = read_with_fraction(3, digits, bytes)?;
    time_in(digits, n)
}

/// Appends minutes, seconds and a fraction behind an hour: `:59:59.250`.
pub(crate) fn put_after_hour<A: Allocator>(
    out: &mut Vec<u8, A>,
    minute: u8,
    second: u8,
    fraction: &Fraction,
) -> Result<(), AllocError>
    ensures { OnOk result (out.new.items ≡ out.old.items ++ after_hour_text minute second fraction.now) }
{
    put_text(out, b":")?;
    put_padded(out, 2, u64::from(minute))?;
    put_text(out, b":")?;
    put_padded(out, 2, u64::from(second))?;
    put_fraction(out, fraction)
}

/// Appends hours in two digits, or in as many as they need.
fn put_hour<A: Allocator>(out: &mut Vec<u8, A>, hour: u16) -> Result<(), AllocError>
    ensures { OnOk result (out.new.items ≡ out.old.items ++ hour_text hour) }
{
    if hour < 100 {
        put_padded(out, 2, u64::from(hour))
    } else {
        put_unsigned(out, u64::from(hour))
    }
}

/// Appends a time: `-838:59:59`, `09:05:07.250`.
pub fn put_time<A: Allocator>(out: &mut Vec<u8, A>, time: &Time) -> Result<(), AllocError>
    ensures { OnOk result (out.new.items ≡ out.old.items ++ time_text time.now) }
{
    if time.negative {
        put_text(out, b"-")?;
    }
    put_hour(out, time.hour)?;
    put_after_hour(out, time.minute, time.second, &time.fraction)
}
