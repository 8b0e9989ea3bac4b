//! The values of DATE and YEAR columns.

ghost use Rattle.std.specs.Prelude.{◌≡◌, ◌++◌, OnOk};
ghost use Rattle.blog_value.specs.Dates.{date_from, date_of, date_text, year_of, year_text};

use crate::integers::read_unsigned;
use crate::texts::{put_padded, put_text};
use std::alloc::{AllocError, Allocator};

/// A date. A month or a day of 0 is allowed, as in `0000-00-00`.
#[derive(Clone, Copy, Debug, PartialEq, Eq)]
pub struct Date {
    /// The year, from 0 to 9999.
    pub year: u16,
    /// The month, from 0 to 12.
    pub month: u8,
    /// The day of the month, from 0 to 31.
    pub day: u8,
}

/// Returns a date, if its year, month and day are in range.
#[inline(always)]
pub(crate) fn date_from(year: u64, month: u64, day: u64) -> Option<Date>
    ensures { result ≡ date_from year month day }
{
    if year <= 9999 && month <= 12 && day <= 31 {
        Some(Date {
            year: year as u16,
            month: month as u8,
            day: day as u8,
        })
    } else {
        None
    }
}

/// Returns the value of a DATE column.
#[tactic(auto, unfolding(crate::specs::Dates::date_of))]
pub(crate) fn read_date(bytes: &[u8]) -> Option<Date>
    ensures { result ≡ date_of bytes.now }
{
    let n = read_unsigned(3, bytes)?;
    date_from(n / 512, n / 32 % 16, n % 32)
}

/// Returns the value of a YEAR column: 0, or a year from 1901 to 2155.
#[tactic(auto, unfolding(crate::specs::Dates::year_of))]
pub(crate) fn read_year(bytes: &[u8]) -> Option<u16>
    ensures { result ≡ year_of bytes.now }
{
    match read_unsigned(1, bytes)? {
        0 => Some(0),
        years => Some(1900 + years as u16),
    }
}

/// Appends a date: `2026-11-22`.
pub fn put_date<A: Allocator>(out: &mut Vec<u8, A>, date: &Date) -> Result<(), AllocError>
    ensures { OnOk result (out.new.items ≡ out.old.items ++ date_text date.now) }
{
    put_padded(out, 4, u64::from(date.year))?;
    put_text(out, b"-")?;
    put_padded(out, 2, u64::from(date.month))?;
    put_text(out, b"-")?;
    put_padded(out, 2, u64::from(date.day))
}

/// Appends a year in four digits.
pub fn put_year<A: Allocator>(out: &mut Vec<u8, A>, year: u16) -> Result<(), AllocError>
    ensures { OnOk result (out.new.items ≡ out.old.items ++ year_text year) }
{
    put_padded(out, 4, u64::from(year))
}
