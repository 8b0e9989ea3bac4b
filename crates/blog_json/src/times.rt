//! Dates and times.

ghost use Rattle.std.specs.Prelude.{◌≡◌, ◌++◌, IfOk, OnOk};
ghost use Rattle.blog_json.specs.Texts.{Keeps, Prints};
ghost use Rattle.blog_json.specs.Times.{clock_text, date_text, datetime_text, day_of, days_text, fraction_of, has_clock, hour_of, hours_of, is_datetime, minute_of, minutes_text, month_of, packed_of, second_of, time_text, year_of};

use crate::texts::{put_padded, put_sign, put_text};
use byteorder::{ByteOrder, LittleEndian};
use std::alloc::{AllocError, Allocator};

/// A point in time or a length of time, packed into bits (MySQL's sources, mysys/my_time.cc, `TIME_to_longlong_datetime_packed`).
#[derive(Clone, Copy, Debug)]
struct Packed {
    /// Whether it is below zero, as only a length of time can be.
    is_negative: bool,
    /// Its bits, without the sign.
    bits: u64,
}

impl Packed {
    /// Returns the one that eight bytes hold, the lowest first.
    fn of(bytes: &[u8]) -> Option<Packed>
        ensures { result ≡ packed_of bytes.now }
    {
        if bytes.len() != 8 {
            return None;
        }
        let signed = LittleEndian::read_i64(bytes);
        Some(Packed {
            is_negative: signed.is_negative(),
            bits: signed.unsigned_abs(),
        })
    }

    /// Returns whether its minute, its second and their parts are those of a clock.
    fn has_clock(self) -> bool
        ensures { result ≡ has_clock self.bits }
    {
        self.minute() < 60 && self.second() < 60 && self.fraction() < 1_000_000
    }

    /// Returns whether it is a date and a time of day.
    fn is_datetime(self) -> bool
        ensures { result ≡ is_datetime self }
    {
        !self.is_negative && self.year() < 10_000 && self.hour() < 24 && self.has_clock()
    }

    /// Returns the millionths of a second.
    fn fraction(self) -> u64
        ensures { result ≡ fraction_of self.bits }
    {
        self.bits % (1 << 24)
    }

    /// Returns the second in its minute.
    fn second(self) -> u64
        ensures { result ≡ second_of self.bits }
    {
        (self.bits >> 24) % (1 << 6)
    }

    /// Returns the minute in its hour.
    fn minute(self) -> u64
        ensures { result ≡ minute_of self.bits }
    {
        (self.bits >> 30) % (1 << 6)
    }

    /// Returns the hour in its day.
    fn hour(self) -> u64
        ensures { result ≡ hour_of self.bits }
    {
        (self.bits >> 36) % (1 << 5)
    }

    /// Returns how many hours a length of time has.
    fn hours(self) -> u64
        ensures { result ≡ hours_of self.bits }
    {
        (self.bits >> 36) % (1 << 10)
    }

    /// Returns the day in its month.
    fn day(self) -> u64
        ensures { result ≡ day_of self.bits }
    {
        (self.bits >> 41) % (1 << 5)
    }

    /// Returns the month in its year.
    fn month(self) -> u64
        ensures { result ≡ month_of self.bits }
    {
        (self.bits >> 46) % 13
    }

    /// Returns the year.
    fn year(self) -> u64
        ensures { result ≡ year_of self.bits }
    {
        (self.bits >> 46) / 13
    }
}

/// Appends `MM:SS.FFFFFF`.
#[tactic(auto, using(crate::proofs::Keeping::begins_appended))]
fn put_minutes<A: Allocator>(out: &mut Vec<u8, A>, packed: Packed) -> Result<(), AllocError>
    ensures appended { OnOk result (out.new.items ≡ out.old.items ++ minutes_text packed.bits) }
    ensures kept { Keeps out.old.items out.new.items }
{
    put_padded(out, 2, packed.minute())?;
    put_text(out, b":")?;
    put_padded(out, 2, packed.second())?;
    put_text(out, b".")?;
    put_padded(out, 6, packed.fraction())
}

/// Appends `HH:MM:SS.FFFFFF` of this many hours.
#[tactic(auto, using(crate::proofs::Keeping::begins_appended))]
fn put_clock<A: Allocator>(
    out: &mut Vec<u8, A>,
    hours: u64,
    packed: Packed,
) -> Result<(), AllocError>
    ensures appended { OnOk result (out.new.items ≡ out.old.items ++ clock_text hours packed.bits) }
    ensures kept { Keeps out.old.items out.new.items }
{
    put_padded(out, 2, hours)?;
    put_text(out, b":")?;
    put_minutes(out, packed)
}

/// Appends `YYYY-MM-DD`.
#[tactic(auto, using(crate::proofs::Keeping::begins_appended))]
fn put_days<A: Allocator>(out: &mut Vec<u8, A>, packed: Packed) -> Result<(), AllocError>
    ensures appended { OnOk result (out.new.items ≡ out.old.items ++ days_text packed.bits) }
    ensures kept { Keeps out.old.items out.new.items }
{
    put_padded(out, 4, packed.year())?;
    put_text(out, b"-")?;
    put_padded(out, 2, packed.month())?;
    put_text(out, b"-")?;
    put_padded(out, 2, packed.day())
}

/// Appends bytes of the type `DATE` as a string. Returns whether they are a date.
#[tactic(auto, using(crate::proofs::Keeping::begins_appended))]
pub(crate) fn put_date<A: Allocator>(out: &mut Vec<u8, A>, bytes: &[u8]) -> Result<bool, AllocError>
    ensures printed { IfOk result (Prints (date_text bytes.now) out.old.items out.new.items) }
    ensures kept { Keeps out.old.items out.new.items }
{
    let Some(packed) = Packed::of(bytes) else {
        return Ok(false);
    };
    if !packed.is_datetime() {
        return Ok(false);
    }
    put_text(out, b"\"")?;
    put_days(out, packed)?;
    put_text(out, b"\"")?;
    Ok(true)
}

/// Appends bytes of the types `DATETIME` and `TIMESTAMP` as a string. Returns whether they are a date and a time of day.
#[tactic(auto, using(crate::proofs::Keeping::begins_appended))]
pub(crate) fn put_datetime<A: Allocator>(
    out: &mut Vec<u8, A>,
    bytes: &[u8],
) -> Result<bool, AllocError>
    ensures printed { IfOk result (Prints (datetime_text bytes.now) out.old.items out.new.items) }
    ensures kept { Keeps out.old.items out.new.items }
{
    let Some(packed) = Packed::of(bytes) else {
        return Ok(false);
    };
    if !packed.is_datetime() {
        return Ok(false);
    }
    put_text(out, b"\"")?;
    put_days(out, packed)?;
    put_text(out, b" ")?;
    put_clock(out, packed.hour(), packed)?;
    put_text(out, b"\"")?;
    Ok(true)
}

/// Appends bytes of the type `TIME` as a string. Returns whether they are a length of time.
#[tactic(auto, using(crate::proofs::Keeping::begins_appended))]
pub(crate) fn put_time<A: Allocator>(out: &mut Vec<u8, A>, bytes: &[u8]) -> Result<bool, AllocError>
    ensures printed { IfOk result (Prints (time_text bytes.now) out.old.items out.new.items) }
    ensures kept { Keeps out.old.items out.new.items }
{
    let Some(packed) = Packed::of(bytes) else {
        return Ok(false);
    };
    if !packed.has_clock() {
        return Ok(false);
    }
    put_text(out, b"\"")?;
    put_sign(out, packed.is_negative)?;
    put_clock(out, packed.hours(), packed)?;
    put_text(out, b"\"")?;
    Ok(true)
}
