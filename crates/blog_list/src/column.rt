//! The column of times in a list.

ghost use Rattle.std.specs.Prelude.{◌≡◌, ◌≤◌, ◌++◌, IfOk, OnOk, length, replicate};
ghost use Rattle.jiff.specs.Words.{plain_zone};
ghost use Rattle.blog_list.specs.Columns.{IsHeading, IsPadded, IsSeasonsHeading, IsTimeColumn, PutsTime, heading, heading_of_two};
ghost use Rattle.blog_list.specs.Lines.{room_beside};

use crate::times::{instant_of, time_text};
use blog_text::{put_escaped, put_text};
use jiff::tz::TimeZone;
use std::alloc::{AllocError, Allocator};

/// How many columns `YYYY-MM-DD hh:mm:ss` has.
const TIME_COLUMNS: usize = 19;

/// How many of the 119 columns of a line are left for what a unit changes, beside its positions, a time and its thread.
const CHANGES_COLUMNS: usize = 63;

/// Some winter and some summer, which is which by the hemisphere, after the last change of a zone's rules that is known:
/// 2100-01-01 and 2100-07-01.
const SEASONS: (u32, u32) = (4_102_444_800, 4_118_083_200);

/// The column of times in a list: the time zone of the clock, and the heading, which names it.
#[derive(Drop)]
pub(crate) struct TimeColumn<'z, A: Allocator> {
    zone: TimeZone<'z>,
    heading: Vec<u8, A>,
}

impl<'z, A: Allocator + Copy> TimeColumn<'z, A> {
    /// The column of a time zone.
    pub(crate) fn new(alloc: A, zone: TimeZone<'z>) -> Result<TimeColumn<'z, A>, AllocError>
        ensures { IfOk result (IsTimeColumn (plain_zone zone.entry)) }
    {
        let heading = zone_heading(alloc, &zone)?;
        Ok(TimeColumn { zone, heading })
    }

    /// The time zone.
    pub(crate) fn zone(&self) -> TimeZone<'z>
        ensures { result ≡ self.now.zone }
    {
        self.zone
    }

    /// How many columns a line has left for what a unit changes.
    pub(crate) fn room(&self) -> usize
        ensures room { result ≡ room_beside (length self.now.heading.items) }
        ensures most { result ≤ 63 }
    {
        CHANGES_COLUMNS.saturating_sub(self.heading.len().saturating_sub(TIME_COLUMNS))
    }

    /// Appends the heading, and blanks where it is narrower than the times.
    pub(crate) fn put_heading(&self, out: &mut Vec<u8, A>) -> Result<(), AllocError>
        ensures { OnOk result (IsPadded 19 out.old.items self.now.heading.items out.new.items) }
    {
        put_padded(out, &self.heading, TIME_COLUMNS)
    }

    /// Appends what the clock shows at a number of seconds since 1970 in UTC, and blanks where that is narrower than the heading.
    pub(crate) fn put_time(&self, out: &mut Vec<u8, A>, seconds: u32) -> Result<(), AllocError>
        ensures { OnOk result (PutsTime self.now seconds out.old.items out.new.items) }
    {
        put_padded(
            out,
            time_text(self.zone, seconds).as_str().as_bytes(),
            self.heading.len(),
        )
    }
}

/// Returns the heading of a zone.
fn zone_heading<A: Allocator + Copy>(
    alloc: A,
    zone: &TimeZone<'_>,
) -> Result<Vec<u8, A>, AllocError>
    ensures { IfOk result (λ text. IsHeading (plain_zone zone.now) text.items) }
{
    match zone.iana_name() {
        Some(name) => heading(alloc, name),
        None => seasons_heading(alloc, zone),
    }
}

/// Returns the heading of a zone without a name: its abbreviations in winter and in summer.
fn seasons_heading<A: Allocator + Copy>(
    alloc: A,
    zone: &TimeZone<'_>,
) -> Result<Vec<u8, A>, AllocError>
    ensures { IfOk result (λ heading. IsSeasonsHeading (plain_zone zone.now) heading.items) }
{
    let (january, july) = SEASONS;
    let winter = zone.to_offset_info(instant_of(january));
    let summer = zone.to_offset_info(instant_of(july));
    heading_of_two(alloc, winter.abbreviation(), summer.abbreviation())
}

/// Returns the heading with a name, escaped.
fn heading<A: Allocator + Copy>(alloc: A, name: &str) -> Result<Vec<u8, A>, AllocError>
    ensures { IfOk result (λ text. text.items ≡ heading name.now) }
{
    let mut text = Vec::new(alloc);
    put_text(&mut text, b"time (")?;
    put_escaped(&mut text, name.as_bytes())?;
    put_text(&mut text, b")")?;
    Ok(text)
}

/// Returns the heading with two abbreviations, or with one where they are the same.
fn heading_of_two<A: Allocator + Copy>(
    alloc: A,
    first: &str,
    second: &str,
) -> Result<Vec<u8, A>, AllocError>
    ensures { IfOk result (λ text. text.items ≡ heading_of_two first.now second.now) }
{
    if first == second {
        return heading(alloc, first);
    }
    let mut text = Vec::new(alloc);
    put_text(&mut text, b"time (")?;
    put_escaped(&mut text, first.as_bytes())?;
    put_text(&mut text, b"/")?;
    put_escaped(&mut text, second.as_bytes())?;
    put_text(&mut text, b")")?;
    Ok(text)
}

/// Appends a text, and blanks up to a width.
fn put_padded<A: Allocator>(
    out: &mut Vec<u8, A>,
    text: &[u8],
    width: usize,
) -> Result<(), AllocError>
    ensures { OnOk result (IsPadded width out.old.items text.now out.new.items) }
{
    out.extend_from_slice(text)?;
    put_blanks(out, width.saturating_sub(text.len()))
}

/// Appends this many blanks.
fn put_blanks<A: Allocator>(out: &mut Vec<u8, A>, count: usize) -> Result<(), AllocError>
    ensures { OnOk result (out.new.items ≡ out.old.items ++ replicate count 32) }
{
    'blanks: for _ in 0..count {
        out.push(b' ')?;
    }
    Ok(())
}
