//! What is seen of units.

ghost use Rattle.std.specs.Prelude.{◌≡◌, ◌&&◌, ◌++◌, List};
ghost use Rattle.blog_event.specs.code.LogView.{log_bytes};
ghost use Rattle.blog_units.specs.Units.{Facts};
ghost use Rattle.blog_request.specs.Wanted.{is_before, is_from};
ghost use Rattle.blog_reasons.specs.Reasons.{units_in_range};
ghost use Rattle.blog_reasons.specs.code.UnitsView.{AreSeenUnits, range_of, seen_with, with_time};

use blog_event::Log;
use blog_request::{Wanted, is_before};
use blog_units::Units;

/// The least and the greatest of times, in seconds since 1970 in UTC.
#[derive(Clone, Copy, Debug)]
pub(crate) struct Times {
    pub(crate) first: u32,
    pub(crate) last: u32,
}

/// What was seen of units.
#[derive(Clone, Copy, Debug)]
pub(crate) struct SeenUnits {
    /// Their times, if there are any.
    pub(crate) times: Option<Times>,
    /// Whether one of them is of the wanted times.
    pub(crate) has_wanted: bool,
}

/// The range of positions of a log, in bytes from the file's start.
#[derive(Clone, Copy, Debug)]
pub(crate) struct Range {
    pub(crate) start: Option<u32>,
    pub(crate) stop: Option<u32>,
}

impl Range {
    /// Returns whether a unit that starts at a position is in the range.
    fn has(&self, start: u32) -> bool
        ensures { result ≡ (is_from start self.now.start && is_before start self.now.stop) }
    {
        is_from(start, self.start) && is_before(start, self.stop)
    }
}

/// Returns whether a number isn't below the least one, where there is one.
fn is_from(n: u32, least: Option<u32>) -> bool
    ensures { result ≡ is_from n least }
{
    match least {
        Some(least) => n >= least,
        None => true,
    }
}

/// Returns whether a time is a wanted one.
fn is_in_times(wanted: &Wanted<'_>, time: u32) -> bool
    ensures { result ≡ (is_from time wanted.now.from_time && is_before time wanted.now.to_time) }
{
    is_from(time, wanted.from_time) && is_before(time, wanted.to_time)
}

/// Returns times with one more.
fn with_time(times: Option<Times>, time: u32) -> Times
    ensures { result ≡ with_time times time }
{
    match times {
        Some(times) => Times {
            first: times.first.min(time),
            last: times.last.max(time),
        },
        None => Times {
            first: time,
            last: time,
        },
    }
}

impl SeenUnits {
    /// No unit.
    pub(crate) const NONE: SeenUnits = SeenUnits {
        times: None,
        has_wanted: false,
    };

    /// Returns the same with a unit of this time.
    fn with(self, wanted: &Wanted<'_>, time: u32) -> SeenUnits
        ensures { result ≡ seen_with wanted.now self time }
    {
        SeenUnits {
            times: Some(with_time(self.times, time)),
            has_wanted: self.has_wanted || is_in_times(wanted, time),
        }
    }

    /// Returns the same with the units of a log that are in a range.
    pub(crate) fn with_log(self, wanted: &Wanted<'_>, log: &Log<'_>, range: &Range) -> SeenUnits
        ensures { (us : List Facts) → AreSeenUnits wanted.now us self → AreSeenUnits wanted.now (us ++ units_in_range (range_of (log_bytes log.now) range.now)) result }
    {
        let mut seen = self;
        for unit in Units::new(log) {
            if range.has(unit.start) {
                seen = seen.with(wanted, unit.time);
            }
        }
        seen
    }
}
