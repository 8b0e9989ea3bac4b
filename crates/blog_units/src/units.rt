//! The units of a log, one after the other.

ghost use Rattle.std.specs.Prelude.{◌≡◌, length, map};
ghost use Rattle.blog_event.specs.code.LogView.{log_bytes};
ghost use Rattle.blog_units.specs.Units.{events_from};
ghost use Rattle.blog_units.specs.code.Boundaries.{IsBoundary, events_behind};

use crate::unit::{Seen, global_id, go_through, is_whole, next_first};
use crate::unit_facts::UnitFacts;
use blog_event::Log;

/// The units of a log that are left.
#[derive(Drop)]
pub struct Units<'a> {
    log: Log<'a>,
    // An event ends here, and no unit is open.
    at: u32,
    ghost boundary: { IsBoundary (log_bytes log) at },
}

impl<'a> Units<'a> {
    ghost use Rattle.blog_units.specs.Units.{facts_of, units, units_from};
    ghost use Rattle.blog_units.specs.code.UnitsView.{units_left, units_log};

    /// The units of a log, in its order.
    pub fn new(log: &Log<'a>) -> Self
        ensures units { units_left result ≡ map facts_of (units (log_bytes log.now)) }
        ensures log { units_log result ≡ log.now }
    {
        Units {
            log: *log,
            at: log.first(),
        }
    }

    /// The units of the events of a log that begin at a position or after it, in bytes from the file's start. The log's first event is
    /// in none.
    pub fn from_position(log: &Log<'a>, at: u32) -> Self
        ensures units { units_left result ≡ map facts_of (units_from (log_bytes log.now) at) }
        ensures log { units_log result ≡ log.now }
    {
        Units {
            log: *log,
            at: first_from(log, at),
        }
    }
}

/// Where the first event of a log begins that begins at a position or after it, but for the log's first; or where the events end.
fn first_from(log: &Log<'_>, at: u32) -> u32
    ensures boundary { IsBoundary (log_bytes log.now) result }
    ensures events { events_behind (log_bytes log.now) result ≡ events_from (log_bytes log.now) at }
{
    let mut pos = log.first();
    'below: while pos < at {
        let Ok(event) = log.event_at(pos) else {
            return pos;
        };
        pos += event.header.size;
    }
    pos
}

impl<'a> Iterator for Units<'a> {
    type Item = UnitFacts<'a>;

    ghost use Rattle.std.specs.Iterator.{at_most};
    ghost use Rattle.blog_units.specs.code.UnitsView.{GivesUnit, units_left};

    ghost next_gives = { GivesUnit };

    ghost remaining = { λ units. at_most (length (units_left units)) };

    fn next(&mut self) -> Option<UnitFacts<'a>> {
        let (first, kind, part) = next_first(&self.log, self.at)?;
        let start = first.pos;
        let known = Seen::NONE.with(kind, &first);
        let (stop, seen, last) = go_through(&self.log, start + first.header.size, part, known);
        self.at = stop;
        Some(UnitFacts {
            start,
            stop,
            time: seen.time.unwrap_or(first.header.timestamp),
            thread: seen.thread,
            id: global_id(&first),
            whole: is_whole(last),
            log: self.log,
        })
    }
}
