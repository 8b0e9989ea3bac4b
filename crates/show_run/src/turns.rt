//! Logs that are gone through in turn.

ghost use Rattle.std.specs.Prelude.{◌≡◌, ◌&&◌, ◌<◌, ◌+◌, ◌==◌, map, nat_le, nat_lt, option_copied};
ghost use Rattle.blog_source.specs.Places.{position_of};
ghost use Rattle.blog_source.specs.code.SourceView.{log_of};
ghost use Rattle.blog_units.specs.code.UnitsView.{facts_told};
ghost use Rattle.list_run.specs.Listed.{name_shown};
ghost use Rattle.show_run.specs.Shown.{is_at, wanted_in};
ghost use Rattle.show_run.specs.code.Turns.{showing_of};

use blog_request::Wanted;
use blog_source::{Reading, Source};
use blog_units::UnitFacts;
use std::alloc::Allocator;

/// What is asked for of a log.
#[derive(Clone, Copy)]
pub(crate) struct Asked<'w> {
    pub(crate) wanted: Wanted<'w>,
    /// Units that have an event at one of these positions of the server's log; any if there are none.
    pub(crate) at: &'w [u32],
    /// The seed by which tables are looked up.
    pub(crate) seed: u64,
}

/// Which of the logs it is, and what is wanted of all.
#[derive(Clone, Copy)]
pub(crate) struct Turn<'w> {
    pub(crate) how: Reading,
    pub(crate) all: Asked<'w>,
    /// How many they are.
    pub(crate) count: usize,
    /// The number of this one, from 0 on.
    pub(crate) n: usize,
}

impl<'w> Turn<'w> {
    /// The name that is shown of a log.
    pub(crate) fn name<'a>(&self, name: &'a str) -> Option<&'a [u8]>
        ensures { option_copied result ≡ name_shown self.now.count name.now }
    {
        if self.count == 1 {
            None
        } else {
            Some(name.as_bytes())
        }
    }

    /// What is asked for of the log whose turn it is.
    pub(crate) fn asked(&self) -> Asked<'w>
        requires { self.now.n < self.now.count }
        ensures wanted { result.wanted ≡ wanted_in (showing_of self.now) self.now.n }
        ensures at { result.at ≡ self.now.all.at }
    {
        let wanted = self.all.wanted;
        Asked {
            wanted: Wanted {
                start: if self.n == 0 { wanted.start } else { None },
                stop: if is_last(self.n, self.count) {
                    wanted.stop
                } else {
                    None
                },
                ..wanted
            },
            ..self.all
        }
    }
}

/// Whether it is the last of so many logs.
fn is_last(n: usize, count: usize) -> bool
    requires { n < count }
    ensures { result ≡ (n + 1 == count) }
{
    n + 1 == count
}

/// Whether a unit has an event at one of some places of the server's log, or there are none.
pub(crate) fn is_at<A: Allocator>(source: &Source<A>, places: &[u32], unit: &UnitFacts<'_>) -> bool
    ensures { result ≡ is_at (map (position_of (log_of source.now)) places.now) (facts_told unit.now) }
{
    if places.is_empty() {
        return true;
    }
    for place in places {
        if has_position(unit, source.position(*place)) {
            return true;
        }
    }
    false
}

/// Whether a unit has a position.
fn has_position(unit: &UnitFacts<'_>, pos: u32) -> bool
    ensures { result ≡ (nat_le unit.now.start pos && nat_lt pos unit.now.stop) }
{
    unit.start <= pos && pos < unit.stop
}
