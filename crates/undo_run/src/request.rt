//! Which units of a part are asked for.

ghost use Rattle.std.specs.Prelude.{◌≡◌, ◌++◌, ◌∷◌, [], IfOk, map};
ghost use Rattle.blog_event.specs.code.LogView.{log_bytes};
ghost use Rattle.blog_source.specs.Places.{position_of};
ghost use Rattle.blog_source.specs.code.SourceView.{log_of};
ghost use Rattle.blog_units.specs.code.UnitsView.{facts_told};
ghost use Rattle.undo_run.specs.Units.{is_at, is_begin_at, is_meant, is_of_places};

use blog_event::Log;
use blog_request::Wanted;
use blog_source::Source;
use blog_trans::{EventKind, event_kind};
use blog_units::UnitFacts;
use std::alloc::{AllocError, Allocator};

/// Which units of a part are asked for: those that meet each condition that is given; and whether all of their rows are.
#[derive(Clone, Copy, Debug)]
pub struct UnitRequest<'w> {
    /// Those of the wanted times, threads and ids. What this says of positions and tables isn't looked at.
    pub wanted: Wanted<'w>,
    /// Those that start at one of these positions in the server's log, with its checksums, or have their `BEGIN` there; any if there are none.
    pub at: &'w [u32],
    /// Whether rows that were changed since are left as they are, if what came later is looked at.
    pub leaves: bool,
    /// Whether the changes are taken out of these rows column by column, if what came later is looked at. `leaves` isn't looked at then.
    pub merges: bool,
}

/// Which units are asked for, by positions in what is handed out of a log.
#[derive(Clone, Copy)]
pub(crate) struct Among<'w, 'a> {
    pub(crate) wanted: Wanted<'w>,
    pub(crate) at: &'a [u32],
}

impl Among<'_, '_> {
    /// Whether a unit is asked for.
    pub(crate) fn has(&self, log: &Log<'_>, unit: &UnitFacts<'_>) -> bool
        ensures { result ≡ is_meant self.now.wanted self.now.at.now (log_bytes log.now) (facts_told unit.now) }
    {
        self.wanted.has_in_range(unit) && is_of_places(self.at, log, unit)
    }
}

/// Whether a `BEGIN` stands at a position.
fn is_begin_at(log: &Log<'_>, pos: u32) -> bool
    ensures { result ≡ is_begin_at (log_bytes log.now) pos }
{
    match log.event_at(pos) {
        Ok(event) => matches!(event_kind(&event), EventKind::Begin),
        Err(_) => false,
    }
}

/// Whether a unit starts at a position, or has its `BEGIN` there.
pub(crate) fn is_at(log: &Log<'_>, unit: &UnitFacts<'_>, pos: u32) -> bool
    ensures { result ≡ is_at (log_bytes log.now) (facts_told unit.now) pos }
{
    pos == unit.start || unit.start < pos && pos < unit.stop && is_begin_at(log, pos)
}

/// Whether a unit starts at one of some positions, or has its `BEGIN` there, or there are no positions.
fn is_of_places(at: &[u32], log: &Log<'_>, unit: &UnitFacts<'_>) -> bool
    ensures { result ≡ is_of_places at.now (log_bytes log.now) (facts_told unit.now) }
{
    if at.is_empty() {
        return true;
    }
    let mut rest = at;
    'places: while let Some((first, others)) = rest.split_first() {
        if is_at(log, unit, *first) {
            return true;
        }
        rest = others;
    }
    false
}

/// Returns the positions of places of a server's log, in what is handed out of it.
pub(crate) fn positions_of<A: Allocator + Copy>(
    alloc: A,
    source: &Source<A>,
    places: &[u32],
) -> Result<Vec<u32, A>, AllocError>
    ensures { IfOk result (λ at. at.items ≡ map (position_of (log_of source.now)) places.now) }
{
    let mut at = Vec::new(alloc);
    for n in 0..places.len() {
        at.push(source.position(places[n]))?;
    }
    Ok(at)
}
