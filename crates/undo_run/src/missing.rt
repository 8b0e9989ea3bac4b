//! Places and global transaction ids that no unit has.

ghost use Rattle.std.specs.Prelude.{◌≡◌, map, option_map};
ghost use Rattle.blog_event.specs.code.LogView.{log_bytes};
ghost use Rattle.blog_request.specs.code.IdsView.{ids_value};
ghost use Rattle.blog_trans.specs.Selection.{selection_of};
ghost use Rattle.blog_units.specs.code.UnitsView.{id_told};
ghost use Rattle.blog_source.specs.code.SourceView.{end_of, log_of};
ghost use Rattle.undo_run.specs.Units.{has_one_of, has_unit_at, has_unit_in, has_unit_with};
ghost use Rattle.undo_run.specs.code.Steps.{FindsMissing, FindsNone};

use crate::part::begins_at;
use crate::request::is_at;
use blog_event::Log;
use blog_request::{GlobalIds, is_before};
use blog_source::Source;
use blog_trans::Selection;
use blog_units::{GlobalId, Units};
use std::alloc::Allocator;

/// Whether a unit that starts in a range starts at a position, or has its `BEGIN` there.
fn has_unit_in(log: &Log<'_>, inside: &Selection<'_>, pos: u32) -> bool
    ensures { result ≡ has_unit_in (selection_of inside.now) (log_bytes log.now) pos }
{
    for unit in Units::from_position(log, inside.start) {
        if is_before(unit.start, inside.stop) && is_at(log, &unit, pos) {
            return true;
        }
    }
    false
}

/// The same of a place of the server's log.
fn has_unit_at<A: Allocator>(
    source: &Source<A>,
    log: &Log<'_>,
    inside: &Selection<'_>,
    place: u32,
) -> bool
    requires { log_bytes log.now ≡ log_of source.now }
    ensures { result ≡ has_unit_at (selection_of inside.now) (log_of source.now) (end_of source.now) place }
{
    begins_at(source, place) && has_unit_in(log, inside, source.position(place))
}

/// The first of these places at which no unit in a range starts, or has its `BEGIN`.
pub(crate) fn first_without_unit<A: Allocator>(
    source: &Source<A>,
    log: &Log<'_>,
    inside: &Selection<'_>,
    places: &[u32],
) -> Option<u32>
    requires { log_bytes log.now ≡ log_of source.now }
    ensures { FindsNone places.now (selection_of inside.now) (log_of source.now) (end_of source.now) result }
{
    for n in 0..places.len() {
        if !has_unit_at(source, log, inside, places[n]) {
            return Some(places[n]);
        }
    }
    None
}

/// Whether an id, if there is one, is among some.
fn is_among(ids: &GlobalIds<'_>, id: Option<GlobalId<'_>>) -> bool
    ensures { result ≡ has_one_of (ids_value ids.now) (option_map id_told id.entry) }
{
    match id {
        Some(id) => ids.has(&id),
        None => false,
    }
}

/// Whether a unit that starts in a range has one of some ids.
fn has_unit_with(log: &Log<'_>, inside: &Selection<'_>, ids: &GlobalIds<'_>) -> bool
    ensures { result ≡ has_unit_with (ids_value ids.now) (selection_of inside.now) (log_bytes log.now) }
{
    for unit in Units::from_position(log, inside.start) {
        if is_before(unit.start, inside.stop) && is_among(ids, unit.id) {
            return true;
        }
    }
    false
}

/// The number of the first of these ids that no unit in a range has.
pub(crate) fn first_missing(
    log: &Log<'_>,
    inside: &Selection<'_>,
    wanted: &[GlobalIds<'_>],
) -> Option<usize>
    ensures { FindsMissing (map ids_value wanted.now) (selection_of inside.now) (log_bytes log.now) result }
{
    for n in 0..wanted.len() {
        if !has_unit_with(log, inside, &wanted[n]) {
            return Some(n);
        }
    }
    None
}
