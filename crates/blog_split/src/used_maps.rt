//! The maps of a statement by their table ids.

ghost use Rattle.std.specs.Prelude.{◌≡◌, ◌+◌, ◌<◌, ◌≤◌, true, List, [], ◌∷◌, ◌++◌, length, map, vec_len, vec_capacity};
ghost use Rattle.std.specs.List.Sorted.{IsNonDecreasingBy};
ghost use Rattle.blog_event.specs.Event as value;
ghost use Rattle.blog_event.specs.File.{AreBytes};
ghost use Rattle.blog_row.specs.RowsEvent.{table_id};
ghost use Rattle.blog_split.specs.code.Marks.{AreListed, IsFound, IsTable, event_told, id_number};

use blog_event::Event;
use byteorder::{ByteOrder, LittleEndian};
use std::alloc::Allocator;

/// A map of a statement: its table id, and its number among the maps of the statement.
#[derive(Clone, Copy, Debug)]
pub(crate) struct MapId {
    id: u64,
    number: usize,
}

/// The table id with which the body of a table map or a rows event begins.
pub(crate) fn id_of(body: &[u8]) -> u64
    requires { 6 ≤ length body.now }
    ensures number { result ≡ id_number (table_id body.now) }
    ensures bytes { AreBytes (table_id body.now) }
{
    LittleEndian::read_u48(&body[..6])
}

/// Lists one more map of a statement.
pub(crate) fn push_map<'a, A: Allocator>(
    maps: &mut Vec<Event<'a>, A>,
    ids: &mut Vec<MapId, A>,
    event: Event<'a>,
)
    requires id { 6 ≤ length event.body.now }
    requires room_maps { vec_len maps.old < vec_capacity maps.old }
    requires room_ids { vec_len ids.old < vec_capacity ids.old }
    requires listed { AreListed (map event_told maps.old.items) ids.old.items }
    ensures maps { map event_told maps.new.items ≡ map event_told maps.old.items ++ event_told event.entry ∷ [] }
    ensures listed { AreListed (map event_told maps.new.items) ids.new.items }
    ensures len_maps { vec_len maps.new ≡ vec_len maps.old + 1 }
    ensures len_ids { vec_len ids.new ≡ vec_len ids.old + 1 }
    ensures capacity_maps { vec_capacity maps.old ≤ vec_capacity maps.new }
    ensures capacity_ids { vec_capacity ids.old ≤ vec_capacity ids.new }
{
    let id = id_of(event.body);
    let number = maps.len();
    ids.push(MapId { id, number }).unwrap();
    maps.push(event).unwrap();
}

/// Sorts the maps of a statement by their table ids, if they aren't sorted.
pub(crate) fn sort_ids<A: Allocator>(ids: &mut Vec<MapId, A>, is_sorted: bool)
    ensures table { (maps : List value.Event) → AreListed maps ids.old.items → (is_sorted ≡ true → IsNonDecreasingBy (λ e. e.id) ids.old.items) → IsTable maps ids.new.items }
    ensures len { vec_len ids.new ≡ vec_len ids.old }
    ensures capacity { vec_capacity ids.old ≤ vec_capacity ids.new }
{
    if is_sorted {
        return;
    }
    ids.sort_unstable_by_key(|map| map.id);
}

/// The number of the map with a table id, if there is one.
pub(crate) fn number_of(ids: &[MapId], id: u64) -> Option<usize>
    requires { IsNonDecreasingBy (λ (e : MapId). e.id) ids.now }
    ensures { IsFound ids.now id result }
{
    let at = ids.partition_point(|map| map.id < id);
    if at == ids.len() {
        return None;
    }
    let map = ids[at];
    if map.id != id {
        return None;
    }
    Some(map.number)
}
