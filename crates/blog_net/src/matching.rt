//! Whether the rows of an index are those of updates.

ghost use Rattle.std.specs.Prelude.{◌≡◌, ◌+◌, ◌<◌, ◌≤◌, ◌∷◌, [], Decides, IfSome, MatchBool, MatchOption, drop, length, map, true};
ghost use Rattle.blog_row.specs.code.RowsView.{row_seen};
ghost use Rattle.blog_trans.specs.Changes.{changes};
ghost use Rattle.blog_trans.specs.code.GroupEventsView.{event_seen};
ghost use Rattle.blog_trans.specs.code.IndexView.{index_bytes, index_selection};
ghost use Rattle.blog_trans.specs.declared.group_events.GroupEvent.TheVariants as GroupEvent;
ghost use Rattle.blog_net.specs.Net.{net_change};
ghost use Rattle.blog_net.specs.code.RowBytes.{AreOthers, IsBehind, event_rows, log_rows, row_bytes, update_row};

use crate::update::NetUpdate;
use blog_row::{Order, RowChange};
use blog_trans::{GroupEvent, GroupRows, Index};
use std::alloc::Allocator;

/// Returns whether a row is that of an update, byte for byte. `map` is the body of its table map.
fn is_row_of(map: &[u8], row: &RowChange<'_>, update: &NetUpdate<'_>) -> bool
    ensures { Decides result (row_bytes map.now (row_seen row.now) ≡ update_row update.now) }
{
    match (row.before, row.after) {
        (Some(before), Some(after)) => {
            map == update.map.body && before == update.before && after == update.after
        }
        _ => false,
    }
}

/// Returns whether the update of a number is of a row. `map` is the body of its table map.
fn is_row_at(updates: &[NetUpdate<'_>], n: usize, map: &[u8], row: &RowChange<'_>) -> bool
    ensures row { MatchBool result (IsBehind (drop n updates.now) (row_bytes map.now (row_seen row.now) ∷ []) (drop (n + 1) updates.now))
        (AreOthers (drop n updates.now) (row_bytes map.now (row_seen row.now) ∷ [])) }
    ensures within { result ≡ true → n < length updates.now }
{
    match updates.get(n) {
        Some(update) => is_row_of(map, row, update),
        None => false,
    }
}

/// Returns how many rows a rows event has, if the first updates are of these rows.
fn rows_matched(updates: &[NetUpdate<'_>], group: &GroupRows<'_>) -> Option<usize>
    ensures rows { MatchOption result (AreOthers updates.now (event_rows (event_seen (GroupEvent.Rows group.now)))) (λ many. IsBehind updates.now (event_rows (event_seen (GroupEvent.Rows group.now))) (drop many updates.now)) }
    ensures within { IfSome result (λ many. many ≤ length updates.now) }
{
    let mut many = 0;
    for row in group.rows.rows() {
        if !is_row_at(updates, many, group.map.body, &row) {
            return None;
        }
        many += 1;
    }
    Some(many)
}

/// Returns how many rows an event of groups has, if the first updates are of these rows.
fn matched(updates: &[NetUpdate<'_>], event: &GroupEvent<'_>) -> Option<usize>
    ensures rows { MatchOption result (AreOthers updates.now (event_rows (event_seen event.now))) (λ many. IsBehind updates.now (event_rows (event_seen event.now)) (drop many updates.now)) }
    ensures within { IfSome result (λ many. many ≤ length updates.now) }
{
    match event {
        GroupEvent::Rows(group) => rows_matched(updates, group),
        GroupEvent::Begin(_) | GroupEvent::Map(_) | GroupEvent::End(_) => Some(0),
    }
}

/// Returns whether the changes of an index are these updates, in order. Table maps and images are compared byte by byte: an equal value that
/// is encoded otherwise counts as different.
pub fn has_updates<A: Allocator>(index: &Index<'_, '_, A>, updates: &[NetUpdate<'_>]) -> bool
    ensures rows { Decides result (log_rows (index_bytes index.now) (index_selection index.now) ≡ map update_row updates.now) }
    ensures changes { result ≡ true → changes (index_bytes index.now) (index_selection index.now) ≡ map net_change updates.now }
{
    let mut at = 0;
    for event in index.in_turn(Order::Forward) {
        match matched(&updates[at..], &event) {
            Some(many) => at += many,
            None => return false,
        }
    }
    at == updates.len()
}
