//! The updates of pairs, as they are written.

ghost use Rattle.std.specs.Prelude.{◌≡◌, ◌++◌, IfOk, OnOk, map, option_map, option_to_list};
ghost use Rattle.blog_net.specs.Net.{net_change};
ghost use Rattle.blog_pairs.specs.code.TableView.{pair_seen, pairs_told};
ghost use Rattle.blog_merged.specs.Nets.{net_of, nets_of};

use crate::fault::MergeFault;
use blog_event::Event;
use blog_net::NetUpdate;
use blog_pairs::{PairTable, RowPair};
use std::alloc::Allocator;

/// Returns the update of a pair from what its row would be to what it is; None if it wouldn't be there. Fails with `Unfit` if there is no update
/// event whose parts it could have.
fn net_update<'p>(pair: &RowPair<'p>) -> Result<Option<NetUpdate<'p>>, MergeFault>
    ensures { IfOk result (λ update. option_map net_change update ≡ net_of (pair_seen pair.now)) }
{
    let Some(before) = pair.would else {
        return Ok(None);
    };
    let Some(parts) = pair.update else {
        return Err(MergeFault::Unfit);
    };
    let map = Event {
        pos: 0,
        header: parts.map,
        body: pair.map,
    };
    Ok(Some(NetUpdate {
        map,
        rows: parts.rows,
        front: parts.front,
        before,
        after: pair.real,
    }))
}

/// Appends an update, if there is one.
fn push_update<'p, A: Allocator>(
    updates: &mut Vec<NetUpdate<'p>, A>,
    update: Option<NetUpdate<'p>>,
) -> Result<(), MergeFault>
    ensures { OnOk result (map net_change updates.new.items ≡ map net_change updates.old.items ++ option_to_list (option_map net_change update.entry)) }
{
    let Some(update) = update else {
        return Ok(());
    };
    match updates.push(update) {
        Ok(()) => Ok(()),
        Err(_) => Err(MergeFault::OutOfMemory),
    }
}

/// Appends the update of a pair, if there is one. Fails if out of memory, or with `Unfit` if there is no update event whose parts it could have.
fn put_update<'p, A: Allocator>(
    updates: &mut Vec<NetUpdate<'p>, A>,
    pair: Option<RowPair<'p>>,
) -> Result<(), MergeFault>
    ensures { OnOk result (map net_change updates.new.items ≡ map net_change updates.old.items ++ nets_of (option_to_list (option_map pair_seen pair.entry))) }
{
    let Some(pair) = pair else {
        return Ok(());
    };
    let update = net_update(&pair)?;
    push_update(updates, update)
}

/// Returns the updates of the rows of pairs from what they would be to what they are, in the order of the pairs. Fails if out of memory, or with
/// `Unfit` if there is no update event of a table whose parts they could have.
pub(crate) fn net_updates<'p, A: Allocator + Copy>(
    alloc: A,
    pairs: &'p PairTable<A>,
) -> Result<Vec<NetUpdate<'p>, A>, MergeFault>
    ensures { IfOk result (λ updates. map net_change updates.items ≡ nets_of (pairs_told pairs.now)) }
{
    let mut updates = Vec::new(alloc);
    for place in 0..pairs.places() {
        put_update(&mut updates, pairs.pair(place))?;
    }
    Ok(updates)
}
