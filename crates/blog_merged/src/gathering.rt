//! Gathering updates and changes in a log in memory.

ghost use Rattle.std.specs.Prelude.{◌≡◌, ◌++◌, [], IfOk, List, OnOk, map};
ghost use Rattle.blog_net.specs.Net.{net_change};
ghost use Rattle.blog_net.specs.code.NetView.{bytes_of_net};
ghost use Rattle.blog_net.specs.declared.update.NetUpdate.{NetUpdate};
ghost use Rattle.blog_trans.specs.Changes.{Change, changes};
ghost use Rattle.blog_trans.specs.Selection.{all};
ghost use Rattle.blog_trans.specs.code.IndexView.{index_bytes, index_selection};
ghost use Rattle.blog_merged.specs.code.GatheringView.{HasGathered};

use crate::fault::MergeFault;
use blog_event::Event;
use blog_flash::front;
use blog_gathered::{GatherFault, Gathered};
use blog_net::{NetFault, NetLog, NetUpdate, net_log};
use blog_row::Order;
use blog_trans::{GroupEvent, Index};
use std::alloc::Allocator;

/// Returns a log without changes, with the format description of the log of an index. Fails if out of memory.
fn begun<A: Allocator, B: Allocator>(
    alloc: A,
    index: &Index<'_, '_, B>,
) -> Result<Gathered<A>, MergeFault>
    ensures { IfOk result (HasGathered []) }
{
    match Gathered::new(alloc, index) {
        Ok(gathered) => Ok(gathered),
        Err(_) => Err(MergeFault::OutOfMemory),
    }
}

/// Adds the changes of an index after those that are there. Fails if out of memory, or if the log would be too long.
fn add<A: Allocator, B: Allocator>(
    gathered: &mut Gathered<A>,
    index: &Index<'_, '_, B>,
) -> Result<(), MergeFault>
    ensures { (cs : List Change) → HasGathered cs gathered.old → OnOk result (HasGathered (cs ++ changes (index_bytes index.now) (index_selection index.now)) gathered.new) }
{
    match gathered.add(index) {
        Ok(()) => Ok(()),
        Err(GatherFault::OutOfMemory) => Err(MergeFault::OutOfMemory),
        Err(GatherFault::TooLong) => Err(MergeFault::TooLong),
    }
}

/// Gathers changes in a log. Fails if out of memory, or if the log would be too long.
fn gather_rest<A: Allocator>(alloc: A, rest: &Index<'_, '_, A>) -> Result<Gathered<A>, MergeFault>
    ensures { IfOk result (HasGathered (changes (index_bytes rest.now) (index_selection rest.now))) }
{
    let mut gathered = begun(alloc, rest)?;
    add(&mut gathered, rest)?;
    Ok(gathered)
}

/// Gathers the updates of a log and then other changes in a log. Names and ids of tables are hashed by a seed. Fails if out of memory, or if the log
/// would be too long.
fn gather_both<A: Allocator + Copy>(
    alloc: A,
    net: &NetLog<A>,
    rest: &Index<'_, '_, A>,
    seed: u64,
) -> Result<Gathered<A>, MergeFault>
    ensures { (us : List NetUpdate) → changes (bytes_of_net net.now) all ≡ map net_change us
        → IfOk result (HasGathered (map net_change us ++ changes (index_bytes rest.now) (index_selection rest.now))) }
{
    let Ok(index) = net.index(alloc, seed) else {
        return Err(MergeFault::OutOfMemory);
    };
    let mut both = begun(alloc, &index)?;
    add(&mut both, &index)?;
    add(&mut both, rest)?;
    Ok(both)
}

/// Returns the `BEGIN` and the end of the last transaction of an index; None if there is no transaction.
fn last_ends<'a, A: Allocator>(index: &Index<'a, '_, A>) -> Option<(Event<'a>, Event<'a>)> {
    let mut begin = None;
    for event in index.in_turn(Order::Backward) {
        match event {
            GroupEvent::Begin(event) => begin = Some(event),
            GroupEvent::Map(_) | GroupEvent::Rows(_) => {}
            GroupEvent::End(end) => return Some((begin?, end)),
        }
    }
    None
}

/// Writes updates as a log in memory, in a transaction like the last one of `chosen`. Names and ids of tables are hashed by a seed. Fails if out of
/// memory, if the log would be too long, and with `Unfit` if it would not be accepted, if its rows would not be those of the updates, or if there is
/// no such transaction.
fn written<A: Allocator + Copy>(
    alloc: A,
    chosen: &Index<'_, '_, A>,
    updates: &[NetUpdate<'_>],
    seed: u64,
) -> Result<NetLog<A>, MergeFault>
    ensures { IfOk result (λ net. changes (bytes_of_net net) all ≡ map net_change updates.now) }
{
    let Some((begin, end)) = last_ends(chosen) else {
        return Err(MergeFault::Unfit);
    };
    match net_log(alloc, front(chosen), &begin, &end, updates, seed) {
        Ok(net) => Ok(net),
        Err(NetFault::OutOfMemory) => Err(MergeFault::OutOfMemory),
        Err(NetFault::TooLong) => Err(MergeFault::TooLong),
        Err(NetFault::Unfit) => Err(MergeFault::Unfit),
    }
}

/// Gathers updates, in a transaction like the last one of `chosen`, and then other changes in a log. Names and ids of tables are hashed by a seed.
/// Fails as `written` does.
pub(crate) fn gather<A: Allocator + Copy>(
    alloc: A,
    chosen: &Index<'_, '_, A>,
    updates: &[NetUpdate<'_>],
    rest: &Index<'_, '_, A>,
    seed: u64,
) -> Result<Gathered<A>, MergeFault>
    ensures { IfOk result (HasGathered (map net_change updates.now ++ changes (index_bytes rest.now) (index_selection rest.now))) }
{
    if updates.is_empty() {
        return gather_rest(alloc, rest);
    }
    let net = written(alloc, chosen, updates, seed)?;
    gather_both(alloc, &net, rest, seed)
}
