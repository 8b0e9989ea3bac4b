//! Writing a log of a merge.

ghost use Rattle.std.specs.Prelude.{◌≡◌, ◌++◌, IfOk, List, OnOk};
ghost use Rattle.blog_gathered.specs.code.GatheredView.{bytes_gathered};
ghost use Rattle.blog_pairs.specs.code.TableView.{pairs_told};
ghost use Rattle.blog_trans.specs.Acceptance.{IsAccepted};
ghost use Rattle.blog_trans.specs.Changes.{Change, changes};
ghost use Rattle.blog_trans.specs.Selection.{all};
ghost use Rattle.blog_trans.specs.code.IndexView.{index_bytes, index_selection};
ghost use Rattle.blog_merged.specs.Nets.{nets_of};
ghost use Rattle.blog_merged.specs.code.GatheringView.{HasGathered};
ghost use Rattle.blog_merged.specs.code.MergedView.{bytes_merged};

use crate::fault::MergeFault;
use crate::gathering::gather;
use crate::merged::MergedLog;
use crate::updates::net_updates;
use blog_event::Fault;
use blog_gathered::Gathered;
use blog_pairs::PairTable;
use blog_trans::Index;
use std::alloc::Allocator;

/// Checks that a log is accepted.
fn check<A: Allocator + Copy>(alloc: A, gathered: &Gathered<A>, seed: u64) -> Result<(), MergeFault>
    ensures accepted { OnOk result (IsAccepted (bytes_gathered gathered.now) all) }
    ensures changes { (cs : List Change) → HasGathered cs gathered.now → OnOk result (changes (bytes_gathered gathered.now) all ≡ cs) }
{
    match gathered.index(alloc, seed) {
        Ok(_) => Ok(()),
        Err(Fault::OutOfMemory) => Err(MergeFault::OutOfMemory),
        Err(_) => Err(MergeFault::Unfit),
    }
}

/// Writes a log in memory: one transaction of updates of the rows of pairs from what they would be to what they are, in the order of the pairs, and
/// then the changes of `rest`, which are undone by themselves. A row that wouldn't be there stays, and has no update. `chosen` is the index of the
/// changes that were a mistake; `BEGIN` and end of the updates are those of its last transaction. Names and ids of tables are hashed by a seed
/// (`Log::with_seed`).
///
/// Fails with `OutOfMemory` if out of memory, with `TooLong` if the log would have more than 4,294,967,295 bytes, and with `Unfit` if it would not be
/// accepted, or its rows would not be those of the pairs. So it does if a table of an update has no update event in the pairs, or if there are updates
/// and `chosen` has no transaction.
pub fn merged_log<A: Allocator + Copy>(
    alloc: A,
    pairs: &PairTable<A>,
    chosen: &Index<'_, '_, A>,
    rest: &Index<'_, '_, A>,
    seed: u64,
) -> Result<MergedLog<A>, MergeFault>
    ensures accepted { IfOk result (λ log. IsAccepted (bytes_merged log) all) }
    ensures changes { IfOk result (λ log. changes (bytes_merged log) all ≡ nets_of (pairs_told pairs.now) ++ changes (index_bytes rest.now) (index_selection rest.now)) }
{
    let updates = net_updates(alloc, pairs)?;
    let gathered = gather(alloc, chosen, &updates, rest, seed)?;
    check(alloc, &gathered, seed)?;
    Ok(MergedLog { gathered })
}
