//! Writing the net effect of a mistake on rows.

ghost use Rattle.std.specs.Prelude.{IfErr, IfOk, OnOk, ◌≡◌, map};
ghost use Rattle.blog_trans.specs.Acceptance.{IsAccepted};
ghost use Rattle.blog_trans.specs.Changes.{changes};
ghost use Rattle.blog_trans.specs.Selection.{all};
ghost use Rattle.blog_net.specs.Net.{net_change, net_text};
ghost use Rattle.blog_net.specs.code.NetView.{IsUnwritten, bytes_of_net, net_fault};

use crate::fault::NetFault;
use crate::matching::has_updates;
use crate::net::NetLog;
use crate::putting::put_transaction;
use crate::update::NetUpdate;
use blog_event::{Event, Fault};
use blog_flash::selected;
use blog_trans::Selection;
use std::alloc::Allocator;

/// Returns the fault of a log that can't be indexed.
fn net_fault(fault: Fault) -> NetFault
    ensures { result ≡ net_fault fault }
{
    match fault {
        Fault::OutOfMemory => NetFault::OutOfMemory,
        _ => NetFault::Unfit,
    }
}

/// Checks that a log is accepted, and that its changes are the updates.
fn check_net<A: Allocator + Copy>(
    alloc: A,
    bytes: &[u8],
    updates: &[NetUpdate<'_>],
    seed: u64,
) -> Result<(), NetFault>
    ensures accepted { OnOk result (IsAccepted bytes.now all) }
    ensures changes { OnOk result (changes bytes.now all ≡ map net_change updates.now) }
    ensures fault { IfErr result (IsUnwritten bytes.now updates.now) }
{
    match selected(alloc, bytes, &Selection::all(), seed) {
        Ok(index) => {
            if has_updates(&index, updates) {
                Ok(())
            } else {
                Err(NetFault::Unfit)
            }
        }
        Err(fault) => Err(net_fault(fault)),
    }
}

/// Writes the log of updates: its front, and their transaction.
fn net_bytes<A: Allocator + Copy>(
    alloc: A,
    front: &[u8],
    begin: &Event<'_>,
    end: &Event<'_>,
    updates: &[NetUpdate<'_>],
) -> Result<Vec<u8, A>, NetFault>
    ensures text { IfOk result (λ bytes. bytes.items ≡ net_text front.now begin.now end.now updates.now) }
    ensures fault { IfErr result (IsUnwritten (net_text front.now begin.now end.now updates.now) updates.now) }
{
    let mut out = Vec::new(alloc);
    let Ok(()) = out.extend_from_slice(front) else {
        return Err(NetFault::OutOfMemory);
    };
    if out.len() > u32::MAX as usize {
        return Err(NetFault::TooLong);
    }
    let mut body = Vec::new(alloc);
    match put_transaction(&mut out, &mut body, begin, end, updates) {
        Ok(()) => Ok(out),
        Err(fault) => Err(fault),
    }
}

/// Writes updates as a log in memory: `front`, the magic number and the format description of a log (`blog_flash::front`), and then one
/// transaction from `begin` to `end`. Each update is a statement of its own: its table map, and the rows event with the end flag. Without
/// updates, the transaction is empty.
///
/// The log is checked once it is written: it is indexed, and its rows are compared with those of the updates. Names and ids of tables are
/// hashed by a seed (`Log::with_seed`).
///
/// Fails with `OutOfMemory` if out of memory, with `TooLong` if the log would have more than 4,294,967,295 bytes, and with `Unfit` if it
/// would not be accepted or its rows would not be those of the updates.
pub fn net_log<A: Allocator + Copy>(
    alloc: A,
    front: &[u8],
    begin: &Event<'_>,
    end: &Event<'_>,
    updates: &[NetUpdate<'_>],
    seed: u64,
) -> Result<NetLog<A>, NetFault>
    ensures text { IfOk result (λ net. bytes_of_net net ≡ net_text front.now begin.now end.now updates.now) }
    ensures accepted { IfOk result (λ net. IsAccepted (bytes_of_net net) all) }
    ensures changes { IfOk result (λ net. changes (bytes_of_net net) all ≡ map net_change updates.now) }
    ensures fault { IfErr result (IsUnwritten (net_text front.now begin.now end.now updates.now) updates.now) }
{
    match net_bytes(alloc, front, begin, end, updates) {
        Ok(bytes) => match check_net(alloc, &bytes, updates, seed) {
            Ok(()) => Ok(NetLog { bytes }),
            Err(fault) => Err(fault),
        },
        Err(fault) => Err(fault),
    }
}
