//! The events of updates one after the other.

ghost use Rattle.std.specs.Prelude.{◌≡◌, ◌≤◌, ◌∷◌, ◌++◌, [], OnOk, vec_len};
ghost use Rattle.std.specs.List.{flat_map};
ghost use Rattle.blog_event.specs.Event.{event_of, unplaced};
ghost use Rattle.blog_net.specs.Net.{as_last, headed, net_events, update_body, update_events};
ghost use Rattle.blog_net.specs.code.PutView.{Puts};

use crate::fault::NetFault;
use crate::update::NetUpdate;
use blog_event::{Event, HEADER_LEN, Header, put_event};
use std::alloc::{AllocError, Allocator};

/// How many bytes the table id has.
const ID_LEN: usize = 6;

/// Appends an event by its header and its body. Its size and log_pos are computed.
fn put<A: Allocator>(out: &mut Vec<u8, A>, header: Header, body: &[u8]) -> Result<(), NetFault>
    requires { vec_len out.old ≤ 4294967295 }
    ensures { Puts out.old.items (headed header body.now ∷ []) out.new.items result }
{
    let left = u32::MAX as usize - out.len();
    if left < HEADER_LEN {
        return Err(NetFault::TooLong);
    }
    if left - HEADER_LEN < body.len() {
        return Err(NetFault::TooLong);
    }
    match put_event(out, header, &[body]) {
        Ok(()) => Ok(()),
        Err(_) => Err(NetFault::OutOfMemory),
    }
}

/// Appends the first bytes of the body of a rows event, with the end flag set.
fn put_front<A: Allocator>(body: &mut Vec<u8, A>, front: &[u8]) -> Result<(), AllocError>
    ensures { OnOk result (body.new.items ≡ body.old.items ++ as_last front.now) }
{
    let (id, behind) = front.split_at(front.len().min(ID_LEN));
    body.extend_from_slice(id)?;
    match behind.split_first() {
        Some((flags, rest)) => {
            body.push(*flags - *flags % 2 + 1)?;
            body.extend_from_slice(rest)
        }
        None => Ok(()),
    }
}

/// Puts the body of an update's rows event in place of what is there.
fn put_body<A: Allocator>(body: &mut Vec<u8, A>, update: &NetUpdate<'_>) -> Result<(), AllocError>
    ensures { OnOk result (body.new.items ≡ update_body update.now) }
{
    body.clear();
    put_front(body, update.front)?;
    body.extend_from_slice(update.before)?;
    body.extend_from_slice(update.after)
}

/// Appends the events of an update: its table map and its rows event. `body` is used for bodies.
fn put_update<A: Allocator>(
    out: &mut Vec<u8, A>,
    body: &mut Vec<u8, A>,
    update: &NetUpdate<'_>,
) -> Result<(), NetFault>
    requires { vec_len out.old ≤ 4294967295 }
    ensures { Puts out.old.items (update_events update.now) out.new.items result }
{
    let Ok(()) = put_body(body, update) else {
        return Err(NetFault::OutOfMemory);
    };
    match put(out, update.map.header, update.map.body) {
        Ok(()) => put(out, update.rows, body),
        Err(fault) => Err(fault),
    }
}

/// Appends the events of updates. `body` is used for bodies.
fn put_updates<A: Allocator>(
    out: &mut Vec<u8, A>,
    body: &mut Vec<u8, A>,
    updates: &[NetUpdate<'_>],
) -> Result<(), NetFault>
    requires { vec_len out.old ≤ 4294967295 }
    ensures { Puts out.old.items (flat_map update_events updates.now) out.new.items result }
{
    for update in updates {
        match put_update(out, body, update) {
            Ok(()) => {}
            Err(fault) => return Err(fault),
        }
    }
    Ok(())
}

/// Appends the updates and the end of their transaction. `body` is used for bodies.
fn put_rest<A: Allocator>(
    out: &mut Vec<u8, A>,
    body: &mut Vec<u8, A>,
    updates: &[NetUpdate<'_>],
    end: &Event<'_>,
) -> Result<(), NetFault>
    requires { vec_len out.old ≤ 4294967295 }
    ensures { Puts out.old.items (flat_map update_events updates.now ++ unplaced (event_of end.now) ∷ []) out.new.items result }
{
    match put_updates(out, body, updates) {
        Ok(()) => put(out, end.header, end.body),
        Err(fault) => Err(fault),
    }
}

/// Appends the transaction of the updates. `body` is used for bodies.
pub(crate) fn put_transaction<A: Allocator>(
    out: &mut Vec<u8, A>,
    body: &mut Vec<u8, A>,
    begin: &Event<'_>,
    end: &Event<'_>,
    updates: &[NetUpdate<'_>],
) -> Result<(), NetFault>
    requires { vec_len out.old ≤ 4294967295 }
    ensures { Puts out.old.items (net_events begin.now end.now updates.now) out.new.items result }
{
    match put(out, begin.header, begin.body) {
        Ok(()) => put_rest(out, body, updates, end),
        Err(fault) => Err(fault),
    }
}
