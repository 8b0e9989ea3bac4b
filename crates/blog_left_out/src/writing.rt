//! Events of groups one after the other, of which rows are left out.

ghost use Rattle.std.specs.Prelude.{◌≤◌, ◌∷◌, ◌++◌, Bool, List, [], None, option_to_list, vec_len};
ghost use Rattle.blog_event.specs.Event.{event_of, unplaced};
ghost use Rattle.blog_row.specs.declared.order.Order.TheVariants.{Forward};
ghost use Rattle.blog_trans.specs.code.GroupEventsView.{event_seen};
ghost use Rattle.blog_trans.specs.code.IndexView.{index_groups};
ghost use Rattle.blog_trans.specs.code.InTurn.{in_turn};
ghost use Rattle.blog_trans.specs.declared.group_events.GroupEvent.TheVariants as GroupEvent;
ghost use Rattle.blog_left_out.specs.code.InTurn.{written_for, written_in_turn};
ghost use Rattle.blog_left_out.specs.code.PutView.{Puts, headed};
ghost use Rattle.blog_left_out.specs.code.StepView.{Steps, held_value};

use crate::fault::LeaveOutFault;
use crate::kept_rows::put_body;
use blog_event::{Event, HEADER_LEN, Header, put_event};
use blog_row::Order;
use blog_trans::{GroupEvent, GroupRows, Index};
use std::alloc::Allocator;

/// What follows an event of groups.
#[derive(Clone, Copy, Debug)]
pub struct Step<'a> {
    /// The `BEGIN` of which nothing is written yet.
    pub held: Option<Event<'a>>,
    /// How many marks the rows of the event have.
    pub used: usize,
}

/// Appends an event by its header and its body. Its size and log_pos are computed.
fn put<A: Allocator>(out: &mut Vec<u8, A>, header: Header, body: &[u8]) -> Result<(), LeaveOutFault>
    requires { vec_len out.old ≤ 4294967295 }
    ensures { Puts out.old.items (headed header body.now ∷ []) out.new.items result }
{
    let left = u32::MAX as usize - out.len();
    if left < HEADER_LEN {
        return Err(LeaveOutFault::TooLong);
    }
    if left - HEADER_LEN < body.len() {
        return Err(LeaveOutFault::TooLong);
    }
    match put_event(out, header, &[body]) {
        Ok(()) => Ok(()),
        Err(_) => Err(LeaveOutFault::OutOfMemory),
    }
}

/// Appends the `BEGIN` that is held, if one is.
#[tactic(auto, using(crate::proofs::Putting::put_none))]
fn put_held<A: Allocator>(
    out: &mut Vec<u8, A>,
    held: Option<Event<'_>>,
) -> Result<(), LeaveOutFault>
    requires { vec_len out.old ≤ 4294967295 }
    ensures { Puts out.old.items (option_to_list (held_value held.entry)) out.new.items result }
{
    match held {
        Some(begin) => put(out, begin.header, begin.body),
        None => Ok(()),
    }
}

/// Appends a rows event after its map.
fn put_two<A: Allocator>(
    out: &mut Vec<u8, A>,
    map: &Event<'_>,
    header: Header,
    body: &[u8],
) -> Result<(), LeaveOutFault>
    requires { vec_len out.old ≤ 4294967295 }
    ensures { Puts out.old.items (unplaced (event_of map.now) ∷ headed header body.now ∷ []) out.new.items result }
{
    match put(out, map.header, map.body) {
        Ok(()) => put(out, header, body),
        Err(fault) => Err(fault),
    }
}

/// Appends a rows event after its map, and after the `BEGIN` if that is held.
fn put_three<A: Allocator>(
    out: &mut Vec<u8, A>,
    held: Option<Event<'_>>,
    map: &Event<'_>,
    header: Header,
    body: &[u8],
) -> Result<(), LeaveOutFault>
    requires { vec_len out.old ≤ 4294967295 }
    ensures { Puts out.old.items (option_to_list (held_value held.entry) ++ unplaced (event_of map.now) ∷ headed header body.now ∷ []) out.new.items result }
{
    match put_held(out, held) {
        Ok(()) => put_two(out, map, header, body),
        Err(fault) => Err(fault),
    }
}

/// Appends a rows event with the rows that stay, if it stays. `body` is used for its body.
fn put_changes<'a, A: Allocator>(
    out: &mut Vec<u8, A>,
    body: &mut Vec<u8, A>,
    held: Option<Event<'a>>,
    marks: &[bool],
    group: &GroupRows<'a>,
) -> Result<Step<'a>, LeaveOutFault>
    requires { vec_len out.old ≤ 4294967295 }
    ensures { Steps marks.now (held_value held.entry) (event_seen (GroupEvent.Rows group.now)) out.old.items out.new.items result }
{
    let Ok(kept) = put_body(body, marks, &group.rows) else {
        return Err(LeaveOutFault::OutOfMemory);
    };
    if !kept.stays {
        return Ok(Step {
            held,
            used: kept.used,
        });
    }
    let header = Header {
        kind: group.rows.kind().number(),
        ..group.event.header
    };
    match put_three(out, held, &group.map, header, body) {
        Ok(()) => Ok(Step {
            held: None,
            used: kept.used,
        }),
        Err(fault) => Err(fault),
    }
}

/// Appends the end of a transaction, unless its `BEGIN` is held.
#[tactic(auto, using(crate::proofs::Putting::put_none))]
fn put_end<A: Allocator>(
    out: &mut Vec<u8, A>,
    held: Option<Event<'_>>,
    end: &Event<'_>,
) -> Result<(), LeaveOutFault>
    requires { vec_len out.old ≤ 4294967295 }
    ensures { (ms : List Bool) → Puts out.old.items (written_for ms (held_value held.entry) (event_seen (GroupEvent.End end.now))) out.new.items result }
{
    match held {
        Some(_) => Ok(()),
        None => put(out, end.header, end.body),
    }
}

/// Appends what is written for an event of groups. `marks` are those from its first row on; `body` is used for bodies.
#[tactic(auto, using(crate::proofs::Putting::put_none))]
fn put_one<'a, A: Allocator>(
    out: &mut Vec<u8, A>,
    body: &mut Vec<u8, A>,
    held: Option<Event<'a>>,
    marks: &[bool],
    event: &GroupEvent<'a>,
) -> Result<Step<'a>, LeaveOutFault>
    requires { vec_len out.old ≤ 4294967295 }
    ensures { Steps marks.now (held_value held.entry) (event_seen event.now) out.old.items out.new.items result }
{
    match event {
        GroupEvent::Begin(begin) => Ok(Step {
            held: Some(*begin),
            used: 0,
        }),
        GroupEvent::Map(_) => Ok(Step { held, used: 0 }),
        GroupEvent::Rows(rows) => put_changes(out, body, held, marks, rows),
        GroupEvent::End(end) => match put_end(out, held, end) {
            Ok(()) => Ok(Step {
                held: None,
                used: 0,
            }),
            Err(fault) => Err(fault),
        },
    }
}

/// Appends what is written for the groups of an index. `body` is used for bodies.
pub(crate) fn put_groups<'a, A: Allocator, B: Allocator>(
    out: &mut Vec<u8, A>,
    body: &mut Vec<u8, A>,
    index: &Index<'a, '_, B>,
    marks: &[bool],
) -> Result<(), LeaveOutFault>
    requires { vec_len out.old ≤ 4294967295 }
    ensures { Puts out.old.items (written_in_turn marks.now None (in_turn Forward (index_groups index.now))) out.new.items result }
{
    let mut held: Option<Event<'a>> = None;
    let mut at = 0;
    for event in index.in_turn(Order::Forward) {
        match put_one(out, body, held, &marks[at..], &event) {
            Ok(step) => {
                held = step.held;
                at += step.used;
            }
            Err(fault) => return Err(fault),
        }
    }
    Ok(())
}
