//! Laying a log out in memory.

ghost use Rattle.std.specs.Prelude.{◌≡◌, ◌≤◌, List, ◌++◌, length, map, IfOk, OnErr, OnOk, vec_len, vec_capacity};
ghost use Rattle.blog_event.specs.File.{end_of, read};
ghost use Rattle.blog_row.specs.declared.order.Order.{Order};
ghost use Rattle.blog_trans.specs.Groups.{Transaction};
ghost use Rattle.blog_trans.specs.code.IndexView.{index_bytes, index_selection, index_groups};
ghost use Rattle.blog_flash.specs.code.LaidOut.{text_from, transactions_of};
ghost use Rattle.blog_flash.specs.code.Measured.{HasSizes};
ghost use Rattle.blog_flash.specs.Texts.{group_events, laid_out_after};
ghost use Rattle.blog_flash.specs.Written.{event_written};

use crate::log_sizes::LogSizes;
use crate::written_events::WrittenEvents;
use blog_trans::Index;
use std::alloc::{AllocError, Allocator};

/// The front of the index's log, in the log's bytes.
fn front_of<'b, A: Allocator>(bytes: &'b [u8], index: &Index<'_, '_, A>) -> &'b [u8]
    requires { bytes.now ≡ index_bytes index.now }
    ensures any { (ts : List Transaction) → result.now ++ text_from (length result.now) (group_events ts) ≡ laid_out_after (read (index_bytes index.now) (index_selection index.now).stop) ts }
    ensures within { length result.now ≤ length bytes.now }
{
    &bytes[..index.log().first() as usize]
}

/// Returns the front of a new log: the magic number and the format description, unchanged. With the events of groups after it,
/// that is the log of these groups.
pub fn front<'a, A: Allocator>(index: &Index<'a, '_, A>) -> &'a [u8]
    ensures any { (ts : List Transaction) → result.now ++ text_from (length result.now) (group_events ts) ≡ laid_out_after (read (index_bytes index.now) (index_selection index.now).stop) ts }
    ensures within { length result.now ≤ length (index_bytes index.now) }
    ensures fits { length result.now ≤ 4294967295 }
    ensures short { (order : Order) → end_of (length result.now) (group_events (transactions_of order (index_groups index.now))) ≤ 4294967295 }
{
    front_of(index.log().bytes(), index)
}

/// Appends the events.
fn put_events<'a, A: Allocator, E: WrittenEvents<'a>>(out: &mut Vec<u8, A>, events: &mut E)
    requires events { E.can_next events.old }
    requires room { end_of (vec_len out.old) (map event_written (E.to_come events.old)) ≤ vec_capacity out.old }
    requires short { end_of (vec_len out.old) (map event_written (E.to_come events.old)) ≤ 4294967295 }
    ensures { out.new.items ≡ out.old.items ++ text_from (vec_len out.old) (map event_written (E.to_come events.old)) }
{
    'events: while let Some(event) = events.next_event() {
        event.put(out, 0);
    }
}

/// Appends events to a log in memory, each with its own size and log_pos. `sizes` are those of the log with them. Fails if memory for
/// them is refused; nothing is appended then.
pub fn add_events<'a, A: Allocator, E: WrittenEvents<'a>>(
    out: &mut Vec<u8, A>,
    events: &mut E,
    sizes: LogSizes,
) -> Result<(), AllocError>
    requires events { E.can_next events.old }
    requires sizes { HasSizes (vec_len out.old) (map event_written (E.to_come events.old)) sizes }
    ensures text { OnOk result (out.new.items ≡ out.old.items ++ text_from (vec_len out.old) (map event_written (E.to_come events.old))) }
    ensures kept { OnErr result (out.new.items ≡ out.old.items) }
{
    out.reserve(sizes.len - out.len())?;
    put_events(out, events);
    Ok(())
}

/// Writes a log into memory: its front, then the events, each with its own size and log_pos. `sizes` are those of the log. Fails
/// if there is no memory for the whole log, which is taken at once.
pub fn lay_out<'a, A: Allocator, E: WrittenEvents<'a>>(
    alloc: A,
    front: &[u8],
    events: &mut E,
    sizes: LogSizes,
) -> Result<Vec<u8, A>, AllocError>
    requires events { E.can_next events.old }
    requires sizes { HasSizes (length front.now) (map event_written (E.to_come events.old)) sizes }
    ensures text { IfOk result (λ text. text.items ≡ front.now ++ text_from (length front.now) (map event_written (E.to_come events.old))) }
{
    let mut out = Vec::with_capacity(alloc, sizes.len)?;
    out.extend_from_slice(front)?;
    put_events(&mut out, events);
    Ok(out)
}
