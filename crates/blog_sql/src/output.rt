//! What is printed for events, one after another.

ghost use Rattle.std.specs.Prelude.{◌≡◌, ℕ, ◌≤◌, ◌+◌, ◌-◌, [], ◌++◌, ◌||◌, true, false, length, drop, OnOk, OnErr, IfErr, vec_len, vec_capacity};
ghost use Rattle.blog_device.specs.Watched.{device_of, has_failed};
ghost use Rattle.blog_device.specs.Devices.{AppendsBeginning, is_write_fault};
ghost use Rattle.blog_event.specs.Event.{event_of, event_size, unplaced};
ghost use Rattle.blog_flash.specs.Written.{Same, event_written};
ghost use Rattle.blog_flash.specs.code.WrittenView.{written_told};
ghost use Rattle.blog_sql.specs.Changed.{HasShortNames, changed};
ghost use Rattle.blog_sql.specs.code.Adding.{Adds};
ghost use Rattle.blog_sql.specs.code.Walk.{BeginsInside, HasRoom, Prints, PrintsBeginning, PrintsInside, closing, edge, opening};

use crate::base64_lines::{put_full_lines, put_lines};
use crate::changed::put_changed;
use crate::chunk::append;
use crate::options::SqlOptions;
use blog_device::{RunFault, Watched};
use blog_event::{Event, HEADER_LEN};
use blog_flash::WrittenEvent;
use std::alloc::Allocator;
use std::io::Write;

/// Begins events for the server to apply.
const BINLOG: &[u8] = b"BINLOG '\n";

/// Ends a statement.
const STATEMENT_END: &[u8] = b"';\nSET @undo_errors = @undo_errors + @@error_count;\n";

/// Begins a transaction.
const BEGIN: &[u8] = b"BEGIN;\n";

/// Ends a transaction: it is committed if no statement so far had an error.
const END: &[u8] =
    b"SET @undo_end = IF(@undo_errors = 0, 'COMMIT', 'ROLLBACK');\nPREPARE undo_end FROM @undo_end;\nEXECUTE undo_end;\nDEALLOCATE PREPARE undo_end;\n";

/// Returns what is printed before an event of a statement.
fn opening(is_open: bool) -> &'static [u8]
    ensures value { result.now ≡ opening is_open }
    ensures short { length result.now ≤ 512 }
{
    if is_open { b"" } else { BINLOG }
}

/// Returns what is printed where a transaction begins, or ends if it is the inside that is left.
pub(crate) fn edge(each_transaction: bool, is_inside: bool) -> &'static [u8]
    ensures value { result.now ≡ edge each_transaction is_inside }
    ensures short { length result.now ≤ 512 }
{
    if !each_transaction {
        return b"";
    }
    if is_inside {
        return END;
    }
    BEGIN
}

/// Removes the first bytes.
fn remove_front<A: Allocator>(held: &mut Vec<u8, A>, n: usize)
    requires { n ≤ vec_len held.old }
    ensures items { held.new.items ≡ drop n held.old.items }
    ensures len { vec_len held.new ≡ vec_len held.old - n }
    ensures capacity { vec_capacity held.new ≡ vec_capacity held.old }
{
    let len = held.len();
    held.as_mut_slice().copy_within(n..len, 0);
    held.truncate(len - n);
}

/// A text that is printed event by event.
#[derive(Drop)]
pub(crate) struct Output<A: Allocator> {
    pub(crate) each_transaction: bool,
    // What isn't written yet.
    pub(crate) chunk: Vec<u8, A>,
    // The bytes of the open statement that aren't encoded yet: fewer than a line has. And room for an event after them.
    pub(crate) held: Vec<u8, A>,
    pub(crate) is_open: bool,
    // The position in the log that these events would make.
    pub(crate) pos: usize,
    pub(crate) is_inside: bool,
}

impl<A: Allocator> Output<A> {
    /// Ends the open statement, if there is one.
    pub(crate) fn close<W: Write>(&mut self, writer: &mut Watched<W>) -> Result<(), RunFault>
        requires { 512 ≤ vec_capacity self.old.chunk }
        ensures adds { OnOk result (Adds (W.contents (device_of writer.old)) (W.contents (device_of writer.new)) self.old.chunk.items self.new.chunk.items (closing self.old.is_open self.old.held.items)) }
        ensures beginning { OnErr result (AppendsBeginning (W.contents (device_of writer.old)) (W.contents (device_of writer.new)) (self.old.chunk.items ++ closing self.old.is_open self.old.held.items)) }
        ensures open { OnOk result (self.new.is_open ≡ false) }
        ensures held { OnOk result (self.new.held.items ≡ []) }
        ensures room { OnOk result ((n : ℕ) → HasRoom n self.old → HasRoom n self.new) }
        ensures pos { self.new.pos ≡ self.old.pos }
        ensures inside { self.new.is_inside ≡ self.old.is_inside }
        ensures each { self.new.each_transaction ≡ self.old.each_transaction }
        ensures held_capacity { vec_capacity self.old.held ≤ vec_capacity self.new.held }
        ensures fault { IfErr result (λ e. e ≡ RunFault.Write) }
        ensures capacity { vec_capacity self.old.chunk ≤ vec_capacity self.new.chunk }
        ensures mark { has_failed writer.new ≡ (has_failed writer.old || is_write_fault result) }
    {
        if !self.is_open {
            self.held.clear();
            return Ok(());
        }
        put_lines(writer, &mut self.chunk, &self.held)?;
        append(writer, &mut self.chunk, STATEMENT_END)?;
        self.held.clear();
        self.is_open = false;
        Ok(())
    }

    /// Prints the `BEGIN` or the end event of a transaction.
    fn put_edge<W: Write>(
        &mut self,
        writer: &mut Watched<W>,
        event: &Event<'_>,
    ) -> Result<(), RunFault>
        requires chunk { 512 ≤ vec_capacity self.old.chunk }
        requires short { self.old.pos + event_size (event_of event.now) ≤ 4294967295 }
        ensures prints { OnOk result (Prints (W.contents (device_of writer.old)) (W.contents (device_of writer.new)) self.old (Same (unplaced (event_of event.now))) self.new) }
        ensures beginning { OnErr result (PrintsBeginning (W.contents (device_of writer.old)) (W.contents (device_of writer.new)) self.old (Same (unplaced (event_of event.now)))) }
        ensures pos { OnOk result (self.new.pos ≡ self.old.pos + event_size (event_of event.now)) }
        ensures room { OnOk result ((n : ℕ) → HasRoom n self.old → HasRoom n self.new) }
        ensures fault { IfErr result (λ e. e ≡ RunFault.Write) }
        ensures mark { has_failed writer.new ≡ (has_failed writer.old || is_write_fault result) }
    {
        self.close(writer)?;
        append(
            writer,
            &mut self.chunk,
            edge(self.each_transaction, self.is_inside),
        )?;
        self.is_inside = !self.is_inside;
        self.pos += HEADER_LEN + event.body.len();
        Ok(())
    }

    /// Prints a table map or a rows event, which is the last of its statement or not.
    fn put_event<W: Write>(
        &mut self,
        writer: &mut Watched<W>,
        event: &WrittenEvent<'_>,
        how: &SqlOptions<'_>,
    ) -> Result<(), RunFault>
        requires names { HasShortNames how.now }
        requires room { HasRoom (event_size (event_written (changed how.now (written_told event.now)))) self.old }
        requires short { self.old.pos + event_size (event_written (changed how.now (written_told event.now))) ≤ 4294967295 }
        ensures inside { OnOk result (PrintsInside (W.contents (device_of writer.old)) (W.contents (device_of writer.new)) self.old (event_written (changed how.now (written_told event.now))) self.new) }
        ensures beginning { OnErr result (BeginsInside (W.contents (device_of writer.old)) (W.contents (device_of writer.new)) self.old (event_written (changed how.now (written_told event.now)))) }
        ensures pos { OnOk result (self.new.pos ≡ self.old.pos + event_size (event_written (changed how.now (written_told event.now)))) }
        ensures room { OnOk result ((n : ℕ) → HasRoom n self.old → HasRoom n self.new) }
        ensures fault { IfErr result (λ e. e ≡ RunFault.Write) }
        ensures mark { has_failed writer.new ≡ (has_failed writer.old || is_write_fault result) }
    {
        append(writer, &mut self.chunk, opening(self.is_open))?;
        self.is_open = true;
        let held = self.held.len();
        put_changed(&mut self.held, self.pos - held, event, how);
        self.pos += self.held.len() - held;
        let done = put_full_lines(writer, &mut self.chunk, &self.held)?;
        remove_front(&mut self.held, done);
        Ok(())
    }

    /// Prints an event.
    pub(crate) fn put<W: Write>(
        &mut self,
        writer: &mut Watched<W>,
        event: &WrittenEvent<'_>,
        how: &SqlOptions<'_>,
    ) -> Result<(), RunFault>
        requires names { HasShortNames how.now }
        requires room { HasRoom (event_size (event_written (changed how.now (written_told event.now)))) self.old }
        requires short { self.old.pos + event_size (event_written (changed how.now (written_told event.now))) ≤ 4294967295 }
        ensures prints { OnOk result (Prints (W.contents (device_of writer.old)) (W.contents (device_of writer.new)) self.old (changed how.now (written_told event.now)) self.new) }
        ensures beginning { OnErr result (PrintsBeginning (W.contents (device_of writer.old)) (W.contents (device_of writer.new)) self.old (changed how.now (written_told event.now))) }
        ensures pos { OnOk result (self.new.pos ≡ self.old.pos + event_size (event_written (changed how.now (written_told event.now)))) }
        ensures room { OnOk result ((n : ℕ) → HasRoom n self.old → HasRoom n self.new) }
        ensures fault { IfErr result (λ e. e ≡ RunFault.Write) }
        ensures mark { has_failed writer.new ≡ (has_failed writer.old || is_write_fault result) }
    {
        match event {
            WrittenEvent::Same(event) => self.put_edge(writer, event),
            WrittenEvent::Map(_) => self.put_event(writer, event, how),
            WrittenEvent::Rows(rows) => {
                self.put_event(writer, event, how)?;
                if rows.last {
                    return self.close(writer);
                }
                Ok(())
            }
        }
    }
}
