//! A server's log that was read, without checksums, and the places of its events.

ghost use Rattle.std.specs.Prelude.{◌≡◌, ◌<◌, ◌≤◌, ◌^◌, length, take, IfOk};
ghost use Rattle.std.specs.Result.{result_err};
ghost use Rattle.blog_source.specs.Appended.{format_time};
ghost use Rattle.blog_source.specs.Found.{found_of, source_refusal};
ghost use Rattle.blog_source.specs.Handed.{handed_log};
ghost use Rattle.blog_source.specs.Places.{first_of, place_of, position_of};

use crate::form::Form;
use crate::front::open_front;
use crate::reading::Reading;
use crate::walk::{Walked, hand_out};
use blog_event::event_at;
use blog_sum::SumFault;
use std::alloc::{Allocator, Global};

/// A server's log that was read: the same log without checksums, whose events know where in the server's log they stand.
#[derive(Drop)]
pub struct Source<A: Allocator = Global> {
    pub(crate) bytes: Vec<u8, A>,
    pub(crate) end: u32,
    pub(crate) damaged: u32,
    pub(crate) fault: Option<SumFault>,
    pub(crate) time: u32,
    pub ghost short: { length bytes.items < 2 ^ 32 },
}

/// Reads a log, and moves what is handed out for it to the front of its bytes. Fails as `Source::open`.
fn read_in_place(bytes: &mut [u8], how: Reading) -> Result<Walked, SumFault>
    ensures exact { result_err result ≡ source_refusal bytes.old }
    ensures log { IfOk result (λ walked. take walked.len bytes.new ≡ handed_log how bytes.old) }
    ensures fault { IfOk result (λ walked. walked.fault ≡ (found_of how bytes.old).fault) }
    ensures end { IfOk result (λ walked. walked.end ≡ (found_of how bytes.old).end) }
    ensures damaged { IfOk result (λ walked. walked.damaged ≡ (found_of how bytes.old).damaged) }
    ensures within { IfOk result (λ walked. walked.len ≤ length bytes.new) }
    ensures len { IfOk result (λ _. length bytes.new ≡ length bytes.old) }
{
    let front = open_front(bytes)?;
    Ok(hand_out(bytes, front.first, front.sums, Form::Places, how))
}

/// The time of the format description of a log; 0 where none is.
pub(crate) fn format_time(log: &[u8]) -> u32
    ensures { result ≡ format_time log.now }
{
    match event_at(log, 4) {
        Some(format) => format.header.timestamp,
        None => 0,
    }
}

impl<A: Allocator> Source<A> {
    ghost use Rattle.blog_source.specs.code.SourceView.{damaged_of, end_of, fault_of, log_of, time_of};

    /// Reads a server's log, in the bytes themselves: checks each event, and takes its sum away. No memory is taken.
    ///
    /// Fails at the first of these that holds, and nothing of the log is read then: with `Log` if the bytes are no log of any
    /// algorithm (`TooLong` or `NotABinlog` at 0, `CutEvent`, `BadFormat` or `OldServer` at 4); with `UnknownAlgorithm` at 4 if
    /// the checksum algorithm is neither 0 nor 1; with `WrongSum` at 4 if the format description of a log with sums doesn't end
    /// in its own. Faults behind the format description end the reading, and `fault` says so.
    pub fn open(bytes: Vec<u8, A>, how: Reading) -> Result<Self, SumFault>
        ensures exact { result_err result ≡ source_refusal bytes.items }
        ensures log { IfOk result (λ source. log_of source ≡ handed_log how bytes.items) }
        ensures fault { IfOk result (λ source. fault_of source ≡ (found_of how bytes.items).fault) }
        ensures end { IfOk result (λ source. end_of source ≡ (found_of how bytes.items).end) }
        ensures damaged { IfOk result (λ source. damaged_of source ≡ (found_of how bytes.items).damaged) }
        ensures time { IfOk result (λ source. time_of source ≡ format_time (handed_log how bytes.items)) }
    {
        let mut bytes = bytes;
        let walked = read_in_place(&mut bytes, how)?;
        bytes.truncate(walked.len as usize);
        let time = format_time(bytes.as_slice());
        Ok(Source {
            bytes,
            end: walked.end,
            damaged: walked.damaged,
            fault: walked.fault,
            time,
        })
    }

    /// The log without checksums: the events that were read, each without its sum. Its log_pos is where the event of the
    /// server's log begins for which it stands.
    pub fn bytes(&self) -> &[u8]
        ensures { result.now ≡ log_of self.now }
    {
        self.bytes.as_slice()
    }

    /// Why the reading ended, unless it ended at the log's end or at the stop: `WrongSum` at the first event that doesn't end
    /// in its sum and isn't passed over; `CutEvent` where no event stands, or one that has no room for a sum; `Encrypted` at the event
    /// behind which the log is encrypted.
    pub fn fault(&self) -> Option<SumFault>
        ensures { result ≡ fault_of self.now }
    {
        self.fault
    }

    /// Where in the server's log the reading ended: the first byte that wasn't read, in bytes from that file's start.
    pub fn end(&self) -> u32
        ensures { result ≡ end_of self.now }
    {
        self.end
    }

    /// How many events with a wrong sum were passed over.
    pub fn damaged(&self) -> u32
        ensures { result ≡ damaged_of self.now }
    {
        self.damaged
    }

    /// Returns where in the server's log the event is that begins at `at` in the log without checksums, in bytes from that
    /// file's start. For the end of the log it returns where the reading ended. A position before the end of the format
    /// description is the same in both logs. Inside an event the answer means nothing.
    pub fn place(&self, at: u32) -> u32
        ensures { result ≡ place_of (log_of self.now) (end_of self.now) at }
    {
        if at < self.first() {
            return at;
        }
        match event_at(self.bytes(), at) {
            Some(event) => event.header.log_pos,
            None => self.end,
        }
    }

    /// Returns where the first event begins in the log without checksums that is in the server's log at `place` or after it; the
    /// end of that log if none is. A place before the end of the format description is the same in both logs.
    pub fn position(&self, place: u32) -> u32
        ensures { result ≡ position_of (log_of self.now) place }
    {
        let mut at = self.first();
        if place < at {
            return place;
        }
        'events: while let Some(event) = event_at(self.bytes(), at) {
            if place <= event.header.log_pos {
                return at;
            }
            at += event.header.size;
        }
        self.bytes.len() as u32
    }

    /// Where the event behind the format description begins.
    pub(crate) fn first(&self) -> u32
        ensures { result ≡ first_of (log_of self.now) }
    {
        match event_at(self.bytes(), 4) {
            Some(format) => 4 + format.header.size,
            None => 4,
        }
    }
}
