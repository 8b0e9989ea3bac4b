//! Going through the events of a log in place: each is checked, and moved to where it is handed out.

ghost use Rattle.std.specs.Prelude.{◌≡◌, ◌≤◌, ◌<◌, ◌+◌, ◌^◌, ◌++◌, ◌==◌, ◌&&◌, not, true, length, take, drop, Some, IfOk};
ghost use Rattle.std.specs.Result.{result_err};
ghost use Rattle.blog_event.specs.Event.{event_of, event_at, event_size};
ghost use Rattle.blog_event.specs.File.{is_below};
ghost use Rattle.blog_source.specs.Found.{begins_right, is_wrong_sum, may_be_ignored};
ghost use Rattle.blog_source.specs.code.Walk.{IsStep, damaged_header, found_left, left, next_check, next_sum, put_text};

use crate::becoming::START_ENCRYPTION_EVENT;
use crate::form::Form;
use crate::putting::put_kept;
use crate::reading::Reading;
use blog_event::{Event, Fault, Header, event_at};
use blog_sum::{SumFault, summed_event};

/// The type that an event with a wrong sum has in the log that is handed out, if it is passed over. No event of a server has it, so
/// nothing that has such an event can be undone. Its flags are the type that it had.
pub const DAMAGED_EVENT: u8 = 255;

/// The flag of an event that a reader may ignore (MySQL Internals manual, "Binary Log Event Header").
const IGNORABLE: u16 = 0x80;

/// What is said of the event at a position.
#[derive(Clone, Copy, Debug)]
pub(crate) enum Step {
    /// It is kept, and this is its header.
    Keep(Header),
    /// It is passed over, since its sum is wrong, and this is its header.
    PassOver(Header),
    /// The reading ends there.
    Refuse(SumFault),
}

/// What a walk found.
#[derive(Clone, Copy, Debug)]
pub(crate) struct Walked {
    /// How long the log is that is handed out.
    pub(crate) len: u32,
    /// Where the reading ended.
    pub(crate) end: u32,
    /// How many events were passed over.
    pub(crate) damaged: u32,
    /// Why the reading ended, if not at the log's end or at the stop.
    pub(crate) fault: Option<SumFault>,
}

/// Whether a position is below a stop, where there is one.
fn is_below(at: u32, stop: Option<u32>) -> bool
    ensures { result ≡ is_below at stop }
{
    match stop {
        Some(stop) => at < stop,
        None => true,
    }
}

/// Whether what is behind an event is encrypted.
fn begins_encryption(header: Header) -> bool
    ensures { result ≡ ((header.kind == 164) && not (may_be_ignored header.flags)) }
{
    let ignored = header.flags / IGNORABLE % 2 == 1;
    header.kind == START_ENCRYPTION_EVENT && !ignored
}

/// The event at a position, which in a log with sums ends in its own, and behind which nothing is encrypted.
fn checked_event(bytes: &[u8], at: u32, sums: bool) -> Result<Event<'_>, SumFault>
    ensures exact { result_err result ≡ next_check sums bytes.now at }
    ensures event { IfOk result (λ e. event_at (drop at bytes.now) ≡ Some (event_of e)) }
    ensures size { IfOk result (λ e. e.header.size ≡ event_size (event_of e)) }
    ensures within { IfOk result (λ e. at + e.header.size ≤ length bytes.now) }
{
    match summed_if(bytes, at, sums) {
        Ok(event) => {
            if begins_encryption(event.header) {
                Err(SumFault::Encrypted { pos: at })
            } else {
                Ok(event)
            }
        }
        Err(fault) => Err(fault),
    }
}

/// The event at a position, which in a log with sums ends in its own.
fn summed_if(bytes: &[u8], at: u32, sums: bool) -> Result<Event<'_>, SumFault>
    ensures exact { result_err result ≡ next_sum sums bytes.now at }
    ensures event { IfOk result (λ e. event_at (drop at bytes.now) ≡ Some (event_of e)) }
    ensures size { IfOk result (λ e. e.header.size ≡ event_size (event_of e)) }
    ensures within { IfOk result (λ e. at + e.header.size ≤ length bytes.now) }
{
    if sums {
        return summed_event(bytes, at);
    }
    match event_at(bytes, at) {
        Some(event) => Ok(event),
        None => Err(SumFault::Log(Fault::CutEvent { pos: at })),
    }
}

/// Whether the first event that is read from a position on is there and ends in its sum.
fn begins_right(bytes: &[u8], at: u32, stop: Option<u32>) -> bool
    ensures { result ≡ begins_right (left stop (length bytes.now) at (drop at bytes.now)) }
{
    is_below(at, stop) && summed_event(bytes, at).is_ok()
}

/// Whether the sum of an event is wrong.
fn is_wrong_sum(fault: &SumFault) -> bool
    ensures { result ≡ is_wrong_sum (Some fault.now) }
{
    match fault {
        SumFault::WrongSum { .. } => true,
        _ => false,
    }
}

/// What is said of the event at a position.
fn step_at(bytes: &[u8], at: u32, sums: bool, how: Reading) -> Step
    requires short { length bytes.now < 2 ^ 32 }
    requires before { at < length bytes.now }
    requires below { is_below at how.stop ≡ true }
    ensures { IsStep how sums bytes.now at result }
{
    match checked_event(bytes, at, sums) {
        Ok(event) => Step::Keep(event.header),
        Err(fault) => step_at_fault(bytes, at, sums, how, fault),
    }
}

/// The same of an event that fails its check, or where none stands.
fn step_at_fault(bytes: &[u8], at: u32, sums: bool, how: Reading, fault: SumFault) -> Step
    requires short { length bytes.now < 2 ^ 32 }
    requires before { at < length bytes.now }
    requires below { is_below at how.stop ≡ true }
    requires fails { next_check sums bytes.now at ≡ Some fault }
    ensures { IsStep how sums bytes.now at result }
{
    if how.skip_damaged && is_wrong_sum(&fault) {
        if let Some(event) = event_at(bytes, at) {
            if begins_right(bytes, at + event.header.size, how.stop) {
                return Step::PassOver(event.header);
            }
        }
    }
    Step::Refuse(fault)
}

/// The header of a damaged event: of a type that no event has, with the type that it had in place of the flags.
fn damaged_header(header: Header) -> Header
    ensures { result ≡ damaged_header header }
{
    Header {
        kind: DAMAGED_EVENT,
        flags: u16::from(header.kind),
        ..header
    }
}

/// Goes through the events from `first` on, and puts what each becomes behind what stands in front of `first`.
pub(crate) fn hand_out(bytes: &mut [u8], first: u32, sums: bool, form: Form, how: Reading) -> Walked
    requires short { length bytes.old < 2 ^ 32 }
    requires within { first ≤ length bytes.old }
    ensures text { take result.len bytes.new ≡ take first bytes.old
        ++ put_text form sums first (found_left how sums (length bytes.old) first (drop first bytes.old)).kept }
    ensures fault { result.fault ≡ (found_left how sums (length bytes.old) first (drop first bytes.old)).fault }
    ensures end { result.end ≡ (found_left how sums (length bytes.old) first (drop first bytes.old)).end }
    ensures damaged { result.damaged ≡ (found_left how sums (length bytes.old) first (drop first bytes.old)).damaged }
    ensures within { result.len ≤ length bytes.new }
    ensures len { length bytes.new ≡ length bytes.old }
{
    let mut at = first;
    let mut to = first;
    let mut damaged = 0;
    'events: while is_below(at, how.stop) && (at as usize) < bytes.len() {
        match step_at(bytes, at, sums, how) {
            Step::Keep(header) => {
                to = put_kept(bytes, at, to, header, sums, form);
                at += header.size;
            }
            Step::PassOver(header) => {
                to = put_kept(bytes, at, to, damaged_header(header), sums, form);
                at += header.size;
                damaged += 1;
            }
            Step::Refuse(fault) => {
                return Walked {
                    len: to,
                    end: at,
                    damaged,
                    fault: Some(fault),
                };
            }
        }
    }
    Walked {
        len: to,
        end: at,
        damaged,
        fault: None,
    }
}
