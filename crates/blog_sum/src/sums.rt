//! The sums in which events end (MySQL Internals manual, "Event checksum").

ghost use Rattle.std.specs.Prelude.{◌≡◌, ◌≤◌, ◌<◌, ◌+◌, ◌^◌, length, drop, Some, IfOk};
ghost use Rattle.std.specs.Result.{result_err};
ghost use Rattle.blog_event.specs.Event.{event_of, event_at, event_size};
ghost use Rattle.blog_sum.specs.Crc.{crc32_of};
ghost use Rattle.blog_sum.specs.Sums.{ends_in_its_sum, not_in_use, sum_check};
ghost use Rattle.blog_sum.specs.code.Left.{flag_cleared, next_fault};

use crate::crc::{Crc, crc32};
use crate::fault::SumFault;
use blog_event::{Event, Fault, event_at};
use byteorder::{ByteOrder, LittleEndian};

/// The size of a sum in bytes.
pub const SUM_LEN: usize = 4;

/// The least size of an event with a sum: a header and four bytes.
const LEAST_SIZE: u32 = 23;

/// Whether the last four bytes are the CRC-32 of those before them, the lowest first.
fn ends_in_its_sum(text: &[u8]) -> bool
    requires { 4 ≤ length text.now }
    ensures { result ≡ ends_in_its_sum text.now }
{
    let (front, sum) = text.split_at(text.len() - SUM_LEN);
    LittleEndian::read_u32(sum) == crc32(front)
}

/// The CRC-32 of the front of an event's bytes, with the header flag for a log in use, the lowest of byte 17, clear.
pub fn crc_not_in_use(front: &[u8]) -> Crc
    requires { 18 ≤ length front.now }
    ensures { result ≡ crc32_of (flag_cleared front.now) }
{
    let mut crc = Crc::new();
    crc.update(&front[..17]);
    crc.update(&[front[17] - front[17] % 2]);
    crc.update(&front[18..]);
    crc
}

/// Whether the format description of a log with sums ends in its own, which is taken with the flag for a log in use clear.
/// Fails with `WrongSum` at 4 if it doesn't.
pub fn check_format_sum(bytes: &[u8], format: &Event<'_>) -> Result<(), SumFault>
    requires event { event_at (drop 4 bytes.now) ≡ Some (event_of format.now) }
    requires size { format.now.header.size ≡ event_size (event_of format.now) }
    requires long { 23 ≤ format.now.header.size }
    requires within { 4 + format.now.header.size ≤ length bytes.now }
    ensures exact { result_err result ≡ sum_check (record { pos = 4; event = not_in_use (event_of format.now) }) }
{
    let end = 4 + format.header.size as usize;
    let (front, sum) = bytes[4..end].split_at(format.header.size as usize - SUM_LEN);
    if LittleEndian::read_u32(sum) != crc_not_in_use(front).value() {
        return Err(SumFault::WrongSum { pos: 4 });
    }
    Ok(())
}

/// The event at the byte position `at` of a log with sums. Fails with `CutEvent` at `at` if none stands there or it has no
/// room for a sum, and with `WrongSum` at `at` if it doesn't end in its sum.
pub fn summed_event(bytes: &[u8], at: u32) -> Result<Event<'_>, SumFault>
    ensures exact { result_err result ≡ next_fault bytes.now at }
    ensures event { IfOk result (λ e. event_at (drop at bytes.now) ≡ Some (event_of e)) }
    ensures size { IfOk result (λ e. e.header.size ≡ event_size (event_of e)) }
    ensures long { IfOk result (λ e. 23 ≤ e.header.size) }
    ensures within { IfOk result (λ e. at + e.header.size ≤ length bytes.now) }
{
    let Some(event) = event_at(bytes, at) else {
        return Err(SumFault::Log(Fault::CutEvent { pos: at }));
    };
    if event.header.size < LEAST_SIZE {
        return Err(SumFault::Log(Fault::CutEvent { pos: at }));
    }
    let end = at as usize + event.header.size as usize;
    if !ends_in_its_sum(&bytes[at as usize..end]) {
        return Err(SumFault::WrongSum { pos: at });
    }
    Ok(event)
}
