//! Moving events to the front of the bytes in which they stand.

ghost use Rattle.std.specs.Prelude.{◌≡◌, ◌≤◌, ◌<◌, ◌+◌, ◌-◌, ◌^◌, ◌++◌, true, length, take, drop};
ghost use Rattle.std.specs.List.{flat_map};
ghost use Rattle.blog_event.specs.Event.{event_text};
ghost use Rattle.blog_event.specs.File.{end_of};
ghost use Rattle.blog_event.specs.Writing.{header_text};
ghost use Rattle.blog_gtid.specs.Tagged.{gtid_body_of};
ghost use Rattle.blog_source.specs.Maria.{begin_body};
ghost use Rattle.blog_source.specs.code.Walk.{cut_as, moved, moved_size, pos_as};

use crate::becoming::{BEGIN_SIZE, Becoming, begin_body, what_becomes};
use crate::form::Form;
use arrayvec::ArrayVec;
use blog_event::constants::{GTID_LOG_EVENT, QUERY_EVENT};
use blog_event::{HEADER_LEN, Header, header_bytes};
use blog_gtid::gtid_body;
use blog_sum::SUM_LEN;

/// The flag of an event that no schema is used with (MySQL Internals manual, "Binary Log Event Header").
const SUPPRESS_USE: u16 = 8;

/// Moves a part of so many bytes to the front, from `at` to `to`.
fn move_part(bytes: &mut [u8], at: usize, to: usize, len: usize)
    requires order { to ≤ at }
    requires within { at + len ≤ length bytes.old }
    ensures part { bytes.new ≡ take to bytes.old ++ (take len (drop at bytes.old) ++ drop (to + len) bytes.old) }
    ensures len { length bytes.new ≡ length bytes.old }
{
    if to < at {
        bytes.copy_within(at..at + len, to);
    }
}

/// Moves an event to the front, from `at` to `to`: this header, and the first bytes of its body.
fn move_event(bytes: &mut [u8], at: usize, to: usize, header: Header, body_len: usize)
    requires order { to ≤ at }
    requires within { at + (19 + body_len) ≤ length bytes.old }
    ensures front { take (to + (19 + body_len)) bytes.new ≡ take to bytes.old ++ (header_text header ++ take body_len (drop (at + 19) bytes.old)) }
    ensures behind { drop (to + (19 + body_len)) bytes.new ≡ drop (to + (19 + body_len)) bytes.old }
    ensures len { length bytes.new ≡ length bytes.old }
{
    move_part(bytes, at + HEADER_LEN, to + HEADER_LEN, body_len);
    bytes[to..to + HEADER_LEN].copy_from_slice(&header_bytes(header));
}

/// Puts an event at `to`: this header, and this body.
fn put_event(bytes: &mut [u8], to: usize, header: Header, body: &[u8])
    requires within { to + (19 + length body.now) ≤ length bytes.old }
    ensures front { take (to + (19 + length body.now)) bytes.new ≡ take to bytes.old ++ (header_text header ++ body.now) }
    ensures behind { drop (to + (19 + length body.now)) bytes.new ≡ drop (to + (19 + length body.now)) bytes.old }
    ensures len { length bytes.new ≡ length bytes.old }
{
    let place = to + HEADER_LEN;
    bytes[to..place].copy_from_slice(&header_bytes(header));
    bytes[place..place + body.len()].copy_from_slice(body);
}

/// The body of the Gtid event that a tagged one becomes, whose body begins at a position and has so many bytes.
fn gtid_body_at(bytes: &[u8], at: usize, len: usize) -> ArrayVec<u8, 58>
    requires within { at + len ≤ length bytes.now }
    ensures body { result.items ≡ gtid_body_of (take len (drop at bytes.now)) }
    ensures least { 25 ≤ length result.items }
    ensures fits { 25 ≤ len → length result.items ≤ len }
{
    gtid_body(&bytes[at..at + len])
}

/// Puts the Gtid event that a tagged one becomes at `to`. The tagged one is at `at`, this is its header, and its body has so many
/// bytes without its sum. Returns where it ends.
fn put_gtid(bytes: &mut [u8], at: u32, to: u32, header: Header, body_len: u32, form: Form) -> u32
    requires short { length bytes.old < 2 ^ 32 }
    requires order { to ≤ at }
    requires enough { 25 ≤ body_len }
    requires within { at + (19 + body_len) ≤ length bytes.old }
    ensures end { result ≡ to + (19 + length (cut_as form (gtid_body_of (take body_len (drop (at + 19) bytes.old))))) }
    ensures front { let body = cut_as form (gtid_body_of (take body_len (drop (at + 19) bytes.old)))
        in take result bytes.new ≡ take to bytes.old
        ++ (header_text (record header { kind = 33; size = 19 + length body; log_pos = pos_as form at result }) ++ body) }
    ensures behind { drop result bytes.new ≡ drop result bytes.old }
    ensures len { length bytes.new ≡ length bytes.old }
    ensures before { result ≤ at + (19 + body_len) }
{
    let gtid = gtid_body_at(bytes, at as usize + HEADER_LEN, body_len as usize);
    let body = form.body(gtid.as_slice());
    let size = (HEADER_LEN + body.len()) as u32;
    let end = to + size;
    let moved = Header {
        kind: GTID_LOG_EVENT,
        size,
        log_pos: form.log_pos(at, end),
        ..header
    };
    put_event(bytes, to as usize, moved, body);
    end
}

/// Puts any other event at `to`, without its sum. It is at `at`, this is its header, and its body has so many bytes then. Returns
/// where it ends.
fn put_same(bytes: &mut [u8], at: u32, to: u32, header: Header, body_len: u32, form: Form) -> u32
    requires short { length bytes.old < 2 ^ 32 }
    requires order { to ≤ at }
    requires within { at + (19 + body_len) ≤ length bytes.old }
    ensures end { result ≡ to + (19 + body_len) }
    ensures front { take result bytes.new ≡ take to bytes.old
        ++ (header_text (record header { size = 19 + body_len; log_pos = pos_as form at result }) ++ take body_len (drop (at + 19) bytes.old)) }
    ensures behind { drop result bytes.new ≡ drop result bytes.old }
    ensures len { length bytes.new ≡ length bytes.old }
{
    let size = HEADER_LEN as u32 + body_len;
    let end = to + size;
    let moved = Header {
        size,
        log_pos: form.log_pos(at, end),
        ..header
    };
    move_event(bytes, at as usize, to as usize, moved, body_len as usize);
    end
}

/// How many bytes the body of an event has without its sum, where it has one.
fn bare_len(size: u32, sums: bool) -> u32
    requires least { 19 ≤ size }
    requires room { sums ≡ true → 23 ≤ size }
    ensures exact { result ≡ moved_size sums size - 19 }
    ensures size { 19 + result ≡ moved_size sums size }
    ensures within { 19 + result ≤ size }
{
    let body_len = size - HEADER_LEN as u32;
    if sums {
        body_len - SUM_LEN as u32
    } else {
        body_len
    }
}

/// Puts the event `BEGIN` at `to`, for the Gtid event of MariaDB at `at`, whose header this is. Returns where it ends.
fn put_begin(bytes: &mut [u8], at: u32, to: u32, header: Header, form: Form) -> u32
    requires short { length bytes.old < 2 ^ 32 }
    requires order { to ≤ at }
    requires within { at + 38 ≤ length bytes.old }
    ensures end { result ≡ to + 38 }
    ensures front { take result bytes.new ≡ take to bytes.old
        ++ (header_text (record header { kind = 2; size = 38; log_pos = pos_as form at result; flags = 8 }) ++ begin_body) }
    ensures behind { drop result bytes.new ≡ drop result bytes.old }
    ensures len { length bytes.new ≡ length bytes.old }
{
    let end = to + BEGIN_SIZE;
    let moved = Header {
        kind: QUERY_EVENT,
        size: BEGIN_SIZE,
        log_pos: form.log_pos(at, end),
        flags: SUPPRESS_USE,
        ..header
    };
    put_event(bytes, to as usize, moved, &begin_body());
    end
}

/// Puts what the event at `at`, whose header this is, becomes at `to`, without its sum. Returns where that ends.
pub(crate) fn put_kept(
    bytes: &mut [u8],
    at: u32,
    to: u32,
    header: Header,
    sums: bool,
    form: Form,
) -> u32
    requires short { length bytes.old < 2 ^ 32 }
    requires order { to ≤ at }
    requires least { 19 ≤ header.size }
    requires room { sums ≡ true → 23 ≤ header.size }
    requires within { at + header.size ≤ length bytes.old }
    ensures front { take result bytes.new ≡ take to bytes.old ++ flat_map event_text (moved form sums to at header bytes.old) }
    ensures behind { drop (at + header.size) bytes.new ≡ drop (at + header.size) bytes.old }
    ensures len { length bytes.new ≡ length bytes.old }
    ensures end { result ≡ end_of to (moved form sums to at header bytes.old) }
    ensures before { result ≤ at + header.size }
{
    let body_len = bare_len(header.size, sums);
    match what_becomes(bytes, at, header.kind, body_len) {
        Becoming::Gtid => put_gtid(bytes, at, to, header, body_len, form),
        Becoming::Begin => put_begin(bytes, at, to, header, form),
        Becoming::Nothing => to,
        Becoming::Itself => put_same(bytes, at, to, header, body_len, form),
    }
}
