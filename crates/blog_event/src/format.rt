//! The checks of the format description event, the first of each file (MySQL Internals manual,
//! "FORMAT_DESCRIPTION_EVENT"). Its body: binlog version, 2 bytes; server version, 50; creation time, 4; header length, 1;
//! the post-header length of each event type from 1 on, 1 each; and of a server from 5.6.1 on checksum algorithm, 1, and
//! checksum, 4.

ghost use Rattle.std.specs.Prelude.{◌≡◌, ◌+◌, ◌-◌, ◌<◌, ◌≤◌, ◌==◌, ◌&&◌, nat_le, if◌then◌else◌, Option, length, option_map, IfOk};
ghost use Rattle.std.specs.Result.{result_err};
ghost use Rattle.std.specs.Char.{is_ascii_digit};
ghost use Rattle.blog_event.specs.Event.{event_of};
ghost use Rattle.blog_event.specs.Fault.{fault_at, first_failing};
ghost use Rattle.blog_event.specs.Format.{front_while, decimal, number_front, after_point, version_of, version_text, binlog_version, header_length, post_header_length, has_lengths, old_lengths, checked_lengths, is_old, server_checks, algorithm, description_fault, format_fault, version_value};

use crate::constants::{
    DELETE_ROWS_EVENT, DELETE_ROWS_EVENT_V1, FORMAT_DESCRIPTION_EVENT, QUERY_EVENT,
    TABLE_MAP_EVENT, UPDATE_ROWS_EVENT, UPDATE_ROWS_EVENT_V1, WRITE_ROWS_EVENT,
    WRITE_ROWS_EVENT_V1,
};
use crate::event::Event;
use crate::fault::Fault;
use byteorder::{ByteOrder, LittleEndian};

/// A server version; one is below another if it is so number by number.
#[derive(Clone, Copy, Debug, PartialEq, Eq, PartialOrd, Ord)]
struct Version {
    major: u16,
    minor: u16,
    patch: u16,
}

/// The version that brought the checksum algorithm into the format description.
const FIRST_WITH_ALGORITHM: Version = Version {
    major: 5,
    minor: 6,
    patch: 1,
};

/// The digits with which bytes begin: the longest run.
fn digits_front(bytes: &[u8]) -> &[u8]
    ensures digits { result.now ≡ front_while is_ascii_digit bytes.now }
    ensures within { length result.now ≤ length bytes.now }
{
    match bytes.iter().position(|byte| !byte.is_ascii_digit()) {
        Some(end) => &bytes[..end],
        None => bytes,
    }
}

/// The value of a digit.
fn digit(byte: u8) -> u16
    ensures { result ≡ byte - 48 }
{
    u16::from(byte.saturating_sub(b'0'))
}

/// The number that one to three digits write.
fn decimal(digits: &[u8]) -> Option<u16>
    ensures { result ≡ (if nat_le 1 (length digits.now) && nat_le (length digits.now) 3 then Some (decimal digits.now) else None) }
{
    match *digits {
        [ones] => Some(digit(ones)),
        [tens, ones] => Some(10 * digit(tens) + digit(ones)),
        [hundreds, tens, ones] => { Some(10 * (10 * digit(hundreds) + digit(tens)) + digit(ones)) }
        _ => None,
    }
}

/// The number at the front of bytes, of one to three digits and no more, and what follows it.
fn number_front(bytes: &[u8]) -> Option<(u16, &[u8])>
    ensures { option_map (λ number. (number.0, number.1.now)) result ≡ number_front bytes.now }
{
    let digits = digits_front(bytes);
    let number = decimal(digits)?;
    Some((number, &bytes[digits.len()..]))
}

/// What follows a point at the front of bytes.
fn after_point(bytes: &[u8]) -> Option<&[u8]>
    ensures { option_map (λ rest. rest.now) result ≡ after_point bytes.now }
{
    match bytes {
        [b'.', rest @ ..] => Some(rest),
        _ => None,
    }
}

/// The server version at the front of a text: three numbers joined by points.
#[tactic(auto, unfolding(crate::specs::Format::version_of))]
fn version_of(text: &[u8]) -> Option<Version>
    ensures { option_map version_value result ≡ version_of text.now }
{
    let (major, rest) = number_front(text)?;
    let (minor, rest) = number_front(after_point(rest)?)?;
    let (patch, _) = number_front(after_point(rest)?)?;
    Some(Version {
        major,
        minor,
        patch,
    })
}

/// Whether the format descriptions of a server have no checksum algorithm.
fn is_old(version: Version) -> bool
    ensures { result ≡ is_old (version_value version) }
{
    version < FIRST_WITH_ALGORITHM
}

/// The server version's text: its field of 50 bytes up to the first zero byte.
fn version_text(body: &[u8]) -> &[u8]
    requires { 57 ≤ length body.now }
    ensures { result.now ≡ version_text body.now }
{
    let field = &body[2..52];
    match field.iter().position(|byte| *byte == 0) {
        Some(end) => &field[..end],
        None => field,
    }
}

/// The post-header length of an event type.
fn post_header_length(body: &[u8], kind: u8) -> u8
    requires { 56 + kind < length body.now }
    ensures { result ≡ post_header_length body.now kind }
{
    body[56 + usize::from(kind)]
}

/// Whether the types that are read of a server below 5.6.1 have the post-header lengths of this profile.
fn has_old_lengths(body: &[u8]) -> bool
    ensures { result ≡ (nat_le 82 (length body.now) && has_lengths old_lengths body.now) }
{
    body.len() >= 82
        && post_header_length(body, QUERY_EVENT) == 13
        && post_header_length(body, TABLE_MAP_EVENT) == 8
        && post_header_length(body, WRITE_ROWS_EVENT_V1) == 8
        && post_header_length(body, UPDATE_ROWS_EVENT_V1) == 8
        && post_header_length(body, DELETE_ROWS_EVENT_V1) == 8
}

/// Whether the types that are read of a server from 5.6.1 on have the post-header lengths of this profile.
fn has_checked_lengths(body: &[u8]) -> bool
    ensures { result ≡ (nat_le 94 (length body.now) && has_lengths checked_lengths body.now) }
{
    body.len() >= 94
        && post_header_length(body, QUERY_EVENT) == 13
        && post_header_length(body, TABLE_MAP_EVENT) == 8
        && post_header_length(body, WRITE_ROWS_EVENT) == 10
        && post_header_length(body, UPDATE_ROWS_EVENT) == 10
        && post_header_length(body, DELETE_ROWS_EVENT) == 10
}

/// Whether an event is a format description of binlog version 4, with headers of 19 bytes.
fn is_version_four(event: &Event<'_>) -> bool
    ensures { result ≡ (event.now.header.kind == 15 && (nat_le 57 (length event.now.body.now) && (binlog_version event.now.body.now == 4 && header_length event.now.body.now == 19))) }
{
    let body = event.body;
    event.header.kind == FORMAT_DESCRIPTION_EVENT
        && body.len() >= 57
        && LittleEndian::read_u16(body) == 4
        && body[56] == 19
}

/// The checksum algorithm of a file's events, or the first check that fails of those that go by the server's version.
fn check_server(body: &[u8]) -> Result<u8, Fault>
    requires { 57 ≤ length body.now }
    ensures exact { result_err result ≡ fault_at 4 (first_failing (server_checks (version_of (version_text body.now)) body.now)) }
    ensures algorithm { IfOk result (λ found. found ≡ algorithm body.now) }
{
    let Some(version) = version_of(version_text(body)) else {
        return Err(Fault::OldServer { pos: 4 });
    };
    if is_old(version) {
        return if has_old_lengths(body) {
            Ok(0)
        } else {
            Err(Fault::BadFormat { pos: 4 })
        };
    }
    if !has_checked_lengths(body) {
        return Err(Fault::BadFormat { pos: 4 });
    }
    Ok(body[body.len() - 5])
}

/// The checksum algorithm of a file's events by its first event: 0 none, 1 CRC-32; 0 for a server below 5.6.1. Or the
/// first check of that event that fails, a fault at 4: it is a format description of this profile, of a server whose
/// version can be read.
#[tactic(auto, unfolding(crate::specs::Format::description_fault))]
pub(crate) fn check_description(event: &Event<'_>) -> Result<u8, Fault>
    ensures exact { result_err result ≡ fault_at 4 (description_fault (event_of event.now)) }
    ensures algorithm { IfOk result (λ found. found ≡ algorithm event.now.body.now) }
{
    if !is_version_four(event) {
        return Err(Fault::BadFormat { pos: 4 });
    }
    check_server(event.body)
}

/// The first check of a file's first event that fails, a fault at 4: it is a format description of this profile, of a
/// server whose version can be read, without checksums.
#[tactic(auto, unfolding(crate::specs::Format::format_fault))]
pub(crate) fn check_format(event: &Event<'_>) -> Result<(), Fault>
    ensures exact { result_err result ≡ fault_at 4 (format_fault (event_of event.now)) }
{
    if check_description(event)? != 0 {
        return Err(Fault::Checksums { pos: 4 });
    }
    Ok(())
}
