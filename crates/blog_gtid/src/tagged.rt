//! Tagged GTID events (MySQL source code documentation, "GTID_TAGGED_LOG_EVENT"). The body is one message of
//! "mysql::serialization": the version of the format; the message's size in bytes; the id of the last field that a reader
//! has to know; the fields, each an id and a value, in the order of their ids.

ghost use Rattle.std.specs.Prelude.{◌≡◌, ◌≤◌, ◌+◌, ◌++◌, length, option_map, IfSome};
ghost use Rattle.arrayvec.specs.ArrayVec.{array_vec_len};
ghost use Rattle.blog_gtid.specs.Tagged.{tagged_value, after_header, after_id, text_front, tag_of, tagged_of, fixed_text, tag_text, gtid_body_of};

use crate::integers::{byte_front, integer_front, server_front, signed_front};
use arrayvec::ArrayVec;
use byteorder::{ByteOrder, LittleEndian};

/// The version of the message format.
const VERSION: u64 = 1;

/// The greatest length of a tag in bytes.
const LONGEST_TAG: u64 = 32;

/// The ids of the fields that are read.
const FLAGS: u64 = 0;

const SERVER: u64 = 1;

const NUMBER: u64 = 2;

const TAG: u64 = 3;

/// The greatest length of a body with a tag in bytes: the 25 before the tag, the byte before it, and the tag.
const LONGEST_BODY: usize = 58;

/// The byte before a tag in the body of a Gtid event.
const TAG_FOLLOWS: u8 = 42;

/// The global transaction identifier of a tagged GTID event.
#[derive(Clone, Copy, Debug, PartialEq, Eq)]
pub struct TaggedId<'a> {
    /// The event's flags.
    pub flags: u8,
    /// The UUID of the server.
    pub server: [u8; 16],
    /// The transaction's number.
    pub number: u64,
    /// The tag, from 0 to 32 bytes.
    pub tag: &'a [u8],
}

/// Returns the bytes after the three numbers in front of the fields.
#[tactic(auto, unfolding(crate::specs::Tagged::after_header))]
fn after_header(body: &[u8]) -> Option<&[u8]>
    ensures { option_map (λ rest. rest.now) result ≡ after_header body.now }
{
    let (version, rest) = integer_front(body)?;
    let (size, rest) = integer_front(rest)?;
    let (_, rest) = integer_front(rest)?;
    (version == VERSION && size == body.len() as u64).then_some(rest)
}

/// Returns the bytes after a field's id.
#[tactic(auto, unfolding(crate::specs::Tagged::after_id))]
fn after_id(id: u64, bytes: &[u8]) -> Option<&[u8]>
    ensures { option_map (λ rest. rest.now) result ≡ after_id id bytes.now }
{
    let (found, rest) = integer_front(bytes)?;
    (found == id).then_some(rest)
}

/// Reads a text of at most 32 bytes.
#[tactic(auto, unfolding(crate::specs::Tagged::text_front))]
fn text_front(bytes: &[u8]) -> Option<&[u8]>
    ensures text { option_map (λ text. text.now) result ≡ text_front bytes.now }
    ensures few { IfSome result (λ text. length text.now ≤ 32) }
{
    let (size, rest) = integer_front(bytes)?;
    if size > LONGEST_TAG {
        return None;
    }
    rest.get(..size as usize)
}

/// Returns the tag, which is empty where the event has none.
#[tactic(auto, unfolding(crate::specs::Tagged::tag_of))]
fn tag_of(bytes: &[u8]) -> Option<&[u8]>
    ensures tag { option_map (λ tag. tag.now) result ≡ tag_of bytes.now }
    ensures few { IfSome result (λ tag. length tag.now ≤ 32) }
{
    if bytes.is_empty() {
        return Some(bytes);
    }
    let (id, rest) = integer_front(bytes)?;
    if id == TAG {
        return text_front(rest);
    }
    (id > TAG).then_some(&[])
}

/// Returns the identifier in the body of a tagged GTID event, without its checksum. `None` comes exactly where the body
/// isn't such a message: it is too short or its size is another, its version isn't 1, one of the fields 0 to 2 is missing,
/// fields are out of order, the flags or a byte of the UUID are above 255, the number is negative, or the tag is longer
/// than the rest of the body or than 32 bytes.
#[tactic(auto, unfolding(crate::specs::Tagged::tagged_of))]
pub fn tagged_id(body: &[u8]) -> Option<TaggedId<'_>>
    ensures id { option_map tagged_value result ≡ tagged_of body.now }
    ensures few { IfSome result (λ id. length id.tag.now ≤ 32) }
{
    let rest = after_header(body)?;
    let (flags, rest) = byte_front(after_id(FLAGS, rest)?)?;
    let (server, rest) = server_front(after_id(SERVER, rest)?)?;
    let (number, rest) = signed_front(after_id(NUMBER, rest)?)?;
    let tag = tag_of(rest)?;
    Some(TaggedId {
        flags,
        server,
        number,
        tag,
    })
}

/// Returns the flags, the UUID and the number one after the other.
fn fixed_part(id: &TaggedId<'_>) -> [u8; 25]
    ensures { result ≡ fixed_text (tagged_value id.now) }
{
    let mut fixed = [0; 25];
    fixed[0] = id.flags;
    fixed[1..17].copy_from_slice(&id.server);
    LittleEndian::write_u64(&mut fixed[17..], id.number);
    fixed
}

/// Appends a tag, if there is one, after the byte that says so.
fn put_tag(gtid: &mut ArrayVec<u8, LONGEST_BODY>, tag: &[u8])
    requires room { array_vec_len gtid.old + (1 + length tag.now) ≤ 58 }
    ensures { gtid.new.items ≡ gtid.old.items ++ tag_text tag.now }
{
    if !tag.is_empty() {
        gtid.push(TAG_FOLLOWS);
        gtid.try_extend_from_slice(tag).unwrap();
    }
}

/// Returns the body of the Gtid event that a tagged GTID event becomes: flags, 1 byte; the UUID, 16; the number, 8 (MySQL
/// source code documentation, "GTID_LOG_EVENT"); and if there is a tag, the byte 42 and the tag. It is 25 zero bytes where
/// `tagged_id` returns `None`.
#[tactic(auto, unfolding(crate::specs::Tagged::gtid_body_of))]
pub fn gtid_body(body: &[u8]) -> ArrayVec<u8, 58>
    ensures { result.items ≡ gtid_body_of body.now }
{
    let mut gtid = ArrayVec::new();
    match tagged_id(body) {
        Some(id) => {
            gtid.try_extend_from_slice(&fixed_part(&id)).unwrap();
            put_tag(&mut gtid, id.tag);
        }
        None => gtid.try_extend_from_slice(&[0; 25]).unwrap(),
    }
    gtid
}
