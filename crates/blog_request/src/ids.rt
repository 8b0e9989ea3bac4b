//! Global transaction ids that are asked for.

ghost use Rattle.std.specs.Prelude.{◌≡◌, length, option_map};
ghost use Rattle.blog_units.specs.code.UnitsView.{id_told};
ghost use Rattle.blog_request.specs.Ids.{are_digits, are_of_tag, begins_tag, cut_at, has_id, is_hyphened, is_tag, read_ids, read_number, read_numbers, read_server, read_tag, without_hyphens};
ghost use Rattle.blog_request.specs.code.IdsView.{ids_value};

use arrayvec::ArrayVec;
use blog_units::GlobalId;
use hex::FromHex;

/// The global transaction ids of a server, with a tag or without, whose numbers are from `first` to `last`.
#[derive(Clone, Copy, Debug, PartialEq, Eq)]
pub struct GlobalIds<'a> {
    /// The server's id.
    pub server: [u8; 16],
    /// The tag, compared byte by byte; empty if there is none.
    pub tag: &'a [u8],
    /// The first number.
    pub first: u64,
    /// The last number, which is among them.
    pub last: u64,
}

impl<'a> GlobalIds<'a> {
    /// Reads `SERVER:NUMBER`, `SERVER:FIRST-LAST`, `SERVER:TAG:NUMBER` or `SERVER:TAG:FIRST-LAST`. Returns None for any other text.
    ///
    /// `SERVER` is 8, 4, 4, 4 and 12 hexadecimal digits in either case, joined by hyphens. `TAG` is a letter from `a` to `z` or `_`,
    /// and then such letters, digits and `_`, at most 32 in all. The numbers are decimal digits, 1 to 2^64 - 1, and the last isn't
    /// below the first. (MySQL 8.4 Reference Manual, "GTID Format and Storage".)
    #[tactic(auto, unfolding(crate::specs::Ids::read_ids))]
    pub fn read(text: &'a [u8]) -> Option<Self>
        ensures { option_map ids_value result ≡ read_ids text.now }
    {
        let (server, rest) = cut_at(text, b':')?;
        let server = read_server(server)?;
        let (tag, numbers) = read_tag(rest)?;
        let (first, last) = read_numbers(numbers)?;
        Some(GlobalIds {
            server,
            tag,
            first,
            last,
        })
    }

    /// Returns whether an id is among these. One with the number 0 is among none: servers count from 1.
    pub fn has(&self, id: &GlobalId<'_>) -> bool
        ensures { result ≡ has_id (ids_value self.now) (id_told id.now) }
    {
        let has_server = id.server == self.server.as_slice();
        let has_tag = id.tag == self.tag;
        has_server && has_tag && id.number > 0 && self.first <= id.number && id.number <= self.last
    }
}

/// Cuts a text at the first byte of this value: what is before it, and what is after it.
fn cut_at(text: &[u8], byte: u8) -> Option<(&[u8], &[u8])>
    ensures { option_map (λ parts. (parts.0.now, parts.1.now)) result ≡ cut_at byte text.now }
{
    match text.iter().position(|b| *b == byte) {
        Some(at) => Some((&text[..at], &text[at + 1..])),
        None => None,
    }
}

/// Whether a text has 36 bytes, and hyphens where the id of a server has them.
fn is_hyphened(text: &[u8]) -> bool
    ensures { result ≡ is_hyphened text.now }
{
    text.len() == 36 && text[8] == b'-' && text[13] == b'-' && text[18] == b'-' && text[23] == b'-'
}

/// Returns the digits of the id of a server, without its hyphens.
fn without_hyphens(text: &[u8]) -> ArrayVec<u8, 32>
    requires { length text.now ≡ 36 }
    ensures { result.items ≡ without_hyphens text.now }
{
    let mut digits = ArrayVec::new();
    digits.try_extend_from_slice(&text[..8]).unwrap();
    digits.try_extend_from_slice(&text[9..13]).unwrap();
    digits.try_extend_from_slice(&text[14..18]).unwrap();
    digits.try_extend_from_slice(&text[19..23]).unwrap();
    digits.try_extend_from_slice(&text[24..]).unwrap();
    digits
}

/// Reads the id of a server.
#[tactic(auto, unfolding(crate::specs::Ids::read_server))]
fn read_server(text: &[u8]) -> Option<[u8; 16]>
    ensures { result ≡ read_server text.now }
{
    if !is_hyphened(text) {
        return None;
    }
    <[u8; 16]>::from_hex(without_hyphens(text).as_slice()).ok()
}

/// Whether a tag can begin with this byte.
fn begins_tag(byte: u8) -> bool
    ensures { result ≡ begins_tag byte }
{
    byte.is_ascii_lowercase() || byte == b'_'
}

/// Whether a tag can have these bytes after its first.
fn are_of_tag(bytes: &[u8]) -> bool
    ensures { result ≡ are_of_tag bytes.now }
{
    bytes
        .iter()
        .all(|byte| begins_tag(*byte) || byte.is_ascii_digit())
}

/// Whether a text can be a tag.
fn is_tag(text: &[u8]) -> bool
    ensures { result ≡ is_tag text.now }
{
    !text.is_empty() && text.len() <= 32 && begins_tag(text[0]) && are_of_tag(text)
}

/// Reads a tag and a colon at the front, if there are any. Returns the tag, and what is after it.
fn read_tag(text: &[u8]) -> Option<(&[u8], &[u8])>
    ensures { option_map (λ parts. (parts.0.now, parts.1.now)) result ≡ read_tag text.now }
{
    match cut_at(text, b':') {
        Some((tag, numbers)) if is_tag(tag) => Some((tag, numbers)),
        Some(_) => None,
        None => Some((&[], text)),
    }
}

/// Whether a text is decimal digits, and nothing else.
fn are_digits(text: &[u8]) -> bool
    ensures { result ≡ are_digits text.now }
{
    text.iter().all(|byte| byte.is_ascii_digit())
}

/// Reads a number.
fn read_number(text: &[u8]) -> Option<u64>
    ensures { result ≡ read_number text.now }
{
    // the parser of numbers takes a plus
    if !are_digits(text) {
        return None;
    }
    let Ok(digits) = str::from_utf8(text) else {
        return None;
    };
    let Ok(number) = digits.parse() else {
        return None;
    };
    if number > 0 { Some(number) } else { None }
}

/// Reads a number, or two that are joined by a hyphen. Returns the first and the last.
fn read_numbers(text: &[u8]) -> Option<(u64, u64)>
    ensures { result ≡ read_numbers text.now }
{
    let (first, last) = cut_at(text, b'-').unwrap_or((text, text));
    let first = read_number(first)?;
    let last = read_number(last)?;
    if first <= last {
        Some((first, last))
    } else {
        None
    }
}
