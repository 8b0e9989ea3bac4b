//! A column of a table map.

use crate::character_set::CharacterSet;
use crate::packed::{packed_at, text_at};

/// Whether the numbers of a column can be negative.
#[derive(Clone, Copy, Debug, PartialEq, Eq)]
pub enum Sign {
    /// The map doesn't say.
    Unknown,
    /// They can.
    Signed,
    /// They can't.
    Unsigned,
}

/// A column of a table map.
#[derive(Clone, Copy, Debug)]
pub struct Column<'a> {
    /// Its type (MySQL Internals manual, "Table_map_event").
    pub kind: u8,
    /// The metadata of its type.
    pub metadata: &'a [u8],
    /// Its name, if the map has names.
    pub name: Option<&'a [u8]>,
    /// Whether its numbers can be negative.
    pub sign: Sign,
    /// The character set of its texts.
    pub set: CharacterSet,
    /// The texts of an ENUM or a SET, each after its packed length, if the map has them.
    pub members: Option<&'a [u8]>,
    /// Whether it is one of the primary key, as far as the map says.
    pub is_key: bool,
}

/// The types whose numbers have a sign or none.
pub(crate) fn is_numeric(kind: u8) -> bool {
    matches!(kind, 1..=5 | 8 | 9 | 13 | 246)
}

/// The real type of a column: that of ENUM and SET is in the metadata.
pub(crate) fn real_kind(kind: u8, metadata: &[u8]) -> u8 {
    match (kind, metadata.first()) {
        (254, Some(real)) if *real == 247 || *real == 248 => *real,
        _ => kind,
    }
}

/// Whether the values of a real type are texts of a character set: CHAR, VARCHAR, TEXT, and the binary ones.
pub(crate) fn is_character(real: u8) -> bool {
    matches!(real, 15 | 252 | 253 | 254)
}

impl<'a> Column<'a> {
    /// Returns its real type: 247 of an ENUM and 248 of a SET, which are 254 in the map.
    pub fn real_kind(&self) -> u8 {
        real_kind(self.kind, self.metadata)
    }

    /// Returns a text of an ENUM or a SET by its number, from 0 on, if the map has it.
    pub fn member(&self, number: u64) -> Option<&'a [u8]> {
        let mut rest = self.members?;
        let mut left = number;
        'members: while let Some(text) = text_at(rest) {
            if left == 0 {
                return Some(text.text);
            }
            left -= 1;
            rest = text.rest;
        }
        None
    }
}

/// Splits the texts of one ENUM or SET off those of several: their bytes, and the bytes after them.
pub(crate) fn members_at(bytes: &[u8]) -> Option<(&[u8], &[u8])> {
    let count = packed_at(bytes)?;
    let mut rest = count.rest;
    let mut left = count.value;
    'texts: while left > 0 {
        let text = text_at(rest)?;
        rest = text.rest;
        left -= 1;
    }
    let (members, _) = count.rest.split_at(count.rest.len() - rest.len());
    Some((members, rest))
}
