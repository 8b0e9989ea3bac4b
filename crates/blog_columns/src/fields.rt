//! What a table map has after its columns: fields, each a type, a packed length and bytes (MySQL's sources, rpl_event.h,
//! `Table_map_event::Optional_metadata_field_type`).

use crate::packed::{packed_at, split_after, text_at};

/// The fields that are read, by what they say of the columns. One that isn't there is empty.
#[derive(Clone, Copy, Debug)]
pub(crate) struct Fields<'a> {
    /// A bit for each number column, the highest of a byte first: whether it is unsigned.
    pub(crate) signs: Option<&'a [u8]>,
    /// The collation of most columns of texts, and the others by their numbers; or that of each.
    pub(crate) default_sets: Option<&'a [u8]>,
    pub(crate) sets: Option<&'a [u8]>,
    /// The same of ENUM and SET.
    pub(crate) names: Option<&'a [u8]>,
    /// The texts of each SET, and of each ENUM.
    pub(crate) set_members: Option<&'a [u8]>,
    pub(crate) enum_members: Option<&'a [u8]>,
    /// The numbers of the columns of the primary key.
    pub(crate) keys: Option<&'a [u8]>,
    /// The same, each with the length of a prefix.
    pub(crate) prefixed_keys: Option<&'a [u8]>,
}

/// No fields.
const NONE: Fields<'static> = Fields {
    signs: None,
    default_sets: None,
    sets: None,
    names: None,
    set_members: None,
    enum_members: None,
    keys: None,
    prefixed_keys: None,
};

/// Skips the name of a schema or a table: a length of one byte, as many bytes, and a zero byte.
fn after_name(bytes: &[u8]) -> Option<&[u8]> {
    let (len, behind) = bytes.split_first()?;
    let cut = split_after(behind, usize::from(*len) + 1)?;
    Some(cut.rest)
}

/// Returns what a table map's body has after its columns.
fn after_columns(body: &[u8]) -> Option<&[u8]> {
    let fixed = split_after(body, 8)?;
    let names = after_name(after_name(fixed.rest)?)?;
    let count = packed_at(names)?;
    let columns = usize::try_from(count.value).ok()?;
    let types = split_after(count.rest, columns)?;
    let metadata = text_at(types.rest)?;
    let nullable = split_after(metadata.rest, columns.div_ceil(8))?;
    Some(nullable.rest)
}

impl<'a> Fields<'a> {
    /// Returns the fields with one more. One of a type that isn't read is left out.
    fn with(self, kind: u8, bytes: &'a [u8]) -> Fields<'a> {
        let some = Some(bytes);
        match kind {
            1 => Fields {
                signs: some,
                ..self
            },
            2 => Fields {
                default_sets: some,
                ..self
            },
            3 => Fields { sets: some, ..self },
            4 => Fields {
                names: some,
                ..self
            },
            5 => Fields {
                set_members: some,
                ..self
            },
            6 => Fields {
                enum_members: some,
                ..self
            },
            8 => Fields { keys: some, ..self },
            9 => Fields {
                prefixed_keys: some,
                ..self
            },
            _ => self,
        }
    }

    /// Returns the fields of a table map's body, up to the first that isn't whole.
    pub(crate) fn of_map(body: &'a [u8]) -> Fields<'a> {
        let mut fields: Fields<'a> = NONE;
        let Some(behind) = after_columns(body) else {
            return fields;
        };
        let mut rest = behind;
        'fields: while let Some((kind, value)) = rest.split_first() {
            let Some(text) = text_at(value) else {
                return fields;
            };
            fields = fields.with(*kind, text.text);
            rest = text.rest;
        }
        fields
    }
}
