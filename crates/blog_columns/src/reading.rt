//! Reading the columns of a table map.

ghost use Rattle.std.specs.Prelude.{◌≡◌, ◌≤◌, IfOk, drop, length, map, take};
ghost use Rattle.blog_columns.specs.code.ColumnView.{column_seen};
ghost use Rattle.blog_row.specs.Column.{own_metadata_len};
ghost use Rattle.blog_row.specs.code.LayoutView.{layout_columns};

use crate::character_set::CharacterSet;
use crate::column::{Column, Sign, is_character, is_numeric, members_at, real_kind};
use crate::fields::Fields;
use crate::packed::{packed_at, text_at};
use blog_row::{Layout, metadata_len};
use std::alloc::{AllocError, Allocator};

/// What is left of the fields of a table map, from a column on.
#[derive(Clone, Copy, Debug)]
struct Left<'a> {
    fields: Fields<'a>,
    /// How many number columns there were.
    numbers: usize,
    /// How many columns of texts there were.
    texts: u64,
    /// Their collation, where it is that of most of them.
    most: Option<u64>,
    /// Whether spatial columns count as columns of texts: MariaDB gives them a collation too.
    with_spatial: bool,
}

/// The type of a spatial column.
const GEOMETRY: u8 = 255;

/// How many columns of some types are of texts, and how many are spatial.
#[derive(Clone, Copy, Debug)]
struct Counted {
    texts: usize,
    spatial: usize,
}

/// Counts columns by their types and metadata.
fn count_columns(types: &[u8], metadata: &[u8]) -> Counted {
    let mut counted = Counted {
        texts: 0,
        spatial: 0,
    };
    let mut rest = metadata;
    for kind in types {
        let (own, others) = split_metadata(*kind, rest);
        if is_character(real_kind(*kind, own)) {
            counted.texts = counted.texts.saturating_add(1);
        }
        if *kind == GEOMETRY {
            counted.spatial = counted.spatial.saturating_add(1);
        }
        rest = others;
    }
    counted
}

/// Counts the packed integers of a field.
fn count_numbers(field: &[u8]) -> usize {
    let mut count = 0usize;
    let mut rest = field;
    'numbers: while let Some(number) = packed_at(rest) {
        count = count.saturating_add(1);
        rest = number.rest;
    }
    count
}

/// Takes the next text off a field.
fn take_text<'a>(field: &mut Option<&'a [u8]>) -> Option<&'a [u8]> {
    let bytes = (*field)?;
    match text_at(bytes) {
        Some(text) => {
            *field = Some(text.rest);
            Some(text.text)
        }
        None => {
            *field = None;
            None
        }
    }
}

/// Takes the next packed integer off a field.
fn take_number(field: &mut Option<&[u8]>) -> Option<u64> {
    let bytes = (*field)?;
    match packed_at(bytes) {
        Some(packed) => {
            *field = Some(packed.rest);
            Some(packed.value)
        }
        None => {
            *field = None;
            None
        }
    }
}

/// Takes the texts of the next ENUM or SET off a field.
fn take_members<'a>(field: &mut Option<&'a [u8]>) -> Option<&'a [u8]> {
    let bytes = (*field)?;
    match members_at(bytes) {
        Some((members, rest)) => {
            *field = Some(rest);
            Some(members)
        }
        None => {
            *field = None;
            None
        }
    }
}

/// Whether a bit is set, the highest of a byte first.
fn is_set(bits: &[u8], n: usize) -> Option<bool> {
    let byte = bits.get(n / 8)?;
    Some(*byte >> (7 - n % 8) & 1 == 1)
}

/// Returns what is after the packed integer at the front; nothing if none is there.
fn after_number(bytes: &[u8]) -> &[u8]
    ensures { length result.now ≤ length bytes.now }
{
    match packed_at(bytes) {
        Some(packed) => packed.rest,
        None => &[],
    }
}

/// Whether a column's number is among these, each followed by a length if they have prefixes.
fn is_among(keys: &[u8], column: u64, prefixed: bool) -> bool {
    let mut rest = keys;
    'keys: while let Some(number) = packed_at(rest) {
        if number.value == column {
            return true;
        }
        rest = if prefixed {
            after_number(number.rest)
        } else {
            number.rest
        };
    }
    false
}

/// Whether a column is one of the primary key, by its number.
fn is_key(fields: &Fields<'_>, column: u64) -> bool {
    is_among(fields.keys.unwrap_or(&[]), column, false)
        || is_among(fields.prefixed_keys.unwrap_or(&[]), column, true)
}

impl<'a> Left<'a> {
    /// What is left in front of the first of some columns. Whether spatial ones have a collation too follows from how many there are; of a
    /// most common one it isn't known, so that none is known if there are spatial columns.
    fn all(fields: Fields<'a>, counted: Counted) -> Left<'a> {
        let mut sets = fields.default_sets;
        let most = take_number(&mut sets);
        let given = count_numbers(fields.sets.unwrap_or(&[]));
        Left {
            fields: Fields {
                default_sets: sets,
                ..fields
            },
            numbers: 0,
            texts: 0,
            most: if counted.spatial == 0 { most } else { None },
            with_spatial: given == counted.texts.saturating_add(counted.spatial),
        }
    }

    /// Takes the sign of the next column, of a type.
    fn take_sign(&mut self, kind: u8) -> Sign {
        if !is_numeric(kind) {
            return Sign::Unknown;
        }
        let n = self.numbers;
        self.numbers = n.saturating_add(1);
        match self.fields.signs {
            Some(bits) => match is_set(bits, n) {
                Some(true) => Sign::Unsigned,
                Some(false) => Sign::Signed,
                None => Sign::Unknown,
            },
            None => Sign::Unknown,
        }
    }

    /// Takes the collation of the next column of texts.
    fn take_collation(&mut self) -> Option<u64> {
        if self.fields.sets.is_some() {
            return take_number(&mut self.fields.sets);
        }
        let most = self.most?;
        let n = self.texts;
        self.texts = n.saturating_add(1);
        let mut others = self.fields.default_sets;
        match take_number(&mut others) {
            Some(number) if number == n => {
                let own = take_number(&mut others);
                self.fields.default_sets = others;
                own
            }
            _ => Some(most),
        }
    }

    /// Takes the character set of the next column, of a real type.
    fn take_set(&mut self, real: u8) -> CharacterSet {
        if real == GEOMETRY && self.with_spatial {
            let _collation = self.take_collation();
            return CharacterSet::Unknown;
        }
        if !is_character(real) {
            return CharacterSet::Unknown;
        }
        match self.take_collation() {
            Some(number) => CharacterSet::of_collation(number),
            None => CharacterSet::Unknown,
        }
    }

    /// Takes the texts of the next column, of a real type.
    fn take_own_members(&mut self, real: u8) -> Option<&'a [u8]> {
        match real {
            247 => take_members(&mut self.fields.enum_members),
            248 => take_members(&mut self.fields.set_members),
            _ => None,
        }
    }

    /// Takes the next column, of a number, a type and its metadata.
    fn take_column(&mut self, number: u64, kind: u8, metadata: &'a [u8]) -> Column<'a>
        ensures { column_seen result ≡ record { kind = kind; metadata = metadata.now } }
    {
        let real = real_kind(kind, metadata);
        let is_key = is_key(&self.fields, number);
        Column {
            kind,
            metadata,
            name: take_text(&mut self.fields.names),
            sign: self.take_sign(kind),
            set: self.take_set(real),
            members: self.take_own_members(real),
            is_key,
        }
    }
}

/// Splits the metadata of a column of a type off that of several.
fn split_metadata(kind: u8, metadata: &[u8]) -> (&[u8], &[u8])
    ensures own { result.0.now ≡ take (own_metadata_len kind) metadata.now }
    ensures others { result.1.now ≡ drop (own_metadata_len kind) metadata.now }
{
    let len = metadata_len(kind);
    if metadata.len() < len {
        return (metadata, &[]);
    }
    metadata.split_at(len)
}

/// Reads the columns of a table map, of this body and layout, and what the map says of them. What it says in no readable form is
/// unknown. Fails if out of memory.
pub fn read_columns<'a, A: Allocator>(
    alloc: A,
    body: &'a [u8],
    layout: &Layout<'a>,
) -> Result<Vec<Column<'a>, A>, AllocError>
    ensures types { IfOk result (λ columns. map column_seen columns.items ≡ layout_columns layout.now) }
{
    let types = layout.types();
    let mut metadata = layout.metadata();
    let mut left = Left::all(Fields::of_map(body), count_columns(types, metadata));
    let mut columns = Vec::new(alloc);
    let mut number = 0u64;
    for kind in types {
        let (own, others) = split_metadata(*kind, metadata);
        columns.push(left.take_column(number, *kind, own))?;
        metadata = others;
        number = number.saturating_add(1);
    }
    Ok(columns)
}
