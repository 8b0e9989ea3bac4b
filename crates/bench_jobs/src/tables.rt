//! Tables, and the images of their rows.

use crate::random::Source;
use std::alloc::{AllocError, Global};

/// A column, by its type and metadata.
#[derive(Clone, Copy)]
pub enum Column {
    Long,
    LongLong,
    Short,
    Tiny,
    Double,
    DateTime,
    Timestamp,
    Decimal,
    Name,
    Title,
    Code,
    State,
    Text,
    Json,
    /// A short text that is NULL in 95 of 100 rows.
    Phone,
    /// A longer one.
    Note,
}

/// Forty columns. Tables have as many of the first ones as they are wide.
pub static COLUMNS: [Column; 40] = [
    Column::LongLong,
    Column::Long,
    Column::Name,
    Column::DateTime,
    Column::Decimal,
    Column::State,
    Column::Long,
    Column::Title,
    Column::Timestamp,
    Column::Tiny,
    Column::Code,
    Column::Decimal,
    Column::Long,
    Column::Name,
    Column::Text,
    Column::Short,
    Column::DateTime,
    Column::Double,
    Column::Json,
    Column::LongLong,
    Column::Tiny,
    Column::Name,
    Column::Decimal,
    Column::Long,
    Column::Timestamp,
    Column::State,
    Column::Title,
    Column::Long,
    Column::Short,
    Column::DateTime,
    Column::Decimal,
    Column::Code,
    Column::LongLong,
    Column::Tiny,
    Column::Name,
    Column::Double,
    Column::Long,
    Column::Timestamp,
    Column::Text,
    Column::Long,
];

/// Forty columns, of which a half are texts that nearly no row has.
pub static OPTIONAL: [Column; 40] = [
    Column::LongLong,
    Column::Long,
    Column::Title,
    Column::Phone,
    Column::Text,
    Column::Phone,
    Column::DateTime,
    Column::Note,
    Column::State,
    Column::Phone,
    Column::Name,
    Column::Note,
    Column::Decimal,
    Column::Phone,
    Column::Timestamp,
    Column::Phone,
    Column::Note,
    Column::Code,
    Column::Phone,
    Column::Tiny,
    Column::Long,
    Column::Phone,
    Column::Phone,
    Column::Note,
    Column::Name,
    Column::Phone,
    Column::DateTime,
    Column::Note,
    Column::Phone,
    Column::Title,
    Column::Phone,
    Column::Decimal,
    Column::Phone,
    Column::Note,
    Column::Long,
    Column::Phone,
    Column::Json,
    Column::Phone,
    Column::Double,
    Column::Note,
];

/// The columns of tables that have very many.
pub static WIDE: [Column; 8] = [
    Column::Long,
    Column::Long,
    Column::Name,
    Column::DateTime,
    Column::Tiny,
    Column::Decimal,
    Column::LongLong,
    Column::Short,
];

impl Column {
    /// The number of its type.
    fn kind(self) -> u8 {
        match self {
            Column::Long => 3,
            Column::LongLong => 8,
            Column::Short => 2,
            Column::Tiny => 1,
            Column::Double => 5,
            Column::DateTime => 18,
            Column::Timestamp => 17,
            Column::Decimal => 246,
            Column::Name | Column::Title | Column::Phone | Column::Note => 15,
            Column::Code | Column::State => 254,
            Column::Text => 252,
            Column::Json => 245,
        }
    }

    /// Its metadata.
    fn metadata(self) -> &'static [u8] {
        match self {
            Column::Long | Column::LongLong | Column::Short | Column::Tiny => &[],
            Column::Double => &[8],
            Column::DateTime => &[0],
            Column::Timestamp => &[3],
            Column::Decimal => &[11, 2],
            Column::Name | Column::Phone => &[80, 0],
            Column::Title | Column::Note => &[252, 3],
            Column::Code => &[254, 36],
            Column::State => &[247, 1],
            Column::Text => &[2],
            Column::Json => &[4],
        }
    }

    /// In how many rows of 256 its value is NULL, if it is in this many of a column that isn't optional.
    fn nulls(self, others: u8) -> u8 {
        match self {
            Column::Phone | Column::Note => 243,
            _ => others,
        }
    }

    /// Appends a value.
    fn put(self, source: &mut Source, out: &mut Vec<u8>) -> Result<(), AllocError> {
        match self {
            Column::Long => put_bytes(source, out, 4),
            Column::LongLong | Column::Double => put_bytes(source, out, 8),
            Column::Short => put_bytes(source, out, 2),
            Column::Tiny | Column::State => put_bytes(source, out, 1),
            Column::DateTime | Column::Decimal => put_bytes(source, out, 5),
            Column::Timestamp => put_bytes(source, out, 6),
            Column::Name | Column::Phone => put_counted(source, out, 1, 4, 20),
            Column::Code => put_counted(source, out, 1, 3, 12),
            Column::Title | Column::Note => put_counted(source, out, 2, 10, 60),
            Column::Text => put_counted(source, out, 2, 20, 200),
            Column::Json => put_counted(source, out, 4, 30, 150),
        }
    }
}

/// Appends random bytes.
fn put_bytes(source: &mut Source, out: &mut Vec<u8>, len: usize) -> Result<(), AllocError> {
    for _ in 0..len / 8 {
        out.extend_from_slice(&source.next().to_le_bytes())?;
    }
    let word = source.next().to_le_bytes();
    out.extend_from_slice(&word[..len % 8])
}

/// Appends a length of so many bytes, up to 8, and as many random bytes.
fn put_counted(
    source: &mut Source,
    out: &mut Vec<u8>,
    prefix: usize,
    least: u64,
    most: u64,
) -> Result<(), AllocError> {
    let len = least.wrapping_add(source.below(most.wrapping_sub(least)));
    for byte in len.to_le_bytes().iter().take(prefix) {
        out.push(*byte)?;
    }
    put_bytes(source, out, len as usize)
}

/// A table. Each column but the first can be NULL.
#[derive(Clone, Copy)]
pub struct Table<'t> {
    pub id: u32,
    pub schema: &'t [u8],
    pub name: &'t [u8],
    pub columns: &'t [Column],
}

/// The lowest byte of a number.
fn low_byte(number: usize) -> u8 {
    let [low, ..] = number.to_le_bytes();
    low
}

/// Appends a packed integer, below 65,536.
pub fn put_packed(out: &mut Vec<u8>, number: usize) -> Result<(), AllocError> {
    let [low, high, ..] = number.to_le_bytes();
    if number < 251 {
        out.extend_from_slice(&[low])
    } else {
        out.extend_from_slice(&[252, low, high])
    }
}

impl Table<'_> {
    /// The body of its table map.
    pub fn map_body(&self, alloc: Global) -> Result<Vec<u8>, AllocError> {
        let mut body = Vec::new(alloc);
        body.extend_from_slice(&self.id.to_le_bytes())?;
        body.extend_from_slice(&[0, 0, 1, 0, low_byte(self.schema.len())])?;
        body.extend_from_slice(self.schema)?;
        body.extend_from_slice(&[0, low_byte(self.name.len())])?;
        body.extend_from_slice(self.name)?;
        body.extend_from_slice(&[0])?;
        put_packed(&mut body, self.columns.len())?;
        let mut metadata = Vec::new(alloc);
        for column in self.columns {
            body.push(column.kind())?;
            metadata.extend_from_slice(column.metadata())?;
        }
        put_packed(&mut body, metadata.len())?;
        body.extend_from_slice(&metadata)?;
        let mut first = true;
        for group in self.columns.chunks(8) {
            let bits = 0xFFu8 << 8usize.saturating_sub(group.len()).min(7);
            let nullable = bits >> 8usize.saturating_sub(group.len()).min(7);
            body.push(if first { nullable & 0xFE } else { nullable })?;
            first = false;
        }
        Ok(body)
    }

    /// Appends the image of a row, of whose columns so many of 256 are NULL, but for optional ones.
    pub fn put_image(
        &self,
        source: &mut Source,
        nulls: u8,
        values: &mut Vec<u8>,
        out: &mut Vec<u8>,
    ) -> Result<(), AllocError> {
        values.clear();
        let mut first = true;
        for group in self.columns.chunks(8) {
            let draws = source.next().to_le_bytes();
            let mut bits = 0u8;
            let mut bit = 1u8;
            for (column, draw) in group.iter().zip(&draws) {
                if *draw < column.nulls(nulls) && !first {
                    bits |= bit;
                } else {
                    column.put(source, values)?;
                }
                bit = bit.wrapping_mul(2);
                first = false;
            }
            out.push(bits)?;
        }
        out.extend_from_slice(values)
    }
}
