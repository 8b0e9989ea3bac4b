//! Names, values and rows as text. Where the capacity has room for a text, appending it is no error.

ghost use Rattle.std.specs.Prelude.{◌≡◌, ◌+◌, ◌*◌, ◌<◌, ◌≤◌, ◌∷◌, ◌++◌, length, ◌↔◌, IfSome, IsTrue, OnOk, IsOk, [], codes, option_map, take, vec_len, vec_capacity};
ghost use Rattle.std.specs.Fmt.{decimal};
ghost use Rattle.hex.specs.Hex.{encode_upper};
ghost use Rattle.blog_row.specs.Image.{row_of};
ghost use Rattle.blog_row.specs.code.StoredLayoutView.{stored_columns};
ghost use Rattle.blog_row.specs.TableMap.{map_names};
ghost use Rattle.blog_flash.specs.Printed.{line, between_backticks, quoted, quoted_table, value_text, value_lines, row_lines, change_lines};
ghost use Rattle.blog_flash.specs.code.PrintedRows.{value_line, table_line, image_lines};
ghost use Rattle.blog_trans.specs.Changes.{Inserted, Deleted, Updated};

use crate::digits::write_digits;
use blog_row::{RowChange, StoredLayout, TableMap};
use bstr::ByteSlice;
use itoa::Buffer;
use std::alloc::{AllocError, Allocator};

/// Room for the longest line of a short value: 12 bytes for its column and 68 for the value.
static ROOM: [u8; 80] = [0; 80];

/// Appends a text.
pub(crate) fn put_text<A: Allocator>(out: &mut Vec<u8, A>, text: &[u8]) -> Result<(), AllocError>
    ensures ok { OnOk result (out.new.items ≡ out.old.items ++ text.now) }
    ensures room { vec_len out.old + length text.now ≤ vec_capacity out.old → IsOk result }
    ensures capacity { vec_capacity out.old ≤ vec_capacity out.new }
{
    out.extend_from_slice(text)
}

/// Appends a text and the end of its line.
pub(crate) fn put_line<A: Allocator>(out: &mut Vec<u8, A>, text: &[u8]) -> Result<(), AllocError>
    ensures ok { OnOk result (out.new.items ≡ out.old.items ++ line text.now) }
    ensures room { vec_len out.old + length (line text.now) ≤ vec_capacity out.old → IsOk result }
    ensures capacity { vec_capacity out.old ≤ vec_capacity out.new }
{
    put_text(out, text)?;
    put_text(out, b"\n")
}

/// Appends a number in decimal digits.
pub(crate) fn put_number<A: Allocator>(out: &mut Vec<u8, A>, n: u64) -> Result<(), AllocError>
    ensures ok { OnOk result (out.new.items ≡ out.old.items ++ decimal n) }
    ensures room { vec_len out.old + length (decimal n) ≤ vec_capacity out.old → IsOk result }
    ensures capacity { vec_capacity out.old ≤ vec_capacity out.new }
{
    let mut buffer = Buffer::new();
    put_text(out, buffer.format(n).as_bytes())
}

/// Appends a text between backticks.
fn put_between_backticks<A: Allocator>(out: &mut Vec<u8, A>, text: &[u8]) -> Result<(), AllocError>
    ensures ok { OnOk result (out.new.items ≡ out.old.items ++ between_backticks text.now) }
    ensures room { vec_len out.old + length (between_backticks text.now) ≤ vec_capacity out.old → IsOk result }
    ensures capacity { vec_capacity out.old ≤ vec_capacity out.new }
{
    put_text(out, b"`")?;
    put_text(out, text)?;
    put_text(out, b"`")
}

/// Appends a name between backticks, with each backtick in it doubled. So the parts that its own backticks leave stand
/// between backticks.
fn put_quoted<A: Allocator>(out: &mut Vec<u8, A>, name: &[u8]) -> Result<(), AllocError>
    ensures ok { OnOk result (out.new.items ≡ out.old.items ++ quoted name.now) }
    ensures room { vec_len out.old + length (quoted name.now) ≤ vec_capacity out.old → IsOk result }
    ensures capacity { vec_capacity out.old ≤ vec_capacity out.new }
{
    // Most names have no backtick, and are one part.
    if !name.contains(&b'`') {
        return put_between_backticks(out, name);
    }
    for part in name.split_str(b"`") {
        put_between_backticks(out, part)?;
    }
    Ok(())
}

/// Appends the names of a schema and of a table in it, each between backticks, with a point between them.
pub fn put_table<A: Allocator>(
    out: &mut Vec<u8, A>,
    schema: &[u8],
    table: &[u8],
) -> Result<(), AllocError>
    ensures ok { OnOk result (out.new.items ≡ out.old.items ++ quoted_table (record { schema = schema.now; name = table.now })) }
    ensures room { vec_len out.old + length (quoted_table (record { schema = schema.now; name = table.now })) ≤ vec_capacity out.old → IsOk result }
    ensures capacity { vec_capacity out.old ≤ vec_capacity out.new }
{
    put_quoted(out, schema)?;
    put_text(out, b".")?;
    put_quoted(out, table)
}

/// Appends the upper-case hexadecimal digits of bytes.
fn put_digits<A: Allocator>(out: &mut Vec<u8, A>, bytes: &[u8]) -> Result<(), AllocError>
    ensures ok { OnOk result (out.new.items ≡ out.old.items ++ encode_upper bytes.now) }
    ensures room { vec_len out.old + length (encode_upper bytes.now) ≤ vec_capacity out.old → IsOk result }
    ensures capacity { vec_capacity out.old ≤ vec_capacity out.new }
{
    // The bytes, twice, are as many as their digits, which are written over them.
    let start = out.len();
    put_text(out, bytes)?;
    put_text(out, bytes)?;
    write_digits(&mut out[start..], bytes);
    Ok(())
}

/// Appends a value: its bytes in hexadecimal digits, or NULL.
fn put_value<A: Allocator>(out: &mut Vec<u8, A>, value: Option<&[u8]>) -> Result<(), AllocError>
    ensures ok { OnOk result (out.new.items ≡ out.old.items ++ value_text (option_map (λ bytes. bytes.now) value.entry)) }
    ensures room { vec_len out.old + length (value_text (option_map (λ bytes. bytes.now) value.entry)) ≤ vec_capacity out.old → IsOk result }
    ensures capacity { vec_capacity out.old ≤ vec_capacity out.new }
{
    let Some(bytes) = value else {
        return put_text(out, b"NULL");
    };
    put_text(out, b"X'")?;
    put_digits(out, bytes)?;
    put_text(out, b"'")
}

/// Writes what names the column with a number of at most four digits, and returns its length.
fn write_column(text: &mut [u8], n: u64) -> usize
    requires few { n < 10000 }
    requires enough { 12 ≤ length text.old }
    ensures written { take result text.new ≡ codes "###   @" ++ (decimal n ++ 61 ∷ []) }
    ensures len { length text.new ≡ length text.old }
    ensures short { result ≤ 12 }
{
    if n < 10 {
        text[..9].copy_from_slice(b"###   @0=");
        text[7] = b'0' + n as u8;
        return 9;
    }
    if n < 100 {
        text[..10].copy_from_slice(b"###   @00=");
        text[7] = b'0' + (n / 10) as u8;
        text[8] = b'0' + (n % 10) as u8;
        return 10;
    }
    let (high, low) = (n / 100, n % 100);
    if n < 1000 {
        text[..11].copy_from_slice(b"###   @000=");
        text[7] = b'0' + high as u8;
        text[8] = b'0' + (low / 10) as u8;
        text[9] = b'0' + (low % 10) as u8;
        return 11;
    }
    text[..12].copy_from_slice(b"###   @0000=");
    text[7] = b'0' + (high / 10) as u8;
    text[8] = b'0' + (high % 10) as u8;
    text[9] = b'0' + (low / 10) as u8;
    text[10] = b'0' + (low % 10) as u8;
    12
}

/// Writes a short value and the end of its line from a place on, and returns where they end.
fn write_value(text: &mut [u8], at: usize, value: Option<&[u8]>) -> usize
    requires short { IfSome value (λ bytes. length bytes.now ≤ 32) }
    requires enough { at + 68 ≤ length text.old }
    ensures written { take result text.new ≡ take at text.old ++ line (value_text (option_map (λ bytes. bytes.now) value.entry)) }
    ensures len { length text.new ≡ length text.old }
    ensures within { result ≤ at + 68 }
{
    let Some(bytes) = value else {
        text[at..at + 5].copy_from_slice(b"NULL\n");
        return at + 5;
    };
    text[at] = b'X';
    text[at + 1] = b'\'';
    let end = at + 2 + 2 * bytes.len();
    write_digits(&mut text[at + 2..end], bytes);
    text[end] = b'\'';
    text[end + 1] = b'\n';
    end + 2
}

/// Whether a value is NULL or of at most 32 bytes.
fn is_short(value: Option<&[u8]>) -> bool
    ensures { IsTrue result ↔ IfSome value.entry (λ bytes. length bytes.now ≤ 32) }
{
    match value {
        Some(bytes) => bytes.len() <= 32,
        None => true,
    }
}

/// Appends the line of a short value, where there is room for any such line. A text as long as the longest is appended,
/// the line is written over its front, and the rest is cut off, so that its parts need no append each.
fn put_short_line<A: Allocator>(
    out: &mut Vec<u8, A>,
    n: u64,
    value: Option<&[u8]>,
) -> Result<(), AllocError>
    requires few { n < 10000 }
    requires short { IfSome value (λ bytes. length bytes.now ≤ 32) }
    requires enough { vec_len out.old + 80 ≤ vec_capacity out.old }
    ensures ok { OnOk result (out.new.items ≡ out.old.items ++ value_line n (option_map (λ bytes. bytes.now) value.entry)) }
    ensures room { IsOk result }
    ensures capacity { vec_capacity out.old ≤ vec_capacity out.new }
{
    let start = out.len();
    put_text(out, &ROOM)?;
    let text = &mut out[start..];
    let at = write_column(text, n);
    let len = write_value(text, at, value);
    out.truncate(start + len);
    Ok(())
}

/// Appends the line of the value of the column with a number, from 1.
fn put_value_line<A: Allocator>(
    out: &mut Vec<u8, A>,
    n: u64,
    value: Option<&[u8]>,
) -> Result<(), AllocError>
    ensures ok { OnOk result (out.new.items ≡ out.old.items ++ value_line n (option_map (λ bytes. bytes.now) value.entry)) }
    ensures room { vec_len out.old + length (value_line n (option_map (λ bytes. bytes.now) value.entry)) ≤ vec_capacity out.old → IsOk result }
    ensures capacity { vec_capacity out.old ≤ vec_capacity out.new }
{
    // Numbers of columns have four digits at most, and most values are short.
    if n < 10_000 && is_short(value) && ROOM.len() <= out.capacity() - out.len() {
        return put_short_line(out, n, value);
    }
    put_text(out, b"###   @")?;
    put_number(out, n)?;
    put_text(out, b"=")?;
    put_value(out, value)?;
    put_text(out, b"\n")
}

/// Appends a line for each value of an image.
fn put_values<A: Allocator>(
    out: &mut Vec<u8, A>,
    layout: &StoredLayout<'_>,
    image: &[u8],
) -> Result<(), AllocError>
    ensures ok { OnOk result (out.new.items ≡ out.old.items ++ value_lines 1 (row_of (stored_columns layout.now) image.now)) }
    ensures room { vec_len out.old + length (value_lines 1 (row_of (stored_columns layout.now) image.now)) ≤ vec_capacity out.old → IsOk result }
    ensures capacity { vec_capacity out.old ≤ vec_capacity out.new }
{
    let mut n = 1;
    for value in layout.values(image) {
        put_value_line(out, n, value)?;
        n += 1;
    }
    Ok(())
}

/// Appends a heading and the values of an image.
fn put_row<A: Allocator>(
    out: &mut Vec<u8, A>,
    heading: &[u8],
    layout: &StoredLayout<'_>,
    image: &[u8],
) -> Result<(), AllocError>
    ensures ok { OnOk result (out.new.items ≡ out.old.items ++ row_lines heading.now (row_of (stored_columns layout.now) image.now)) }
    ensures room { vec_len out.old + length (row_lines heading.now (row_of (stored_columns layout.now) image.now)) ≤ vec_capacity out.old → IsOk result }
    ensures capacity { vec_capacity out.old ≤ vec_capacity out.new }
{
    put_line(out, heading)?;
    put_values(out, layout, image)
}

/// Appends the line that says what is done to a table's row.
fn put_table_line<A: Allocator>(
    out: &mut Vec<u8, A>,
    words: &[u8],
    map: &TableMap<'_>,
) -> Result<(), AllocError>
    ensures ok { OnOk result (out.new.items ≡ out.old.items ++ table_line words.now (map_names map.now).table) }
    ensures room { vec_len out.old + length (table_line words.now (map_names map.now).table) ≤ vec_capacity out.old → IsOk result }
    ensures capacity { vec_capacity out.old ≤ vec_capacity out.new }
{
    put_text(out, words)?;
    put_table(out, map.schema(), map.table())?;
    put_text(out, b"\n")
}

/// Appends a row that is inserted.
fn put_insert<A: Allocator>(
    out: &mut Vec<u8, A>,
    map: &TableMap<'_>,
    layout: &StoredLayout<'_>,
    after: &[u8],
) -> Result<(), AllocError>
    ensures ok { OnOk result (out.new.items ≡ out.old.items ++ change_lines (Inserted (map_names map.now).table (row_of (stored_columns layout.now) after.now))) }
    ensures room { vec_len out.old + length (change_lines (Inserted (map_names map.now).table (row_of (stored_columns layout.now) after.now))) ≤ vec_capacity out.old → IsOk result }
    ensures capacity { vec_capacity out.old ≤ vec_capacity out.new }
{
    put_table_line(out, b"### INSERT INTO ", map)?;
    put_row(out, b"### SET", layout, after)
}

/// Appends a row that is deleted.
fn put_delete<A: Allocator>(
    out: &mut Vec<u8, A>,
    map: &TableMap<'_>,
    layout: &StoredLayout<'_>,
    before: &[u8],
) -> Result<(), AllocError>
    ensures ok { OnOk result (out.new.items ≡ out.old.items ++ change_lines (Deleted (map_names map.now).table (row_of (stored_columns layout.now) before.now))) }
    ensures room { vec_len out.old + length (change_lines (Deleted (map_names map.now).table (row_of (stored_columns layout.now) before.now))) ≤ vec_capacity out.old → IsOk result }
    ensures capacity { vec_capacity out.old ≤ vec_capacity out.new }
{
    put_table_line(out, b"### DELETE FROM ", map)?;
    put_row(out, b"### WHERE", layout, before)
}

/// Appends a row that is updated.
fn put_update<A: Allocator>(
    out: &mut Vec<u8, A>,
    map: &TableMap<'_>,
    layout: &StoredLayout<'_>,
    before: &[u8],
    after: &[u8],
) -> Result<(), AllocError>
    ensures ok { OnOk result (out.new.items ≡ out.old.items ++ change_lines (Updated (map_names map.now).table (row_of (stored_columns layout.now) before.now) (row_of (stored_columns layout.now) after.now))) }
    ensures room { vec_len out.old + length (change_lines (Updated (map_names map.now).table (row_of (stored_columns layout.now) before.now) (row_of (stored_columns layout.now) after.now))) ≤ vec_capacity out.old → IsOk result }
    ensures capacity { vec_capacity out.old ≤ vec_capacity out.new }
{
    put_table_line(out, b"### UPDATE ", map)?;
    put_row(out, b"### WHERE", layout, before)?;
    put_row(out, b"### SET", layout, after)
}

/// Appends what is done to a row, by its images.
pub(crate) fn put_change<A: Allocator>(
    out: &mut Vec<u8, A>,
    map: &TableMap<'_>,
    layout: &StoredLayout<'_>,
    row: &RowChange<'_>,
) -> Result<(), AllocError>
    ensures ok { OnOk result (out.new.items ≡ out.old.items ++ image_lines (map_names map.now).table (stored_columns layout.now) (option_map (λ image. image.now) row.now.before) (option_map (λ image. image.now) row.now.after)) }
    ensures room { vec_len out.old + length (image_lines (map_names map.now).table (stored_columns layout.now) (option_map (λ image. image.now) row.now.before) (option_map (λ image. image.now) row.now.after)) ≤ vec_capacity out.old → IsOk result }
    ensures capacity { vec_capacity out.old ≤ vec_capacity out.new }
{
    match (row.before, row.after) {
        (None, None) => Ok(()),
        (None, Some(after)) => put_insert(out, map, layout, after),
        (Some(before), None) => put_delete(out, map, layout, before),
        (Some(before), Some(after)) => put_update(out, map, layout, before, after),
    }
}
