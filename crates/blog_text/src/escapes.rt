//! Bytes of a log for people: escaped, so that no control character reaches a terminal.

ghost use Rattle.std.specs.Prelude.{◌≡◌, ◌≤◌, ◌-◌, ◌++◌, ◌∷◌, [], OnOk, true, false, encode_utf8, length};
ghost use Rattle.std.specs.List.{flat_map};
ghost use Rattle.std.specs.Option.{SomeIff};
ghost use Rattle.blog_text.specs.Escapes.{beginning, byte_escape, char_columns, char_shown, columns_of, escaped, is_layout, layout_escape, marks, name_columns, quoted, quoted_columns, quoted_mark, quoted_table, shown};
ghost use Rattle.blog_text.specs.code.Plain.{is_plain, plain_len};

use crate::marks::{Mark, Marks};
use crate::texts::{put_byte, put_hex, put_text};
use std::alloc::{AllocError, Allocator};
use unicode_width::UnicodeWidthChar;

/// Whether a byte is printed as it is, in names too: a blank, or a visible character of ASCII but `\` and the backtick.
fn is_plain(byte: u8) -> bool
    ensures { result ≡ is_plain byte }
{
    byte >= b' ' && byte <= b'~' && byte != b'\\' && byte != b'`'
}

/// Returns how many bytes at the beginning of a text are printed as they are.
fn plain_len(text: &[u8]) -> usize
    ensures all { result ≡ plain_len text.now }
    ensures within { result ≤ length text.now }
{
    'plain: for i in 0..text.len() {
        if !is_plain(text[i]) {
            return i;
        }
    }
    text.len()
}

/// Appends a byte as `\x1b`.
fn put_escape<A: Allocator>(out: &mut Vec<u8, A>, byte: u8) -> Result<(), AllocError>
    ensures { OnOk result (out.new.items ≡ out.old.items ++ byte_escape byte) }
{
    put_text(out, b"\\x")?;
    put_byte(out, byte)
}

/// Appends each byte as `\x1b`.
fn put_escapes<A: Allocator>(out: &mut Vec<u8, A>, bytes: &[u8]) -> Result<(), AllocError>
    ensures { OnOk result (out.new.items ≡ out.old.items ++ flat_map byte_escape bytes.now) }
{
    for byte in bytes {
        put_escape(out, *byte)?;
    }
    Ok(())
}

/// Returns whether a character hides, joins or turns what stands beside it.
fn is_layout(c: char) -> bool
    ensures { result ≡ is_layout c }
{
    matches!(c, '\u{61C}' | '\u{200B}'..='\u{200F}' | '\u{2028}'..='\u{202E}' | '\u{2060}'..='\u{2069}' | '\u{FEFF}')
}

/// Appends such a character as `\u{202e}`.
fn put_layout<A: Allocator>(out: &mut Vec<u8, A>, c: char) -> Result<(), AllocError>
    requires { is_layout c ≡ true }
    ensures { OnOk result (out.new.items ≡ out.old.items ++ layout_escape c) }
{
    let number = u32::from(c);
    put_text(out, b"\\u{")?;
    put_hex(out, &[(number / 256) as u8, (number % 256) as u8])?;
    put_text(out, b"}")
}

/// Appends a character, escaped.
fn put_char<A: Allocator>(out: &mut Vec<u8, A>, c: char) -> Result<(), AllocError>
    ensures { OnOk result (out.new.items ≡ out.old.items ++ char_shown c) }
{
    match c {
        '\\' => put_text(out, b"\\\\"),
        '\n' => put_text(out, b"\\n"),
        '\t' => put_text(out, b"\\t"),
        '\r' => put_text(out, b"\\r"),
        _ if c.is_control() => put_escapes(out, c.encode_utf8(&mut [0; 4]).as_bytes()),
        _ if is_layout(c) => put_layout(out, c),
        _ => put_text(out, c.encode_utf8(&mut [0; 4]).as_bytes()),
    }
}

/// Appends a mark, escaped.
fn put_mark<A: Allocator>(out: &mut Vec<u8, A>, mark: Mark) -> Result<(), AllocError>
    ensures { OnOk result (out.new.items ≡ out.old.items ++ shown mark) }
{
    match mark {
        Mark::Character(c) => put_char(out, c),
        Mark::Byte(byte) => put_escape(out, byte),
    }
}

/// Appends a text, escaped.
pub fn put_escaped<A: Allocator>(out: &mut Vec<u8, A>, text: &[u8]) -> Result<(), AllocError>
    ensures { OnOk result (out.new.items ≡ out.old.items ++ escaped text.now) }
{
    let plain = plain_len(text);
    put_text(out, &text[..plain])?;
    for mark in Marks::new(&text[plain..]) {
        put_mark(out, mark)?;
    }
    Ok(())
}

/// Appends a name, escaped, between backticks, with those in it doubled.
fn put_quoted<A: Allocator>(out: &mut Vec<u8, A>, name: &[u8]) -> Result<(), AllocError>
    ensures { OnOk result (out.new.items ≡ out.old.items ++ quoted name.now) }
{
    let plain = plain_len(name);
    put_text(out, b"`")?;
    put_text(out, &name[..plain])?;
    for mark in Marks::new(&name[plain..]) {
        put_quoted_mark(out, mark)?;
    }
    put_text(out, b"`")
}

/// Appends a mark of a name, escaped, or a backtick doubled.
fn put_quoted_mark<A: Allocator>(out: &mut Vec<u8, A>, mark: Mark) -> Result<(), AllocError>
    ensures { OnOk result (out.new.items ≡ out.old.items ++ quoted_mark mark) }
{
    match mark {
        Mark::Character('`') => put_text(out, b"``"),
        _ => put_mark(out, mark),
    }
}

/// Appends the names of a schema and of a table in it, with a point between them.
pub fn put_table<A: Allocator>(
    out: &mut Vec<u8, A>,
    schema: &[u8],
    table: &[u8],
) -> Result<(), AllocError>
    ensures { OnOk result (out.new.items ≡ out.old.items ++ quoted_table schema.now table.now) }
{
    put_quoted(out, schema)?;
    put_text(out, b".")?;
    put_quoted(out, table)
}

/// How many columns of a terminal a character takes, escaped.
fn char_columns(c: char) -> usize
    ensures { result ≡ char_columns c }
{
    match c {
        '\\' => 2,
        '\n' => 2,
        '\t' => 2,
        '\r' => 2,
        _ if c.is_control() => 4 * c.len_utf8(),
        _ if is_layout(c) => 8,
        _ => c.width().unwrap_or(0),
    }
}

/// How many columns of a terminal a mark takes, escaped.
fn columns_of(mark: Mark) -> usize
    ensures { result ≡ columns_of mark }
{
    match mark {
        Mark::Character(c) => char_columns(c),
        Mark::Byte(_) => 4,
    }
}

/// How many columns of a terminal a mark of a name takes, between backticks.
fn quoted_columns(mark: Mark) -> usize
    ensures { result ≡ quoted_columns mark }
{
    match mark {
        Mark::Character('`') => 2,
        _ => columns_of(mark),
    }
}

/// Returns how many columns of these are left beside a name between backticks, if it fits.
pub(crate) fn left_beside_name(columns: usize, name: &[u8]) -> Option<usize>
    ensures { SomeIff result (name_columns name.now ≤ columns) (columns - name_columns name.now) }
{
    let mut left = columns.checked_sub(2)?;
    for mark in Marks::new(name) {
        left = left.checked_sub(quoted_columns(mark))?;
    }
    Some(left)
}

/// Appends the beginning of a text, escaped, in at most this many columns of a terminal and characters. Two points follow if
/// that isn't all.
pub fn put_beginning<A: Allocator>(
    out: &mut Vec<u8, A>,
    text: &[u8],
    columns: usize,
    characters: usize,
) -> Result<(), AllocError>
    ensures { OnOk result (out.new.items ≡ out.old.items ++ beginning columns characters (marks text.now)) }
{
    let mut left = columns;
    let mut more = characters;
    for mark in Marks::new(text) {
        let width = columns_of(mark);
        if width > left || more == 0 {
            return put_text(out, b"..");
        }
        left -= width;
        more -= 1;
        put_mark(out, mark)?;
    }
    Ok(())
}
