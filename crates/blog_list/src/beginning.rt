//! The beginning of a statement's text in a string of JSON.

ghost use Rattle.std.specs.Prelude.{◌≡◌, ◌++◌, OnOk};
ghost use Rattle.bstr.specs.Utf8.{lossy_chars};
ghost use Rattle.blog_list.specs.Json.{json_beginning, json_columns, without_control};

use blog_text::{put_char, put_text};
use bstr::ByteSlice;
use std::alloc::{AllocError, Allocator};
use unicode_width::UnicodeWidthChar;

/// Returns a blank for a control character, and any other character as it is.
fn without_control(c: char) -> char
    ensures { result ≡ without_control c }
{
    if c.is_control() { ' ' } else { c }
}

/// Returns how many columns of a terminal that takes.
fn columns_of(c: char) -> usize
    ensures { result ≡ json_columns c }
{
    without_control(c).width().unwrap_or(0)
}

/// Appends the beginning of a text in at most this many columns of a terminal and characters, as part of a string of JSON.
/// Control characters are blanks, and what is no character is U+FFFD. Two points follow if that isn't all.
pub(crate) fn put_beginning<A: Allocator>(
    out: &mut Vec<u8, A>,
    text: &[u8],
    columns: usize,
    characters: usize,
) -> Result<(), AllocError>
    ensures { OnOk result (out.new.items ≡ out.old.items ++ json_beginning columns characters (lossy_chars text.now)) }
{
    let mut left = columns;
    let mut more = characters;
    for c in text.chars() {
        let width = columns_of(c);
        if width > left || more == 0 {
            return put_text(out, b"..");
        }
        left -= width;
        more -= 1;
        put_char(out, without_control(c))?;
    }
    Ok(())
}
