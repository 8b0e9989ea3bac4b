//! Texts in HTML.

ghost use Rattle.std.specs.Prelude.{◌≡◌, ◌++◌, OnOk};
ghost use Rattle.blog_report.specs.Html.{escaped_html, html_char};

use blog_text::put_text;
use bstr::ByteSlice;
use itoa::Buffer;
use std::alloc::{AllocError, Allocator};

/// Appends a character of a text.
fn put_char<A: Allocator>(out: &mut Vec<u8, A>, c: char) -> Result<(), AllocError>
    ensures { OnOk result (out.new.items ≡ out.old.items ++ html_char c) }
{
    match c {
        '&' => put_text(out, b"&amp;"),
        '<' => put_text(out, b"&lt;"),
        '>' => put_text(out, b"&gt;"),
        '"' => put_text(out, b"&quot;"),
        '\'' => put_text(out, b"&#39;"),
        _ if c.is_control() => put_text(out, '\u{FFFD}'.encode_utf8(&mut [0; 4]).as_bytes()),
        _ => put_text(out, c.encode_utf8(&mut [0; 4]).as_bytes()),
    }
}

/// Appends bytes as text: what HTML would read as its own is escaped, and U+FFFD stands for what is no character, and for
/// control characters, which a page can't have.
pub(crate) fn put_escaped<A: Allocator>(out: &mut Vec<u8, A>, text: &[u8]) -> Result<(), AllocError>
    ensures { OnOk result (out.new.items ≡ out.old.items ++ escaped_html text.now) }
{
    for c in text.chars() {
        put_char(out, c)?;
    }
    Ok(())
}

/// Appends a number in decimal digits, with a comma before each three.
pub(crate) fn put_grouped<A: Allocator>(out: &mut Vec<u8, A>, n: u64) -> Result<(), AllocError> {
    let mut buffer = Buffer::new();
    let digits = buffer.format(n).as_bytes();
    let len = digits.len();
    for i in 0..len {
        if i > 0 && (len - i) % 3 == 0 {
            put_text(out, b",")?;
        }
        put_text(out, &[digits[i]])?;
    }
    Ok(())
}
