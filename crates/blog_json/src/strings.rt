//! Strings.

ghost use Rattle.std.specs.Prelude.{◌≡◌, ◌++◌, ◌↔◌, IsTrue, OnOk};
ghost use Rattle.std.specs.Str.{IsUtf8};
ghost use Rattle.std.specs.List.{flat_map};
ghost use Rattle.blog_json.specs.Strings.{control_text, string_byte, string_text};
ghost use Rattle.blog_json.specs.Texts.{Keeps};

use crate::texts::put_text;
use std::alloc::{AllocError, Allocator};

/// Returns whether bytes are UTF-8.
pub(crate) fn is_text(bytes: &[u8]) -> bool
    ensures { IsTrue result → IsUtf8 bytes.now }
{
    str::from_utf8(bytes).is_ok()
}

/// Appends a control character by its number.
#[tactic(auto, using(crate::proofs::Keeping::begins_appended))]
fn put_control<A: Allocator>(out: &mut Vec<u8, A>, byte: u8) -> Result<(), AllocError>
    ensures appended { OnOk result (out.new.items ≡ out.old.items ++ control_text byte) }
    ensures kept { Keeps out.old.items out.new.items }
{
    let mut digits = [0; 2];
    hex::encode_to_slice([byte].as_slice(), &mut digits).unwrap();
    put_text(out, b"\\u00")?;
    put_text(out, &digits)
}

/// Appends a byte of a string.
fn put_byte<A: Allocator>(out: &mut Vec<u8, A>, byte: u8) -> Result<(), AllocError>
    ensures appended { OnOk result (out.new.items ≡ out.old.items ++ string_byte byte) }
    ensures kept { Keeps out.old.items out.new.items }
{
    match byte {
        b'"' => put_text(out, b"\\\""),
        b'\\' => put_text(out, b"\\\\"),
        b'\x08' => put_text(out, b"\\b"),
        b'\t' => put_text(out, b"\\t"),
        b'\n' => put_text(out, b"\\n"),
        b'\x0c' => put_text(out, b"\\f"),
        b'\r' => put_text(out, b"\\r"),
        0..b' ' => put_control(out, byte),
        _ => put_text(out, &[byte]),
    }
}

/// Appends the bytes of a string, those that need it escaped.
#[tactic(auto, using(crate::proofs::Keeping::begins_appended))]
fn put_bytes<A: Allocator>(out: &mut Vec<u8, A>, bytes: &[u8]) -> Result<(), AllocError>
    ensures appended { OnOk result (out.new.items ≡ out.old.items ++ flat_map string_byte bytes.now) }
    ensures kept { Keeps out.old.items out.new.items }
{
    'bytes: for byte in bytes {
        put_byte(out, *byte)?;
    }
    Ok(())
}

/// Appends bytes as a string, in quotation marks.
#[tactic(auto, using(crate::proofs::Keeping::begins_appended))]
pub(crate) fn put_string<A: Allocator>(out: &mut Vec<u8, A>, bytes: &[u8]) -> Result<(), AllocError>
    ensures appended { OnOk result (out.new.items ≡ out.old.items ++ string_text bytes.now) }
    ensures kept { Keeps out.old.items out.new.items }
{
    put_text(out, b"\"")?;
    put_bytes(out, bytes)?;
    put_text(out, b"\"")
}
