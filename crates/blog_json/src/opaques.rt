//! Values of types of columns that JSON lacks.

ghost use Rattle.std.specs.Prelude.{◌≡◌, ◌≤◌, ◌++◌, IfOk, OnOk, length, true};
ghost use Rattle.base64.specs.Engines.{standard};
ghost use Rattle.base64.specs.GeneralPurpose.{encode_of};
ghost use Rattle.blog_json.specs.Opaques.{base64_name, base64_text, lines_of, opaque_text, type_text};
ghost use Rattle.blog_json.specs.Texts.{IsAdded, Keeps};

use crate::decimals::put_decimal;
use crate::lengths::sized_front;
use crate::texts::{put_text, put_unsigned};
use crate::times::{put_date, put_datetime, put_time};
use base64::engine::general_purpose::STANDARD;
use std::alloc::{AllocError, Allocator};

/// How many bytes make a line of base64, of 76 characters.
const LINE_BYTES: usize = 57;

// The types of columns whose values are printed otherwise than in base64 (MySQL's sources, include/field_types.h).
const TIMESTAMP: u8 = 7;

const DATE: u8 = 10;

const TIME: u8 = 11;

const DATETIME: u8 = 12;

const NEW_DECIMAL: u8 = 246;

/// Appends bytes in base64.
#[tactic(auto, using(crate::proofs::Base64Lines::line_size))]
fn put_line<A: Allocator>(out: &mut Vec<u8, A>, bytes: &[u8]) -> Result<(), AllocError>
    requires { length bytes.now ≤ 57 }
    ensures appended { OnOk result (out.new.items ≡ out.old.items ++ encode_of standard bytes.now) }
    ensures kept { Keeps out.old.items out.new.items }
{
    let mut line = [0; 76];
    let Ok(len) = STANDARD.encode_slice(bytes, &mut line) else {
        unreachable!();
    };
    put_text(out, &line[..len])
}

/// Appends bytes in lines of base64, with an escaped line feed between them.
#[tactic(auto, using(crate::proofs::Keeping::begins_appended, crate::proofs::Base64Lines::next_line, crate::proofs::Base64Lines::last_line))]
fn put_lines<A: Allocator>(out: &mut Vec<u8, A>, bytes: &[u8]) -> Result<(), AllocError>
    ensures appended { OnOk result (out.new.items ≡ out.old.items ++ lines_of bytes.now) }
    ensures kept { Keeps out.old.items out.new.items }
{
    let mut rest = bytes;
    'lines: while rest.len() > LINE_BYTES {
        let (line, later) = rest.split_at(LINE_BYTES);
        put_line(out, line)?;
        put_text(out, b"\\n")?;
        rest = later;
    }
    put_line(out, rest)
}

/// Appends the name of the encoding.
#[tactic(auto, unfolding(crate::specs::Opaques::base64_name))]
fn put_name<A: Allocator>(out: &mut Vec<u8, A>) -> Result<(), AllocError>
    ensures appended { OnOk result (out.new.items ≡ out.old.items ++ base64_name) }
    ensures kept { Keeps out.old.items out.new.items }
{
    put_text(out, b"\"base64:type")
}

/// Appends what stands in front of the bytes of a type.
#[tactic(auto, using(crate::proofs::Keeping::begins_appended))]
fn put_type<A: Allocator>(out: &mut Vec<u8, A>, kind: u8) -> Result<(), AllocError>
    ensures appended { OnOk result (out.new.items ≡ out.old.items ++ type_text kind) }
    ensures kept { Keeps out.old.items out.new.items }
{
    put_name(out)?;
    put_unsigned(out, u64::from(kind))?;
    put_text(out, b":")
}

/// Appends bytes of a type as a string.
#[tactic(auto, using(crate::proofs::Keeping::begins_appended))]
fn put_base64<A: Allocator>(out: &mut Vec<u8, A>, kind: u8, bytes: &[u8]) -> Result<(), AllocError>
    ensures appended { OnOk result (out.new.items ≡ out.old.items ++ base64_text kind bytes.now) }
    ensures kept { Keeps out.old.items out.new.items }
{
    put_type(out, kind)?;
    put_lines(out, bytes)?;
    put_text(out, b"\"")
}

/// Appends the value at the front of bytes: a type of a column, and bytes behind their length. Returns whether it is one.
#[tactic(auto, using(crate::proofs::Keeping::begins_appended, crate::proofs::Added::added_is))]
pub(crate) fn put_opaque<A: Allocator>(
    out: &mut Vec<u8, A>,
    bytes: &[u8],
) -> Result<bool, AllocError>
    ensures printed { IfOk result (λ is. is ≡ true → IsAdded (opaque_text bytes.now) out.old.items out.new.items) }
    ensures kept { Keeps out.old.items out.new.items }
{
    let Some((kind, rest)) = bytes.split_first() else {
        return Ok(false);
    };
    let Some(own) = sized_front(rest) else {
        return Ok(false);
    };
    match *kind {
        NEW_DECIMAL => put_decimal(out, own),
        DATE => put_date(out, own),
        TIME => put_time(out, own),
        DATETIME | TIMESTAMP => put_datetime(out, own),
        _ => {
            put_base64(out, *kind, own)?;
            Ok(true)
        }
    }
}
