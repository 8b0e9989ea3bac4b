//! Texts that grow at their end.

ghost use Rattle.std.specs.Prelude.{◌≡◌, ◌++◌, ◌-◌, OnOk, length, replicate};
ghost use Rattle.std.specs.Fmt.{decimal, sign_text, signed_decimal};
ghost use Rattle.blog_json.specs.Texts.{Keeps, padded};

use itoa::Buffer;
use std::alloc::{AllocError, Allocator};

/// Appends a text.
pub(crate) fn put_text<A: Allocator>(out: &mut Vec<u8, A>, text: &[u8]) -> Result<(), AllocError>
    ensures appended { OnOk result (out.new.items ≡ out.old.items ++ text.now) }
    ensures kept { Keeps out.old.items out.new.items }
{
    out.extend_from_slice(text)
}

/// Appends this many zeros.
#[tactic(auto, using(crate::proofs::Keeping::begins_appended, crate::proofs::Keeping::begins_itself))]
pub(crate) fn put_zeros<A: Allocator>(out: &mut Vec<u8, A>, zeros: usize) -> Result<(), AllocError>
    ensures appended { OnOk result (out.new.items ≡ out.old.items ++ replicate zeros 48) }
    ensures kept { Keeps out.old.items out.new.items }
{
    'zeros: for _zero in 0..zeros {
        put_text(out, b"0")?;
    }
    Ok(())
}

/// Appends the sign of a number that is negative.
pub(crate) fn put_sign<A: Allocator>(
    out: &mut Vec<u8, A>,
    is_negative: bool,
) -> Result<(), AllocError>
    ensures appended { OnOk result (out.new.items ≡ out.old.items ++ sign_text is_negative) }
    ensures kept { Keeps out.old.items out.new.items }
{
    if is_negative {
        put_text(out, b"-")
    } else {
        Ok(())
    }
}

/// Appends a number in decimal digits.
pub(crate) fn put_unsigned<A: Allocator>(out: &mut Vec<u8, A>, n: u64) -> Result<(), AllocError>
    ensures appended { OnOk result (out.new.items ≡ out.old.items ++ decimal n) }
    ensures kept { Keeps out.old.items out.new.items }
{
    let mut buffer = Buffer::new();
    put_text(out, buffer.format(n).as_bytes())
}

/// Appends a number in decimal digits, with its sign if it is negative.
pub(crate) fn put_signed<A: Allocator>(out: &mut Vec<u8, A>, n: i64) -> Result<(), AllocError>
    ensures appended { OnOk result (out.new.items ≡ out.old.items ++ signed_decimal n) }
    ensures kept { Keeps out.old.items out.new.items }
{
    let mut buffer = Buffer::new();
    put_text(out, buffer.format(n).as_bytes())
}

/// Appends a number in at least this many decimal digits, the first of them 0 if it has fewer.
pub(crate) fn put_padded<A: Allocator>(
    out: &mut Vec<u8, A>,
    digits: usize,
    n: u64,
) -> Result<(), AllocError>
    ensures appended { OnOk result (out.new.items ≡ out.old.items ++ padded digits n) }
    ensures kept { Keeps out.old.items out.new.items }
{
    let mut buffer = Buffer::new();
    let text = buffer.format(n).as_bytes();
    put_zeros(out, digits.saturating_sub(text.len()))?;
    put_text(out, text)
}
