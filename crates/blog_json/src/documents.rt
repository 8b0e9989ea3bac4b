//! Documents.

ghost use Rattle.std.specs.Prelude.{◌≡◌, ◌≤◌, ◌+◌, ◌*◌, ◌++◌, IfOk, List, OnErr, OnOk, false, length, option_map, true, ℕ};
ghost use Rattle.blog_json.specs.Containers.{container_seen, key_at};
ghost use Rattle.blog_json.specs.declared.containers.Form.TheVariants.{Object as Keyed};
ghost use Rattle.blog_json.specs.Documents.{IsDocument, IsText, closing, comma, form_of, front_text, key_text, opening, plain_text, string_seen};
ghost use Rattle.blog_json.specs.Slices.{now_of};
ghost use Rattle.blog_json.specs.Texts.{Gains, IsAdded, Keeps, added};

use crate::containers::{Container, Form};
use crate::doubles::put_double;
use crate::kinds::{Kind, Width};
use crate::lengths::sized_front;
use crate::opaques::put_opaque;
use crate::scalars::{put_scalar, scalar_front};
use crate::strings::{is_text, put_string};
use crate::texts::put_text;
use std::alloc::{AllocError, Allocator};

/// How many objects and arrays may be in one another (MySQL's sources, sql-common/json_syntax_check.h, `JSON_DOCUMENT_MAX_DEPTH`).
const MOST_DEPTH: u32 = 100;

/// Returns the most bytes of text of a document of this many bytes. Entries that share their values reach it, as MySQL writes none.
fn most_text(document: usize) -> usize
    ensures { result ≤ 64 * document + 4096 }
{
    document.saturating_mul(64).saturating_add(4096)
}

/// Returns whether a type is that of objects or of arrays, and how wide the counts and offsets are.
fn form_of(kind: Kind) -> Option<(Form, Width)>
    ensures { result ≡ form_of kind }
{
    match kind {
        Kind::Object(width) => Some((Form::Object, width)),
        Kind::Array(width) => Some((Form::Array, width)),
        _ => None,
    }
}

/// Appends bytes as a string. Returns false if they aren't UTF-8.
#[tactic(auto, using(crate::proofs::Keeping::begins_appended))]
fn put_text_of<A: Allocator>(out: &mut Vec<u8, A>, bytes: Option<&[u8]>) -> Result<bool, AllocError>
    ensures printed { IfOk result (λ is. is ≡ true → Gains (option_map string_seen bytes.entry) out.old.items out.new.items) }
    ensures kept { Keeps out.old.items out.new.items }
{
    match bytes {
        Some(own) if is_text(own) => {
            put_string(out, own)?;
            Ok(true)
        }
        _ => Ok(false),
    }
}

/// Appends a value that is neither an object nor an array, at the front of bytes. Returns whether it is one.
#[tactic(auto, using(crate::proofs::Keeping::begins_appended, crate::proofs::Added::added_is))]
fn put_plain<A: Allocator>(
    out: &mut Vec<u8, A>,
    kind: Kind,
    bytes: &[u8],
) -> Result<bool, AllocError>
    ensures printed { IfOk result (λ is. is ≡ true → IsAdded (plain_text kind bytes.now) out.old.items out.new.items) }
    ensures kept { Keeps out.old.items out.new.items }
{
    match kind {
        Kind::Double => put_double(out, bytes),
        Kind::Text => put_text_of(out, sized_front(bytes)),
        Kind::Opaque => put_opaque(out, bytes),
        _ => match scalar_front(kind, bytes) {
            Some(scalar) => {
                put_scalar(out, scalar)?;
                Ok(true)
            }
            None => Ok(false),
        },
    }
}

/// Appends the comma behind the value before, if there is one.
fn put_comma<A: Allocator>(out: &mut Vec<u8, A>, i: u32) -> Result<(), AllocError>
    ensures appended { OnOk result (out.new.items ≡ out.old.items ++ comma i) }
    ensures kept { Keeps out.old.items out.new.items }
{
    if i > 0 {
        put_text(out, b", ")
    } else {
        put_text(out, b"")
    }
}

/// Appends the key of a value, if it has one. Returns false if the key isn't as it should be.
fn put_key<A: Allocator>(
    out: &mut Vec<u8, A>,
    container: &Container<'_>,
    i: u32,
) -> Result<bool, AllocError>
    ensures printed { IfOk result (λ is. is ≡ true → Gains (key_text container.now.form (key_at (container_seen container.now) i)) out.old.items out.new.items) }
    ensures kept { Keeps out.old.items out.new.items }
{
    match container.form {
        Form::Array => Ok(true),
        Form::Object => put_name(out, container.key(i)),
    }
}

/// Appends bytes as the key of a value. Returns false if they aren't UTF-8.
#[tactic(auto, using(crate::proofs::Valued::gains_colon))]
fn put_name<A: Allocator>(out: &mut Vec<u8, A>, bytes: Option<&[u8]>) -> Result<bool, AllocError>
    ensures printed { IfOk result (λ is. is ≡ true → Gains (key_text Keyed (option_map now_of bytes.entry)) out.old.items out.new.items) }
    ensures kept { Keeps out.old.items out.new.items }
{
    if !put_text_of(out, bytes)? {
        return Ok(false);
    }
    put_text(out, b": ")?;
    Ok(true)
}

/// Appends what stands in front of a value: a comma, if it isn't the first, and its key, if it has one. Returns false if the key
/// isn't as it should be.
#[tactic(auto, unfolding(crate::specs::Documents::front_text))]
fn put_front<A: Allocator>(
    out: &mut Vec<u8, A>,
    container: &Container<'_>,
    i: u32,
) -> Result<bool, AllocError>
    ensures printed { IfOk result (λ is. is ≡ true → Gains (front_text (container_seen container.now) i) out.old.items out.new.items) }
    ensures kept { Keeps out.old.items out.new.items }
{
    put_comma(out, i)?;
    put_key(out, container, i)
}

/// Appends the value at the front of bytes, with at most this many objects and arrays in one another. Returns false if it isn't one,
/// has more of these, or makes the text longer than `most` bytes.
#[tactic(auto, using(crate::proofs::Keeping::begins_appended))]
fn put_value<A: Allocator>(
    out: &mut Vec<u8, A>,
    kind: Kind,
    bytes: &[u8],
    depth: u32,
    most: usize,
) -> Result<bool, AllocError>
    ensures printed { IfOk result (λ is. is ≡ true → IsText depth kind bytes.now (added out.old.items out.new.items)) }
    ensures kept { Keeps out.old.items out.new.items }
{
    let Some((form, width)) = form_of(kind) else {
        return put_plain(out, kind, bytes);
    };
    let Some(container) = Container::front(form, width, bytes) else {
        return Ok(false);
    };
    if depth == 0 {
        return Ok(false);
    }
    put_text(out, opening_of(form))?;
    'values: for i in 0..container.count {
        if out.len() > most || !put_front(out, &container, i)? {
            return Ok(false);
        }
        let Some((inner, place)) = container.entry(i) else {
            return Ok(false);
        };
        if !put_value(out, inner, place, depth - 1, most)? {
            return Ok(false);
        }
    }
    put_text(out, closing_of(form))?;
    Ok(true)
}

/// Returns the bracket in front of the values.
fn opening_of(form: Form) -> &'static [u8]
    ensures { result.now ≡ opening form }
{
    match form {
        Form::Object => b"{",
        Form::Array => b"[",
    }
}

/// Returns the bracket behind the values.
fn closing_of(form: Form) -> &'static [u8]
    ensures { result.now ≡ closing form }
{
    match form {
        Form::Object => b"}",
        Form::Array => b"]",
    }
}

/// Appends the text of a document, in at most this many bytes of `out`. Returns whether it is one.
fn put_root<A: Allocator>(
    out: &mut Vec<u8, A>,
    document: &[u8],
    most: usize,
) -> Result<bool, AllocError>
    ensures printed { IfOk result (λ is. is ≡ true → IsDocument document.now (added out.old.items out.new.items)) }
    ensures within { IfOk result (λ is. is ≡ true → length out.new.items ≤ most) }
    ensures kept { Keeps out.old.items out.new.items }
{
    let Some((first, rest)) = document.split_first() else {
        return Ok(false);
    };
    let Some(kind) = Kind::of(*first) else {
        return Ok(false);
    };
    if !put_value(out, kind, rest, MOST_DEPTH, most)? {
        return Ok(false);
    }
    Ok(out.len() <= most)
}

/// Appends the text of a document of MySQL's binary JSON, as MySQL's `CAST(.. AS CHAR)` prints it (MySQL's sources,
/// sql-common/json_binary.h). Returns false, and leaves `out` as it was, if it isn't one: a count, a size, an offset or a length that
/// leads out of it, a type that isn't known, more than 100 objects and arrays in one another, a string that isn't UTF-8, a number that
/// isn't finite, a date that is none. The same is true of a document whose text would have more than 64 times its bytes and 4,096 of
/// its own: entries that share a value make it long. If memory runs out, `out` is as it was.
pub fn put_document<A: Allocator>(out: &mut Vec<u8, A>, document: &[u8]) -> Result<bool, AllocError>
    ensures appended { IfOk result (λ is. is ≡ true → (more : List ℕ) × (out.new.items ≡ out.old.items ++ more) × IsDocument document.now more × (length more ≤ 64 * length document.now + 4096)) }
    ensures refused { IfOk result (λ is. is ≡ false → out.new.items ≡ out.old.items) }
    ensures failed { OnErr result (out.new.items ≡ out.old.items) }
{
    let start = out.len();
    let most = start.saturating_add(most_text(document.len()));
    match put_root(out, document, most) {
        Ok(true) => Ok(true),
        Ok(false) => {
            out.truncate(start);
            Ok(false)
        }
        Err(error) => {
            out.truncate(start);
            Err(error)
        }
    }
}
