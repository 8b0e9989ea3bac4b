//! The table maps of kept changes.

ghost use Rattle.std.specs.Prelude.{◌≡◌, ◌<◌, ◌∷◌, ◌++◌, [], IfOk, IfSome, IsOk, IsTrue, OnErr, OnOk, length, option_map};
ghost use Rattle.blog_pairs.specs.Tables.{HasMore};
ghost use Rattle.blog_row.specs.TableMap.{layout_of};
ghost use Rattle.blog_followed.specs.code.KeptView.{bodies_of, body_at};

use crate::held::KeptMap;
use std::alloc::{AllocError, Allocator};

/// Returns a copy of an image or of a body. Fails if out of memory.
pub(crate) fn copied<A: Allocator>(alloc: A, bytes: &[u8]) -> Result<Vec<u8, A>, AllocError>
    ensures { IfOk result (λ copy. copy.items ≡ bytes.now) }
{
    let mut copy = Vec::new(alloc);
    copy.extend_from_slice(bytes)?;
    Ok(copy)
}

/// Returns a copy of an image, if there is one. Fails if out of memory.
pub(crate) fn copied_after<A: Allocator>(
    alloc: A,
    after: Option<&[u8]>,
) -> Result<Option<Vec<u8, A>>, AllocError>
    ensures { IfOk result (λ copy. option_map (λ image. image.items) copy ≡ option_map (λ image. image.now) after.entry) }
{
    match after {
        Some(after) => Ok(Some(copied(alloc, after)?)),
        None => Ok(None),
    }
}

/// Returns whether a table map has a body.
fn has_body<A: Allocator>(map: &KeptMap<A>, body: &[u8]) -> bool
    ensures { IsTrue result → map.now.body.items ≡ body.now }
{
    map.body.as_slice() == body
}

/// Returns whether the table map with the number `last` has a body.
fn is_last<A: Allocator>(maps: &[KeptMap<A>], last: usize, body: &[u8]) -> bool
    ensures { IsTrue result → (last < length maps.now) × (body_at (bodies_of maps.now) last ≡ body.now) }
{
    match maps.get(last) {
        Some(map) => has_body(map, body),
        None => false,
    }
}

/// Returns the number of the table map with a body. The one with the number `last` is looked at first.
fn find_map<A: Allocator>(maps: &[KeptMap<A>], last: usize, body: &[u8]) -> Option<usize>
    ensures { IfSome result (λ n. (n < length maps.now) × (body_at (bodies_of maps.now) n ≡ body.now)) }
{
    if is_last(maps, last, body) {
        return Some(last);
    }
    let mut n = 0;
    for map in maps {
        if has_body(map, body) {
            return Some(n);
        }
        n += 1;
    }
    None
}

/// Adds a table map. Fails if out of memory, and then nothing changes.
fn add_map<A: Allocator + Copy>(
    alloc: A,
    maps: &mut Vec<KeptMap<A>, A>,
    body: &[u8],
) -> Result<(), AllocError>
    requires { IsOk (layout_of body.now) }
    ensures done { OnOk result (bodies_of maps.new.items ≡ bodies_of maps.old.items ++ body.now ∷ []) }
    ensures failed { OnErr result (bodies_of maps.new.items ≡ bodies_of maps.old.items) }
{
    let body = copied(alloc, body)?;
    maps.push(KeptMap { body })?;
    Ok(())
}

/// Returns the number of the table map with a body, which is kept from then on. The one with the number `last` is looked at first. Fails if out of
/// memory.
pub(crate) fn hold_map<A: Allocator + Copy>(
    alloc: A,
    maps: &mut Vec<KeptMap<A>, A>,
    last: usize,
    body: &[u8],
) -> Result<usize, AllocError>
    requires { IsOk (layout_of body.now) }
    ensures more { HasMore (bodies_of maps.old.items) (bodies_of maps.new.items) }
    ensures number { IfOk result (λ n. (n < length (bodies_of maps.new.items)) × (body_at (bodies_of maps.new.items) n ≡ body.now)) }
{
    match find_map(maps, last, body) {
        Some(n) => Ok(n),
        None => {
            let n = maps.len();
            add_map(alloc, maps, body)?;
            Ok(n)
        }
    }
}
