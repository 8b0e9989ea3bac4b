//! How long images are, by their null bits alone, for a few columns of fixed width. Two bytes of null bits are known with
//! their lengths, one for every first and one for every second image, because an update has an image before the change and
//! one after it by turns. An image is compared with its own byte, and then with the other one. A processor predicts which it
//! is equal to, and goes on after the image without waiting for its null bits.

ghost use Rattle.std.specs.Prelude.{◌≡◌, ◌<◌, ◌≤◌, ◌+◌, true, ℕ, List, is_some, Some, length, slice_get, option_map, IfSome};
ghost use Rattle.blog_row.specs.Column.{Layout};
ghost use Rattle.blog_row.specs.Image.{image_len_of, images_of};
ghost use Rattle.blog_row.specs.code.ReversingView.{Written};
ghost use Rattle.blog_row.specs.code.SameNullsView.{AreFewFixed, IsLengthWith, IsLengthBy};
ghost use Rattle.blog_row.specs.code.StorageView.{AreStored};

use crate::column::Storage;
use crate::storages::if_there;

/// The most columns of which null bits are compared: those of one byte.
const MOST_COMPARED: usize = 8;

/// How many bytes have to be passed for each change of the null bits, so that it pays to compare them: a processor
/// doesn't predict a change. The changes of every second image are counted apart from those of the others.
const BYTES_PER_CHANGE: usize = 64;

/// How many changes pay in any case, counted in the same way.
const FIRST_CHANGES: usize = 3;

/// Null bits, and how long each image that begins with them is, in bytes.
#[derive(Clone, Copy, Debug)]
pub(crate) struct SameNulls {
    nulls: u8,
    len: usize,
    // The most bytes that may be left at the next change, for comparing to go on.
    left: usize,
}

/// How long each image with these null bits is, where its columns are few and each has a fixed width.
#[inline(never)]
fn fixed_len(storages: &[Storage], nulls: u8) -> Option<usize>
    requires some { 0 < length storages.now }
    ensures length { IfSome result (λ len. (columns : Layout) → AreStored columns storages.now → IsLengthWith columns nulls len) }
    ensures some { IfSome result (λ len. 0 < len) }
    ensures given { AreFewFixed storages.now → is_some result ≡ true }
{
    let columns = storages.len();
    if MOST_COMPARED < columns {
        return None;
    }
    let mut len = 1;
    for i in 0..columns {
        let Storage::Fixed(width) = storages[i] else {
            return None;
        };
        len += if_there(u32::from(width), (nulls >> i) % 2) as usize;
    }
    Some(len)
}

/// What is expected in front of images of so many bytes: no NULLs.
#[inline(always)]
fn same_at_first(storages: &[Storage], len: usize) -> Option<SameNulls>
    requires some { 0 < length storages.now }
    ensures nulls { IfSome result (λ same. same.nulls ≡ 0) }
    ensures length { IfSome result (IsLengthBy storages.now) }
    ensures given { AreFewFixed storages.now → is_some result ≡ true }
{
    let own = fixed_len(storages, 0)?;
    Some(SameNulls {
        nulls: 0,
        len: own,
        left: len.saturating_add((FIRST_CHANGES - 1) * BYTES_PER_CHANGE),
    })
}

/// The same of other null bits, with which so many bytes begin; None where they change too often.
#[inline(always)]
fn changed(storages: &[Storage], before: SameNulls, nulls: u8, len: usize) -> Option<SameNulls>
    requires some { 0 < length storages.now }
    ensures nulls { IfSome result (λ same. same.nulls ≡ nulls) }
    ensures length { IfSome result (IsLengthBy storages.now) }
    ensures given { AreFewFixed storages.now → len ≤ before.left → is_some result ≡ true }
{
    if before.left < len {
        return None;
    }
    let own = fixed_len(storages, nulls)?;
    Some(SameNulls {
        nulls,
        len: own,
        left: before.left.saturating_sub(BYTES_PER_CHANGE),
    })
}

/// How long an image is, and the null bits that are expected of the image two after it.
#[derive(Clone, Copy, Debug)]
struct Next {
    len: usize,
    kept: SameNulls,
}

/// How long the image is with which the bytes begin, by the null bits that are expected or by the other ones; None where
/// they begin with none, or where it doesn't pay to compare null bits.
#[inline(always)]
fn next_same(
    storages: &[Storage],
    before: SameNulls,
    other: SameNulls,
    bytes: &[u8],
) -> Option<Next>
    requires some { 0 < length storages.now }
    requires length { IsLengthBy storages.now before }
    requires other { IsLengthBy storages.now other }
    ensures exact { IfSome result (λ next. (columns : Layout) → AreStored columns storages.now → image_len_of columns bytes.now ≡ Some next.len) }
    ensures within { IfSome result (λ next. (0 < next.len) × (next.len ≤ length bytes.now)) }
    ensures length { IfSome result (λ next. IsLengthBy storages.now next.kept) }
    ensures given { slice_get bytes.now 0 ≡ Some before.nulls → before.len ≤ length bytes.now → result ≡ Some (record { len = before.len; kept = before }) }
{
    let nulls = *bytes.first()?;
    let next = if nulls == before.nulls {
        Next {
            len: before.len,
            kept: before,
        }
    } else if nulls == other.nulls {
        Next {
            len: other.len,
            kept: before,
        }
    } else {
        let kept = changed(storages, before, nulls, bytes.len())?;
        Next {
            len: kept.len,
            kept,
        }
    };
    if next.len <= bytes.len() {
        Some(next)
    } else {
        None
    }
}

/// Counts images from the front, as long as it pays to compare their null bits; and gives the bytes behind them.
#[inline(never)]
pub(crate) fn count_same<'a>(storages: &[Storage], bytes: &'a [u8]) -> (usize, &'a [u8])
    requires some { 0 < length storages.now }
    ensures images { (columns : Layout) → AreStored columns storages.now → option_map (λ others. result.0 + length others) (images_of columns result.1.now) ≡ option_map length (images_of columns bytes.now) }
    ensures few { result.0 + length result.1.now ≤ length bytes.now }
{
    let mut rest = bytes;
    let mut images = 0;
    let Some(mut first) = same_at_first(storages, bytes.len()) else {
        return (0, bytes);
    };
    let mut second = first;
    'images: while let Some(one) = next_same(storages, first, second, rest) {
        let (_, behind) = rest.split_at(one.len);
        rest = behind;
        images += 1;
        first = one.kept;
        let Some(two) = next_same(storages, second, first, rest) else {
            return (images, rest);
        };
        let (_, behind) = rest.split_at(two.len);
        rest = behind;
        images += 1;
        second = two.kept;
    }
    (images, rest)
}

/// Writes the image with which the bytes begin to the end of the free room, and gives the bytes after it. As many bytes
/// are free as are still to be read.
#[inline(always)]
pub(crate) fn put_image<'a>(len: usize, rest: &'a [u8], to: &mut [u8]) -> &'a [u8]
    requires within { len ≤ length rest.now }
    requires room { length rest.now ≤ length to.old }
    ensures left { length result.now + len ≡ length rest.now }
    ensures long { length to.new ≡ length to.old }
    ensures written { (columns : Layout) → (all : List (List ℕ)) → 0 < length columns → image_len_of columns rest.now ≡ Some len → Written columns all rest.now to.old → Written columns all result.now to.new }
{
    let (image, behind) = rest.split_at(len);
    to[behind.len()..rest.len()].copy_from_slice(image);
    behind
}

/// Writes images from the front, the first to the end of the room and each of the others before it, as long as it pays
/// to compare their null bits; and gives the bytes behind them.
#[inline(never)]
pub(crate) fn put_same<'a>(storages: &[Storage], bytes: &'a [u8], to: &mut [u8]) -> &'a [u8]
    requires some { 0 < length storages.now }
    requires room { length bytes.now ≤ length to.old }
    ensures { (columns : Layout) → (all : List (List ℕ)) → AreStored columns storages.now → Written columns all bytes.now to.old → Written columns all result.now to.new }
{
    let mut rest = bytes;
    let Some(mut first) = same_at_first(storages, bytes.len()) else {
        return bytes;
    };
    let mut second = first;
    'images: while let Some(one) = next_same(storages, first, second, rest) {
        rest = put_image(one.len, rest, to);
        first = one.kept;
        let Some(two) = next_same(storages, second, first, rest) else {
            return rest;
        };
        rest = put_image(two.len, rest, to);
        second = two.kept;
    }
    rest
}
