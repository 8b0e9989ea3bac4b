//! Going through the images of a rows event, one after the other.

ghost use Rattle.std.specs.Prelude.{◌≡◌, ◌<◌, ◌≤◌, ◌+◌, ◌^◌, ◌++◌, true, drop, length, is_some, option_map, unwrap_or, reverse, [], IfSome};
ghost use Rattle.std.specs.List.{concat};
ghost use Rattle.blog_row.specs.Column.{Layout as Columns};
ghost use Rattle.blog_row.specs.Image.{image_len_of, images_of};
ghost use Rattle.blog_row.specs.code.LayoutView.{layout_columns};
ghost use Rattle.blog_row.specs.code.StorageView.{AreStored, AreLookedUp};

use crate::column::Storage;
use crate::layout::Layout;
use crate::same_nulls::{count_same, put_image, put_same};
use crate::steady_nulls::SteadyNulls;
use crate::storages::{
    ALL_STORAGES, FEW_STORAGES, LEAST_STORAGES, MOST_STORAGES, WIDE_STORAGES, few_len_by, len_by,
};

/// Returns whether it pays to look up how the columns are stored before the first image of an event with `len` bytes of
/// images: if they have more than 64 bytes for each column, and the columns are at most 64. A single row seldom has as many.
#[inline(always)]
fn pays_before(columns: usize, len: usize) -> bool
    ensures { result ≡ true → columns ≤ 64 }
{
    columns <= MOST_STORAGES && columns < len / 64
}

/// Returns whether it pays to look up how the columns are stored after an image of `len` bytes, for the images in the `left`
/// bytes after it. To look up takes about as long as two images take by types. So more than two have to be left: by the
/// length of the last one, and with 32 bytes for each column, since the next one can be longer.
#[inline(always)]
fn pays_after(columns: usize, len: usize, left: usize) -> bool {
    len < left / 4 + left / 8 && columns < left / 32
}

/// Looks up how each column is stored, if that pays before images of `len` bytes are read one by one.
pub(crate) fn storages_for(layout: &Layout<'_>, len: usize) -> Option<[Storage; MOST_STORAGES]>
    ensures { AreLookedUp (layout_columns layout.now) result }
{
    let columns = layout.columns();
    if LEAST_STORAGES <= columns && pays_before(columns, len) {
        let mut storages = [Storage::Fixed(0); MOST_STORAGES];
        layout.look_up(&mut storages);
        Some(storages)
    } else {
        None
    }
}

/// The storages of the columns, where they were looked up.
#[inline(always)]
pub(crate) fn storages_of<'s>(
    layout: &Layout<'_>,
    storages: &'s Option<[Storage; MOST_STORAGES]>,
) -> Option<&'s [Storage]>
    requires { AreLookedUp (layout_columns layout.now) storages.now }
    ensures told { is_some result ≡ is_some storages.now }
    ensures stored { IfSome result (λ each. AreStored (layout_columns layout.now) each.now) }
{
    match storages {
        Some(all) => Some(&all[..layout.columns()]),
        None => None,
    }
}

/// How many images the bytes are, one after the other and without a remainder. It isn't inlined: among the code of its
/// callers, the walk by types would keep its place in memory.
#[inline(never)]
pub(crate) fn images_in(layout: &Layout<'_>, bytes: &[u8]) -> Option<usize>
    ensures { result ≡ option_map length (images_of (layout_columns layout.now) bytes.now) }
{
    let columns = layout.columns();
    if pays_before(columns, bytes.len()) {
        return count_stored(layout, 0, bytes);
    }
    let mut rest = bytes;
    let mut images = 0;
    'images: while !rest.is_empty() {
        let len = layout.image_len(rest)?;
        let (_, behind) = rest.split_at(len);
        rest = behind;
        images += 1;
        if pays_after(columns, len, rest.len()) {
            return count_stored(layout, images, rest);
        }
    }
    Some(images)
}

/// Returns how long the image is that the bytes begin with, in bytes; None if they begin with none. The storages are those of
/// its columns, at most `MOST`.
#[inline(always)]
fn len_up_to<const MOST: usize>(storages: &[Storage], steady: bool, bytes: &[u8]) -> Option<usize>
    requires small { MOST ≤ 4096 }
    requires some { 0 < length storages.now }
    requires few { length storages.now ≤ MOST }
    ensures exact { (columns : Columns) → AreStored columns storages.now → result ≡ image_len_of columns bytes.now }
    ensures within { IfSome result (λ m. m ≤ length bytes.now) }
{
    if MOST <= FEW_STORAGES {
        few_len_by(storages, bytes)
    } else {
        len_by(storages, steady, bytes)
    }
}

/// Counts images by how the columns are stored, and adds them to those that were counted before.
#[inline(never)]
fn count_stored(layout: &Layout<'_>, before: usize, bytes: &[u8]) -> Option<usize>
    requires few { before + length bytes.now < 2 ^ 64 }
    ensures { result ≡ option_map (λ images. before + length images) (images_of (layout_columns layout.now) bytes.now) }
{
    let columns = layout.columns();
    if columns <= FEW_STORAGES {
        count_up_to::<FEW_STORAGES>(layout, before, bytes)
    } else if columns <= MOST_STORAGES {
        count_up_to::<MOST_STORAGES>(layout, before, bytes)
    } else if columns <= WIDE_STORAGES {
        count_up_to::<WIDE_STORAGES>(layout, before, bytes)
    } else {
        count_up_to::<ALL_STORAGES>(layout, before, bytes)
    }
}

/// Does the same of at most `MOST` columns. It isn't inlined, since each call pays for the room of its storages.
#[inline(never)]
fn count_up_to<const MOST: usize>(layout: &Layout<'_>, before: usize, bytes: &[u8]) -> Option<usize>
    requires small { MOST ≤ 4096 }
    requires columns { length (layout_columns layout.now) ≤ MOST }
    requires few { before + length bytes.now < 2 ^ 64 }
    ensures { result ≡ option_map (λ images. before + length images) (images_of (layout_columns layout.now) bytes.now) }
{
    let mut room = [Storage::Fixed(0); MOST];
    layout.look_up(&mut room);
    let storages = &room[..layout.columns()];
    let (same, mut rest) = count_same(storages, bytes);
    let mut images = before + same;
    let mut nulls = SteadyNulls::new(layout.columns(), rest.len());
    'images: while !rest.is_empty() {
        let len = len_up_to::<MOST>(storages, nulls.are_steady(), rest)?;
        nulls.look_at(rest);
        let (_, behind) = rest.split_at(len);
        rest = behind;
        images += 1;
    }
    Some(images)
}

/// Writes images from the last to the first into room of their size. It takes no memory.
pub(crate) fn put_from_last(layout: &Layout<'_>, bytes: &[u8], to: &mut [u8])
    requires imaged { is_some (images_of (layout_columns layout.now) bytes.now) ≡ true }
    requires room { length to.old ≡ length bytes.now }
    ensures { to.new ≡ concat (reverse (unwrap_or (images_of (layout_columns layout.now) bytes.now) [])) }
{
    let columns = layout.columns();
    if pays_before(columns, bytes.len()) {
        put_stored(layout, bytes, to);
        return;
    }
    let mut rest = bytes;
    'images: while !rest.is_empty() {
        let Some(len) = layout.image_len(rest) else {
            unreachable!();
        };
        let (image, behind) = rest.split_at(len);
        // As many bytes are still free in front as there are still to be read.
        to[behind.len()..rest.len()].copy_from_slice(image);
        rest = behind;
        if pays_after(columns, len, rest.len()) {
            put_stored(layout, rest, to);
            return;
        }
    }
}

/// Writes images from the last to the first to the beginning of the room, by how the columns are stored.
#[inline(never)]
fn put_stored(layout: &Layout<'_>, bytes: &[u8], to: &mut [u8])
    requires imaged { is_some (images_of (layout_columns layout.now) bytes.now) ≡ true }
    requires room { length bytes.now ≤ length to.old }
    ensures { to.new ≡ concat (reverse (unwrap_or (images_of (layout_columns layout.now) bytes.now) [])) ++ drop (length bytes.now) to.old }
{
    let columns = layout.columns();
    if columns <= FEW_STORAGES {
        put_up_to::<FEW_STORAGES>(layout, bytes, to);
    } else if columns <= MOST_STORAGES {
        put_up_to::<MOST_STORAGES>(layout, bytes, to);
    } else if columns <= WIDE_STORAGES {
        put_up_to::<WIDE_STORAGES>(layout, bytes, to);
    } else {
        put_up_to::<ALL_STORAGES>(layout, bytes, to);
    }
}

/// Does the same of at most `MOST` columns.
#[inline(never)]
fn put_up_to<const MOST: usize>(layout: &Layout<'_>, bytes: &[u8], to: &mut [u8])
    requires small { MOST ≤ 4096 }
    requires columns { length (layout_columns layout.now) ≤ MOST }
    requires imaged { is_some (images_of (layout_columns layout.now) bytes.now) ≡ true }
    requires room { length bytes.now ≤ length to.old }
    ensures { to.new ≡ concat (reverse (unwrap_or (images_of (layout_columns layout.now) bytes.now) [])) ++ drop (length bytes.now) to.old }
{
    let mut room = [Storage::Fixed(0); MOST];
    layout.look_up(&mut room);
    let columns = layout.columns();
    let storages = &room[..columns];
    let mut rest = put_same(storages, bytes, to);
    let mut nulls = SteadyNulls::new(columns, rest.len());
    'images: while !rest.is_empty() {
        let Some(len) = len_up_to::<MOST>(storages, nulls.are_steady(), rest) else {
            unreachable!();
        };
        nulls.look_at(rest);
        rest = put_image(len, rest, to);
    }
}
