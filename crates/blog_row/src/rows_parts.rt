//! The parts of a rows event's body.

ghost use Rattle.std.specs.Prelude.{◌≡◌, ◌<◌, ◌≤◌, ◌*◌, ℕ, true, length, option_map, IfSome};
ghost use Rattle.std.specs.List.{list_all, AllByRecursion};
ghost use Rattle.blog_row.specs.Checks.{or_bad};
ghost use Rattle.blog_row.specs.RowsKind.{images_a_row};
ghost use Rattle.blog_row.specs.Image.{bitmap_len, is_marked};
ghost use Rattle.blog_row.specs.RowsEvent.{are_marked, pieces, bitmaps_by, extra_of, two_bitmaps};
ghost use Rattle.blog_row.specs.code.RowsEventView.{extra_seen, front_seen, rows_front, bitmaps_seen};
ghost use Rattle.blog_row.specs.declared.kind.RowsVersion.TheVariants.{Two};

use crate::image::{cut_at, is_set};
use crate::kind::{RowsAction, RowsVersion};
use byteorder::{ByteOrder, LittleEndian};

/// The fields of a rows event's body up to its extra bytes.
#[derive(Clone, Copy, Debug)]
pub(crate) struct Front<'a> {
    /// The six bytes of the table id.
    pub(crate) id: &'a [u8],
    /// The two bytes of the flags.
    pub(crate) flags: &'a [u8],
    /// The two bytes of the length of the extra bytes, which counts itself.
    pub(crate) extra_len: &'a [u8],
    /// The extra bytes.
    pub(crate) extra: &'a [u8],
    /// The bytes behind them.
    pub(crate) rest: &'a [u8],
}

/// The extra bytes of a rows event's body; all empty in version 1.
#[derive(Clone, Copy, Debug)]
pub(crate) struct Extra<'a> {
    /// The two bytes of their length, which counts itself.
    pub(crate) len: &'a [u8],
    /// The extra bytes.
    pub(crate) bytes: &'a [u8],
    /// The bytes behind them.
    pub(crate) rest: &'a [u8],
}

/// The extra bytes at the front, behind their length.
fn counted_extra_at(bytes: &[u8]) -> Option<Extra<'_>>
    ensures { option_map extra_seen result ≡ extra_of Two bytes.now }
{
    let (len, behind) = cut_at(2, bytes)?;
    let counted = usize::from(LittleEndian::read_u16(len));
    if counted < 2 {
        return None;
    }
    let (bytes, rest) = cut_at(counted - 2, behind)?;
    Some(Extra { len, bytes, rest })
}

/// The extra length and the extra bytes at the front, which only version 2 has.
pub(crate) fn extra_at(version: RowsVersion, bytes: &[u8]) -> Option<Extra<'_>>
    ensures { option_map extra_seen result ≡ extra_of version bytes.now }
{
    match version {
        RowsVersion::One => {
            let (none, rest) = bytes.split_at(0);
            Some(Extra {
                len: none,
                bytes: none,
                rest,
            })
        }
        RowsVersion::Two => counted_extra_at(bytes),
    }
}

/// The fields up to the extra bytes, where the body has them.
#[tactic(auto, unfolding(crate::specs::code::RowsEventView::rows_front))]
pub(crate) fn front_at(version: RowsVersion, body: &[u8]) -> Option<Front<'_>>
    ensures { option_map front_seen result ≡ rows_front version body.now }
{
    let (id, behind) = cut_at(6, body)?;
    let (flags, behind) = cut_at(2, behind)?;
    let extra = extra_at(version, behind)?;
    Some(Front {
        id,
        flags,
        extra_len: extra.len,
        extra: extra.bytes,
        rest: extra.rest,
    })
}

/// The bitmaps of the columns present.
#[derive(Clone, Copy, Debug)]
pub(crate) struct Bitmaps<'a> {
    /// The bitmap of the only image of a row, or of the one before the change.
    pub(crate) first: &'a [u8],
    /// The bitmap of the image after a change, else empty.
    pub(crate) second: &'a [u8],
    /// The bytes behind the bitmaps.
    pub(crate) rest: &'a [u8],
}

/// The bitmaps at the front, of `len` bytes each.
pub(crate) fn bitmaps_at(action: RowsAction, len: usize, bytes: &[u8]) -> Option<Bitmaps<'_>>
    ensures exact { or_bad (option_map (bitmaps_seen action) result) ≡ pieces (images_a_row action) len bytes.now }
    ensures two { IfSome result (λ b. (b.first.now, b.second.now) ≡ two_bitmaps (bitmaps_by action b.first.now b.second.now)) }
{
    let (first, behind) = cut_at(len, bytes)?;
    match action {
        RowsAction::Write | RowsAction::Delete => {
            let (second, rest) = behind.split_at(0);
            Some(Bitmaps {
                first,
                second,
                rest,
            })
        }
        RowsAction::Update => {
            let (second, rest) = cut_at(len, behind)?;
            Some(Bitmaps {
                first,
                second,
                rest,
            })
        }
    }
}

/// Whether all bits are set, those behind the last column too.
fn is_full(bitmap: &[u8]) -> bool
    ensures { result ≡ true → (i : ℕ) → i < 8 * length bitmap.now → is_marked bitmap.now i ≡ true }
{
    for byte in bitmap {
        if *byte != 255 {
            return false;
        }
    }
    true
}

/// Whether the first `columns` bits are set.
pub(crate) fn are_set(bitmap: &[u8], columns: usize) -> bool
    requires { columns ≤ 8 * length bitmap.now }
    ensures { result ≡ are_marked columns bitmap.now }
{
    // A server sets the bits behind the last column too.
    if is_full(bitmap) {
        return true;
    }
    for i in 0..columns {
        if !is_set(bitmap, i) {
            return false;
        }
    }
    true
}

/// Whether the first `columns` bits of each bitmap that the kind has are set.
pub(crate) fn all_set(action: RowsAction, first: &[u8], second: &[u8], columns: usize) -> bool
    requires { AllByRecursion (λ bitmap. length bitmap ≡ bitmap_len columns) (bitmaps_by action first.now second.now) }
    ensures { result ≡ list_all (are_marked columns) (bitmaps_by action first.now second.now) }
{
    match action {
        RowsAction::Write | RowsAction::Delete => are_set(first, columns),
        RowsAction::Update => are_set(first, columns) && are_set(second, columns),
    }
}
