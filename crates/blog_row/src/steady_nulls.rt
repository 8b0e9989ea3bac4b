//! Whether the images of an event have the null bits of the images two before them, as in an update the images before
//! and after the change. A processor predicts these, and then it takes less time to jump over a NULL than to mask it.

use crate::storages::FEW_STORAGES;
use byteorder::{ByteOrder, LittleEndian};

/// How many images are looked at. Each but the first two is compared with the image two before it.
const LOOKED_AT: u32 = 8;

/// The fewest bytes of images that are looked at. With fewer, hardly an image is left after eight.
const LEAST_BYTES: usize = 1024;

/// How many bytes at the beginning of an image are compared. They have the null bits of at most 64 columns.
const COMPARED_BYTES: usize = 8;

/// What is known of how steady the null bits of images are. It decides how fast a walk over them is, and nothing else.
#[derive(Clone, Copy, Debug)]
pub(crate) struct SteadyNulls<'a> {
    steady: bool,
    // The null bits in the first bytes of an image.
    columns: u64,
    // How many images are still to be looked at.
    left: u32,
    // How many null bits were others than those two images before.
    changed: u32,
    // The images from the last but one and from the last on; none at first.
    last_but_one: &'a [u8],
    last: &'a [u8],
}

impl<'a> SteadyNulls<'a> {
    /// Returns what is known before the first image, of `len` bytes of images. Images of a narrow table, or of few bytes in
    /// all, aren't looked at.
    #[inline(always)]
    pub(crate) fn new(columns: usize, len: usize) -> SteadyNulls<'a> {
        SteadyNulls {
            steady: false,
            columns: if columns < 64 {
                (1 << columns) - 1
            } else {
                u64::MAX
            },
            left: if columns <= FEW_STORAGES || len < LEAST_BYTES {
                0
            } else {
                LOOKED_AT
            },
            changed: 0,
            last_but_one: &[],
            last: &[],
        }
    }

    /// Returns whether null bits are steady, as far as they were looked at.
    #[inline(always)]
    pub(crate) fn are_steady(&self) -> bool {
        self.steady
    }

    /// Looks at the null bits of the image that the bytes begin with, if it is one of the first.
    #[inline(always)]
    pub(crate) fn look_at(&mut self, bytes: &'a [u8]) {
        if self.left > 0 {
            self.compare(bytes);
        }
    }

    /// Compares the null bits of an image with those of the image two before it. They are steady if fewer than one in sixteen
    /// is another one: a wrong prediction takes about as long as the masks of some sixteen columns.
    #[inline(never)]
    fn compare(&mut self, bytes: &'a [u8]) {
        let before = self.last_but_one;
        if COMPARED_BYTES <= before.len() && COMPARED_BYTES <= bytes.len() {
            let others = LittleEndian::read_u64(before) ^ LittleEndian::read_u64(bytes);
            self.changed = self
                .changed
                .saturating_add((others & self.columns).count_ones());
        }
        self.last_but_one = self.last;
        self.last = bytes;
        self.left = self.left.saturating_sub(1);
        if self.left == 0 {
            let compared = (LOOKED_AT - 2).saturating_mul(self.columns.count_ones());
            self.steady = self.changed.saturating_mul(16) < compared;
        }
    }
}
