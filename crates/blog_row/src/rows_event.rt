//! Rows events: the fixed part of a body, a whole body as it was read, and the body that is written for it, with its rows as
//! they stand or reversed.

ghost use Rattle.std.specs.Prelude.{◌≡◌, ◌+◌, ◌≤◌, ◌<◌, ◌%◌, ◌^◌, ◌==◌, ◌++◌, Some, drop, length, is_some, take, true};
ghost use Rattle.blog_event.specs.Writing.{joined};
ghost use Rattle.blog_row.specs.declared.kind.RowsVersion.{RowsVersion};
ghost use Rattle.blog_row.specs.Image.{images_of, bitmap_len};
ghost use Rattle.blog_row.specs.code.LayoutView.{layout_columns};
ghost use Rattle.blog_row.specs.Column.{Layout as Columns};
ghost use Rattle.blog_row.specs.RowsEvent.{IsRowsBody, RowsBody, bitmaps_by, fixed_len, two_bitmaps};
ghost use Rattle.blog_row.specs.RowsWriting.{content_of, no_extra, written_body};

use crate::fault::RowFault;
use crate::image_walks::{images_in, put_from_last};
use crate::kind::{RowsAction, RowsKind, RowsVersion};
use crate::layout::Layout;
use crate::order::Order;
use crate::packed::packed_at;
use crate::rows_parts::{all_set, bitmaps_at, front_at};
use byteorder::{ByteOrder, LittleEndian};

/// How long the fixed part is: id and flags, and in version 2 the length of the extra bytes.
fn fixed_len(version: RowsVersion) -> usize
    ensures { result ≡ fixed_len version }
{
    match version {
        RowsVersion::One => 8,
        RowsVersion::Two => 10,
    }
}

/// The table id and the flags of a rows event (MySQL Internals manual, "Rows_event").
#[derive(Clone, Copy, Debug, PartialEq, Eq)]
pub struct RowsHead {
    table: u64,
    bits: u16,
}

impl RowsHead {
    ghost use Rattle.std.specs.Prelude.{List, ℕ, Ok};
    ghost use Rattle.blog_row.specs.RowsEvent.{has_end_flag, table_id};
    ghost use Rattle.byteorder.specs.Endian.{little_number};
    ghost use Rattle.blog_row.specs.code.RowsEventView.{head_of, head_table, head_flags};

    /// Reads the table id and the flags: `BadBody` where the body is shorter than the fixed part, of eight bytes in version
    /// 1 and of ten in version 2.
    pub fn read(version: RowsVersion, body: &[u8]) -> Result<RowsHead, RowFault>
        ensures { result ≡ head_of version body.now }
    {
        if body.len() < fixed_len(version) {
            return Err(RowFault::BadBody);
        }
        let (id, behind) = body.split_at(6);
        Ok(RowsHead {
            table: LittleEndian::read_u48(id),
            bits: LittleEndian::read_u16(behind),
        })
    }

    /// The table id, from 0 to 2^48 - 1: six bytes, the lowest first.
    pub fn table_id(&self) -> u64
        ensures own { result ≡ head_table self.now }
        ensures body { (version : RowsVersion) → (body : List ℕ) → head_of version body ≡ Ok self.now → result ≡ little_number 6 (table_id body) }
    {
        self.table
    }

    /// Whether the event is marked as the last rows event of its statement.
    pub fn ends(&self) -> bool
        ensures own { result ≡ (head_flags self.now % 2 == 1) }
        ensures body { (version : RowsVersion) → (body : List ℕ) → head_of version body ≡ Ok self.now → result ≡ has_end_flag body }
    {
        self.bits % 2 == 1
    }
}

/// The body of a rows event (MySQL Internals manual, "Rows_event").
#[derive(Clone, Copy, Debug)]
pub struct RowsEvent<'a> {
    kind: RowsKind,
    id: &'a [u8],
    flags: &'a [u8],
    extra_len: &'a [u8],
    extra: &'a [u8],
    count: &'a [u8],
    first: &'a [u8],
    second: &'a [u8],
    images: &'a [u8],
    layout: Layout<'a>,
    pub ghost id_len: { length id.now ≡ 6 },
    pub ghost flags_len: { length flags.now ≡ 2 },
    pub ghost extra_long: { length (no_extra kind.version) ≤ length extra_len.now },
    pub ghost fits: { 8 + length extra_len.now + length count.now + length first.now + length second.now + length images.now < 2 ^ 64 },
    pub ghost two: { (first.now, second.now) ≡ two_bitmaps (bitmaps_by kind.action first.now second.now) },
    pub ghost imaged: { is_some (images_of (layout_columns layout) images.now) ≡ true },
}

impl<'a> RowsEvent<'a> {
    ghost use Rattle.std.specs.Prelude.{List, ℕ, Ok, IfOk, IfSome, IsOk, IsSome};
    ghost use Rattle.std.specs.List.{concat};
    ghost use Rattle.byteorder.specs.Endian.{little_number};
    ghost use Rattle.blog_row.specs.RowsKind.{rows_kind_of};
    ghost use Rattle.blog_row.specs.RowsEvent.{RowsBody, IsRowsBody, rows_of};
    ghost use Rattle.blog_row.specs.code.RowsEventView.{rows_kind, rows_layout, rows_body, rows_seen, counted_seen};

    /// Reads a body by its event type, a number of a kind of rows events, and by the layout of its table, or gives the
    /// first check that fails: `PartialImage` where a column isn't in the images, and otherwise `BadBody`.
    pub fn read(kind: u8, body: &'a [u8], layout: &Layout<'a>) -> Result<RowsEvent<'a>, RowFault>
        requires rows { IsSome (rows_kind_of kind) }
        ensures exact { IfSome (rows_kind_of kind) (λ k. rows_seen result ≡ rows_of k (layout_columns layout.now) body.now) }
        ensures found { IfSome (rows_kind_of kind) (λ k. IfOk result (λ event. IsRowsBody k (layout_columns layout.now) body.now (rows_body event))) }
        ensures only { (fields : RowsBody) → IfSome (rows_kind_of kind) (λ k. IsRowsBody k (layout_columns layout.now) body.now fields → rows_seen result ≡ Ok fields) }
        ensures of_kind { IfOk result (λ event. rows_kind_of kind ≡ Some (rows_kind event)) }
        ensures of_layout { IfOk result (λ event. rows_layout event ≡ layout.now) }
    {
        let Some(kind) = RowsKind::of_type(kind) else {
            unreachable!();
        };
        let (event, _) = RowsEvent::read_counted(kind, body, layout)?;
        Ok(event)
    }

    /// Reads a body as `read` does, by its kind in place of its event type; beside the event it answers how many images
    /// that has.
    #[tactic(auto, using(crate::proofs::RowsCode::event_found, crate::proofs::RowsCode::event_only, crate::proofs::RowsCode::some_columns))]
    pub fn read_counted(
        kind: RowsKind,
        body: &'a [u8],
        layout: &Layout<'a>,
    ) -> Result<(RowsEvent<'a>, usize), RowFault>
        ensures exact { counted_seen result ≡ rows_of kind (layout_columns layout.now) body.now }
        ensures counted { IfOk result (λ read. read.1 ≡ length (rows_body read.0).images) }
        ensures of_kind { IfOk result (λ read. rows_kind read.0 ≡ kind) }
        ensures of_layout { IfOk result (λ read. rows_layout read.0 ≡ layout.now) }
        ensures found { IfOk result (λ read. IsRowsBody kind (layout_columns layout.now) body.now (rows_body read.0)) }
        ensures only { (fields : RowsBody) → IsRowsBody kind (layout_columns layout.now) body.now fields → counted_seen result ≡ Ok fields }
    {
        RowsEvent::at(kind, body, layout)
    }

    /// The event of a body with the number of its images, or the first check that fails.
    #[tactic(auto, unfolding(crate::specs::code::RowsEventView::rows_front, crate::specs::RowsEvent::rows_of))]
    fn at(
        kind: RowsKind,
        body: &'a [u8],
        layout: &Layout<'a>,
    ) -> Result<(RowsEvent<'a>, usize), RowFault>
        ensures exact { counted_seen result ≡ rows_of kind (layout_columns layout.now) body.now }
        ensures counted { IfOk result (λ read. read.1 ≡ length (rows_body read.0).images) }
        ensures of_kind { IfOk result (λ read. rows_kind read.0 ≡ kind) }
        ensures of_layout { IfOk result (λ read. rows_layout read.0 ≡ layout.now) }
    {
        let Some(front) = front_at(kind.version, body) else {
            return Err(RowFault::BadBody);
        };
        let Some(count) = packed_at(front.rest) else {
            return Err(RowFault::BadBody);
        };
        let columns = layout.columns();
        if count.value != columns as u64 {
            return Err(RowFault::BadBody);
        }
        let Some(bitmaps) = bitmaps_at(kind.action, columns.div_ceil(8), count.rest) else {
            return Err(RowFault::BadBody);
        };
        if !all_set(kind.action, bitmaps.first, bitmaps.second, columns) {
            return Err(RowFault::PartialImage);
        }
        let Some(len) = images_in(layout, bitmaps.rest) else {
            return Err(RowFault::BadBody);
        };
        if len % kind.action.images_a_row() != 0 {
            return Err(RowFault::BadBody);
        }
        let event = RowsEvent {
            kind,
            id: front.id,
            flags: front.flags,
            extra_len: front.extra_len,
            extra: front.extra,
            count: count.spelling,
            first: bitmaps.first,
            second: bitmaps.second,
            images: bitmaps.rest,
            layout: *layout,
        };
        Ok((event, len))
    }

    /// The event of a body, where it is known that reading gives one. The images are not read again: it takes as long
    /// for many rows as for few.
    #[tactic(auto, unfolding(crate::specs::RowsEvent::rows_of, crate::specs::code::RowsEventView::rows_front))]
    #[inline(always)]
    pub fn known(kind: RowsKind, body: &'a [u8], layout: &Layout<'a>) -> RowsEvent<'a>
        requires { IsOk (rows_of kind (layout_columns layout.now) body.now) }
        ensures body { rows_of kind (layout_columns layout.now) body.now ≡ Ok (rows_body result) }
        ensures of_kind { rows_kind result ≡ kind }
        ensures of_layout { rows_layout result ≡ layout.now }
    {
        let Some(front) = front_at(kind.version, body) else {
            unreachable!();
        };
        let Some(count) = packed_at(front.rest) else {
            unreachable!();
        };
        let len = layout.columns().div_ceil(8);
        let Some(bitmaps) = bitmaps_at(kind.action, len, count.rest) else {
            unreachable!();
        };
        RowsEvent {
            kind,
            id: front.id,
            flags: front.flags,
            extra_len: front.extra_len,
            extra: front.extra,
            count: count.spelling,
            first: bitmaps.first,
            second: bitmaps.second,
            images: bitmaps.rest,
            layout: *layout,
        }
    }

    /// The table id, from 0 to 2^48 - 1: six bytes, the lowest first.
    pub fn table_id(&self) -> u64
        ensures id { result ≡ little_number 6 (rows_body self.now).id }
    {
        LittleEndian::read_u48(self.id)
    }

    /// The flags.
    pub fn flags(&self) -> u16
        ensures flags { result ≡ little_number 2 (rows_body self.now).flags }
    {
        LittleEndian::read_u16(self.flags)
    }

    /// Whether the event is marked as the last rows event of its statement.
    pub fn ends(&self) -> bool
        ensures ends { result ≡ (little_number 2 (rows_body self.now).flags % 2 == 1) }
    {
        self.flags() % 2 == 1
    }

    /// The six bytes of the table id.
    pub(crate) fn id(&self) -> &'a [u8]
        ensures { result.now ≡ (rows_body self.now).id }
    {
        self.id
    }

    /// The bytes of the packed column count.
    pub fn count(&self) -> &'a [u8]
        ensures { result.now ≡ (rows_body self.now).count }
    {
        self.count
    }

    /// The bitmaps of the columns present: that of the only image of a row or of the one before a change, and that of
    /// the one after, which is empty where there is none.
    pub fn bitmaps(&self) -> (&'a [u8], &'a [u8])
        ensures two { (result.0.now, result.1.now) ≡ two_bitmaps (rows_body self.now).bitmaps }
    {
        (self.first, self.second)
    }

    /// The images of all rows, one after the other.
    #[tactic(auto, using(crate::proofs::RowsCode::images_are_joined))]
    pub fn images(&self) -> &'a [u8]
        ensures joined { result.now ≡ concat (rows_body self.now).images }
        ensures read { images_of (layout_columns (rows_layout self.now)) result.now ≡ Some (rows_body self.now).images }
    {
        self.images
    }

    /// How many bytes the images have together.
    #[tactic(auto, using(crate::proofs::RowsCode::images_are_joined))]
    pub fn rows_len(&self) -> usize
        ensures { result ≡ length (concat (rows_body self.now).images) }
    {
        self.images.len()
    }

    /// The columns of the table.
    pub fn layout(&self) -> Layout<'a>
        ensures { result ≡ rows_layout self.now }
    {
        self.layout
    }

    /// The kind of the event: the version of its body, and what it does to its rows.
    pub fn kind(&self) -> RowsKind
        ensures { result ≡ rows_kind self.now }
    {
        self.kind
    }
}

/// How many bytes the table id has.
const ID_LEN: usize = 6;

/// How many bytes the table id and the flags have.
const HEAD_LEN: usize = 8;

/// The extra length of a rows event of version 2 without extra bytes: that of its own two bytes.
const NO_EXTRA: [u8; 2] = [2, 0];

/// How many bytes the extra length has where there are no extra bytes: none in version 1.
fn extra_len(version: RowsVersion) -> usize
    ensures { result ≡ length (no_extra version) }
{
    match version {
        RowsVersion::One => 0,
        RowsVersion::Two => NO_EXTRA.len(),
    }
}

/// Writes a slice over bytes, from position `at` on. Most slices have a byte or none, for which no call pays.
#[inline(always)]
fn write_at(to: &mut [u8], at: usize, part: &[u8])
    requires { at + length part.now ≤ length to.old }
    ensures { to.new ≡ take at to.old ++ (part.now ++ drop (at + length part.now) to.old) }
{
    match part.len() {
        0 => {}
        1 => to[at] = part[0],
        len => to[at..at + len].copy_from_slice(part),
    }
}

/// Writes slices over bytes, one after the other, from the front on.
#[inline(always)]
fn write_over(to: &mut [u8], parts: &[&[u8]])
    requires { length (joined parts.now) ≤ length to.old }
    ensures { to.new ≡ joined parts.now ++ drop (length (joined parts.now)) to.old }
{
    let mut at = 0;
    for part in parts {
        write_at(to, at, part);
        at += part.len();
    }
}

/// How many bytes the body has that is written for a body that was read, in either order: by its kind and its extra length
/// alone. Never more than that body has.
#[inline(always)]
pub fn written_len(kind: RowsKind, body: &[u8]) -> usize
    requires { (layout : Columns) × (fields : RowsBody) × IsRowsBody kind layout body.now fields }
    ensures { (layout : Columns) → (fields : RowsBody) → IsRowsBody kind layout body.now fields → result ≡ length (written_body true (content_of kind fields)) }
{
    match kind.version {
        RowsVersion::One => body.len(),
        RowsVersion::Two => {
            let (_, behind) = body.split_at(HEAD_LEN);
            let counted = usize::from(LittleEndian::read_u16(behind));
            body.len() - (counted - NO_EXTRA.len())
        }
    }
}

impl<'a> RowsEvent<'a> {
    ghost use Rattle.std.specs.Prelude.{◌-◌, Bool, reverse};
    ghost use Rattle.std.specs.List.{concat};
    ghost use Rattle.byteorder.specs.Endian.{little_bytes};
    ghost use Rattle.blog_row.specs.declared.order.Order.{Order};
    ghost use Rattle.blog_row.specs.RowsEvent.{rows_text};
    ghost use Rattle.blog_row.specs.code.RowsEventView.{rows_body, rows_content, written_front};
    ghost use Rattle.blog_row.specs.RowsWriting.{content_in, written_body, written_flags};

    /// Writes the images from the last to the first into room of their size, `rows_len` bytes. That puts the rows in
    /// reverse order, each with its images before and after exchanged. It takes no memory.
    #[inline(always)]
    pub fn put_reversed(&self, to: &mut [u8])
        requires room { length to.old ≡ length (concat (rows_body self.now).images) }
        ensures images { to.new ≡ concat (reverse (rows_body self.now).images) }
    {
        put_from_last(&self.layout(), self.images(), to);
    }

    /// The bitmaps that are written; the second is empty where there is none.
    fn bitmaps_in(&self, order: Order) -> (&'a [u8], &'a [u8])
        ensures { result.0.now ++ result.1.now ≡ concat (content_in order (rows_content self.now)).bitmaps }
    {
        let (first, second) = self.bitmaps();
        match (self.kind().action, order) {
            (RowsAction::Update, Order::Backward) => (second, first),
            _ => (first, second),
        }
    }

    /// The two bytes of the flags: the end flag is set on the last rows event of a statement, and clear on the others.
    fn flag_bytes(&self, last: bool) -> [u8; 2]
        ensures { result ≡ little_bytes 2 (written_flags last (rows_content self.now).flags) }
    {
        let flags = self.flags() - self.flags() % 2;
        let mut bytes = [0u8; 2];
        LittleEndian::write_u16(&mut bytes, if last { flags + 1 } else { flags });
        bytes
    }

    /// Writes the images into room of their size.
    #[inline(always)]
    fn put_images(&self, order: Order, to: &mut [u8])
        requires room { length to.old ≡ length (concat (rows_body self.now).images) }
        ensures images { to.new ≡ concat (content_in order (rows_content self.now)).images }
    {
        match order {
            Order::Forward => to.copy_from_slice(self.images()),
            Order::Backward => self.put_reversed(to),
        }
    }

    /// How many bytes the body has that is written for the event, in either order; never more than the body that was read.
    #[inline(always)]
    pub fn body_len(&self) -> usize
        ensures len { (order : Order) → (last : Bool) → result ≡ length (written_body last (content_in order (rows_content self.now))) }
        ensures shorter { result ≤ length (rows_text (rows_body self.now)) }
    {
        let (first, second) = self.bitmaps();
        let front = HEAD_LEN + extra_len(self.kind().version) + self.count().len();
        front + first.len() + second.len() + self.rows_len()
    }

    /// Writes all fields of the body but the images, from the front on.
    #[inline(always)]
    fn put_front(&self, order: Order, last: bool, to: &mut [u8])
        requires room { length (written_front last (content_in order (rows_content self.now))) ≤ length to.old }
        ensures front { to.new ≡ written_front last (content_in order (rows_content self.now)) ++ drop (length (written_front last (content_in order (rows_content self.now)))) to.old }
    {
        // Its length is known to the compiler then.
        let (id, _) = self.id().split_at(ID_LEN);
        let flags = self.flag_bytes(last);
        let extra_len = &NO_EXTRA[..extra_len(self.kind().version)];
        let (first, second) = self.bitmaps_in(order);
        let parts = [id, &flags, extra_len, self.count(), first, second];
        write_over(to, &parts);
    }

    /// Writes the images over the last bytes.
    #[inline(always)]
    fn put_last_images(&self, order: Order, to: &mut [u8])
        requires room { length (concat (rows_body self.now).images) ≤ length to.old }
        ensures images { to.new ≡ take (length to.old - length (concat (rows_body self.now).images)) to.old ++ concat (content_in order (rows_content self.now)).images }
    {
        let start = to.len() - self.rows_len();
        self.put_images(order, &mut to[start..]);
    }

    /// Writes a body for the event into room of its size, `body_len` bytes: of the same version, with its rows in this
    /// order, without extra bytes, and with the end flag where it is the last rows event of its statement. It takes no
    /// memory.
    #[inline(always)]
    pub fn put_body(&self, order: Order, last: bool, to: &mut [u8])
        requires room { length to.old ≡ length (written_body last (content_in order (rows_content self.now))) }
        ensures body { to.new ≡ written_body last (content_in order (rows_content self.now)) }
    {
        self.put_front(order, last, to);
        self.put_last_images(order, to);
    }
}
