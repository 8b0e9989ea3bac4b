//! The body of a rows event with the rows that stay.

ghost use Rattle.std.specs.Prelude.{◌≡◌, ◌++◌, ◌||◌, true, false, if◌then◌else◌, IfOk, OnOk, [], length, option_to_list, option_map, slice_index_or, vec_len};
ghost use Rattle.std.specs.List.{concat};
ghost use Rattle.blog_row.specs.RowsWriting.{written_body};
ghost use Rattle.blog_row.specs.code.RowsEventView.{rows_content, written_front};
ghost use Rattle.blog_row.specs.code.RowsView.{row_seen};
ghost use Rattle.blog_left_out.specs.LeftOut.{content_kept, row_images};
ghost use Rattle.blog_left_out.specs.code.KeptView.{IsKept};

use blog_row::{Order, RowChange, RowsEvent};
use std::alloc::{AllocError, Allocator};

/// What stays of a rows event.
#[derive(Clone, Copy, Debug)]
pub(crate) struct KeptRows {
    /// Whether a row stays, or there is none.
    pub(crate) stays: bool,
    /// How many marks its rows have.
    pub(crate) used: usize,
}

/// Writes the body for a rows event over all bytes.
fn write_whole<A: Allocator>(body: &mut Vec<u8, A>, rows: &RowsEvent<'_>)
    requires { vec_len body.old ≡ length (written_body true (rows_content rows.now)) }
    ensures items { body.new.items ≡ written_body true (rows_content rows.now) }
    ensures len { vec_len body.new ≡ vec_len body.old }
{
    rows.put_body(Order::Forward, true, body);
}

/// Puts the body that is written for a rows event in place of what is there, without the images.
fn put_front<A: Allocator>(body: &mut Vec<u8, A>, rows: &RowsEvent<'_>) -> Result<(), AllocError>
    ensures { OnOk result (body.new.items ≡ written_front true (rows_content rows.now)) }
{
    body.clear();
    body.resize(rows.body_len(), 0)?;
    write_whole(body, rows);
    body.truncate(body.len() - rows.rows_len());
    Ok(())
}

/// Returns the mark of a number. One that isn't there counts as false.
fn mark_at(marks: &[bool], n: usize) -> bool
    ensures { result ≡ slice_index_or marks.now n false }
{
    match marks.get(n) {
        Some(mark) => *mark,
        None => false,
    }
}

/// Returns whether one of two is true.
fn either(one: bool, other: bool) -> bool
    ensures { result ≡ (one || other) }
{
    one || other
}

/// Appends an image, if there is one.
fn put_image<A: Allocator>(body: &mut Vec<u8, A>, image: Option<&[u8]>) -> Result<(), AllocError>
    ensures { OnOk result (body.new.items ≡ body.old.items ++ concat (option_to_list (option_map (λ image. image.now) image.entry))) }
{
    match image {
        Some(image) => body.extend_from_slice(image),
        None => Ok(()),
    }
}

/// Appends the images of a row, if it stays.
fn put_row<A: Allocator>(
    body: &mut Vec<u8, A>,
    stays: bool,
    row: &RowChange<'_>,
) -> Result<(), AllocError>
    ensures { OnOk result (body.new.items ≡ body.old.items ++ (if stays then concat (row_images (row_seen row.now)) else [])) }
{
    if stays {
        put_image(body, row.before)?;
        put_image(body, row.after)?;
    }
    Ok(())
}

/// Appends the images of the rows that stay.
fn put_rows<A: Allocator>(
    body: &mut Vec<u8, A>,
    marks: &[bool],
    rows: &RowsEvent<'_>,
) -> Result<KeptRows, AllocError>
    ensures images { OnOk result (body.new.items ≡ body.old.items ++ concat (content_kept marks.now (rows_content rows.now)).images) }
    ensures kept { IfOk result (IsKept marks.now (rows_content rows.now)) }
{
    let mut some = false;
    let mut stays = false;
    let mut used = 0;
    for row in rows.rows() {
        let mark = mark_at(marks, used);
        put_row(body, mark, &row)?;
        some = true;
        stays = either(stays, mark);
        used = marks.len().min(used + 1);
    }
    Ok(KeptRows {
        stays: either(stays, !some),
        used,
    })
}

/// Puts the body of a rows event with the rows that stay in place of what is there.
pub(crate) fn put_body<A: Allocator>(
    body: &mut Vec<u8, A>,
    marks: &[bool],
    rows: &RowsEvent<'_>,
) -> Result<KeptRows, AllocError>
    ensures body { OnOk result (body.new.items ≡ written_body true (content_kept marks.now (rows_content rows.now))) }
    ensures kept { IfOk result (IsKept marks.now (rows_content rows.now)) }
{
    put_front(body, rows)?;
    put_rows(body, marks, rows)
}
