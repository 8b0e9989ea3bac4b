//! Laws of the definitions.

ghost use Rattle.std.specs.Prelude.{◌≡◌, ◌<◌, ℕ, Bool, List, [], ◌++◌, length, reverse, Ok};
ghost use Rattle.blog_row.specs.declared.kind.RowsAction.{RowsAction};
ghost use Rattle.blog_row.specs.declared.kind.RowsKind.{RowsKind};
ghost use Rattle.blog_row.specs.declared.order.Order.{Order};
ghost use Rattle.blog_row.specs.Column.{Column, Layout};
ghost use Rattle.blog_row.specs.Image.{Row, IsSomeImage};
ghost use Rattle.blog_row.specs.TableMap.{Names, LayoutFields};
ghost use Rattle.blog_row.specs.RowsEvent.{RowsBody, IsRowsBody, rows_of};
ghost use Rattle.blog_row.specs.RowsWriting.{RowsContent, content_of, content_in, kind_in, images_by_row, reversed_rows, reversed_content, written_fields, written_body};
ghost use Rattle.blog_row.specs.Laws.{ReadsPacked, ReadsValue, ReadsImage, ReadsImages, ReadsNames, ReadsLayout, ReadsRows};

/// What reading a body gives is exactly what the relations between bodies and their fields say. The call does nothing.
pub fn reading_is_exact()
    ensures packed { (bytes : List ℕ) (n : ℕ) (spelling rest : List ℕ) → ReadsPacked bytes n spelling rest }
    ensures value { (column : Column) (bytes value rest : List ℕ) → ReadsValue column bytes value rest }
    ensures image { (layout : Layout) (bytes : List ℕ) (row : Row) (rest : List ℕ) → ReadsImage layout bytes row rest }
    ensures images { (layout : Layout) (bytes : List ℕ) (images : List (List ℕ)) → 0 < length layout → ReadsImages layout bytes images }
    ensures names { (body : List ℕ) (names : Names) → ReadsNames body names }
    ensures layout { (bytes : List ℕ) (fields : LayoutFields) → ReadsLayout bytes fields }
    ensures rows { (kind : RowsKind) (layout : Layout) (body : List ℕ) (fields : RowsBody) → 0 < length layout → ReadsRows kind layout body fields }
{}

/// No image is the front of another: bytes that begin with an image begin with no image of another length. The call does
/// nothing.
pub fn images_stand_alone()
    ensures alone { (layout : Layout) (image other rest : List ℕ) → IsSomeImage layout image → IsSomeImage layout other → image ≡ other ++ rest → rest ≡ [] }
{}

/// The body that is written for a rows event, in either order and as the last of its statement or not, is a body of the kind
/// in that order, and the fields that are written are read of it. The call does nothing.
pub fn written_rows_are_read()
    ensures fields { (order : Order) (last : Bool) (kind : RowsKind) (layout : Layout) (body : List ℕ) (fields : RowsBody) → IsRowsBody kind layout body fields → IsRowsBody (kind_in order kind) layout (written_body last (content_in order (content_of kind fields))) (written_fields last (content_in order (content_of kind fields))) }
    ensures read { (order : Order) (last : Bool) (kind : RowsKind) (layout : Layout) (body : List ℕ) (fields : RowsBody) → 0 < length layout → IsRowsBody kind layout body fields → rows_of (kind_in order kind) layout (written_body last (content_in order (content_of kind fields))) ≡ Ok (written_fields last (content_in order (content_of kind fields))) }
{}

/// Rows from the last to the first, the two images of each exchanged, have their images from the last to the first; and what
/// is reversed twice is what it was. The call does nothing.
pub fn reversed_rows_have_their_images_from_the_last()
    ensures images { (action : RowsAction) (images : List (List ℕ)) → reversed_rows (images_by_row action images) ≡ reverse images }
    ensures twice { (c : RowsContent) → reversed_content (reversed_content c) ≡ c }
{}
