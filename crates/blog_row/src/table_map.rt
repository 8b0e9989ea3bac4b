//! Table maps.

ghost use Rattle.std.specs.Prelude.{◌≡◌, length};

use crate::fault::RowFault;
use crate::layout::Layout;
use crate::names::{Names, names_at};
use byteorder::{ByteOrder, LittleEndian};

/// The body of a table map, read up to its names (MySQL Internals manual, "Table_map_event").
#[derive(Clone, Copy, Debug)]
pub struct TableMap<'a> {
    names: Names<'a>,
    pub ghost id_len: { length names.id.now ≡ 6 },
}

impl<'a> TableMap<'a> {
    ghost use Rattle.std.specs.Prelude.{List, ℕ, IfOk, IsOkAnd, IsSome};
    ghost use Rattle.byteorder.specs.Endian.{little_number};
    ghost use Rattle.blog_row.specs.Checks.{or_bad};
    ghost use Rattle.blog_row.specs.TableMap.{Names as NameFields, LayoutFields, HasNames, HasLayout, names_of, layout_of, map_names, map_seen};
    ghost use Rattle.blog_row.specs.code.LayoutView.{layout_columns, layout_seen};
    ghost use Rattle.blog_row.specs.code.LayoutReading.{layout_behind};

    /// Reads a body up to its names: `BadBody` where it doesn't have them.
    #[tactic(auto, using(crate::proofs::NameLemmas::names_found, crate::proofs::NameLemmas::names_again))]
    pub fn read(body: &'a [u8]) -> Result<TableMap<'a>, RowFault>
        ensures exact { map_seen result ≡ or_bad (names_of body.now) }
        ensures found { IfOk result (λ map. HasNames body.now (map_names map)) }
        ensures only { (names : NameFields) → HasNames body.now names → IsOkAnd result (λ map. map_names map ≡ names) }
    {
        match names_at(body) {
            Some(names) => Ok(TableMap { names }),
            None => Err(RowFault::BadBody),
        }
    }

    /// The table map of a body that is known to have names.
    #[tactic(auto, using(crate::proofs::NameLemmas::names_found))]
    pub fn known(body: &'a [u8]) -> TableMap<'a>
        requires { IsSome (names_of body.now) }
        ensures { names_of body.now ≡ Some (map_names result) }
    {
        let Some(names) = names_at(body) else {
            unreachable!();
        };
        TableMap { names }
    }

    /// The table id, from 0 to 2^48 - 1: six bytes, the lowest first.
    pub fn id(&self) -> u64
        ensures { result ≡ little_number 6 (map_names self.now).id }
    {
        LittleEndian::read_u48(self.names.id)
    }

    /// The bytes of the name of the table's schema.
    pub fn schema(&self) -> &'a [u8]
        ensures { result.now ≡ (map_names self.now).table.schema }
    {
        self.names.schema
    }

    /// The bytes of the table's name.
    pub fn table(&self) -> &'a [u8]
        ensures { result.now ≡ (map_names self.now).table.name }
    {
        self.names.table
    }

    /// The columns behind the names, or the first check that fails: `UnknownType` for a column type that the profile
    /// lacks, and otherwise `BadBody`.
    #[tactic(auto, using(crate::proofs::TableMapCode::layout_by_names, crate::proofs::TableMapCode::layout_found_by, crate::proofs::TableMapCode::layout_only_by))]
    pub fn layout(&self) -> Result<Layout<'a>, RowFault>
        ensures exact { layout_seen result ≡ layout_behind (map_names self.now).rest }
        ensures body { (body : List ℕ) → names_of body ≡ Some (map_names self.now) → layout_seen result ≡ layout_of body }
        ensures found { IfOk result (λ layout. (fields : LayoutFields) × HasLayout (map_names self.now).rest fields × (fields.layout ≡ layout_columns layout)) }
        ensures only { (fields : LayoutFields) → HasLayout (map_names self.now).rest fields → IsOkAnd result (λ layout. layout_columns layout ≡ fields.layout) }
    {
        Layout::at(self.names.rest)
    }
}
