//! The names of a table map.

ghost use Rattle.std.specs.Prelude.{◌≡◌, option_map};
ghost use Rattle.blog_row.specs.TableMap.{name_front, names_of, names_seen};
ghost use Rattle.blog_row.specs.Checks.{cut_seen};

use crate::image::cut_at;

/// The fields of a table map's body up to its names (MySQL Internals manual, "Table_map_event").
#[derive(Clone, Copy, Debug)]
pub(crate) struct Names<'a> {
    /// The six bytes of the table id.
    pub(crate) id: &'a [u8],
    /// The two bytes of the flags.
    pub(crate) flags: &'a [u8],
    /// The name of the table's schema.
    pub(crate) schema: &'a [u8],
    /// The name of the table.
    pub(crate) table: &'a [u8],
    /// The bytes behind the names.
    pub(crate) rest: &'a [u8],
}

/// The name at the front, behind its length of one byte and before a zero byte; and the bytes behind that.
#[tactic(auto, unfolding(crate::specs::TableMap::name_front))]
fn name_at(bytes: &[u8]) -> Option<(&[u8], &[u8])>
    ensures { option_map cut_seen result ≡ name_front bytes.now }
{
    let (len, behind) = bytes.split_first()?;
    let (name, ended) = cut_at(usize::from(*len), behind)?;
    let (zero, rest) = ended.split_first()?;
    if *zero != 0 {
        return None;
    }
    Some((name, rest))
}

/// The fields up to the names, if the body has them: an id, flags, and two names.
#[tactic(auto, unfolding(crate::specs::TableMap::names_of))]
pub(crate) fn names_at(body: &[u8]) -> Option<Names<'_>>
    ensures { option_map names_seen result ≡ names_of body.now }
{
    let (id, behind) = cut_at(6, body)?;
    let (flags, behind) = cut_at(2, behind)?;
    let (schema, behind) = name_at(behind)?;
    let (table, rest) = name_at(behind)?;
    Some(Names {
        id,
        flags,
        schema,
        table,
        rest,
    })
}
