//! Whether a log has the schemas that are to have another name.

ghost use Rattle.std.specs.Prelude.{◌≡◌};
ghost use Rattle.blog_trans.specs.Groups.{groups};
ghost use Rattle.blog_trans.specs.code.IndexView.{index_bytes, index_selection};
ghost use Rattle.blog_sql.specs.Changed.{has_schema, without_schema};

use crate::options::Renamed;
use blog_trans::Index;
use std::alloc::Allocator;

/// Returns whether the groups of an index have a table of this schema.
fn has_schema<A: Allocator>(index: &Index<'_, '_, A>, name: &[u8]) -> bool
    ensures { result ≡ has_schema (groups (index_bytes index.now) (index_selection index.now)) name.now }
{
    for n in 0..index.tables() {
        let count = index.table(n);
        if count.schema == name {
            return true;
        }
    }
    false
}

/// Returns the number of the first pair of whose schema the groups of an index have no table.
pub fn without_schema<A: Allocator>(
    index: &Index<'_, '_, A>,
    schemas: &[Renamed<'_>],
) -> Option<usize>
    ensures { result ≡ without_schema (groups (index_bytes index.now) (index_selection index.now)) schemas.now }
{
    schemas
        .iter()
        .position(|pair| !has_schema(index, pair.from))
}
