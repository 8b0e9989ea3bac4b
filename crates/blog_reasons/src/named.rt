//! Tables that table maps name.

ghost use Rattle.std.specs.Prelude.{◌≡◌, option_map};
ghost use Rattle.blog_trans.specs.Places.{placed};
ghost use Rattle.blog_reasons.specs.Reasons.{table_named};
ghost use Rattle.blog_reasons.specs.code.NamedView.{table_value};

use blog_event::Event;
use blog_event::constants::TABLE_MAP_EVENT;
use blog_row::TableMap;
use std::collections::hash_map::DefaultHasher;
use std::hash::{BuildHasher, Hash, Hasher};

/// A table, by the bytes of its two names.
#[derive(Clone, Copy, Debug, PartialEq, Eq)]
pub(crate) struct NamedTable<'a> {
    pub(crate) schema: &'a [u8],
    pub(crate) table: &'a [u8],
}

impl Hash for NamedTable<'_> {
    ghost use Rattle.std.specs.Cmp.Rules.{hashing};
    ghost use Rattle.std.proofs.Common.{rules};
    ghost use Rattle.blog_reasons.specs.code.NamedView.{parts};

    ghost hash_input = { parts };

    ghost respects_eq = { Prim.search (hashing, rules) };

    // Each name at once; a derived `Hash` writes byte by byte. The length says where the first ends.
    fn hash<H: Hasher>(&self, state: &mut H) {
        state.write_usize(self.schema.len());
        state.write(self.schema);
        state.write(self.table);
    }
}

/// Makes hashers that begin with a seed. Nobody who doesn't know the seed can choose names that collide.
#[derive(Clone, Copy)]
pub(crate) struct SeededState {
    pub(crate) seed: u64,
}

impl BuildHasher for SeededState {
    type Hasher = DefaultHasher;

    ghost use Rattle.blog_reasons.specs.code.SeededView.{seeded};

    ghost build_hasher = { seeded };

    fn build_hasher(&self) -> DefaultHasher {
        let mut hasher = DefaultHasher::new();
        hasher.write_u64(self.seed);
        hasher
    }
}

/// Returns the table that an event names, if it is a table map whose body has names.
pub(crate) fn named_table<'a>(event: &Event<'a>) -> Option<NamedTable<'a>>
    ensures { option_map table_value result ≡ table_named (placed event.now) }
{
    if event.header.kind != TABLE_MAP_EVENT {
        return None;
    }
    match TableMap::read(event.body) {
        Ok(map) => Some(NamedTable {
            schema: map.schema(),
            table: map.table(),
        }),
        Err(_) => None,
    }
}
