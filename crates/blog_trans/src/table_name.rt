//! The name of a table, and hashing it.

use crate::seeded::{Keys, beside, folded, folded_multiply};
use std::hash::{BuildHasher, Hash, Hasher};

/// A table, by the bytes of its two names.
#[derive(Clone, Copy, Debug, PartialEq, Eq)]
pub(crate) struct TableName<'a> {
    pub(crate) schema: &'a [u8],
    pub(crate) table: &'a [u8],
}

impl Hash for TableName<'_> {
    ghost use Rattle.std.specs.Cmp.Rules.{hashing};
    ghost use Rattle.std.proofs.Common.{rules};
    ghost use Rattle.blog_trans.specs.code.TableNameHash.{parts};

    ghost hash_input = { parts };

    ghost respects_eq = { Prim.search (hashing, rules) };

    // Each name at once; a derived `Hash` writes byte by byte.
    fn hash<H: Hasher>(&self, state: &mut H) {
        state.write(self.schema);
        state.write(self.table);
    }
}

/// A hasher of table names by a seed. Where tables are many, their names mostly end in numbers and come in order. Those
/// that differ in the last digit alone are in groups that lie side by side, and a processor loads such groups ahead.
///
/// A map copies the hasher for each name.
#[derive(Clone, Copy)]
pub(crate) struct TableNameHasher {
    // What is multiplied by.
    factor: u64,
    // What was folded.
    state: u64,
    // The end of the name that was written last, which isn't folded yet: 256 times its length, and its last byte. 0 before the
    // first name.
    end: u64,
}

impl TableNameHasher {
    ghost use Rattle.std.specs.Prelude.{◌≡◌};
    ghost use Rattle.blog_trans.specs.code.TableNameHash.{name_hasher};

    /// Returns the hasher of a seed.
    pub(crate) fn new(seed: u64) -> TableNameHasher
        ensures { result ≡ name_hasher seed }
    {
        let keys = Keys::new(seed);
        TableNameHasher {
            factor: keys.factor,
            state: keys.start,
            end: 0,
        }
    }
}

impl Hasher for TableNameHasher {
    ghost use Rattle.blog_trans.specs.code.TableNameHash.{written, hash_of};

    ghost write = { written };

    ghost finish = { hash_of };

    fn finish(&self) -> u64 {
        // Folded once more: else fronts that differ by little can have hashes at equal distances.
        beside(
            folded_multiply(self.state ^ (self.end / 16), self.factor),
            self.end % 16,
        )
    }

    fn write(&mut self, bytes: &[u8]) {
        if bytes.is_empty() {
            return;
        }
        // A product of its own for the end of the name before. Else the bytes that follow could make up for another end.
        if self.end != 0 {
            self.state = folded_multiply(self.state ^ self.end, self.factor);
        }
        let front = bytes.len() - 1;
        self.state = folded(self.factor, self.state, &bytes[..front]);
        self.end = (bytes.len() as u64)
            .wrapping_mul(256)
            .wrapping_add(bytes[front] as u64);
    }
}

impl BuildHasher for TableNameHasher {
    type Hasher = TableNameHasher;

    ghost build_hasher = { λ hasher. hasher };

    fn build_hasher(&self) -> TableNameHasher {
        *self
    }
}
