//! Hashing table ids.

use crate::seeded::{Keys, beside, folded_multiply};
use byteorder::{ByteOrder, LittleEndian};
use std::hash::{BuildHasher, Hasher};

/// A hasher of table ids by a seed. A server gives them out in order, so those of a statement with many maps are mostly
/// neighbours: sixteen of them are in groups of a hash table that lie side by side, and a processor loads such groups
/// ahead.
///
/// A map copies the hasher for each id.
#[derive(Clone, Copy)]
pub(crate) struct TableIdHasher {
    // Where hashing starts, and what is multiplied by.
    start: u64,
    factor: u64,
    id: u64,
}

impl TableIdHasher {
    ghost use Rattle.std.specs.Prelude.{◌≡◌};
    ghost use Rattle.blog_trans.specs.code.TableIdHash.{id_hasher};

    /// Returns the hasher of a seed.
    pub(crate) fn new(seed: u64) -> TableIdHasher
        ensures { result ≡ id_hasher seed }
    {
        let keys = Keys::new(seed);
        TableIdHasher {
            start: keys.start,
            factor: keys.factor,
            id: 0,
        }
    }
}

impl Hasher for TableIdHasher {
    ghost use Rattle.blog_trans.specs.code.TableIdHash.{written, hash_of};

    ghost write = { written };

    ghost finish = { hash_of };

    fn finish(&self) -> u64 {
        // Folded twice: once would leave the sixteens of ids in order at equal distances.
        let once = folded_multiply(self.start ^ (self.id / 16), self.factor);
        beside(folded_multiply(once, self.factor), self.id % 16)
    }

    fn write(&mut self, bytes: &[u8]) {
        if bytes.len() >= 8 {
            self.id = LittleEndian::read_u64(bytes);
        }
    }
}

impl BuildHasher for TableIdHasher {
    type Hasher = TableIdHasher;

    ghost build_hasher = { λ hasher. hasher };

    fn build_hasher(&self) -> TableIdHasher {
        *self
    }
}
