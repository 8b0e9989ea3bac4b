//! Hashers that begin with a seed.

use std::collections::hash_map::DefaultHasher;
use std::hash::{BuildHasher, Hasher};

/// Makes hashers that begin with a seed.
#[derive(Clone, Copy)]
pub(crate) struct SeededState {
    pub(crate) seed: u64,
}

impl BuildHasher for SeededState {
    type Hasher = DefaultHasher;

    ghost use Rattle.blog_report.specs.code.SeededView.{seeded};

    ghost build_hasher = { seeded };

    fn build_hasher(&self) -> DefaultHasher {
        let mut hasher = DefaultHasher::new();
        hasher.write_u64(self.seed);
        hasher
    }
}
