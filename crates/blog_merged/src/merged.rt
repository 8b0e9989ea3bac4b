//! A log in memory whose undo takes a mistake back.

ghost use Rattle.blog_gathered.specs.code.GatheredView.{bytes_gathered};
ghost use Rattle.blog_trans.specs.Acceptance.{IsAccepted};
ghost use Rattle.blog_trans.specs.Selection.{all};

use blog_event::Fault;
use blog_gathered::Gathered;
use blog_trans::Index;
use std::alloc::{Allocator, Global};

/// A log in memory whose undo takes a mistake back, out of rows that were changed since too: one transaction of updates of these rows from what
/// they would be to what they are, and then the changes that are undone by themselves.
#[derive(Drop)]
pub struct MergedLog<A: Allocator = Global> {
    pub(crate) gathered: Gathered<A>,
    pub(crate) ghost accepted: { IsAccepted (bytes_gathered gathered) all },
}

impl<A: Allocator> MergedLog<A> {
    ghost use Rattle.std.specs.Prelude.{◌≡◌, IfErr, IfOk};
    ghost use Rattle.blog_event.specs.declared.fault.Fault.TheVariants.{OutOfMemory};
    ghost use Rattle.blog_trans.specs.code.IndexView.{index_bytes, index_selection};
    ghost use Rattle.blog_merged.specs.code.MergedView.{bytes_merged};

    /// Returns the index of all changes of the log. Names and ids of tables are hashed by a seed (`Log::with_seed`).
    ///
    /// Fails with `OutOfMemory` if out of memory, and never otherwise.
    pub fn index<'g, B: Allocator + Copy>(
        &'g self,
        alloc: B,
        seed: u64,
    ) -> Result<Index<'g, 'static, B>, Fault>
        ensures accepted { IfOk result (λ index. IsAccepted (bytes_merged self.now) all) }
        ensures bytes { IfOk result (λ index. index_bytes index ≡ bytes_merged self.now) }
        ensures selection { IfOk result (λ index. index_selection index ≡ all) }
        ensures refused { IfErr result (λ fault. fault ≡ OutOfMemory) }
    {
        self.gathered.index(alloc, seed)
    }
}
