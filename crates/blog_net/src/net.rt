//! A log in memory with the net effect of a mistake on rows.

ghost use Rattle.blog_trans.specs.Acceptance.{IsAccepted};
ghost use Rattle.blog_trans.specs.Selection.{all};

use blog_event::Fault;
use blog_flash::selected;
use blog_trans::{Index, Selection};
use std::alloc::{Allocator, Global};

/// A log in memory with the net effect of a mistake on rows: one transaction of updates, each a statement of its own.
#[derive(Drop)]
pub struct NetLog<A: Allocator = Global> {
    pub(crate) bytes: Vec<u8, A>,
    pub(crate) ghost accepted: { IsAccepted bytes.items all },
}

impl<A: Allocator> NetLog<A> {
    ghost use Rattle.std.specs.Prelude.{◌≡◌, IfErr, IfOk, List, length, map};
    ghost use Rattle.blog_event.specs.declared.fault.Fault.TheVariants.{OutOfMemory};
    ghost use Rattle.blog_trans.specs.Changes.{changes};
    ghost use Rattle.blog_trans.specs.code.IndexView.{index_bytes, index_selection};
    ghost use Rattle.blog_net.specs.Net.{net_change};
    ghost use Rattle.blog_net.specs.declared.update.NetUpdate.{NetUpdate};
    ghost use Rattle.blog_net.specs.code.NetView.{bytes_of_net};

    /// Returns how many bytes the log has.
    pub fn len(&self) -> usize
        ensures { result ≡ length (bytes_of_net self.now) }
    {
        self.bytes.len()
    }

    /// Returns the index of all changes of the log. Names and ids of tables are hashed by a seed (`Log::with_seed`).
    ///
    /// Fails with `OutOfMemory` if out of memory, and never otherwise.
    pub fn index<'g, B: Allocator + Copy>(
        &'g self,
        alloc: B,
        seed: u64,
    ) -> Result<Index<'g, 'static, B>, Fault>
        ensures accepted { IfOk result (λ index. IsAccepted (bytes_of_net self.now) all) }
        ensures bytes { IfOk result (λ index. index_bytes index ≡ bytes_of_net self.now) }
        ensures selection { IfOk result (λ index. index_selection index ≡ all) }
        ensures refused { IfErr result (λ fault. fault ≡ OutOfMemory) }
        ensures changes { (us : List NetUpdate) → changes (bytes_of_net self.now) all ≡ map net_change us
            → IfOk result (λ index. changes (index_bytes index) (index_selection index) ≡ map net_change us) }
    {
        selected(alloc, &self.bytes, &Selection::all(), seed)
    }
}
