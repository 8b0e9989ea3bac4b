//! A log in memory, in which rows of groups are left out.

ghost use Rattle.std.specs.Prelude.{◌≤◌, vec_len};

use blog_event::Fault;
use blog_flash::selected;
use blog_trans::{Index, Selection};
use std::alloc::{Allocator, Global};

/// A log in memory, with the groups of another one of which rows are left out. A rows event that stays is a statement of its own.
#[derive(Drop)]
pub struct LeftOut<A: Allocator = Global> {
    pub(crate) bytes: Vec<u8, A>,
    pub(crate) ghost short: { vec_len bytes ≤ 4294967295 },
}

impl<A: Allocator> LeftOut<A> {
    ghost use Rattle.std.specs.Prelude.{◌≡◌, Bool, IfErr, IfOk, List, ℕ};
    ghost use Rattle.blog_event.specs.File.{AreBytes};
    ghost use Rattle.blog_trans.specs.Acceptance.{IsAccepted, IsRefusal, fault};
    ghost use Rattle.blog_trans.specs.Changes.{changes};
    ghost use Rattle.blog_trans.specs.Groups.{groups};
    ghost use Rattle.blog_trans.specs.Selection.{Selection as Selected, all};
    ghost use Rattle.blog_trans.specs.code.IndexView.{index_bytes, index_selection};
    ghost use Rattle.blog_left_out.specs.LeftOut.{kept, left_out_text, transactions_kept};
    ghost use Rattle.blog_left_out.specs.code.LeftOutView.{bytes_left};

    /// How many bytes the log has.
    pub fn len(&self) -> usize
        ensures { result ≡ vec_len self.now.bytes }
    {
        self.bytes.len()
    }

    /// The index of all changes of the log. Fails with `OutOfMemory` if out of memory. Names and ids of tables are hashed by a seed
    /// (`Log::with_seed`).
    pub fn index<'g, B: Allocator + Copy>(
        &'g self,
        alloc: B,
        seed: u64,
    ) -> Result<Index<'g, 'static, B>, Fault>
        ensures accepted { IfOk result (λ index. IsAccepted (bytes_left self.now) all) }
        ensures bytes { IfOk result (λ index. index_bytes index ≡ bytes_left self.now) }
        ensures selection { IfOk result (λ index. index_selection index ≡ all) }
        ensures refused { IfErr result (IsRefusal (fault (bytes_left self.now) all)) }
        ensures groups { (ms : List Bool) → (bytes : List ℕ) → (sel : Selected) → AreBytes bytes → IsAccepted bytes sel → bytes_left self.now ≡ left_out_text ms bytes sel
            → IfOk result (λ index. groups (index_bytes index) (index_selection index) ≡ transactions_kept ms (groups bytes sel)) }
        ensures changes { (ms : List Bool) → (bytes : List ℕ) → (sel : Selected) → AreBytes bytes → IsAccepted bytes sel → bytes_left self.now ≡ left_out_text ms bytes sel
            → IfOk result (λ index. changes (index_bytes index) (index_selection index) ≡ kept ms (changes bytes sel)) }
    {
        selected(alloc, &self.bytes, &Selection::all(), seed)
    }
}
