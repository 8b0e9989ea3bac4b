//! Lines that are held until they are sorted.

ghost use Rattle.std.specs.Prelude.{◌≡◌, ◌||◌, ◌++◌, ◌∷◌, [], ◌⊎◌, IfErr, List, OnErr, OnOk, filter, length};
ghost use Rattle.blog_choice.specs.Choice.{chooses};
ghost use Rattle.blog_choice.specs.code.Views.{choice_value};
ghost use Rattle.blog_device.specs.Devices.{is_write_fault};
ghost use Rattle.blog_device.specs.Watched.{device_of, has_failed};
ghost use Rattle.blog_event.specs.declared.fault.Fault.TheVariants.{OutOfMemory};
ghost use Rattle.blog_request.specs.Wanted.{changes_told};
ghost use Rattle.blog_trans.specs.Changes.{counts_of};
ghost use Rattle.blog_trans.specs.Groups.{groups};
ghost use Rattle.blog_trans.specs.code.IndexView.{index_bytes, index_selection};
ghost use Rattle.blog_list.specs.Lines.{at_most, rows_of};
ghost use Rattle.blog_list.specs.Sorted.{fewer};

use crate::list_writer::write_full;
use crate::totals::with_rows;
use blog_choice::TableChoice;
use blog_device::{RunFault, Watched};
use blog_trans::Index;
use blog_units::Unit;
use std::alloc::{AllocError, Allocator};
use std::io::Write;

/// A line that is held.
#[derive(Clone, Copy)]
pub(crate) struct RankedLine {
    /// How many rows of chosen tables its unit lacks of the greatest number of 64 bits.
    pub(crate) fewer: u64,
    /// Where it starts in what is held.
    pub(crate) start: usize,
    /// Where it ends there.
    pub(crate) end: usize,
}

/// Lines of the units of a log, which are held until all are there.
#[derive(Drop)]
pub(crate) struct Ranking<A: Allocator> {
    /// The lines, one behind the other.
    pub(crate) held: Vec<u8, A>,
    /// Where each of them is.
    pub(crate) lines: Vec<RankedLine, A>,
}

impl<A: Allocator + Copy> Ranking<A> {
    ghost use Rattle.blog_list.specs.code.Ranked.{AreInside, HasSorted, HasSortedBegun, IsEmptyRanking};

    /// Without a line.
    pub(crate) fn none(alloc: A) -> Ranking<A>
        ensures { IsEmptyRanking result }
    {
        Ranking {
            held: Vec::new(alloc),
            lines: Vec::new(alloc),
        }
    }

    /// Adds the line that ends what is held.
    pub(crate) fn add(&mut self, fewer: u64, start: usize) -> Result<(), AllocError>
        ensures lines { OnOk result (self.new.lines.items ≡ self.old.lines.items ++ (record { fewer = fewer; start = start; end = length self.old.held.items }) ∷ []) }
        ensures held { self.new.held ≡ self.old.held }
    {
        self.lines.push(RankedLine {
            fewer,
            start,
            end: self.held.len(),
        })?;
        Ok(())
    }

    /// Appends the lines in their order, and writes what is collected by chunks.
    pub(crate) fn put_lines<O: Write>(
        &mut self,
        text: &mut Vec<u8, A>,
        writer: &mut Watched<O>,
    ) -> Result<(), RunFault>
        requires { AreInside self.old.held.items self.old.lines.items }
        ensures fault { IfErr result (λ e. (e ≡ RunFault.Log OutOfMemory) ⊎ (e ≡ RunFault.Write)) }
        ensures mark { has_failed writer.new ≡ (has_failed writer.old || is_write_fault result) }
        ensures text { OnOk result (HasSorted (O.contents (device_of writer.old)) (O.contents (device_of writer.new)) text.old.items text.new.items self.old) }
        ensures beginning { OnErr result (HasSortedBegun (O.contents (device_of writer.old)) (O.contents (device_of writer.new)) text.old.items self.old) }
    {
        self.lines.sort_by_key(|line| line.fewer)?;
        for n in 0..self.lines.len() {
            let line = self.lines[n];
            text.extend_from_slice(&self.held[line.start..line.end])?;
            write_full(text, writer)?;
        }
        Ok(())
    }
}

/// Returns how many rows of chosen tables a unit lacks of the greatest number of 64 bits. One that can't be undone has none.
pub(crate) fn fewer<A: Allocator>(choice: &TableChoice<'_>, unit: &Unit<'_, A>) -> u64
    ensures { result ≡ fewer (choice_value choice.now) (changes_told unit.now.groups) }
{
    match &unit.groups {
        Ok(groups) => u64::MAX - chosen_rows(choice, groups),
        Err(_) => u64::MAX,
    }
}

/// How many rows of chosen tables groups change.
fn chosen_rows<A: Allocator>(choice: &TableChoice<'_>, index: &Index<'_, '_, A>) -> u64
    ensures { result ≡ at_most (rows_of (filter (λ c. chooses (choice_value choice.now) c.table.schema c.table.name) (counts_of (groups (index_bytes index.now) (index_selection index.now))))) }
{
    let mut rows = 0_u64;
    for n in 0..index.tables() {
        let count = index.table(n);
        if choice.has(count.schema, count.table) {
            rows = with_rows(rows, &count);
        }
    }
    rows
}
