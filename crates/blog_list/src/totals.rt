//! What a list has, in numbers.

ghost use Rattle.std.specs.Prelude.{◌≡◌, ◌+◌, ◌++◌, OnOk, []};
ghost use Rattle.blog_trans.specs.Changes.{counts_of};
ghost use Rattle.blog_trans.specs.Groups.{groups};
ghost use Rattle.blog_trans.specs.code.IndexView.{index_bytes, index_selection};
ghost use Rattle.blog_list.specs.Lines.{at_most, line_unless_0, numbered, rows_of};
ghost use Rattle.blog_list.specs.code.Totals.{HasAdded, HasCounted, HasDamaged, totals_text};
ghost use Rattle.blog_request.specs.Wanted.{changes_told};

use blog_request::Concern;
use blog_text::{put_number, put_text};
use blog_trans::{Index, TableCount};
use blog_units::Unit;
use std::alloc::{AllocError, Allocator};

/// What a list has, in numbers, each at most the greatest one of 64 bits.
#[derive(Clone, Copy, Debug, PartialEq, Eq)]
pub struct Totals {
    /// How many units.
    pub units: u64,
    /// How many of them can't be undone.
    pub refused: u64,
    /// How many rows the others change.
    pub rows: u64,
    /// How many units aren't listed because they are statements that name none of the chosen tables.
    pub passed_over: u64,
    /// How many damaged events were passed over in the logs.
    pub damaged: u64,
}

impl Totals {
    /// Those of a list without logs.
    pub const NONE: Totals = Totals {
        units: 0,
        refused: 0,
        rows: 0,
        passed_over: 0,
        damaged: 0,
    };

    /// Counts a unit, which is wanted, passed over, or neither.
    pub(crate) fn count<A: Allocator>(&mut self, concern: Concern, unit: &Unit<'_, A>)
        ensures { HasCounted concern self.old self.new (changes_told unit.now.groups) }
    {
        match concern {
            Concern::Wanted => self.add(unit),
            Concern::PassedOver => self.passed_over = self.passed_over.saturating_add(1),
            Concern::Other => {}
        }
    }

    /// Counts a unit that is listed.
    fn add<A: Allocator>(&mut self, unit: &Unit<'_, A>)
        ensures { HasAdded self.old self.new (changes_told unit.now.groups) }
    {
        self.units = self.units.saturating_add(1);
        match &unit.groups {
            Ok(groups) => self.rows = self.rows.saturating_add(rows_of(groups)),
            Err(_) => self.refused = self.refused.saturating_add(1),
        }
    }

    /// Counts the damaged events of a log.
    pub(crate) fn add_damaged(&mut self, count: u32)
        ensures { HasDamaged self.old self.new count }
    {
        self.damaged = self.damaged.saturating_add(u64::from(count));
    }
}

/// How many rows groups change.
fn rows_of<A: Allocator>(index: &Index<'_, '_, A>) -> u64
    ensures { result ≡ at_most (rows_of (counts_of (groups (index_bytes index.now) (index_selection index.now)))) }
{
    let mut rows = 0_u64;
    for n in 0..index.tables() {
        rows = with_rows(rows, &index.table(n));
    }
    rows
}

/// Adds the rows of a table.
pub(crate) fn with_rows(rows: u64, count: &TableCount<'_>) -> u64
    ensures { result ≡ at_most (rows + (count.now.inserts + (count.now.updates + count.now.deletes))) }
{
    rows.saturating_add(count.inserts)
        .saturating_add(count.updates)
        .saturating_add(count.deletes)
}

/// Appends the last lines.
pub(crate) fn put_totals<A: Allocator>(
    out: &mut Vec<u8, A>,
    totals: &Totals,
) -> Result<(), AllocError>
    ensures { OnOk result (out.new.items ≡ out.old.items ++ totals_text totals.now) }
{
    put_numbered(out, b"units ", totals.units)?;
    put_numbered(out, b", not undoable ", totals.refused)?;
    put_numbered(out, b", rows ", totals.rows)?;
    put_text(out, b"\n")?;
    put_line_unless_0(out, b"statements passed over ", totals.passed_over)?;
    put_line_unless_0(out, b"damaged events passed over ", totals.damaged)
}

/// Appends words and a number.
#[tactic(auto, unfolding(crate::specs::Lines::numbered))]
pub(crate) fn put_numbered<A: Allocator>(
    out: &mut Vec<u8, A>,
    words: &[u8],
    n: u64,
) -> Result<(), AllocError>
    ensures { OnOk result (out.new.items ≡ out.old.items ++ numbered words.now n) }
{
    put_text(out, words)?;
    put_number(out, n)
}

/// Appends a line of words and a number that isn't 0.
#[tactic(auto, unfolding(crate::specs::Lines::line_unless_0))]
fn put_line_unless_0<A: Allocator>(
    out: &mut Vec<u8, A>,
    words: &[u8],
    n: u64,
) -> Result<(), AllocError>
    ensures { OnOk result (out.new.items ≡ out.old.items ++ line_unless_0 words.now n) }
{
    if n == 0 {
        return Ok(());
    }
    put_numbered(out, words, n)?;
    put_text(out, b"\n")
}
