//! Pairs of the changes of a log's units.

ghost use Rattle.std.specs.Prelude.{◌≡◌, Bool, IfOk, map};
ghost use Rattle.blog_event.specs.code.LogView.{log_bytes};
ghost use Rattle.blog_later.specs.Among.{from_first, marked_in};
ghost use Rattle.blog_later.specs.Later.{later_units};
ghost use Rattle.blog_merge.specs.Merge.{pairs_of};
ghost use Rattle.blog_pairs.specs.code.TableView.{pairs_told};
ghost use Rattle.blog_trans.specs.Selection.{selection_of};
ghost use Rattle.blog_units.specs.Units.{Facts};
ghost use Rattle.blog_untouched.specs.Steps.{unit_step};
ghost use Rattle.blog_differences.specs.Outside.{outside_by};

use crate::others::add_other;
use crate::selected::add_chosen;
use blog_event::Log;
use blog_later::first_mark;
use blog_pairs::{PairFault, PairTable};
use blog_trans::Selection;
use blog_units::Units;
use std::alloc::Allocator;

/// Returns the pairs of rows as they are, and as they would be had some selected changes not been made, by the units of a log from a position on, of
/// which some are chosen. `chosen` says of each unit in turn whether it is. The changes of a chosen one to the tables of a selection, up to its stop,
/// are selected. `marks` has one for each of them, in order; marked ones are undone by themselves, and make no difference. The changes of the other
/// units behind the first chosen one, which can be undone by themselves, are those of others.
///
/// Fails with `OtherLayout` if a table whose rows differ comes with other columns, and with `OutOfMemory` if out of memory, if a chosen unit isn't
/// accepted, or if there are fewer marks than selected changes.
pub fn pairs_among<A: Allocator + Copy>(
    alloc: A,
    log: &Log<'_>,
    from: u32,
    chosen: &[bool],
    inside: &Selection<'_>,
    marks: &[bool],
) -> Result<PairTable<A>, PairFault>
    ensures { (p : Facts → Bool) → chosen.now ≡ map p (later_units (log_bytes log.now) from) → IfOk result (λ table. pairs_told table
        ≡ pairs_of (outside_by marks.now (marked_in (map (unit_step p (selection_of inside.now) (log_bytes log.now)) (from_first p (later_units (log_bytes log.now) from)))))) }
{
    let mut table = PairTable::new(alloc);
    let mut choices = chosen;
    let mut left = marks;
    let mut has_begun = false;
    for unit in Units::from_position(log, from) {
        let (is_chosen, others) = first_mark(choices);
        choices = others;
        if is_chosen {
            has_begun = true;
            left = add_chosen(alloc, &mut table, &unit, inside, left)?;
        } else if has_begun {
            add_other(alloc, &mut table, unit)?;
        }
    }
    Ok(table)
}
