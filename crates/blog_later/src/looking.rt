//! Looking at what a log has after a position.

ghost use Rattle.std.specs.Prelude.{◌≡◌, ◌∷◌, Bool, IfOk, List, filter, length, map};
ghost use Rattle.blog_choice.specs.code.ChosenView.{names_choice};
ghost use Rattle.blog_event.specs.code.LogView.{log_bytes};
ghost use Rattle.blog_later.specs.Later.{is_accepted, is_apart, later_units, may_concern, touches_in};
ghost use Rattle.blog_later.specs.code.Counted.{at_most, starts};
ghost use Rattle.blog_later.specs.code.LookedView.{LooksAmong, left_before};
ghost use Rattle.blog_units.specs.Units.{Facts};

use crate::left::LeftRows;
use crate::looked::Looked;
use blog_choice::ChosenNames;
use blog_event::Log;
use blog_units::Units;
use std::alloc::{AllocError, Allocator};

/// Looks at the units of the events of a log that begin at a position or after it, in bytes from the file's start: whether their changes take rows
/// that were left by the first of so many lists, and which of them can't be looked into, and may concern chosen tables. Fails if out of memory.
///
/// Rows are compared by fingerprints of their values. So no row is missed that was left and is taken; two rows that aren't equal have
/// the same fingerprint in one of 2^64 cases.
pub fn look<'a, A: Allocator + Copy>(
    alloc: A,
    left: &LeftRows<A>,
    lists: u32,
    names: &ChosenNames<'_, A>,
    log: &Log<'a>,
    at: u32,
) -> Result<Looked<'a, A>, AllocError>
    ensures units { IfOk result (λ looked. looked.units ≡ at_most (length (filter (is_accepted (log_bytes log.now)) (later_units (log_bytes log.now) at)))) }
    ensures touched { IfOk result (λ looked. looked.touched ≡ at_most (touches_in (left_before left.now lists) (log_bytes log.now) (later_units (log_bytes log.now) at))) }
    ensures unknown { IfOk result (λ looked. looked.unknown.items ≡ starts (filter (may_concern (names_choice names.now) (log_bytes log.now)) (later_units (log_bytes log.now) at))) }
    ensures apart { IfOk result (λ looked. looked.apart.items ≡ starts (filter (is_apart (names_choice names.now) (log_bytes log.now)) (later_units (log_bytes log.now) at))) }
{
    let mut looked = Looked::none(alloc);
    for unit in Units::from_position(log, at) {
        let judged = unit.with_groups(alloc);
        looked.look(left, lists, names, log, &judged)?;
    }
    Ok(looked)
}

/// The first of some marks, and the others; if there are none, false and none.
pub fn first_mark(marks: &[bool]) -> (bool, &[bool])
    ensures { (b : Bool) → (bs : List Bool) → marks.now ≡ b ∷ bs → (result.0 ≡ b) × (result.1.now ≡ bs) }
{
    match marks.split_first() {
        Some((first, others)) => (*first, others),
        None => (false, marks),
    }
}

/// Looks at the units of the events of a log that begin at a position or after it, from the first chosen one on, but for the chosen ones: whether
/// their changes take rows that chosen units before them left, and which of them can't be looked into, and may concern chosen tables. `chosen` says
/// of each unit in turn whether it is chosen, and `left` has a list for each that is. Fails if out of memory, or after 4,294,967,295 chosen units.
pub fn look_among<'a, A: Allocator + Copy>(
    alloc: A,
    left: &LeftRows<A>,
    names: &ChosenNames<'_, A>,
    chosen: &[bool],
    log: &Log<'a>,
    from: u32,
) -> Result<Looked<'a, A>, AllocError>
    ensures { (p : Facts → Bool) → chosen.now ≡ map p (later_units (log_bytes log.now) from)
        → IfOk result (LooksAmong (left_before left.now) p (names_choice names.now) (log_bytes log.now) (later_units (log_bytes log.now) from)) }
{
    let mut looked = Looked::none(alloc);
    let mut lists = 0u32;
    let mut marks = chosen;
    for unit in Units::from_position(log, from) {
        let (is_chosen, others) = first_mark(marks);
        marks = others;
        if is_chosen {
            let Some(more) = lists.checked_add(1) else {
                return Err(AllocError);
            };
            lists = more;
        } else if lists > 0 {
            let judged = unit.with_groups(alloc);
            looked.look(left, lists, names, log, &judged)?;
        }
    }
    Ok(looked)
}
