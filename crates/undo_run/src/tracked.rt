//! What is recorded of changes, and rows that are followed through them.

ghost use Rattle.std.specs.Prelude.{◌≡◌, Bool, IfOk, OnOk, map, true};
ghost use Rattle.blog_event.specs.code.LogView.{log_bytes};
ghost use Rattle.blog_later.specs.Among.{from_first, others_of};
ghost use Rattle.blog_later.specs.Later.{changes_in, later_units};
ghost use Rattle.blog_later.specs.code.LookedView.{left_before};
ghost use Rattle.blog_trans.specs.Selection.{selection_of};
ghost use Rattle.blog_units.specs.Units.{Facts};
ghost use Rattle.undo_run.specs.code.Tracks.{Follows, HasFollowed, Tracks, TracksAmong};

use blog_event::Log;
use blog_followed::Followed;
use blog_later::LeftRows;
use blog_trans::Selection;
use blog_untouched::ChangeRecord;
use std::alloc::{AllocError, Allocator};

/// What is recorded of chosen units and of what came after them; and rows that are followed through the changes of others.
#[derive(Drop)]
pub(crate) struct Tracked<A: Allocator> {
    /// The changes, by the fingerprints of their rows.
    pub(crate) record: ChangeRecord<A>,
    /// The followed rows, and the changes of later logs that take some.
    pub(crate) followed: Followed<A>,
    /// Whether rows are followed.
    pub(crate) follows: bool,
}

/// Nothing is recorded, and no rows are followed.
pub(crate) fn untracked<A: Allocator + Copy>(alloc: A) -> Tracked<A> {
    Tracked {
        record: ChangeRecord::none(alloc),
        followed: Followed::new(alloc),
        follows: false,
    }
}

/// Follows the rows that the selected changes of chosen units left through the changes of the other units of a log, if that is asked for. Fails if out of
/// memory.
fn followed_among<A: Allocator + Copy>(
    alloc: A,
    follows: bool,
    left: &LeftRows<A>,
    chosen: &[bool],
    log: &Log<'_>,
    from: u32,
) -> Result<Followed<A>, AllocError>
    ensures { (p : Facts → Bool) → chosen.now ≡ map p (later_units (log_bytes log.now) from) → follows ≡ true
        → IfOk result (HasFollowed (left_before left.now 4294967295).rows (changes_in (log_bytes log.now) (others_of p (from_first p (later_units (log_bytes log.now) from))))) }
{
    let mut followed = Followed::new(alloc);
    if !follows {
        return Ok(followed);
    }
    followed.follow_among(alloc, left, chosen, log, from)?;
    Ok(followed)
}

/// Records the units of a log from the start of a selection on, of which some are chosen, as `ChangeRecord::add_among`. `follows` says whether the rows
/// that the selected changes left are followed through the changes of the others. Fails if out of memory, if a chosen unit isn't accepted, or after
/// 4,294,967,295 chosen units.
pub(crate) fn track_among<A: Allocator + Copy>(
    alloc: A,
    follows: bool,
    left: &LeftRows<A>,
    chosen: &[bool],
    inside: &Selection<'_>,
    log: &Log<'_>,
) -> Result<Tracked<A>, AllocError>
    ensures { (p : Facts → Bool) → chosen.now ≡ map p (later_units (log_bytes log.now) inside.now.start)
        → IfOk result (TracksAmong p (selection_of inside.now) (log_bytes log.now) (later_units (log_bytes log.now) inside.now.start) left.now follows) }
{
    let mut record = ChangeRecord::none(alloc);
    record.add_among(alloc, left, chosen, inside, log, inside.start)?;
    let followed = followed_among(alloc, follows, left, chosen, log, inside.start)?;
    Ok(Tracked {
        record,
        followed,
        follows,
    })
}

/// Follows rows through a later log, if that is asked for, and keeps the changes that take them. Fails if out of memory.
fn keep_if<A: Allocator + Copy>(
    alloc: A,
    followed: &mut Followed<A>,
    follows: bool,
    left: &LeftRows<A>,
    log: &Log<'_>,
) -> Result<(), AllocError>
    ensures { follows ≡ true → OnOk result (Follows (left_before left.now 4294967295).rows (changes_in (log_bytes log.now) (later_units (log_bytes log.now) 0)) followed.old followed.new) }
{
    if !follows {
        return Ok(());
    }
    followed.keep_later(alloc, left, log, 0)?;
    Ok(())
}

/// Adds a later log, if that is asked for: the rows that it takes, of those that selected changes left, and where rows are followed the changes that
/// take them. Fails if out of memory.
pub(crate) fn track_if<A: Allocator + Copy>(
    alloc: A,
    tracked: &mut Tracked<A>,
    asked: bool,
    left: &LeftRows<A>,
    log: &Log<'_>,
) -> Result<(), AllocError>
    ensures { asked ≡ true → OnOk result (Tracks (left_before left.now 4294967295).rows (changes_in (log_bytes log.now) (later_units (log_bytes log.now) 0)) tracked.old tracked.new) }
{
    if !asked {
        return Ok(());
    }
    let follows = tracked.follows;
    tracked.record.add_later(alloc, left, u32::MAX, log, 0)?;
    keep_if(alloc, &mut tracked.followed, follows, left, log)?;
    Ok(())
}
