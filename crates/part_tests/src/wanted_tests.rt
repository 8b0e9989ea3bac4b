//! Units of a part, by their positions.

use crate::runs::{Came, UNDO, between, units_with};
use blog_choice::TableChoice;
use blog_request::Wanted;
use sample_logs::builder::{BEGIN, GTID, Part, T, XID, build, insert};
use std::process::Abort;
use std::test::Fail;
use undo_run::UnitRequest;

/// Any unit.
pub(crate) const ANY: Wanted<'static> = Wanted {
    start: None,
    stop: None,
    from_time: None,
    to_time: None,
    threads: &[],
    gtids: &[],
    choice: TableChoice {
        database: None,
        tables: &[],
        excluded: &[],
    },
};

/// Two transactions, each with a Gtid event, are those at 120 and 303, where these events are, and at 164 and 347, where their `BEGIN`
/// is; and there is none elsewhere.
#[test]
fn only_starts_and_begins_are_positions_of_units(rt: HostRuntime) -> Result<(), Fail> {
    let unit = [GTID, BEGIN, Part::Map(T), insert(1, &[5]), XID];
    let mut parts = unit.to_vec(rt.alloc())?;
    parts.extend_from_slice(&unit)?;
    let log = build(&rt, &parts)?;
    assert!(rt; log.len() == 486);
    for pos in 0..526_u32 {
        let wanted = if matches!(pos, 120 | 164 | 303 | 347) {
            Came::Done
        } else {
            Came::NoUnitAt(pos)
        };
        let at = [pos];
        let asked = UnitRequest {
            wanted: ANY,
            at: at.as_slice(),
            leaves: false,
            merges: false,
        };
        let (came, _, _) = units_with(&rt, &log, &between(4, None), asked, false, &[], &UNDO)?;
        assert!(rt; came == wanted);
    }
    Ok(())
}
