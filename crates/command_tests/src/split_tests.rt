//! Runs of `split`.

use command_runs::run_log;
use sample_logs::builder::{BEGIN, XID, build, insert, map_of};
use sample_logs::small::SUMMED;
use std::alloc::AllocError;
use std::process::Abort;
use std::test::Fail;

/// The rows of the rows events of a statement, which have 531 and 456 bytes.
const FIRST: [u8; 100] = [5; 100];

const SECOND: [u8; 85] = [6; 85];

/// A log of a statement of two rows events. Its map has 36 bytes and the table's name.
pub(crate) fn whole(rt: &impl AllocGlobal, name: &[u8]) -> Result<Vec<u8>, AllocError> {
    let map = map_of(1, name);
    build(
        rt,
        &[
            BEGIN,
            map,
            insert(1, &FIRST).open(),
            insert(1, &SECOND),
            XID,
        ],
    )
}

const CUT_EVENT: &str =
    "binlog: CutEvent at 120: the log ends inside an event, or is damaged: copy it from the server again\n";

const WRONG_SUM: &str =
    "binlog: WrongSum at 120: the event isn't what the server wrote: copy the log from the server again\n";

/// One byte of a log with checksums is changed, each in turn: nothing is written.
#[test]
fn damaged_logs_are_not_cut(rt: HostRuntime) -> Result<(), Fail> {
    for at in (120..SUMMED.len()).step_by(3) {
        let mut log = SUMMED.to_vec(rt.alloc())?;
        let byte = log.get_mut(at).ok_or("a short log")?;
        *byte ^= 1;
        let outcome = run_log(&rt, "damaged", log.as_slice(), &["split"])?;
        // the size of the event
        let line = if matches!(at, 129 | 132) {
            CUT_EVENT
        } else {
            WRONG_SUM
        };
        assert!(rt; outcome.is_refusal(1, line), "{at}");
    }
    Ok(())
}
