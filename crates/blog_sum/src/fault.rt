//! Why a log has no plain log.

ghost use Rattle.std.specs.Prelude.{◌≡◌};
ghost use Rattle.blog_sum.specs.declared.fault.SumFault.TheVariants.{Log};

use blog_event::Fault;
use thiserror::Error;

/// Why a log has no plain log. Each fault has a byte position from the file's start.
#[derive(Clone, Copy, Debug, PartialEq, Eq, Error)]
pub enum SumFault {
    /// It is no log: `TooLong` and `NotABinlog` at 0, `BadFormat` and `OldServer` at 4; or `CutEvent` where fewer than 19
    /// bytes are left, or an event's size is below 19, in a log with sums below 23, or reaches past the file's end.
    #[error("{0}")]
    Log(Fault),
    /// The checksum algorithm of the format description is neither 0, none, nor 1, CRC-32; at 4.
    #[error("UnknownAlgorithm at {pos}")]
    UnknownAlgorithm { pos: u32 },
    /// The last four bytes of an event aren't the CRC-32 of those before them; at the event.
    #[error("WrongSum at {pos}")]
    WrongSum { pos: u32 },
    /// What is behind this event is encrypted (MariaDB Knowledge Base, "START_ENCRYPTION_EVENT"); at the event. Checks of sums alone
    /// don't find it.
    #[error("Encrypted at {pos}")]
    Encrypted { pos: u32 },
}

// Written by hand, so that clauses know which fault a `?` makes.
impl From<Fault> for SumFault {
    ghost from_gives = { λ of_log fault. fault ≡ Log of_log };

    fn from(fault: Fault) -> SumFault {
        SumFault::Log(fault)
    }
}
