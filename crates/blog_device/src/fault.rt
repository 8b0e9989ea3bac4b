//! Why a run over devices failed.

ghost use Rattle.std.specs.Prelude.{◌≡◌};
ghost use Rattle.blog_event.specs.declared.fault.Fault.TheVariants.{OutOfMemory};

use blog_event::Fault;
use std::alloc::AllocError;

/// Why a run did not come to its end.
#[derive(Clone, Copy, Debug, PartialEq, Eq)]
pub enum RunFault {
    /// The log is refused, or memory was.
    Log(Fault),
    /// A call of the reader failed.
    Read,
    /// A call of the writer failed, or it took nothing of bytes that were left.
    Write,
}

impl From<AllocError> for RunFault {
    ghost use Rattle.blog_device.specs.declared.fault.RunFault.TheVariants.{Log};

    ghost from_gives = { λ _ e. e ≡ Log OutOfMemory };

    fn from(_error: AllocError) -> RunFault {
        RunFault::Log(Fault::OutOfMemory)
    }
}
