//! Why a list isn't whole.

use blog_device::RunFault;
use blog_sum::SumFault;

/// Why the list of a log isn't whole.
#[derive(Clone, Copy, Debug, PartialEq, Eq)]
pub enum ListFault {
    /// A device failed, or memory was refused, or the log is too long.
    Run(RunFault),
    /// Nothing can be read of the log.
    Unread(SumFault),
    /// The log ends too early, or is damaged behind what was listed.
    EndsEarly(SumFault),
}
