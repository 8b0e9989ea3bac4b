//! How the units of a log end.

ghost use Rattle.std.specs.Prelude.{◌≡◌};
ghost use Rattle.blog_list.specs.Lists.{list_end};
ghost use Rattle.blog_source.specs.code.SourceView.{end_of, fault_of};

use blog_list::early_end;
use blog_source::Source;
use blog_sum::SumFault;
use std::alloc::Allocator;

/// Why a log ends early, by whether its last unit is whole; it doesn't if units stopped being wanted before.
pub(crate) fn log_end<A: Allocator>(
    source: &Source<A>,
    whole: Option<bool>,
    stop: Option<u32>,
) -> Option<SumFault>
    ensures { result ≡ list_end (fault_of source.now) (end_of source.now) stop whole }
{
    match whole {
        Some(whole) => early_end(source, whole, stop),
        None => None,
    }
}
