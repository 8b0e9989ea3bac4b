//! Why a list ends early.

ghost use Rattle.std.specs.Prelude.{◌≡◌};
ghost use Rattle.blog_source.specs.code.SourceView.{end_of, fault_of};
ghost use Rattle.blog_list.specs.Lists.{early_end};

use blog_event::Fault;
use blog_request::is_before;
use blog_source::Source;
use blog_sum::SumFault;
use std::alloc::Allocator;

/// Why a list ends early, of which the last unit is whole or isn't: the fault with which the reading of the source ended, before
/// the stop or inside that unit; or `Unended` at the end.
pub fn early_end<A: Allocator>(
    source: &Source<A>,
    whole: bool,
    stop: Option<u32>,
) -> Option<SumFault>
    ensures { result ≡ early_end (fault_of source.now) (end_of source.now) whole stop }
{
    if whole && !is_before(source.end(), stop) {
        return None;
    }
    match source.fault() {
        Some(fault) => Some(fault),
        None if whole => None,
        None => Some(SumFault::Log(Fault::Unended { pos: source.end() })),
    }
}
