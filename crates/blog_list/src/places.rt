//! Positions of a server's log, which people give and see, beside those of the log without checksums that is handed out for it.

ghost use Rattle.std.specs.Prelude.{◌≡◌, option_map};
ghost use Rattle.blog_list.specs.code.Told.{inside};
ghost use Rattle.blog_source.specs.Places.{position_of};
ghost use Rattle.blog_source.specs.code.SourceView.{log_of};

use blog_request::Wanted;
use blog_source::Source;
use std::alloc::Allocator;

/// Returns where in the log without checksums the first event begins that is at this place of the server's log or behind it.
fn position<A: Allocator>(source: &Source<A>, place: Option<u32>) -> Option<u32>
    ensures { result ≡ option_map (position_of (log_of source.now)) place }
{
    match place {
        Some(place) => Some(source.position(place)),
        None => None,
    }
}

/// Returns which units of the log without checksums are wanted, where positions of the server's log are given.
pub fn wanted_inside<'w, A: Allocator>(source: &Source<A>, wanted: &Wanted<'w>) -> Wanted<'w>
    ensures { result ≡ inside (log_of source.now) wanted.now }
{
    Wanted {
        start: position(source, wanted.start),
        stop: position(source, wanted.stop),
        ..*wanted
    }
}
