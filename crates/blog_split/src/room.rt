//! How much room a piece has left to its limit.

ghost use Rattle.std.specs.Prelude.{◌≡◌, ◌+◌, ◌<◌, length, map, IfSome, MatchOption, option_to_list};
ghost use Rattle.blog_split.specs.Cuts.{maps_bytes};
ghost use Rattle.blog_split.specs.code.Marks.{event_told, numbered};

use blog_event::{Event, HEADER_LEN};

/// How many of `left` bytes an event with a body of `body_len` bytes leaves, or `None` if it has more.
fn left_after(left: usize, body_len: usize) -> Option<usize>
    ensures { MatchOption result (left < 19 + body_len) (λ rest. left ≡ rest + (19 + body_len)) }
{
    left.checked_sub(HEADER_LEN)?.checked_sub(body_len)
}

/// How many of `left` bytes a rows event with a body of `body_len` bytes leaves, and the map of a number if one comes with
/// it. `None` if they have more.
pub(crate) fn left_with(
    maps: &[Event<'_>],
    left: usize,
    body_len: usize,
    number: Option<usize>,
) -> Option<usize>
    requires { IfSome number (λ n. n < length maps.now) }
    ensures { MatchOption result (left < (19 + body_len) + maps_bytes (numbered (map event_told maps.now) (option_to_list number)))
        (λ rest. left ≡ rest + ((19 + body_len) + maps_bytes (numbered (map event_told maps.now) (option_to_list number)))) }
{
    let left = left_after(left, body_len)?;
    match number {
        Some(number) => left_after(left, maps[number].body.len()),
        None => Some(left),
    }
}
