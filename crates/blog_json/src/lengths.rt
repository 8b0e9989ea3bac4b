//! Bytes behind their length.

ghost use Rattle.std.specs.Prelude.{◌≡◌, option_map};
ghost use Rattle.blog_json.specs.Lengths.{length_front, length_seen, sized_front};
ghost use Rattle.blog_json.specs.Slices.{now_of};

use crate::slices::bytes_within;

/// The most bytes that a length takes.
const LENGTH_BYTES: u32 = 5;

/// Returns the length at the front of bytes, in at most this many of them, and the bytes behind it (MySQL's sources,
/// json_binary.cc, `read_variable_length`): seven bits in each byte, the lowest first, and the highest bit set in all but the last.
#[tactic(auto, unfolding(crate::specs::Lengths::length_front))]
fn length_front(bytes: &[u8], most: u32) -> Option<(u32, &[u8])>
    ensures { option_map length_seen result ≡ length_front most bytes.now }
{
    let (first, rest) = bytes.split_first()?;
    if most == 0 {
        return None;
    }
    if *first < 128 {
        return Some((u32::from(*first), rest));
    }
    let (higher, rest) = length_front(rest, most - 1)?;
    let len = u64::from(*first - 128) + 128 * u64::from(higher);
    if len > u64::from(u32::MAX) {
        return None;
    }
    Some((len as u32, rest))
}

/// Returns the bytes at the front behind their length.
pub(crate) fn sized_front(bytes: &[u8]) -> Option<&[u8]>
    ensures { option_map now_of result ≡ sized_front bytes.now }
{
    let (len, rest) = length_front(bytes, LENGTH_BYTES)?;
    bytes_within(rest, 0, len as usize)
}
