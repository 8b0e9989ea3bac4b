//! Parts of bytes, where they are long enough.

ghost use Rattle.std.specs.Prelude.{◌≡◌, ◌≤◌, ◌+◌, drop, length, option_map, take};
ghost use Rattle.std.specs.Option.{SomeIff};
ghost use Rattle.blog_json.specs.Slices.{bytes_from, bytes_within, now_of};

/// Returns the bytes from a place on.
pub(crate) fn bytes_from(bytes: &[u8], start: usize) -> Option<&[u8]>
    ensures { option_map now_of result ≡ bytes_from start bytes.now }
{
    if start > bytes.len() {
        return None;
    }
    Some(&bytes[start..])
}

/// Returns this many bytes from a place on.
pub(crate) fn bytes_within(bytes: &[u8], start: usize, len: usize) -> Option<&[u8]>
    ensures { option_map now_of result ≡ bytes_within start len bytes.now }
{
    if start > bytes.len() || len > bytes.len() - start {
        return None;
    }
    Some(&bytes[start..start + len])
}
