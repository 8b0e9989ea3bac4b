//! Objects and arrays: counts, keys and where the values are.

ghost use Rattle.std.specs.Prelude.{◌≡◌, ◌≤◌, ◌*◌, ◌^◌, option_map};
ghost use Rattle.blog_json.specs.Containers.{container_front, container_seen, entries_end, entry_at, entry_seen, key_at, keys_len, values_len, values_start};
ghost use Rattle.blog_json.specs.Slices.{now_of};

use crate::kinds::{Kind, Width};
use crate::scalars::size_front;
use crate::slices::{bytes_from, bytes_within};

/// Whether the values have keys.
#[derive(Clone, Copy, Debug)]
pub(crate) enum Form {
    /// Each value has a key.
    Object,
    /// No value has one.
    Array,
}

/// An object or an array.
#[derive(Clone, Copy, Debug)]
pub(crate) struct Container<'d> {
    /// Whether it has keys.
    pub(crate) form: Form,
    /// How wide its counts and offsets are.
    pub(crate) width: Width,
    /// How many values it has.
    pub(crate) count: u32,
    /// Its bytes, from its count on. Offsets count from their start.
    pub(crate) bytes: &'d [u8],
}

/// Returns how many bytes the entries of this many keys take.
fn keys_len(width: Width, keys: u32) -> usize
    ensures exact { result ≡ keys_len width keys }
    ensures bound { result ≤ 2 ^ 35 }
{
    match width {
        Width::Small => 4 * keys as usize,
        Width::Large => 6 * keys as usize,
    }
}

/// Returns how many bytes the entries of this many values take.
fn values_len(width: Width, values: u32) -> usize
    ensures exact { result ≡ values_len width values }
    ensures bound { result ≤ 2 ^ 35 }
{
    match width {
        Width::Small => 3 * values as usize,
        Width::Large => 5 * values as usize,
    }
}

/// Returns where the entries of the values begin.
fn values_start(form: Form, width: Width, count: u32) -> usize
    ensures exact { result ≡ values_start form width count }
    ensures bound { result ≤ 2 ^ 36 }
{
    match form {
        Form::Object => 2 * width.bytes() + keys_len(width, count),
        Form::Array => 2 * width.bytes(),
    }
}

/// Returns where the entries of the values end.
fn entries_end(form: Form, width: Width, count: u32) -> usize
    ensures exact { result ≡ entries_end form width count }
    ensures bound { result ≤ 2 ^ 37 }
{
    values_start(form, width, count) + values_len(width, count)
}

impl<'d> Container<'d> {
    /// Returns the object or the array at the front of bytes, if its size and its entries lie within them (MySQL's sources,
    /// json_binary.cc, `parse_array_or_object`).
    pub(crate) fn front(form: Form, width: Width, bytes: &'d [u8]) -> Option<Container<'d>>
        ensures { option_map container_seen result ≡ container_front form width bytes.now }
    {
        let count = size_front(width, bytes)?;
        let size = size_front(width, bytes_from(bytes, width.bytes())?)? as usize;
        let own = bytes_within(bytes, 0, size)?;
        if entries_end(form, width, count) > size {
            return None;
        }
        Some(Container {
            form,
            width,
            count,
            bytes: own,
        })
    }

    /// Returns the key of a value by its number from 0, if it lies behind all entries (`Value::key`).
    pub(crate) fn key(&self, i: u32) -> Option<&'d [u8]>
        ensures { option_map now_of result ≡ key_at (container_seen self.now) i }
    {
        let entry = bytes_from(self.bytes, 2 * self.width.bytes() + keys_len(self.width, i))?;
        let offset = size_front(self.width, entry)? as usize;
        let len = size_front(Width::Small, bytes_from(entry, self.width.bytes())?)? as usize;
        if offset < entries_end(self.form, self.width, self.count) {
            return None;
        }
        bytes_within(self.bytes, offset, len)
    }

    /// Returns the type of a value by its number from 0, and the bytes at whose front it is: those of its entry, or those from its
    /// offset on, if that lies behind the entry (`Value::element`).
    pub(crate) fn entry(&self, i: u32) -> Option<(Kind, &'d [u8])>
        ensures { option_map entry_seen result ≡ entry_at (container_seen self.now) i }
    {
        let start = values_start(self.form, self.width, self.count) + values_len(self.width, i);
        let (first, place) = bytes_from(self.bytes, start)?.split_first()?;
        let kind = Kind::of(*first)?;
        if kind.is_inlined(self.width) {
            return Some((kind, bytes_within(place, 0, self.width.bytes())?));
        }
        let offset = size_front(self.width, place)? as usize;
        if offset <= start + self.width.bytes() {
            return None;
        }
        Some((kind, bytes_from(self.bytes, offset)?))
    }
}
