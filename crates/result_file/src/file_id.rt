//! Which files are the same.

ghost use Rattle.std.specs.Prelude.{◌≡◌, ◌↔◌, ◌≢◌, ℕ, IfNone, IfSome, IsTrue, slice_get};
ghost use Rattle.result_file.specs.FileIds.{IsFirstRepeated, IsRepeated};

use std::fs::Metadata;
use std::os::unix::fs::MetadataExt;

/// What only one file has: its device and its number there.
#[derive(Clone, Copy, Debug, PartialEq, Eq)]
pub struct FileId {
    /// The number of the device.
    pub device: u64,
    /// The number of the file on its device.
    pub number: u64,
}

impl FileId {
    /// Returns the id of the file that this metadata is of.
    pub fn of(metadata: &Metadata) -> Self {
        FileId {
            device: metadata.dev(),
            number: metadata.ino(),
        }
    }
}

/// Returns whether two ids are of one file: the device and the number are the same.
pub fn are_same(one: &FileId, other: &FileId) -> bool
    ensures exact { IsTrue result ↔ (one.now ≡ other.now) }
{
    one.device == other.device && one.number == other.number
}

/// Returns the places of the first id that is there before, the earlier place first.
pub fn first_repeated(ids: &[FileId]) -> Option<(usize, usize)>
    ensures none { IfNone result ((i : ℕ) (j : ℕ) → ¬ IsRepeated ids.now i j) }
    ensures first { IfSome result (λ places. IsFirstRepeated ids.now places.0 places.1) }
{
    for (later, id) in ids.iter().enumerate() {
        if let Some(earlier) = place_of(id, &ids[..later]) {
            return Some((earlier, later));
        }
    }
    None
}

/// A place where these ids have this one.
fn place_of(id: &FileId, ids: &[FileId]) -> Option<usize>
    ensures none { IfNone result ((place : ℕ) → slice_get ids.now place ≢ Some id.now) }
    ensures place { IfSome result (λ place. slice_get ids.now place ≡ Some id.now) }
{
    ids.iter().position(|known| are_same(known, id))
}
