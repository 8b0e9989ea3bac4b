//! A kept change that is added to pairs.

ghost use Rattle.std.specs.Prelude.{◌≡◌, ◌<◌, ◌∷◌, [], OnOk, false, length, option_map};
ghost use Rattle.blog_pairs.specs.Steps.{pairs_with};
ghost use Rattle.blog_pairs.specs.code.TableView.{pairs_told};
ghost use Rattle.blog_followed.specs.code.KeptView.{bodies_of, change_told};

use crate::held::{KeptChange, KeptMap};
use blog_pairs::{PairFault, PairTable};
use blog_row::{Layout, RowChange};
use std::alloc::Allocator;

/// Returns the image of the row after a change.
fn image_after<A: Allocator>(change: &KeptChange<A>) -> Option<&[u8]>
    ensures { option_map (λ image. image.now) result ≡ option_map (λ image. image.items) change.now.after }
{
    match &change.after {
        Some(after) => Some(after.as_slice()),
        None => None,
    }
}

/// Adds a change by its table map, as one of others. Fails with `OtherLayout` if its table came before with other columns, or if out of memory.
pub(crate) fn add_change<A: Allocator + Copy>(
    maps: &[KeptMap<A>],
    change: &KeptChange<A>,
    pairs: &mut PairTable<A>,
) -> Result<(), PairFault>
    requires { change.now.map < length maps.now }
    ensures { OnOk result (pairs_told pairs.new ≡ pairs_with false (change_told (bodies_of maps.now) change.now ∷ []) (pairs_told pairs.old)) }
{
    let body = maps[change.map].body.as_slice();
    let layout = Layout::known(body);
    let row = RowChange {
        before: Some(change.before.as_slice()),
        after: image_after(change),
    };
    pairs.add_later(body, &layout, &row)
}
