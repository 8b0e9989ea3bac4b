//! A text that is collected in a chunk, which is written if it is full.

ghost use Rattle.std.specs.Prelude.{◌≡◌, ◌≤◌, ◌++◌, ◌||◌, length, OnOk, OnErr, IfErr, vec_capacity};
ghost use Rattle.blog_device.specs.Watched.{device_of, has_failed};
ghost use Rattle.blog_device.specs.Devices.{AppendsBeginning, is_write_fault};
ghost use Rattle.blog_sql.specs.code.Adding.{Adds};

use blog_device::{RunFault, Watched, put_part};
use std::alloc::Allocator;
use std::io::Write;

/// Adds bytes to the chunk. If they have no room, what it holds is written first. Fails with `Write` if a write failed.
pub(crate) fn append<A: Allocator, W: Write>(
    writer: &mut Watched<W>,
    chunk: &mut Vec<u8, A>,
    bytes: &[u8],
) -> Result<(), RunFault>
    requires { length bytes.now ≤ vec_capacity chunk.old }
    ensures adds { OnOk result (Adds (W.contents (device_of writer.old)) (W.contents (device_of writer.new)) chunk.old.items chunk.new.items bytes.now) }
    ensures beginning { OnErr result (AppendsBeginning (W.contents (device_of writer.old)) (W.contents (device_of writer.new)) (chunk.old.items ++ bytes.now)) }
    ensures fault { IfErr result (λ e. e ≡ RunFault.Write) }
    ensures capacity { vec_capacity chunk.old ≤ vec_capacity chunk.new }
    ensures mark { has_failed writer.new ≡ (has_failed writer.old || is_write_fault result) }
{
    if bytes.len() > chunk.capacity() - chunk.len() {
        put_part(writer, chunk)?;
        chunk.clear();
    }
    chunk.extend_from_slice(bytes).unwrap();
    Ok(())
}
