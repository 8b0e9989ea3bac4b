//! Leaving rows out.

ghost use Rattle.std.specs.Prelude.{IfErr, IfOk, ◌≡◌};
ghost use Rattle.blog_trans.specs.code.IndexView.{index_bytes, index_selection};
ghost use Rattle.blog_left_out.specs.LeftOut.{left_out_text};
ghost use Rattle.blog_left_out.specs.code.LeftOutView.{bytes_left};
ghost use Rattle.blog_left_out.specs.code.PutView.{IsUnwritten};

use crate::fault::LeaveOutFault;
use crate::left_out::LeftOut;
use crate::writing::put_groups;
use blog_flash::front;
use blog_trans::Index;
use std::alloc::Allocator;

/// Writes the groups of an index as a log in memory, with the rows whose mark is true. `marks` has a mark for each change of a row, in
/// order; a change without a mark is left out. A rows event stays if one of its rows does, or if it has none. It is written as a statement
/// of its own: its table map, and the event with the end flag. A transaction of which no rows event stays is left out.
///
/// Fails with `OutOfMemory` if out of memory, and with `TooLong` if the log would have more than 4,294,967,295 bytes.
pub fn leave_out<A: Allocator + Copy, B: Allocator>(
    alloc: A,
    index: &Index<'_, '_, B>,
    marks: &[bool],
) -> Result<LeftOut<A>, LeaveOutFault>
    ensures text { IfOk result (λ left. bytes_left left ≡ left_out_text marks.now (index_bytes index.now) (index_selection index.now)) }
    ensures fault { IfErr result (IsUnwritten (left_out_text marks.now (index_bytes index.now) (index_selection index.now))) }
{
    let mut out = Vec::new(alloc);
    let Ok(()) = out.extend_from_slice(front(index)) else {
        return Err(LeaveOutFault::OutOfMemory);
    };
    let mut body = Vec::new(alloc);
    match put_groups(&mut out, &mut body, index, marks) {
        Ok(()) => Ok(LeftOut { bytes: out }),
        Err(fault) => Err(fault),
    }
}
