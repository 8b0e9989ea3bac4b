//! Laws of the definitions.

ghost use Rattle.std.specs.Prelude.{◌≡◌, List, ℕ, codes, true, Some};
ghost use Rattle.blog_event.specs.declared.fault.Fault.{Fault};
ghost use Rattle.blog_sum.specs.declared.fault.SumFault.TheVariants.{Log};
ghost use Rattle.blog_sum.specs.Crc.{crc32_of};
ghost use Rattle.blog_sum.specs.Sums.{sum_fault, is_of_a_front};

/// The check value by which CRC-32 is known: the sum of the digits from 1 to 9. The call does nothing.
#[tactic(auto, unfolding(crate::specs::Crc::crc32_of, crate::specs::Crc::register_after, crate::specs::Crc::step_bits))]
pub fn check_value()
    ensures check { crc32_of (codes "123456789") ≡ 0xCBF43926 }
{}

/// Of the faults of a log only those of its front come, and `CutEvent`. The call does nothing.
#[tactic(auto, using(crate::proofs::Faults::faults_of_front))]
pub fn faults_are_of_a_front()
    ensures faults { (bytes : List ℕ) (fault : Fault) → sum_fault bytes ≡ Some (Log fault) → is_of_a_front fault ≡ true }
{}
