//! Laws of the definitions.

ghost use Rattle.std.specs.Prelude.{◌≤◌, ℕ, List, length};
ghost use Rattle.blog_event.specs.File.{AreBytes};
ghost use Rattle.blog_gtid.specs.Integers.{ReadsInteger};
ghost use Rattle.blog_gtid.specs.Tagged.{TaggedId, ReadsTagged, gtid_body_of};

/// An integer is read exactly where one stands at the front, in any of its forms. The call does nothing.
pub fn reading_an_integer_is_exact()
    ensures exact { (bytes : List ℕ) (v : ℕ) (rest : List ℕ) → AreBytes bytes → ReadsInteger bytes v rest }
{}

/// An identifier is read exactly where the body has it, with integers in any of their forms. The call does nothing.
pub fn reading_a_tagged_event_is_exact()
    ensures exact { (body : List ℕ) (id : TaggedId) → AreBytes body → ReadsTagged body id }
{}

/// The body of the Gtid event has at least 25 bytes, and fits where a tagged one has as many. The call does nothing.
#[tactic(auto, using(crate::proofs::Lengths::gtid_least, crate::proofs::Lengths::gtid_fits))]
pub fn a_gtid_body_fits()
    ensures least { (body : List ℕ) → 25 ≤ length (gtid_body_of body) }
    ensures fits { (body : List ℕ) → 25 ≤ length body → length (gtid_body_of body) ≤ length body }
{}
