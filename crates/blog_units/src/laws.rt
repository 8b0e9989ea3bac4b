//! What is promised of the units of events.

ghost use Rattle.std.specs.Prelude.{List, ◌∷◌, [], ◌++◌, None};
ghost use Rattle.blog_event.specs.File.{Placed};
ghost use Rattle.blog_units.specs.Units.{units_in};
ghost use Rattle.blog_units.specs.Laws.{HasUnitEndingWith, HoldsTheEvents, IsTransaction};

/// The units of events stand in the order of these, none in another, and each event is in one of them or may stand between
/// them. The call does nothing.
pub fn units_hold_the_events()
    ensures { (es : List Placed) → HoldsTheEvents es }
{}

/// Each transaction is in a unit, which ends with it. The call does nothing.
pub fn transactions_are_in_units()
    ensures { (front inside later : List Placed) (begin end : Placed) → IsTransaction begin inside end
        → HasUnitEndingWith (begin ∷ (inside ++ end ∷ [])) (units_in None (front ++ begin ∷ (inside ++ end ∷ later))) }
{}
