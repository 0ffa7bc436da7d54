//! Laws of the numbers of kinds.
ghost use Rattle.std.specs.Prelude.{pos, Some, ◌≡◌};
ghost use Rattle.any_sketch.specs.KindNumbers.{kind_number, kind_numbered};
ghost use Rattle.any_sketch.specs.declared.kind.Kind.{Kind};

/// States that each kind is the kind of its number. It does nothing.
pub fn kinds_have_their_numbers()
    ensures { (kind : Kind) → kind_numbered (pos (kind_number kind)) ≡ Some kind }
{}
