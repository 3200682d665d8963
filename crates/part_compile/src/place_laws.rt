//! Laws of placed codes. The functions do nothing.

ghost use Rattle.std.specs.Prelude.{ℕ, List};
ghost use Rattle.ground_net.specs.declared.net.Net.{Net as TheNet};
ghost use Rattle.ground_net.specs.declared.net.CutPart.{CutPart as ThePart};
ghost use Rattle.flat_code.specs.declared.code.Code.{Code as TheCode};
ghost use Rattle.partition_code.specs.Codes.{IsCodeOf};
ghost use Rattle.code_place.specs.Placed.{IsPlaced};

/// The code of a part is its code in other slots too.
pub fn placed_codes_are_codes()
    ensures { (net : TheNet) (watch : List ℕ) (part : ThePart) (code placed : TheCode) → IsCodeOf net watch part code → IsPlaced code placed → IsCodeOf net watch part placed }
{}
