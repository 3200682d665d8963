//! What each stage's faults tell.

ghost use Rattle.std.specs.Prelude.{◌≡◌, ℕ, List, Option, None};
ghost use Rattle.place_text.specs.declared.place.Place.{Place as APlace};

use crate::place::Place;

/// The reasons for which a stage refuses: faults with their places, and want of memory, which has none.
pub trait Fault: Copy {
    /// Where the fault stands; want of memory alone stands nowhere.
    ghost place: { Self → Option APlace };

    /// Of two faults at one place, that of the lower rank is told.
    ghost rank: { Self → ℕ };

    /// The name of its kind, as the fault's line has it.
    ghost kind: { Self → List ℕ };

    /// The place of the fault.
    fn place(&self) -> Option<Place>
        ensures { result ≡ place self.now };

    /// The rank of the fault.
    fn rank(&self) -> u8
        ensures { result ≡ rank self.now };

    /// The name of its kind.
    fn kind(&self) -> &'static str
        ensures { result.now ≡ kind self.now };

    /// Two faults of one place and one rank are the same.
    ghost one_each: { (fault other : Self) → place fault ≡ place other → rank fault ≡ rank other → fault ≡ other };

    /// Want of memory is one.
    ghost one_nowhere: { (fault other : Self) → place fault ≡ None → place other ≡ None → fault ≡ other };
}
