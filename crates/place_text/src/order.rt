//! The fault that is told: the earliest.

ghost use Rattle.std.specs.Prelude.{MatchBool};
ghost use Rattle.place_text.specs.Order.{Precedes, IsNotLater};
ghost use Rattle.place_text.specs.First.{Best, Earlier};

use crate::fault::Fault;
use crate::place::Place;

/// The earliest of the faults, by line, column and rank; none where there is no fault.
pub fn earliest<F: Fault>(faults: &[F]) -> Option<F>
    ensures { Best F.place F.rank faults.now result }
{
    let mut best = None;
    for fault in faults {
        best = Some(earlier(best, *fault));
    }
    best
}

fn earlier<F: Fault>(best: Option<F>, fault: F) -> F
    ensures { Earlier F.place F.rank best fault result }
{
    match best {
        Some(best) => {
            if is_not_later(&best, &fault) {
                best
            } else {
                fault
            }
        }
        None => fault,
    }
}

/// Whether a fault is told before another one, or both are the same.
pub fn is_not_later<F: Fault>(fault: &F, other: &F) -> bool
    ensures { MatchBool result (Precedes F.place F.rank fault.now other.now) (Precedes F.place F.rank other.now fault.now) }
{
    let rank = fault.rank();
    let other_rank = other.rank();
    match (fault.place(), other.place()) {
        (Some(place), Some(there)) => is_not_behind(place, rank, there, other_rank),
        (None, None) => rank <= other_rank,
        (None, Some(_)) => true,
        (Some(_), None) => false,
    }
}

fn is_not_behind(place: Place, rank: u8, there: Place, other: u8) -> bool
    ensures { MatchBool result (IsNotLater place rank there other) (IsNotLater there other place rank) }
{
    if place.line != there.line {
        return place.line < there.line;
    }
    if place.column != there.column {
        return place.column < there.column;
    }
    rank <= other
}
