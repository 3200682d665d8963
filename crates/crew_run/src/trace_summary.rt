//! Laws of the definition, and a worked example. The functions do nothing.

ghost use Rattle.std.specs.Prelude.{◌≡◌, ℕ, List, codes};
ghost use Rattle.crew_run.specs.Summaries.{IsSummary};

/// A trace has at most one summary.
pub fn summaries_are_one()
    ensures { (trace one other : List ℕ) → IsSummary trace one → IsSummary trace other → one ≡ other }
{}

/// The trace of one cycle in which the one watched leaf has 7.
pub fn the_header_is_counted()
    ensures { IsSummary (codes "cycle o\n0 7\n") (codes "bytes 12\n0 7\n") }
{}
