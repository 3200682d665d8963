//! Laws of the definitions. The functions do nothing.

ghost use Rattle.std.specs.Prelude.{◌≡◌, ◌↔◌, true, false, Contains, length};
ghost use Rattle.std.specs.Prelude.{Bool, ℕ};
ghost use Rattle.fir_types.specs.declared.fir_type.FirType.{FirType as AType};
ghost use Rattle.fir_types.specs.Spots.{size};
ghost use Rattle.fir_tree.specs.declared.circuit.Circuit.{Circuit as ACircuit};
ghost use Rattle.reset_search.specs.declared.spot.Spot.{Spot as ASpot};
ghost use Rattle.reset_search.specs.declared.spot.Feeds.{Feeds as TheFeeds};
ghost use Rattle.reset_search.specs.Grounds.{grounds};
ghost use Rattle.reset_search.specs.Feeds.{feed, IsReached};
ghost use Rattle.reset_search.specs.Searched.{Graph, Leads, IsNumbered};
ghost use Rattle.reset_search.specs.Sources.{has_source};
ghost use Rattle.reset_search.specs.Resolved.{IsResolved, resolved, none_reached};

/// A type has as many ground places as places with widths.
pub fn grounds_are_the_places_with_widths()
    ensures { (typ : AType) → length (grounds typ) ≡ size typ }
{}

/// Where no place is reached a type stays as it is.
pub fn types_stay_where_nothing_is_reached()
    ensures { (typ : AType) (n : ℕ) → resolved none_reached n typ ≡ typ }
{}

/// A set of places that has the AsyncReset leaves, that feeds don't lead out of, and to each of which a chain leads, is that of the places
/// that are reached.
pub fn closed_sets_are_reached()
    ensures { (all : TheFeeds) (found : ASpot → Bool) → ((p : ASpot) → Contains all.asyncs p → found p ≡ true) → ((p q : ASpot) → found p ≡ true → Contains all.feeds (feed p q) → found q ≡ true) → ((p : ASpot) → found p ≡ true → IsReached all p) → (p : ASpot) → (found p ≡ true) ↔ IsReached all p }
{}

/// Ways from 0 lead exactly to the numbers of the places that are reached.
pub fn ways_lead_to_what_is_reached()
    ensures { (all : TheFeeds) (number : ASpot → ℕ) (graph : Graph) → IsNumbered all number graph → (p : ASpot) → Leads graph 0 (number p) ↔ IsReached all p }
{}

/// A circuit has one resolved circuit at most.
pub fn resolved_circuits_are_one()
    ensures { (circuit one other : ACircuit) → IsResolved circuit one → IsResolved circuit other → one ≡ other }
{}

/// A circuit in which no AsyncReset is declared, and no node and no connect has an `asAsyncReset`, resolves to itself.
pub fn circuits_without_sources_resolve_to_themselves()
    ensures { (circuit : ACircuit) → has_source circuit ≡ false → IsResolved circuit circuit }
{}
