//! The steps of references.

ghost use Rattle.std.specs.Prelude.{◌≡◌, ◌≤◌, ◌-◌, ◌^◌, map, take, drop, length, Some, option_map};
ghost use Rattle.reset_search.specs.Feeds.{along, field_step, element_step};
ghost use Rattle.reset_resolution.specs.Layers.{suffix_step, viewed};

use crate::component::Indexed;
use fir_tree::Suffix;
use reset_search::Spot;
use type_index::Known;

/// A part of a component, where it stands.
#[derive(Clone, Copy)]
pub struct View<'a> {
    pub known: Known<'a>,
    pub spots: &'a [Spot],
}

/// The part that a reference names, where there is one. Takes constant time for each step, and no memory.
pub fn walk_steps<'a>(component: &'a Indexed, suffixes: &[Suffix]) -> Option<View<'a>>
    ensures { option_map viewed result ≡ along (map suffix_step suffixes.now) (Some component.now) }
{
    let mut view = whole(component);
    for suffix in suffixes {
        match step(view, suffix) {
            Some(part) => view = part,
            None => return None,
        }
    }
    Some(view)
}

/// A whole component.
fn whole(component: &Indexed) -> View<'_>
    ensures { viewed result ≡ component.now }
{
    View {
        known: component.known(),
        spots: component.spots(),
    }
}

/// The part that a step leads to. Takes constant time.
fn step<'a>(view: View<'a>, suffix: &Suffix) -> Option<View<'a>>
    ensures { option_map viewed result ≡ suffix_step suffix.now (viewed view.entry) }
{
    match suffix {
        Suffix::Field(name) => step_to_field(view, name.id),
        Suffix::At(_, _, _) | Suffix::Index(_, _) => step_to_element(view),
    }
}

fn step_to_field<'a>(view: View<'a>, name: u32) -> Option<View<'a>>
    ensures { option_map viewed result ≡ field_step name (viewed view.entry) }
{
    match view.known.field(name) {
        Some(part) => {
            let known = part.known();
            let spots = between(view.spots, part.place.before, known.index.places);
            Some(View { known, spots })
        }
        None => None,
    }
}

/// So many places behind so many others.
fn between(spots: &[Spot], before: usize, count: usize) -> &[Spot]
    ensures own { result.now ≡ take count (drop before spots.now) }
    ensures short { length spots.now ≤ 2 ^ 64 - 1 }
{
    first(behind(spots, before), count)
}

fn behind(spots: &[Spot], before: usize) -> &[Spot]
    ensures rest { result.now ≡ drop before spots.now }
    ensures short { length spots.now ≤ 2 ^ 64 - 1 }
{
    let (_, rest) = spots.split_at(before.min(spots.len()));
    rest
}

fn first(spots: &[Spot], count: usize) -> &[Spot]
    ensures { result.now ≡ take count spots.now }
{
    let (own, _) = spots.split_at(count.min(spots.len()));
    own
}

fn step_to_element<'a>(view: View<'a>) -> Option<View<'a>>
    ensures { option_map viewed result ≡ element_step (viewed view.entry) }
{
    match view.known.element() {
        Some(known) => Some(View { known, ..view }),
        None => None,
    }
}
