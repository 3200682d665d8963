//! The steps of references.

ghost use Rattle.std.specs.Prelude.{◌≡◌, ◌==◌, map, find, None};
ghost use Rattle.fir_types.specs.declared.fir_type.Shape.TheViews.{out-Shape};
ghost use Rattle.type_index.specs.Knowing.{fields_in};
ghost use Rattle.width_rules.specs.Sources.{field_step, element_step, named, suffix_step};
ghost use Rattle.width_rules.specs.Parts.{viewed};
ghost use Rattle.width_rules.specs.Places.{slots_of_field};
ghost use Rattle.width_rules.specs.Pieces.{slots_in};

use crate::indexed::Indexed;
use crate::pieces::{Slots, slots_behind, without_first};
use fir_tree::steps::through;
use fir_tree::{Flow, Suffix};
use fir_types::Shape;
use type_index::Known;

/// A part of a component, where it stands.
#[derive(Clone, Copy)]
pub struct View<'a> {
    pub known: Known<'a>,
    pub flow: Flow,
    pub slots: Slots<'a>,
}

/// The part that a reference names. Takes constant time for each step, and no memory.
pub fn walk_steps<'a>(component: &'a Indexed, suffixes: &[Suffix]) -> View<'a>
    ensures { viewed result ≡ named (map suffix_step suffixes.now) component.now }
{
    let mut view = whole(component);
    for suffix in suffixes {
        view = step(view, suffix);
    }
    view
}

/// A whole component.
pub fn whole(component: &Indexed) -> View<'_>
    ensures { viewed result ≡ component.now }
{
    View {
        known: component.known(),
        flow: component.flow(),
        slots: component.slots(),
    }
}

/// The part that a step leads to. Takes constant time.
pub fn step<'a>(view: View<'a>, suffix: &Suffix) -> View<'a>
    ensures { viewed result ≡ suffix_step suffix.now (viewed view.entry) }
{
    match suffix {
        Suffix::Field(name) => step_to_field(view, name.id),
        Suffix::At(_, _, _) | Suffix::Index(_, _) => step_to_element(view),
    }
}

/// A field, or what is there where there is none.
fn step_to_field<'a>(view: View<'a>, name: u32) -> View<'a>
    ensures { viewed result ≡ field_step name (viewed view.entry) }
{
    match view.known.field(name) {
        Some(part) => {
            let known = part.known();
            View {
                known,
                flow: through(part.field.flip, view.flow),
                slots: slots_behind(view.slots, part.place.before, known.index.places),
            }
        }
        None => View {
            slots: slots_past(view, name),
            ..view
        },
    }
}

/// The widths for a name that no field has: of a bundle what is left behind all fields.
fn slots_past<'a>(view: View<'a>, name: u32) -> Slots<'a>
    ensures { find (λ field. field.name.id == name) (fields_in (out-Shape view.entry.known.typ.now.shape)) ≡ None → slots_in result ≡ slots_of_field name view.entry.known.typ.now (slots_in view.entry.slots) }
{
    match &view.known.typ.shape {
        Shape::Bundle(_) => without_first(view.slots, view.known.index.places),
        _ => view.slots,
    }
}

fn step_to_element<'a>(view: View<'a>) -> View<'a>
    ensures { viewed result ≡ element_step (viewed view.entry) }
{
    match view.known.element() {
        Some(known) => View { known, ..view },
        None => view,
    }
}
