//! The steps from a type that is known to its parts.

ghost use Rattle.std.specs.Prelude.{◌≡◌, ◌==◌, ◌-◌, ◌^◌, min, not, map, find, get_or, option_map, IfSome};
ghost use Rattle.std.specs.Option.{option_copied};
ghost use Rattle.fir_types.specs.Indexes.{first_at};
ghost use Rattle.fir_types.specs.declared.fir_type.Shape.TheViews.{out-Shape};
ghost use Rattle.fir_types.specs.Leaves.{count, has_clock, has_signal};
ghost use Rattle.fir_types.specs.Passivity.{has_flip};
ghost use Rattle.fir_tree.specs.Caps.{cap};
ghost use Rattle.fir_tree.specs.LeafNames.{Texts};
ghost use Rattle.fir_types.specs.Spots.{size};
ghost use Rattle.type_index.specs.Knowing.{Knows, HasWays, IsAmong, IsPlaceIn, weight, places_of, position_of, fields_in, element_in};

use crate::tree::{Inside, TypeIndex};
use bit_words::Shared;
use fir_types::{Field, FieldIndex, FieldPlace, FirType, Shape};

/// A type of which all this is known.
#[derive(Clone, Copy)]
pub struct Known<'a> {
    pub typ: &'a FirType,
    pub index: &'a TypeIndex,
    ghost knows: { Knows typ.now index.now },
    ghost counted: { index.now.leaves ≡ cap (count typ.now) },
    ghost flipless: { index.now.passive ≡ not (has_flip typ.now) },
    ghost clocked: { index.now.clocked ≡ has_clock typ.now },
    ghost signals: { index.now.signals ≡ has_signal typ.now },
    ghost placed: { index.now.places ≡ min (size typ.now) (2 ^ 64 - 1) },
}

/// A field of whose type all this is known, and where it stands: its position, and how many places the fields before it have.
#[derive(Clone, Copy)]
pub struct KnownField<'a> {
    pub field: &'a Field,
    pub index: &'a TypeIndex,
    pub place: FieldPlace,
    ghost knows: { Knows field.now.typ index.now },
}

impl<'a> KnownField<'a> {
    /// Its type.
    pub fn known(self) -> Known<'a>
        ensures typ { result.typ.now ≡ self.entry.field.now.typ }
        ensures index { result.index.now ≡ self.entry.index.now }
    {
        Known::new(&self.field.typ, self.index)
    }
}

impl<'a> Known<'a> {
    /// A type of which this is known.
    pub fn new(typ: &'a FirType, index: &'a TypeIndex) -> Known<'a>
        requires { Knows typ.now index.now }
        ensures typ { result.typ.now ≡ typ.now }
        ensures index { result.index.now ≡ index.now }
    {
        Known { typ, index }
    }

    /// The first field that has the name with this number, where this is a bundle with such a field. Takes constant time.
    pub fn field(self, id: u32) -> Option<KnownField<'a>>
        ensures field { option_map (λ (part : KnownField). part.field.now) result ≡ find (λ field. field.name.id == id) (fields_in (out-Shape self.entry.typ.now.shape)) }
        ensures place { IfSome result (λ part. IsPlaceIn (fields_in (out-Shape self.entry.typ.now.shape)) id part.place) }
        ensures ways { IfSome result (λ part. (texts : Texts) → HasWays texts self.entry.typ.now self.entry.index.now → HasWays texts part.field.now.typ part.index.now) }
    {
        let Shape::Bundle(fields) = &self.typ.shape else {
            return None;
        };
        let Inside::Bundle(among, parts) = &self.index.inside else {
            unreachable!();
        };
        let place = place_in(among.as_ref(), fields.as_slice(), parts.as_slice(), id)?;
        let field = fields.get().get(place.position)?;
        let Some(index) = parts.get().get(place.position) else {
            unreachable!();
        };
        Some(KnownField {
            field,
            index,
            place,
        })
    }

    /// The element, where this is a vector. Takes constant time.
    pub fn element(self) -> Option<Known<'a>>
        ensures typ { option_map (λ (part : Known). part.typ.now) result ≡ element_in (out-Shape self.entry.typ.now.shape) }
        ensures ways { IfSome result (λ part. (texts : Texts) → HasWays texts self.entry.typ.now self.entry.index.now → HasWays texts part.typ.now part.index.now) }
    {
        let Shape::Vector(element, _) = &self.typ.shape else {
            return None;
        };
        let Inside::Vector(inner) = &self.index.inside else {
            unreachable!();
        };
        Some(Known::new(element.get(), inner.get()))
    }
}

/// Where the first of these fields stands that has the name with this number, by their index where there is one.
fn place_in(
    among: Option<&Shared<FieldIndex>>,
    fields: &[Field],
    parts: &[TypeIndex],
    id: u32,
) -> Option<FieldPlace>
    requires among { ∥ IsAmong (option_copied among) fields.now ∥₁ }
    requires parts { map places_of parts.now ≡ map weight fields.now }
    ensures position { option_map position_of result ≡ first_at fields.now id }
    ensures before { IfSome result (IsPlaceIn fields.now id) }
{
    match among {
        Some(index) => index.get().place(id),
        None => first_place(fields, parts, id),
    }
}

fn first_place(fields: &[Field], parts: &[TypeIndex], id: u32) -> Option<FieldPlace>
    requires { map places_of parts.now ≡ map weight fields.now }
    ensures position { option_map position_of result ≡ first_at fields.now id }
    ensures before { IfSome result (IsPlaceIn fields.now id) }
{
    let mut before: usize = 0;
    for position in 0..fields.len() {
        if fields[position].name.id == id {
            return Some(FieldPlace { position, before });
        }
        before = before.saturating_add(places_at(parts, position));
    }
    None
}

fn places_at(parts: &[TypeIndex], position: usize) -> usize
    ensures { result ≡ get_or (map places_of parts.now) position 0 }
{
    match parts.get(position) {
        Some(part) => part.places,
        None => 0,
    }
}
