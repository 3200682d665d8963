//! The number of a type's leaves and the bytes of their names, without a list of them. Keeps the contract that both are those of the
//! list, up to 2^128 - 1, which stands for all numbers from there on.
ghost use Rattle.std.specs.Prelude.{◌≡◌, ◌+◌, ◌*◌, length, sum, map};
ghost use Rattle.fir_types.specs.declared.fir_type.FirType.{FirType as AType};
ghost use Rattle.fir_types.specs.declared.fir_type.Field.{Field as AField};
ghost use Rattle.fir_types.specs.declared.fir_type.Shape.TheVariants as shape;
ghost use Rattle.fir_types.specs.Leaves.{count, field_count};
ghost use Rattle.fir_tree.specs.LeafNames.{Texts, text_of};
ghost use Rattle.fir_tree.specs.Caps.{cap};
ghost use Rattle.fir_tree.specs.Texts.{name_bytes, way_bytes, field_bytes, index_bytes};

use crate::names::Names;
use fir_types::{Field, FirType, Shape};

/// How many numbers with more than one digit stand for all of those that have so many digits, up to 2^128 - 1: 10 to 10^38.
const POWERS: u32 = 38;

/// The bytes of a name.
pub fn name_length(names: &Names, id: u32) -> u128
    ensures { result ≡ length (text_of names.now id) }
{
    match names.get(id) {
        Some(text) => text.len() as u128,
        None => 0,
    }
}

/// Some leaves, and the bytes of the ways to them, or of their names.
#[derive(Clone, Copy)]
pub struct Ways {
    pub leaves: u128,
    pub bytes: u128,
}

impl Ways {
    /// Those of a vector of this length, where an element has these.
    pub fn repeated(self, length: u128) -> Ways
        ensures leaves { (vector element : AType) → vector.shape ≡ shape.Vector element length → self.leaves ≡ cap (count element) → result.leaves ≡ cap (count vector) }
        ensures bytes { (texts : Texts) (vector element : AType) → vector.shape ≡ shape.Vector element length → self.leaves ≡ cap (count element) → self.bytes ≡ cap (way_bytes texts element) → result.bytes ≡ cap (way_bytes texts vector) }
    {
        let one = Run {
            elements: 1,
            indices: 0,
        };
        one.longer(length).around(self)
    }

    /// Those of a field of this name, where its type has these: each way begins with a dot and the field's name.
    pub fn named(self, names: &Names, id: u32) -> Ways
        ensures leaves { result.leaves ≡ self.leaves }
        ensures bytes { (field : AField) → field.name.id ≡ id → self.leaves ≡ cap (count field.typ) → self.bytes ≡ cap (way_bytes names.now field.typ) → result.bytes ≡ cap (field_bytes names.now field) }
    {
        Ways {
            leaves: self.leaves,
            bytes: self
                .leaves
                .saturating_mul(name_length(names, id).saturating_add(1))
                .saturating_add(self.bytes),
        }
    }

    /// Both together.
    pub fn and(self, other: Ways) -> Ways
        ensures leaves { result.leaves ≡ cap (self.leaves + other.leaves) }
        ensures bytes { result.bytes ≡ cap (self.bytes + other.bytes) }
    {
        Ways {
            leaves: self.leaves.saturating_add(other.leaves),
            bytes: self.bytes.saturating_add(other.bytes),
        }
    }
}

/// The leaves of a component, and the bytes of their names.
pub fn names_of(names: &Names, id: u32, typ: &FirType) -> Ways
    ensures leaves { result.leaves ≡ cap (count typ.now) }
    ensures bytes { result.bytes ≡ cap (name_bytes names.now id typ.now) }
{
    names_by(names, id, ways_of(names, typ))
}

/// The same, where these are the ways to the leaves.
pub fn names_by(names: &Names, id: u32, ways: Ways) -> Ways
    ensures leaves { result.leaves ≡ ways.leaves }
    ensures bytes { (typ : AType) → ways.leaves ≡ cap (count typ) → ways.bytes ≡ cap (way_bytes names.now typ) → result.bytes ≡ cap (name_bytes names.now id typ) }
{
    let Ways { leaves, bytes } = ways;
    Ways {
        leaves,
        bytes: leaves
            .saturating_mul(name_length(names, id))
            .saturating_add(bytes),
    }
}

/// Vectors in one another, from the outermost on: the number of innermost elements, and the bytes of the indices of the ways to all of
/// them.
#[derive(Clone, Copy)]
struct Run {
    elements: u128,
    indices: u128,
}

impl Run {
    /// With a vector of this length in each element.
    fn longer(self, length: u128) -> Run
        ensures elements { result.elements ≡ cap (self.elements * length) }
        ensures indices { result.indices ≡ cap (self.indices * length + self.elements * index_bytes length) }
    {
        Run {
            elements: self.elements.saturating_mul(length),
            indices: self
                .indices
                .saturating_mul(length)
                .saturating_add(self.elements.saturating_mul(index_bytes(length))),
        }
    }

    /// The leaves of all elements, where one has these.
    fn around(self, element: Ways) -> Ways
        ensures leaves { result.leaves ≡ cap (self.elements * element.leaves) }
        ensures bytes { result.bytes ≡ cap (self.elements * element.bytes + self.indices * element.leaves) }
    {
        Ways {
            leaves: self.elements.saturating_mul(element.leaves),
            bytes: self
                .elements
                .saturating_mul(element.bytes)
                .saturating_add(self.indices.saturating_mul(element.leaves)),
        }
    }
}

/// The leaves of a type, and the bytes of the ways to them.
#[cycle(ways)]
pub fn ways_of(names: &Names, typ: &FirType) -> Ways
    ensures leaves { result.leaves ≡ cap (count typ.now) }
    ensures bytes { result.bytes ≡ cap (way_bytes names.now typ.now) }
{
    let mut run = Run {
        elements: 1,
        indices: 0,
    };
    let mut inside = typ;
    loop {
        match &inside.shape {
            Shape::Unsigned(_)
            | Shape::Signed(_)
            | Shape::Clock
            | Shape::Reset
            | Shape::AsyncReset => {
                return run.around(Ways {
                    leaves: 1,
                    bytes: 0,
                });
            }
            Shape::Bundle(fields) => return run.around(ways_of_fields(names, fields.as_slice())),
            Shape::Vector(element, length) => {
                run = run.longer(*length);
                inside = element.get();
            }
        }
    }
}

#[cycle(ways)]
fn ways_of_fields(names: &Names, fields: &[Field]) -> Ways
    ensures leaves { result.leaves ≡ cap (sum (map field_count fields.now)) }
    ensures bytes { result.bytes ≡ cap (sum (map (field_bytes names.now) fields.now)) }
{
    let mut all = Ways {
        leaves: 0,
        bytes: 0,
    };
    for field in fields {
        all = all.and(ways_of_field(names, field));
    }
    all
}

/// The leaves of a field, and the bytes of the ways to them: each begins with a dot and the field's name.
#[cycle(ways)]
fn ways_of_field(names: &Names, field: &Field) -> Ways
    ensures leaves { result.leaves ≡ cap (field_count field.now) }
    ensures bytes { result.bytes ≡ cap (field_bytes names.now field.now) }
{
    ways_of(names, &field.typ).named(names, field.name.id)
}

/// The bytes of `[0]`, `[1]` and so on, below a number.
fn index_bytes(length: u128) -> u128
    ensures { result ≡ cap (index_bytes length) }
{
    let mut total = length.saturating_mul(3);
    let mut power: u128 = 1;
    for _ in 0..POWERS {
        power = power.saturating_mul(10);
        total = total.saturating_add(length.saturating_sub(power));
    }
    total
}
