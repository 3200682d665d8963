//! The trees of a bundle's fields, gathered one by one.

ghost use Rattle.std.specs.Prelude.{◌≡◌, ◌++◌, ◌∷◌, [], ◌&&◌, not, List, map, IfOk, OnOk};
ghost use Rattle.fir_types.specs.declared.fir_type.FirType.{FirType as AType};
ghost use Rattle.fir_types.specs.declared.fir_type.Field.{Field as AField};
ghost use Rattle.fir_types.specs.declared.fir_type.Shape.TheVariants as shape;
ghost use Rattle.fir_tree.specs.LeafNames.{Texts};
ghost use Rattle.type_index.specs.Knowing.{Matches, IsRight, IsAmong, places_of};

use crate::tree::{Inside, TypeIndex};
use bit_words::{List, Shared, SharedList};
use fir_tree::{Names, Ways};
use fir_types::{Field, FieldIndex, index_among};
use std::alloc::{AllocError, Global};

/// What is known of some fields of a bundle, in order, and of all of them together.
#[derive(Drop)]
pub struct Gathered {
    parts: List<TypeIndex>,
    ways: Ways,
    passive: bool,
    clocked: bool,
    signals: bool,
    places: usize,
}

impl Gathered {
    ghost use Rattle.type_index.specs.Gathering.{Gathers};

    /// Of no field.
    pub fn new(alloc: Global) -> Gathered
        ensures { (texts : Texts) → Gathers texts [] result }
    {
        Gathered {
            parts: List::new(alloc),
            ways: Ways {
                leaves: 0,
                bytes: 0,
            },
            passive: true,
            clocked: false,
            signals: false,
            places: 0,
        }
    }

    /// With one more field, of whose type this is known.
    pub fn push(&mut self, names: &Names, field: &Field, part: TypeIndex) -> Result<(), AllocError>
        ensures { OnOk result ((fields : List AField) → Gathers names.now fields self.old → Matches (IsRight names.now) field.now.typ part → Gathers names.now (fields ++ field.now ∷ []) self.new) }
    {
        let ways = Ways {
            leaves: part.leaves,
            bytes: part.bytes,
        };
        self.ways = self.ways.and(ways.named(names, field.name.id));
        self.passive = still_passive(self.passive, part.passive, field.flip);
        self.clocked |= part.clocked;
        self.signals |= part.signals;
        self.places = self.places.saturating_add(part.places);
        self.parts.push(part)?;
        Ok(())
    }

    /// What is known of the bundle of these fields. Takes time and memory in proportion to their number.
    pub fn finish(self, alloc: Global, fields: &[Field]) -> Result<TypeIndex, AllocError>
        ensures { IfOk result (λ index. (texts : Texts) (typ : AType) → typ.shape ≡ shape.Bundle fields.now → Gathers texts fields.now self → Matches (IsRight texts) typ index) }
    {
        let Gathered {
            parts,
            ways,
            passive,
            clocked,
            signals,
            places,
        } = self;
        let weights = weights_of(alloc, parts.as_slice())?;
        let among = index_among(alloc, fields, weights.as_slice())?;
        Ok(TypeIndex {
            leaves: ways.leaves,
            bytes: ways.bytes,
            passive,
            clocked,
            signals,
            places,
            inside: Inside::Bundle(among, Shared::new(alloc, parts)?),
        })
    }
}

/// How many places each field has.
fn weights_of(alloc: Global, parts: &[TypeIndex]) -> Result<Vec<usize>, AllocError>
    ensures { IfOk result (λ weights. weights.items ≡ map places_of parts.now) }
{
    let mut weights = Vec::new(alloc);
    for part in parts {
        weights.push(part.places)?;
    }
    Ok(weights)
}

/// Whether fields are passive with one more, whose type is passive or not, and which is flipped or not.
fn still_passive(before: bool, passive: bool, flip: bool) -> bool
    ensures { result ≡ (before && passive && not flip) }
{
    before && passive && !flip
}
