//! Components with what is known of their types.

ghost use Rattle.std.specs.Prelude.{◌≡◌, IfOk};

use bit_words::{List, Shared, SharedList};
use fir_tree::Names;
use fir_types::FirType;
use reset_search::Spot;
use std::alloc::{AllocError, Global};
use std::marker::Model;
use type_index::{Known, KnownType};

/// A component, with what is known of its type. Contracts see what it comes to.
#[derive(Drop)]
pub struct Indexed {
    known: KnownType,
    spots: SharedList<Spot>,
}

impl Model for Indexed {
    ghost use Rattle.reset_search.specs.declared.spot.Reach.{Reach as Value_of};
    ghost use Rattle.reset_search.specs.contracts.spot.Reach.{the_row};

    ghost Value = { Value_of };

    ghost coded = { the_row.coded };

    ghost view = { λ a. record { typ = a.known.typ; spots = a.spots } };
}

impl Indexed {
    /// A component of this type with these places. Takes time and memory in proportion to its type.
    pub fn new(
        alloc: Global,
        names: &Names,
        typ: FirType,
        spots: List<Spot>,
    ) -> Result<Indexed, AllocError>
        ensures { IfOk result (λ indexed. indexed ≡ record { typ = typ; spots = spots }) }
    {
        let known = KnownType::new(alloc, names, typ)?;
        Indexed::of(alloc, known, spots)
    }

    /// A component of a type that is known. Takes constant time.
    pub fn of(alloc: Global, known: KnownType, spots: List<Spot>) -> Result<Indexed, AllocError>
        ensures { IfOk result (λ indexed. indexed ≡ record { typ = known.typ; spots = spots }) }
    {
        let spots = Shared::new(alloc, spots)?;
        Ok(Indexed { known, spots })
    }

    /// The type, with the steps to its parts.
    pub fn known(&self) -> Known<'_>
        ensures { result.typ.now ≡ self.now.typ }
    {
        self.known.known()
    }

    /// The places.
    pub fn spots(&self) -> &[Spot]
        ensures { result.now ≡ self.now.spots }
    {
        self.spots.as_slice()
    }

    /// The same component once more. Takes no memory.
    pub fn share(&self) -> Result<Indexed, AllocError>
        ensures { IfOk result (λ copied. copied ≡ self.now) }
    {
        Ok(Indexed {
            known: self.known.share()?,
            spots: self.spots.share()?,
        })
    }
}
