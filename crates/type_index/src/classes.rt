//! The table of numbers.

ghost use Rattle.std.specs.Prelude.{◌≡◌, ◌↔◌, IsTrue, IfSome, IfOk, OnOk, Some};
ghost use Rattle.fir_types.specs.declared.fir_type.FirType.{FirType as AType};
ghost use Rattle.fir_types.specs.Equivalence.{Equivalent};
ghost use Rattle.type_index.specs.Numbers.{Table, vector_number, field_number, HasNumber};
ghost use Rattle.type_index.specs.Tables.{IsSound, HasParts, FieldHas, ElementHas};

use crate::keys::{FieldClasses, FieldKey, VectorKey};
use indexmap::IndexMap;
use std::alloc::{AllocError, Global};
use std::collections::BTreeMap;

/// The number of `UInt` and of `Reset`.
pub const UNSIGNED: u32 = 0;

/// The number of `SInt`.
pub const SIGNED: u32 = 1;

/// The number of `Clock`.
pub const CLOCK: u32 = 2;

/// The number of the bundle without fields.
pub const EMPTY: u32 = 3;

/// The number of `AsyncReset`.
pub const ASYNC_RESET: u32 = 4;

/// Numbers of classes of equivalent types. What the table lacks has no number, which costs time alone.
#[derive(Drop)]
pub struct Classes {
    /// By ordered maps, since a text chooses the keys.
    vectors: BTreeMap<VectorKey, u32>,
    bundles: BTreeMap<FieldKey, u32>,
    /// The numbers of the elements of vectors, by the numbers of these.
    elements: IndexMap<u32, u32>,
    /// The numbers of the fields of bundles, by the numbers of these.
    fields: IndexMap<u32, FieldClasses>,
    /// The least number that isn't given yet.
    next: u32,
    ghost sound: { ∥ IsSound (record { vectors = vectors.entries; bundles = bundles.entries }) elements.entries fields.entries next ∥₁ },
}

impl Classes {
    ghost use Rattle.type_index.specs.Sights.{table_of, Grows};

    /// The table without an entry.
    pub fn new(alloc: Global) -> Classes {
        Classes {
            vectors: BTreeMap::new(alloc),
            bundles: BTreeMap::new(alloc),
            elements: IndexMap::new(alloc),
            fields: IndexMap::new(alloc),
            next: 5,
        }
    }

    /// Whether types with these numbers are equivalent.
    pub fn same(&self, one: u32, other: u32) -> bool
        ensures { (left right : AType) → HasNumber (table_of self.now) left one → HasNumber (table_of self.now) right other → IsTrue result ↔ ∥ Equivalent left right ∥₁ }
    {
        one == other
    }

    /// The number of a field of the bundles with this number, if there is a field of the name. Takes constant time.
    pub fn field(&self, class: u32, id: u32) -> Option<u32>
        ensures { IfSome result (λ part. (typ : AType) → HasNumber (table_of self.now) typ class → FieldHas (table_of self.now) typ id part) }
    {
        let inside = self.fields.get(&class)?;
        inside.numbers.get(&id).copied()
    }

    /// The number of the elements of the vectors with this number. Takes constant time.
    pub fn element(&self, class: u32) -> Option<u32>
        ensures { IfSome result (λ part. (typ : AType) → HasNumber (table_of self.now) typ class → ElementHas (table_of self.now) typ part) }
    {
        self.elements.get(&class).copied()
    }

    /// The number of vectors.
    pub fn vector(&self, key: VectorKey) -> Option<u32>
        ensures { result ≡ vector_number (table_of self.now) key }
    {
        self.vectors.get(&key).copied()
    }

    /// The number of bundles with a field.
    pub fn bundle(&self, key: FieldKey) -> Option<u32>
        ensures { result ≡ field_number (table_of self.now) key }
    {
        self.bundles.get(&key).copied()
    }

    /// The number of vectors, which is given now if they have none. Where there is no further number, memory is said to be wanted.
    pub fn note_vector(&mut self, key: VectorKey) -> Result<u32, AllocError>
        ensures { Grows self.old self.new }
    {
        if let Some(number) = self.vectors.get(&key) {
            return Ok(*number);
        }
        let number = self.next;
        self.next = number.checked_add(1).ok_or(AllocError)?;
        self.vectors.insert(key, number)?;
        self.elements.insert(number, key.element)?;
        Ok(number)
    }

    /// The number of bundles with a field, which is given now if they have none. Where there is no further number, memory is said to
    /// be wanted.
    pub fn note_bundle(&mut self, key: FieldKey) -> Result<u32, AllocError>
        ensures grows { Grows self.old self.new }
        ensures number { IfOk result (λ number. field_number (table_of self.new) key ≡ Some number) }
    {
        if let Some(number) = self.bundles.get(&key) {
            return Ok(*number);
        }
        let number = self.next;
        self.next = number.checked_add(1).ok_or(AllocError)?;
        self.bundles.insert(key, number)?;
        Ok(number)
    }

    /// Keeps the numbers of the fields of the bundles with this number.
    pub fn note_fields(&mut self, class: u32, inside: FieldClasses) -> Result<(), AllocError>
        requires { ∥ HasParts (table_of self.old) class inside.numbers.entries ∥₁ }
        ensures { Grows self.old self.new }
    {
        self.fields.insert(class, inside)?;
        Ok(())
    }
}
