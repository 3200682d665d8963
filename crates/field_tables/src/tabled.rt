//! The steps from a type to its parts.

ghost use Rattle.std.specs.Prelude.{◌≡◌, ◌==◌, ◌-◌, ◌^◌, min, List, find, option_map, slice_get, Some, IfOk, IfSome};
ghost use Rattle.std.specs.Option.{ForSome, option_copied};
ghost use Rattle.fir_types.specs.declared.fir_type.Shape.TheViews.{out-Shape};
ghost use Rattle.fir_types.specs.Leaves.{count};
ghost use Rattle.fir_types.specs.declared.fir_type.Field.{Field as AField};
ghost use Rattle.field_tables.specs.Fits.{Fits, Counts, fields_in, element_in};
ghost use Rattle.field_tables.specs.declared.table.Inner.TheVariants as inner;
ghost use Rattle.field_tables.specs.Before.{leaves_before};

use crate::table::{FieldTable, Inner};
use bit_words::Shared;
use fir_types::{Field, FirType, Shape, field_of, leaf_count};
use std::alloc::AllocError;

/// A type, with its table where there is one.
#[derive(Clone, Copy)]
pub struct Tabled<'a> {
    pub typ: &'a FirType,
    pub table: Option<&'a FieldTable>,
    ghost fits: { ForSome table (λ table. ∥ Fits typ.now table.now ∥₁) },
}

impl<'a> Tabled<'a> {
    /// A type without a table.
    pub fn plain(typ: &'a FirType) -> Tabled<'a>
        ensures { result.typ.now ≡ typ.now }
    {
        Tabled { typ, table: None }
    }

    /// A type with its table, where there is one.
    pub fn new(typ: &'a FirType, table: Option<&'a Shared<FieldTable>>) -> Tabled<'a>
        requires { ∥ IfSome (option_copied table) (Fits typ.now) ∥₁ }
        ensures { result.typ.now ≡ typ.now }
    {
        match table {
            Some(table) => Tabled {
                typ,
                table: Some(table.get()),
            },
            None => Tabled::plain(typ),
        }
    }

    /// The first field that has the name with this number, where this is a bundle with such a field. Takes constant time where there is a
    /// table.
    pub fn field(self, id: u32) -> Option<Tabled<'a>>
        ensures { option_map (λ (part : Tabled). part.typ.now) result ≡ option_map (λ field. field.typ) (find (λ field. field.name.id == id) (fields_in (out-Shape self.entry.typ.now.shape))) }
    {
        let Shape::Bundle(fields) = &self.typ.shape else {
            return None;
        };
        let Some(table) = self.table else {
            let field = field_of(fields.as_slice(), id)?;
            return Some(Tabled::plain(&field.typ));
        };
        let place = table.index.place(id)?;
        let field = fields.get().get(place.position)?;
        Some(Tabled {
            typ: &field.typ,
            table: inner_at(table, place.position),
        })
    }

    /// How many leaves stand before those of the first field that has the name with this number, or before the end where there is none.
    /// Where a `u32` doesn't hold it, memory is said to be wanted. Takes constant time where there is a table.
    pub fn leaves_before(self, id: u32) -> Result<u32, AllocError>
        ensures { IfOk result (λ n. n ≡ leaves_before id (fields_in (out-Shape self.entry.typ.now.shape))) }
    {
        let Shape::Bundle(fields) = &self.typ.shape else {
            return Ok(0);
        };
        match self.table {
            Some(table) => before_by(table, id),
            None => before_in(fields.as_slice(), id),
        }
    }

    /// The element, where this is a vector.
    pub fn element(self) -> Option<Tabled<'a>>
        ensures { option_map (λ (part : Tabled). part.typ.now) result ≡ element_in (out-Shape self.entry.typ.now.shape) }
    {
        let Shape::Vector(element, _) = &self.typ.shape else {
            return None;
        };
        Some(Tabled {
            typ: element.get(),
            table: self.table,
        })
    }

    /// The number of leaves, or 2^128 - 1 where there are more. Where there is a table, only the lengths before the bundle are looked at.
    pub fn leaf_count(self) -> u128
        ensures { result ≡ min (count self.entry.typ.now) (2 ^ 128 - 1) }
    {
        let Some(table) = self.table else {
            return leaf_count(self.typ);
        };
        let mut factor: u128 = 1;
        let mut inside = self.typ;
        while let Shape::Vector(element, length) = &inside.shape {
            factor = factor.saturating_mul(*length);
            inside = element.get();
        }
        factor.saturating_mul(table.leaves as u128)
    }
}

/// The table of a field by its position, where it has one.
fn inner_at(table: &FieldTable, position: usize) -> Option<&FieldTable>
    ensures { IfSome result (λ it. slice_get table.now.inner position ≡ Some (inner.Table it.now)) }
{
    match table.inner.get(position) {
        Some(Inner::Table(inner)) => Some(inner.get()),
        Some(Inner::Nothing) | None => None,
    }
}

/// How many leaves stand before a field, by the table of its bundle.
fn before_by(table: &FieldTable, id: u32) -> Result<u32, AllocError>
    ensures { IfOk result (λ n. (fields : List AField) → Counts table.now fields → n ≡ leaves_before id fields) }
{
    match table.index.place(id) {
        Some(place) => as_number(place.before),
        None => as_number(table.leaves),
    }
}

/// A number of leaves; where a `u32` doesn't hold it, memory is said to be wanted.
fn as_number(leaves: usize) -> Result<u32, AllocError>
    ensures { IfOk result (λ n. n ≡ leaves) }
{
    match u32::try_from(leaves) {
        Ok(number) => Ok(number),
        Err(_) => Err(AllocError),
    }
}

/// The same without a table.
fn before_in(fields: &[Field], id: u32) -> Result<u32, AllocError>
    ensures { IfOk result (λ n. n ≡ leaves_before id fields.now) }
{
    let mut before: u32 = 0;
    for field in fields {
        if field.name.id == id {
            return Ok(before);
        }
        let Ok(count) = u32::try_from(leaf_count(&field.typ)) else {
            return Err(AllocError);
        };
        let Some(more) = before.checked_add(count) else {
            return Err(AllocError);
        };
        before = more;
    }
    Ok(before)
}
