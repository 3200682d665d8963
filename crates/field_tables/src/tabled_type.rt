//! Types that are kept with their tables.

ghost use Rattle.std.specs.Prelude.{◌≡◌, IfOk};

use crate::making::Tables;
use crate::table::FieldTable;
use crate::tabled::Tabled;
use bit_words::Shared;
use fir_types::{FirType, copy};
use std::alloc::AllocError;
use std::marker::Model;

/// A type with its table, where there is one. Contracts see it as the type.
#[derive(Drop)]
pub struct TabledType {
    typ: FirType,
    table: Option<Shared<FieldTable>>,
}

impl Model for TabledType {
    ghost use Rattle.std.specs.Prelude.{IfSome};
    ghost use Rattle.fir_types.specs.declared.fir_type.FirType.{FirType as AType};
    ghost use Rattle.fir_types.specs.contracts.fir_type.FirType as row;
    ghost use Rattle.std.specs.Coded.{codes};
    ghost use Rattle.field_tables.specs.Fits.{Fits};

    ghost Value = { AType };

    ghost coded = { Prim.hlevel (codes, row.the_row.coded) };

    ghost view = { λ s. s.typ };

    ghost invariant = { λ s. ∥ IfSome s.table (Fits s.typ) ∥₁ };
}

impl TabledType {
    /// A copy of a type, with its table among these.
    pub fn new(tables: &mut Tables, typ: &FirType) -> Result<TabledType, AllocError>
        ensures { IfOk result (λ it. it ≡ typ.now) }
    {
        let table = tables.table_of(typ)?;
        Ok(TabledType {
            typ: copy(typ)?,
            table,
        })
    }

    /// The type.
    pub fn get(&self) -> &FirType
        ensures { result.now ≡ self.now }
    {
        &self.typ
    }

    /// The type with its table, where there is one.
    pub fn tabled(&self) -> Tabled<'_>
        ensures { result.typ.now ≡ self.now }
    {
        Tabled::new(&self.typ, self.table.as_ref())
    }
}
