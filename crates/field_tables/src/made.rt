//! Tables that were made, each with the type that it was made for.

ghost use Rattle.std.specs.Prelude.{IfOk, IfSome};
ghost use Rattle.field_tables.specs.Fits.{Fits};

use crate::table::FieldTable;
use bit_words::Shared;
use fir_types::{Field, FirType, equivalent};
use std::alloc::AllocError;

/// Where a bundle's first field stands in a text.
#[derive(Clone, Copy, PartialEq, Eq, PartialOrd, Ord)]
pub struct Start {
    pub line: u32,
    pub column: u32,
}

/// Where the first of these fields stands, if there is one.
pub fn start_of(fields: &[Field]) -> Option<Start> {
    let first = fields.first()?;
    Some(Start {
        line: first.name.place.line,
        column: first.name.place.column,
    })
}

/// A bundle with its table.
#[derive(Drop)]
pub struct Made {
    pub typ: FirType,
    pub table: Shared<FieldTable>,
    ghost fits: { ∥ Fits typ table ∥₁ },
}

impl Made {
    /// The table of a type that is equivalent to this one.
    pub fn table_of(&self, typ: &FirType) -> Result<Option<Shared<FieldTable>>, AllocError>
        ensures { IfOk result (λ table. ∥ IfSome table (Fits typ.now) ∥₁) }
    {
        if equivalent(&self.typ, typ) {
            let table = self.table.share()?;
            Ok(Some(table))
        } else {
            Ok(None)
        }
    }
}
