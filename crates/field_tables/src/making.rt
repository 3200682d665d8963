//! Tables made from types.

ghost use Rattle.std.specs.Prelude.{◌≡◌, sum, Some, IfOk, IfSome};
ghost use Rattle.std.specs.Option.{option_copied};
ghost use Rattle.fir_types.specs.declared.fir_type.FirType.{FirType as AType};
ghost use Rattle.fir_types.specs.declared.fir_type.Shape.TheVariants as shape;
ghost use Rattle.fir_types.specs.Leaves.{count};
ghost use Rattle.field_tables.specs.declared.table.FieldTable.{FieldTable as ATable};
ghost use Rattle.field_tables.specs.declared.table.Inner.TheVariants as inner;
ghost use Rattle.field_tables.specs.Fits.{Fits};

use crate::made::{Made, Start, start_of};
use crate::table::{FieldTable, Inner};
use crate::tabled::Tabled;
use bit_words::{List, Shared};
use fir_types::{Field, FieldIndex, FirType, Shape, copy};
use std::alloc::{AllocError, Global};
use std::collections::BTreeMap;

/// Tables of types. Types that are copies of one that a text writes share its table, so all tables together take memory in proportion to
/// the text.
#[derive(Drop)]
pub struct Tables {
    alloc: Global,
    /// An ordered map, so that no places are slow to tell apart.
    made: BTreeMap<Start, Made>,
}

impl Tables {
    /// No table.
    pub fn new(alloc: Global) -> Tables {
        Tables {
            alloc,
            made: BTreeMap::new(alloc),
        }
    }

    /// The table of a type, where it is a bundle or a vector of bundles. There is none where a field has more leaves than a `u32` counts, and
    /// where another type that isn't equivalent begins with the same field of the text, as the mask of a memory may.
    #[cycle(make)]
    pub fn table_of(&mut self, typ: &FirType) -> Result<Option<Shared<FieldTable>>, AllocError>
        ensures { IfOk result (λ table. ∥ IfSome table (Fits typ.now) ∥₁) }
    {
        let mut inside = typ;
        while let Shape::Vector(element, _) = &inside.shape {
            inside = element.get();
        }
        let Shape::Bundle(fields) = &inside.shape else {
            return Ok(None);
        };
        let Some(start) = start_of(fields.as_slice()) else {
            return Ok(None);
        };
        if let Some(made) = self.made.get(&start) {
            let table = made.table_of(inside)?;
            return Ok(table);
        }
        let Some(table) = self.new_table(fields.as_slice())? else {
            return Ok(None);
        };
        let table = self.keep(start, inside, table)?;
        Ok(Some(table))
    }

    /// A table of a bundle of these fields.
    #[cycle(make)]
    fn new_table(&mut self, fields: &[Field]) -> Result<Option<FieldTable>, AllocError>
        ensures { IfOk result (λ table. ∥ IfSome table (λ table. (typ : AType) → typ.shape ≡ shape.Bundle fields.now → Fits typ table) ∥₁) }
    {
        let mut inner = List::new(self.alloc);
        let mut counts = Vec::new(self.alloc);
        for field in fields {
            let table = self.table_of(&field.typ)?;
            let Some(count) = count_of(&field.typ, table.as_ref()) else {
                return Ok(None);
            };
            counts.push(count)?;
            inner.push(inner_of(table))?;
        }
        let leaves = total_of(counts.as_slice())?;
        let index = FieldIndex::new(self.alloc, fields, counts.as_slice())?;
        Ok(Some(FieldTable {
            leaves,
            index,
            inner,
        }))
    }

    /// Keeps the table of a bundle that begins there.
    fn keep(
        &mut self,
        start: Start,
        typ: &FirType,
        table: FieldTable,
    ) -> Result<Shared<FieldTable>, AllocError>
        requires { ∥ Fits typ.now table ∥₁ }
        ensures { IfOk result (λ kept. kept ≡ table) }
    {
        let table = Shared::new(self.alloc, table)?;
        let made = Made {
            typ: copy(typ)?,
            table: table.share()?,
        };
        self.made.insert(start, made)?;
        Ok(table)
    }
}

/// The number of leaves of a type that has this table, where a `u32` holds it.
fn count_of(typ: &FirType, table: Option<&Shared<FieldTable>>) -> Option<usize>
    requires { ∥ IfSome (option_copied table) (Fits typ.now) ∥₁ }
    ensures { IfSome result (λ n. n ≡ count typ.now) }
{
    let tabled = Tabled::new(typ, table);
    match u32::try_from(tabled.leaf_count()) {
        Ok(count) => Some(count as usize),
        Err(_) => None,
    }
}

/// The sum of these numbers; where it doesn't fit, memory is said to be wanted.
fn total_of(counts: &[usize]) -> Result<usize, AllocError>
    ensures { IfOk result (λ total. total ≡ sum counts.now) }
{
    let mut total: usize = 0;
    for count in counts {
        let Some(more) = total.checked_add(*count) else {
            return Err(AllocError);
        };
        total = more;
    }
    Ok(total)
}

/// What is known of a type that has this table.
fn inner_of(table: Option<Shared<FieldTable>>) -> Inner
    ensures { (it : ATable) → result ≡ inner.Table it → table ≡ Some it }
{
    match table {
        Some(table) => Inner::Table(table),
        None => Inner::Nothing,
    }
}
