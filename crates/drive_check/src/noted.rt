//! What is noted beside the types of components.

ghost use Rattle.std.specs.Prelude.{◌≡◌, Some, slice_get, IfOk, IfSome};
ghost use Rattle.fir_types.specs.declared.fir_type.FirType.{FirType as AType};
ghost use Rattle.field_tables.specs.Fits.{Fits};
ghost use Rattle.drive_check.specs.Noted.{IsNote, AreNoted};

use bit_words::Shared;
use field_tables::{FieldTable, Tables};
use fir_types::{FirType, has_clock};
use std::alloc::{AllocError, Global};

/// What is noted of a type: its table, where there is one, and whether one of its leaves is a `Clock`.
#[derive(Drop)]
pub struct Note {
    pub table: Option<Shared<FieldTable>>,
    pub clocked: bool,
}

/// The notes of the first types, of as many as asked.
pub fn notes_of(alloc: Global, types: &[FirType], count: usize) -> Result<Vec<Note>, AllocError>
    ensures { IfOk result (λ notes. AreNoted types.now notes.items) }
{
    let mut tables = Tables::new(alloc);
    let mut notes = Vec::new(alloc);
    for typ in types {
        if notes.len() == count {
            break;
        }
        let note = note_of(&mut tables, typ)?;
        notes.push(note)?;
    }
    Ok(notes)
}

/// The note of a type.
fn note_of(tables: &mut Tables, typ: &FirType) -> Result<Note, AllocError>
    ensures { IfOk result (IsNote typ.now) }
{
    let table = tables.table_of(typ)?;
    Ok(Note {
        table,
        clocked: has_clock(typ),
    })
}
