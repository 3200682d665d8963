//! Where the components of a module stand, by their names.

ghost use Rattle.std.specs.Prelude.{◌≡◌, IfOk, OnOk};
ghost use Rattle.lower_aggregates.specs.Views.{KnowsPieces, with_new};

use crate::pieces::Piece;
use field_tables::{TabledType, Tables};
use ground_exprs::Component;
use indexmap::IndexMap;
use std::alloc::{AllocError, Global};

/// The components of a module with their types and first leaves, by their names; of each name the first.
pub fn components_of(
    alloc: Global,
    pieces: &[Piece<'_>],
) -> Result<IndexMap<u32, Component>, AllocError>
    ensures { IfOk result (λ known. KnowsPieces pieces.now known.entries) }
{
    let mut known = IndexMap::new(alloc);
    let mut tables = Tables::new(alloc);
    for piece in pieces {
        insert_new(&mut known, &mut tables, piece)?;
    }
    Ok(known)
}

/// Notes where a component stands, unless one of its name is known.
fn insert_new(
    known: &mut IndexMap<u32, Component>,
    tables: &mut Tables,
    piece: &Piece<'_>,
) -> Result<(), AllocError>
    ensures { OnOk result (known.new.entries ≡ with_new known.old.entries piece.now) }
{
    if known.get(&piece.name.id).is_none() {
        let component = Component {
            typ: TabledType::new(tables, piece.typ)?,
            first: piece.first,
        };
        known.insert(piece.name.id, component)?;
    }
    Ok(())
}
