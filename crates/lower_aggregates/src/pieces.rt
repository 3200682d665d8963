//! The declarations of a module with their types and the numbers of their first leaves.

ghost use Rattle.std.specs.Prelude.{◌≡◌, ◌≤◌, map, length, zip, IfOk};
ghost use Rattle.fir_types.specs.Leaves.{leaves};
ghost use Rattle.lower_aggregates.specs.Headings.{headings_of};
ghost use Rattle.lower_aggregates.specs.Parts.{parts_from};
ghost use Rattle.lower_aggregates.specs.Held.{held_part};

use crate::declarations::{Sort, declarations_of};
use fir_tree::Module;
use fir_types::{FirType, Name};
use ground_exprs::inside::count_of;
use ground_exprs::reading::sum_of;
use std::alloc::{AllocError, Global};

/// A declaration with its type, and the number of its first leaf: so many leaves of the module stand before it.
#[derive(Clone, Copy)]
pub struct Piece<'a> {
    pub name: Name,
    pub sort: Sort<'a>,
    pub typ: &'a FirType,
    pub first: u32,
}

/// The number of leaves of a type; where a `u32` doesn't hold it, memory is said to be wanted.
pub fn leaf_number(typ: &FirType) -> Result<u32, AllocError>
    ensures { IfOk result (λ n. n ≡ length (leaves typ.now)) }
{
    let number = count_of(typ)?;
    Ok(number)
}

/// The declarations of a module in text order, ports first, where these are the types of the first ones.
pub fn pieces_of<'a>(
    alloc: Global,
    holder: &'a Module,
    types: &'a [FirType],
) -> Result<Vec<Piece<'a>>, AllocError>
    requires { length (headings_of holder.now) ≤ length types.now }
    ensures { IfOk result (λ pieces. map held_part pieces.items ≡ parts_from 0 (zip (headings_of holder.now) types.now)) }
{
    let declared = declarations_of(alloc, holder)?;
    let mut pieces = Vec::new(alloc);
    let mut first: u32 = 0;
    for number in 0..declared.len() {
        let declaration = declared[number];
        let typ = &types[number];
        pieces.push(Piece {
            name: declaration.name,
            sort: declaration.sort,
            typ,
            first,
        })?;
        first = sum_of(first, leaf_number(typ)?)?;
    }
    Ok(pieces)
}
