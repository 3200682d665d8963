//! What is known of the modules of a fitted circuit, and the items of its run.

ghost use Rattle.std.specs.Prelude.{◌≡◌, ℕ, ◌<◌, [], All, List as Listed, Some, map, length, IfOk};
ghost use Rattle.std.specs.List.{AllZip};
ghost use Rattle.fir_meaning.specs.Components.{TypedModule, design_of, module_named};
ghost use Rattle.fir_names.specs.Scopes.{module_names};
ghost use Rattle.circuit_laws.specs.WellFormed.{IsWellFormed};
ghost use Rattle.net_of_circuit.specs.FlatOrder.{Placed, InFlatOrder, all_leaves};
ghost use Rattle.print_stop.specs.Printing.{PathItem};
ghost use Rattle.print_stop.specs.RunItems.{AreItems};
ghost use Rattle.lower_aggregates.specs.Circuits.{IsPlaced, StandsFrom};
ghost use Rattle.lower_aggregates.specs.Held.{held_sort, held_part};
ghost use Rattle.lower_aggregates.specs.Instances.{IsMade};
ghost use Rattle.found_items.specs.Finding.{HasItems, IsFound};
ghost use Rattle.found_items.specs.Tables.{AreRows, AreRowsAt};
ghost use Rattle.found_items.specs.PieceRows.{AreRowsOf, IsRowOf};

use crate::found::ItemAt;
use crate::naming;
use crate::owned::owned;
use crate::table::{Makes, Row, Table};
use crate::walk::items_of;
use bit_words::List;
use circuit_laws::laws::{modules_are_named, reached_modules_stand_at_paths};
use fir_tree::Fitted;
use fir_types::FirType;
use indexmap::IndexMap;
use lower_aggregates::ground_tables::pieces_are_components;
use lower_aggregates::lowering::{count_of, is_reached, number_of, numbers_of};
use lower_aggregates::pieces::leaf_number;
use lower_aggregates::{Piece, Sort, pieces_of};
use std::alloc::{AllocError, Global};

/// All items of the run of a circuit, in the order in which they print, with the numbers of their leaves in flat order.
///
/// Takes time and memory in proportion to the text, to the components of the run, and to its items times the depth at which they stand.
pub fn found_items(alloc: Global, fitted: &Fitted) -> Result<List<ItemAt>, AllocError>
    requires formed { IsWellFormed fitted.now }
    requires items { HasItems fitted.now.checked.resolved.names (design_of fitted.now) fitted.now.checked.resolved.prints }
    ensures { IfOk result (λ found. (m : TypedModule) (placed : Listed Placed) → module_named (design_of fitted.now) fitted.now.checked.resolved.main.id ≡ Some m → InFlatOrder (design_of fitted.now) [] m m.components placed → length (all_leaves placed) < 4294967296
        → (items : Listed PathItem) × AreItems fitted.now.checked.resolved.names (design_of fitted.now) fitted.now.checked.resolved.prints items
        × AllZip (IsFound fitted.now.checked.resolved.names (design_of fitted.now) fitted.now.checked.resolved.prints (all_leaves placed)) items found) }
{
    modules_are_named();
    let circuit = fitted.checked.resolved.get();
    let modules = circuit.modules.as_slice();
    let numbers = numbers_of(alloc, modules)?;
    let main = number_of(&numbers, circuit.main.id);
    let rows = rows_of(alloc, fitted, &numbers)?;
    let own = owned(alloc, modules.len(), circuit.prints.as_slice())?;
    let texts = naming::numbers_of(alloc, &circuit.names)?;
    let table = Table {
        fitted,
        rows,
        own,
        numbers: texts,
    };
    let found = items_of(alloc, &table, main)?;
    Ok(found)
}

/// The components of each module that main reaches.
fn rows_of(
    alloc: Global,
    fitted: &Fitted,
    numbers: &IndexMap<u32, u32>,
) -> Result<Vec<List<Row>>, AllocError>
    requires formed { IsWellFormed fitted.now }
    requires placed { IsPlaced (module_names fitted.now.checked.resolved) numbers.now.entries }
    ensures { IfOk result (λ rows. AreRows fitted.now rows.items) }
{
    let holders = fitted.checked.resolved.get().modules.as_slice();
    let mut rest = fitted.declared.as_slice();
    let mut rows = Vec::new(alloc);
    for number in 0..holders.len() {
        let count = count_of(alloc, &holders[number])?;
        let own = rows_at(alloc, fitted, numbers, number, rest)?;
        rows.push(own)?;
        rest = rest.get(count..).unwrap_or(&[]);
    }
    Ok(rows)
}

/// The components of the module of a number, where main reaches it, and these are the types of the modules from there on.
fn rows_at(
    alloc: Global,
    fitted: &Fitted,
    numbers: &IndexMap<u32, u32>,
    number: usize,
    types: &[FirType],
) -> Result<List<Row>, AllocError>
    requires formed { IsWellFormed fitted.now }
    requires placed { IsPlaced (module_names fitted.now.checked.resolved) numbers.now.entries }
    requires within { number < length fitted.now.checked.resolved.modules }
    requires stands { StandsFrom fitted.now number types.now }
    ensures { IfOk result (AreRowsAt fitted.now number) }
{
    reached_modules_stand_at_paths();
    modules_are_named();
    pieces_are_components();
    if !is_reached(fitted.checked.scope.reached.as_slice(), number) {
        return Ok(List::new(alloc));
    }
    let holder = &fitted.checked.resolved.get().modules.as_slice()[number];
    let pieces = pieces_of(alloc, holder, types)?;
    let rows = rows_of_pieces(alloc, numbers, pieces.as_slice())?;
    Ok(rows)
}

/// The components that pieces are, where modules have these numbers by their names.
fn rows_of_pieces(
    alloc: Global,
    numbers: &IndexMap<u32, u32>,
    pieces: &[Piece<'_>],
) -> Result<List<Row>, AllocError>
    requires { All (λ p. IsMade numbers.now.entries (held_sort p.sort)) pieces.now }
    ensures { IfOk result (AreRowsOf numbers.now.entries (map held_part pieces.now)) }
{
    let mut rows = List::new(alloc);
    for piece in pieces {
        rows.push(row_of(numbers, piece)?)?;
    }
    Ok(rows)
}

/// The component that a piece is.
fn row_of(numbers: &IndexMap<u32, u32>, piece: &Piece<'_>) -> Result<Row, AllocError>
    requires { IsMade numbers.now.entries (held_sort piece.now.sort) }
    ensures { IfOk result (IsRowOf numbers.now.entries (held_part piece.now)) }
{
    let name = piece.name.id;
    match piece.sort {
        Sort::Instance(target) => {
            let makes = Makes::Module(number_of(numbers, target));
            Ok(Row { name, makes })
        }
        _ => {
            let makes = Makes::Leaves(leaf_number(piece.typ)?);
            Ok(Row { name, makes })
        }
    }
}
