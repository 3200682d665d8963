//! The walk down the instances of a run.

ghost use Rattle.std.specs.Prelude.{◌≡◌, ℕ, ◌+◌, [], ◌<◌, ◌++◌, List as Listed, All, Contains, Some, length, nat_eq, slice_get, take, IfOk, OnOk};
ghost use Rattle.std.specs.Map.{lookup};
ghost use Rattle.std.specs.List.{AllZip};
ghost use Rattle.item_lines.specs.Items.{number_in, wire_name, argument_name};
ghost use Rattle.item_lines.specs.Formats.{shows};
ghost use Rattle.fir_tree.specs.declared.print.PrintItem.{PrintItem as Print};
ghost use Rattle.fir_meaning.specs.Components.{TypedModule, Component, module_at, module_named, modules_of, design_of};
ghost use Rattle.net_of_circuit.specs.FlatOrder.{Placed, InFlatOrder, Standing, all_leaves};
ghost use Rattle.print_stop.specs.Printing.{PathItem};
ghost use Rattle.print_stop.specs.RunItems.{AreItems};
ghost use Rattle.circuit_laws.specs.WellFormed.{IsWellFormed};
ghost use Rattle.found_items.specs.Finding.{HasItems, IsFound, Has, item_texts};
ghost use Rattle.found_items.specs.Tables.{IsTable, IsRow};
ghost use Rattle.found_items.specs.Walking.{CanVisit, CanEnter, StandsBehind, Going, Visited, HasNames, IsItemAt, AreFound, CanFind};

use crate::found::{ItemAt, item_at};
use crate::table::{Makes, Row, Table};
use bit_words::List;
use circuit_laws::laws::{modules_are_named, modules_have_ranks, reached_modules_stand_at_paths};
use fir_tree::{Piece, PrintItem};
use indexmap::IndexMap;
use std::alloc::{AllocError, Global};

/// Where a walk through a module stands: the first leaves of the components so far by name, what was found below its instances, and the
/// number of the next leaf.
#[derive(Drop)]
pub struct Walk {
    pub firsts: IndexMap<u32, u32>,
    pub below: Vec<ItemAt>,
    pub next: u32,
}

/// All items of a run in the order in which they print, where this is known of its modules, and main has this number.
///
/// Takes time and memory in proportion to the components of the run, and to its items times the depth at which they stand. A `u32` numbers
/// the leaves of the run.
pub fn items_of(alloc: Global, table: &Table<'_>, main: u32) -> Result<List<ItemAt>, AllocError>
    requires formed { IsWellFormed table.now.fitted.now }
    requires known { IsTable table.now }
    requires items { HasItems table.now.fitted.now.checked.resolved.names (design_of table.now.fitted.now) table.now.fitted.now.checked.resolved.prints }
    requires main { (m : TypedModule) × (module_named (design_of table.now.fitted.now) table.now.fitted.now.checked.resolved.main.id ≡ Some m) × (slice_get (modules_of table.now.fitted.now) main ≡ Some m) }
    ensures { IfOk result (λ found. (m : TypedModule) (placed : Listed Placed) → module_named (design_of table.now.fitted.now) table.now.fitted.now.checked.resolved.main.id ≡ Some m
        → InFlatOrder (design_of table.now.fitted.now) [] m m.components placed → length (all_leaves placed) < 4294967296
        → (items : Listed PathItem) × AreItems table.now.fitted.now.checked.resolved.names (design_of table.now.fitted.now) table.now.fitted.now.checked.resolved.prints items
        × AllZip (IsFound table.now.fitted.now.checked.resolved.names (design_of table.now.fitted.now) table.now.fitted.now.checked.resolved.prints (all_leaves placed)) items found) }
{
    modules_have_ranks();
    let mut next = 0;
    let found = visit(alloc, table, main, table.rows.len(), &mut next)?;
    Ok(List::from_vec(found))
}

/// The items of a module at a path and of its instances, behind so many leaves.
#[cycle(visit)]
fn visit(
    alloc: Global,
    table: &Table<'_>,
    number: u32,
    left: usize,
    next: &mut u32,
) -> Result<Vec<ItemAt>, AllocError>
    requires { CanVisit table.now number left }
    ensures counted { OnOk result ((path : Listed ℕ) (m : TypedModule) (placed : Listed Placed) (all : Listed Standing) → module_at (design_of table.now.fitted.now) path ≡ Some m → slice_get (modules_of table.now.fitted.now) number ≡ Some m
        → InFlatOrder (design_of table.now.fitted.now) path m m.components placed → StandsBehind all next.old placed → next.new ≡ next.old + length (all_leaves placed)) }
    ensures found { IfOk result (λ found. (path : Listed ℕ) (m : TypedModule) (placed : Listed Placed) (all : Listed Standing) → module_at (design_of table.now.fitted.now) path ≡ Some m
        → slice_get (modules_of table.now.fitted.now) number ≡ Some m → InFlatOrder (design_of table.now.fitted.now) path m m.components placed → StandsBehind all next.old placed
        → Visited table.now.fitted.now all path m found.items) }
{
    let mut walk = Walk {
        firsts: IndexMap::new(alloc),
        below: Vec::new(alloc),
        next: *next,
    };
    let rows = table.rows[number as usize].as_slice();
    for row in rows {
        pass(alloc, table, row, left, &mut walk)?;
    }
    let own = table.own[number as usize].as_slice();
    let mut found = own_of(alloc, table, own, &walk.firsts)?;
    let Walk {
        mut below,
        next: end,
        ..
    } = walk;
    found.append(&mut below)?;
    *next = end;
    Ok(found)
}

/// Takes the component that stands next.
#[cycle(visit)]
fn pass(
    alloc: Global,
    table: &Table<'_>,
    row: &Row,
    left: usize,
    walk: &mut Walk,
) -> Result<(), AllocError>
    requires { CanEnter table.now left row.now.makes }
    ensures names { OnOk result ((m : TypedModule) (done : ℕ) (c : Component) → slice_get m.components done ≡ Some c → IsRow table.now.fitted.now.checked.resolved c row.now
        → HasNames (take done m.components) walk.old.firsts.entries → HasNames (take (done + 1) m.components) walk.new.firsts.entries) }
    ensures going { OnOk result ((path : Listed ℕ) (m : TypedModule) (placed : Listed Placed) (all : Listed Standing) (first done : ℕ) (c : Component) → IsWellFormed table.now.fitted.now → module_at (design_of table.now.fitted.now) path ≡ Some m
        → slice_get m.components done ≡ Some c → IsRow table.now.fitted.now.checked.resolved c row.now → StandsBehind all first placed
        → Going table.now.fitted.now all path m placed first done walk.old → Going table.now.fitted.now all path m placed first (done + 1) walk.new) }
{
    modules_are_named();
    match row.makes {
        Makes::Leaves(count) => {
            walk.firsts.insert(row.name, walk.next)?;
            walk.next = walk.next.saturating_add(count);
            Ok(())
        }
        Makes::Module(number) => {
            let mut inner = visit(alloc, table, number, left - 1, &mut walk.next)?;
            walk.below.append(&mut inner)?;
            Ok(())
        }
    }
}

/// The items of these numbers, where names have these first leaves.
fn own_of(
    alloc: Global,
    table: &Table<'_>,
    own: &[usize],
    firsts: &IndexMap<u32, u32>,
) -> Result<Vec<ItemAt>, AllocError>
    requires known { IsTable table.now }
    requires there { All (λ number. (print : Print) × (slice_get table.now.fitted.now.checked.resolved.prints number ≡ Some print) × CanFind table.now.fitted.now.checked.resolved.names firsts.now.entries print) own.now }
    requires named { (print : Print) (text : Listed ℕ) → Contains table.now.fitted.now.checked.resolved.prints print → Contains (item_texts print) text → Has table.now.fitted.now.checked.resolved.names text }
    ensures { IfOk result (λ items. AllZip (IsItemAt table.now.fitted.now.checked.resolved.names table.now.fitted.now.checked.resolved.prints firsts.now.entries) own.now items.items) }
{
    let prints = table.fitted.checked.resolved.get().prints.as_slice();
    let mut items = Vec::new(alloc);
    for number in own {
        let print = item_at(prints, *number);
        let leaves = leaves_of(alloc, table, print, firsts)?;
        items.push(ItemAt {
            item: *number,
            leaves,
        })?;
    }
    Ok(items)
}

/// The first leaves of the names of an item.
fn leaves_of(
    alloc: Global,
    table: &Table<'_>,
    print: &PrintItem,
    firsts: &IndexMap<u32, u32>,
) -> Result<List<u32>, AllocError>
    requires known { IsTable table.now }
    requires there { CanFind table.now.fitted.now.checked.resolved.names firsts.now.entries print.now }
    requires named { (text : Listed ℕ) → Contains (item_texts print.now) text → Has table.now.fitted.now.checked.resolved.names text }
    ensures { IfOk result (AreFound table.now.fitted.now.checked.resolved.names firsts.now.entries print.now) }
{
    let mut leaves = List::new(alloc);
    leaves.push(wire_leaf(alloc, table, firsts, print.number)?)?;
    for argument in 0..shown(print.pieces.as_slice()) {
        leaves.push(node_leaf(alloc, table, firsts, print.number, argument)?)?;
    }
    Ok(leaves)
}

/// The first leaf of the wire of an item.
fn wire_leaf(
    alloc: Global,
    table: &Table<'_>,
    firsts: &IndexMap<u32, u32>,
    item: u32,
) -> Result<u32, AllocError>
    requires known { IsTable table.now }
    requires named { Has table.now.fitted.now.checked.resolved.names (wire_name item) }
    requires small { number_in table.now.fitted.now.checked.resolved.names (wire_name item) < 4294967296 }
    requires there { (x : ℕ) × (lookup (nat_eq (number_in table.now.fitted.now.checked.resolved.names (wire_name item))) firsts.now.entries ≡ Some x) }
    ensures { IfOk result (λ x. lookup (nat_eq (number_in table.now.fitted.now.checked.resolved.names (wire_name item))) firsts.now.entries ≡ Some x) }
{
    let wire = format!(in alloc; "#{item}")?;
    Ok(leaf_of(table, firsts, wire.as_bytes()))
}

/// The first leaf of the node of an argument of an item.
fn node_leaf(
    alloc: Global,
    table: &Table<'_>,
    firsts: &IndexMap<u32, u32>,
    item: u32,
    argument: usize,
) -> Result<u32, AllocError>
    requires known { IsTable table.now }
    requires named { Has table.now.fitted.now.checked.resolved.names (argument_name item argument) }
    requires small { number_in table.now.fitted.now.checked.resolved.names (argument_name item argument) < 4294967296 }
    requires there { (x : ℕ) × (lookup (nat_eq (number_in table.now.fitted.now.checked.resolved.names (argument_name item argument))) firsts.now.entries ≡ Some x) }
    ensures { IfOk result (λ x. lookup (nat_eq (number_in table.now.fitted.now.checked.resolved.names (argument_name item argument))) firsts.now.entries ≡ Some x) }
{
    let node = format!(in alloc; "#{item}a{argument}")?;
    Ok(leaf_of(table, firsts, node.as_bytes()))
}

/// The first leaf of a name.
fn leaf_of(table: &Table<'_>, firsts: &IndexMap<u32, u32>, text: &[u8]) -> u32
    requires known { IsTable table.now }
    requires named { Has table.now.fitted.now.checked.resolved.names text.now }
    requires small { number_in table.now.fitted.now.checked.resolved.names text.now < 4294967296 }
    requires there { (x : ℕ) × (lookup (nat_eq (number_in table.now.fitted.now.checked.resolved.names text.now)) firsts.now.entries ≡ Some x) }
    ensures { lookup (nat_eq (number_in table.now.fitted.now.checked.resolved.names text.now)) firsts.now.entries ≡ Some result }
{
    let Some(number) = table.numbers.get(text) else {
        unreachable!();
    };
    let Some(leaf) = firsts.get(number) else {
        unreachable!();
    };
    *leaf
}

/// How many values a format shows.
fn shown(pieces: &[Piece]) -> usize
    ensures { result ≡ shows pieces.now }
{
    let mut count = 0;
    for piece in pieces {
        if let Piece::Show(_) = piece {
            count += 1;
        }
    }
    count
}
