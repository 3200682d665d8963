//! From line to line of what a net keeps between cycles.

ghost use Rattle.std.specs.Prelude.{◌≡◌, ◌∷◌, [], true, ◌+◌, ◌<◌, ◌≤◌, length, slice_get, slice_index_or, Some, IfSome, IfNone};
ghost use Rattle.ground_net.specs.Nets.{IsNet};
ghost use Rattle.ground_net.specs.declared.net.Net.{Net as TheNet};
ghost use Rattle.ground_net.specs.declared.net.NetMemory.{NetMemory as TheMemory};
ghost use Rattle.ground_net.specs.declared.net.Leaf.{Leaf as TheLeaf};
ghost use Rattle.snapshot_text.specs.Cells.{input_cell, leaf_cell, is_captured, state_cells};
ghost use Rattle.snapshot_text.specs.Steps.{cell_of, cells_ahead, IsSettled, HasElement, IsNext, IsSame};

use crate::cells::{CellLine, Cursor, ElementOf};
use ground_net::{Leaf, Net, PortLeaf, Role};

/// The line of an input.
pub fn input_line(leaf: &PortLeaf) -> CellLine<'_>
    ensures { cell_of result ≡ input_cell leaf.now }
{
    CellLine {
        word: b"input",
        name: leaf.name.as_slice(),
        element: None,
        kind: leaf.kind,
        width: leaf.width,
    }
}

/// All lines are ahead.
pub fn first_cursor(net: &Net) -> Cursor<'_>
    ensures ahead { cells_ahead result ≡ state_cells net.now }
    ensures settled { IsSettled result }
    ensures net { result.net.now ≡ net.now }
{
    Cursor {
        net,
        register: 0,
        memory: 0,
        element: 0,
        leaf: 0,
        read: 0,
    }
}

/// The next line, and what is ahead behind it.
pub fn next_line<'a>(cursor: Cursor<'a>) -> Option<(CellLine<'a>, Cursor<'a>)>
    requires net { IsNet cursor.net.now }
    requires settled { IsSettled cursor }
    ensures some { IfSome result (λ next. IsNext cursor.entry next.0 next.1) }
    ensures none { IfNone result (cells_ahead cursor.entry ≡ []) }
{
    if cursor.register < cursor.net.registers.len() {
        return Some(next_register(cursor));
    }
    let element = at_element(cursor);
    if element.memory < element.net.memories.len() {
        return Some(next_element(element));
    }
    let read = at_read(element);
    if read.read < read.net.leaves.len() {
        return Some(next_read(read));
    }
    None
}

/// The line of the next register.
fn next_register<'a>(cursor: Cursor<'a>) -> (CellLine<'a>, Cursor<'a>)
    requires net { IsNet cursor.net.now }
    requires settled { IsSettled cursor }
    requires there { cursor.register < length cursor.net.now.registers }
    ensures { IsNext cursor.entry result.0 result.1 }
{
    let register = &cursor.net.registers.as_slice()[cursor.register];
    let leaf = &cursor.net.leaves.as_slice()[register.leaf as usize];
    let mut behind = cursor;
    behind.register += 1;
    (leaf_line(b"reg", leaf), behind)
}

/// The line of a leaf.
fn leaf_line<'a>(word: &'a [u8], leaf: &'a Leaf) -> CellLine<'a>
    ensures { cell_of result ≡ leaf_cell word.now leaf.now }
{
    CellLine {
        word,
        name: leaf.name.as_slice(),
        element: None,
        kind: leaf.kind,
        width: leaf.width,
    }
}

/// The memory from whose elements on lines are ahead: memories without elements or leaves have none.
fn at_element<'a>(cursor: Cursor<'a>) -> Cursor<'a>
    requires { IsSettled cursor }
    ensures same { IsSame cursor.entry result }
    ensures register { result.register ≡ cursor.entry.register }
    ensures there { (memory : TheMemory) → slice_get result.net.now.memories result.memory ≡ Some memory → HasElement result memory }
{
    let mut at = cursor;
    'memories: while at.memory < at.net.memories.len() {
        let memory = &at.net.memories.as_slice()[at.memory];
        if at.element < memory.depth && at.leaf < memory.elements.len() {
            return at;
        }
        at.memory += 1;
        at.element = 0;
        at.leaf = 0;
    }
    at
}

/// The line of the next leaf of an element.
fn next_element<'a>(cursor: Cursor<'a>) -> (CellLine<'a>, Cursor<'a>)
    requires past { length cursor.net.now.registers ≤ cursor.register }
    requires there { cursor.memory < length cursor.net.now.memories }
    requires has { (memory : TheMemory) → slice_get cursor.net.now.memories cursor.memory ≡ Some memory → HasElement cursor memory }
    ensures { IsNext cursor.entry result.0 result.1 }
{
    let memory = &cursor.net.memories.as_slice()[cursor.memory];
    // The element's number is below it.
    let _depth = memory.depth;
    let leaf = &memory.elements.as_slice()[cursor.leaf];
    let element = ElementOf {
        index: cursor.element,
        path: leaf.path.as_slice(),
    };
    let line = CellLine {
        word: b"mem",
        name: memory.name.as_slice(),
        element: Some(element),
        kind: leaf.kind,
        width: leaf.width,
    };
    let mut behind = cursor;
    behind.leaf += 1;
    if behind.leaf == memory.elements.len() {
        behind.leaf = 0;
        behind.element += 1;
    }
    (line, behind)
}

/// The next leaf that shows a captured read.
fn at_read<'a>(cursor: Cursor<'a>) -> Cursor<'a>
    requires { IsSettled cursor }
    ensures same { IsSame cursor.entry result }
    ensures register { result.register ≡ cursor.entry.register }
    ensures memory { result.memory ≡ cursor.entry.memory }
    ensures there { (leaf : TheLeaf) → slice_get result.net.now.leaves result.read ≡ Some leaf → is_captured leaf.role ≡ true }
{
    let mut at = cursor;
    'leaves: while at.read < at.net.leaves.len() {
        if is_read(&at.net.leaves.as_slice()[at.read]) {
            return at;
        }
        at.read += 1;
    }
    at
}

/// Whether a leaf shows a captured read.
fn is_read(leaf: &Leaf) -> bool
    ensures { result ≡ is_captured leaf.now.role }
{
    matches!(leaf.role, Role::Captured(_))
}

/// The line of the next captured read.
fn next_read<'a>(cursor: Cursor<'a>) -> (CellLine<'a>, Cursor<'a>)
    requires settled { IsSettled cursor }
    requires past { length cursor.net.now.registers ≤ cursor.register }
    requires behind { length cursor.net.now.memories ≤ cursor.memory }
    requires there { cursor.read < length cursor.net.now.leaves }
    requires captured { (leaf : TheLeaf) → slice_get cursor.net.now.leaves cursor.read ≡ Some leaf → is_captured leaf.role ≡ true }
    ensures { IsNext cursor.entry result.0 result.1 }
{
    let leaf = &cursor.net.leaves.as_slice()[cursor.read];
    let mut behind = cursor;
    behind.read += 1;
    (leaf_line(b"read", leaf), behind)
}
