//! What the leaves of a net read, as rows of numbers in which a stretch of leaves is one vertex.

ghost use Rattle.std.specs.Prelude.{◌≡◌, ℕ, ◌<◌, ◌≤◌, ◌+◌, ◌++◌, [], ◌∷◌, map, length, slice_index, IfOk, OnOk};
ghost use Rattle.ground_net.specs.Grounds.{mentions, joined};
ghost use Rattle.ground_net.specs.Numbers.{listed};
ghost use Rattle.ground_net.specs.Reads.{direct_reads, driver_of};
ghost use Rattle.ground_net.specs.Cones.{mentioned_by};
ghost use Rattle.comb_order.specs.Spreads.{IsSpread, is_assignment, assignments_among, row_at};
ghost use Rattle.comb_order.specs.Spreading.{IsBegun, Tells, IsToldUpTo, IsVertex, leaves_of};

use bit_words::List;
use ground_net::{Ground, Leaf, Net, Numbers, Role, Stretch};
use std::alloc::{AllocError, Global};
use std::collections::BTreeMap;

/// A row for each leaf of a net, and behind them one for each vertex: the assignments in a stretch.
#[derive(Drop)]
pub struct Spread {
    pub rows: Vec<List<u32>>,
    /// The vertex of each stretch, by its numbers. An ordered map, so that no stretches are slow to tell apart.
    pub known: BTreeMap<Vec<u128>, u32>,
}

/// The reads of a net: the row of each leaf tells the assignments that it reads, and each vertex has those of its stretch.
///
/// Equal stretches have one vertex. All rows together are at most as long as the expressions and the stretches that differ.
pub fn spread_of(alloc: Global, net: &Net) -> Result<Spread, AllocError>
    ensures begun { IfOk result (IsBegun net.now.leaves) }
    ensures spread { IfOk result (λ spread. IsSpread net.now spread.rows.items) }
{
    let mut spread = nothing_read(alloc, net.leaves.len())?;
    for number in 0..net.leaves.len() {
        tell(alloc, &mut spread, net, number)?;
    }
    Ok(spread)
}

/// An empty row for each leaf, and no vertex.
fn nothing_read(alloc: Global, leaves: usize) -> Result<Spread, AllocError>
    ensures count { IfOk result (λ spread. length spread.rows.items ≡ leaves) }
    ensures empty { IfOk result (λ spread. (x : ℕ) → row_at spread.rows.items x ≡ []) }
    ensures none { IfOk result (λ spread. spread.known.entries ≡ []) }
{
    let mut rows = Vec::new(alloc);
    for _ in 0..leaves {
        rows.push(List::new(alloc))?;
    }
    Ok(Spread {
        rows,
        known: BTreeMap::new(alloc),
    })
}

/// Fills the row of a leaf.
fn tell(alloc: Global, spread: &mut Spread, net: &Net, number: usize) -> Result<(), AllocError>
    requires within { number < length net.now.leaves }
    requires told { IsToldUpTo net.now number spread.old }
    ensures { OnOk result (IsToldUpTo net.now (number + 1) spread.new) }
{
    let row = row_of(alloc, spread, net, number)?;
    spread.rows[number] = row;
    Ok(())
}

/// A row that tells what a leaf reads directly.
fn row_of(
    alloc: Global,
    spread: &mut Spread,
    net: &Net,
    number: usize,
) -> Result<List<u32>, AllocError>
    requires within { number < length net.now.leaves }
    requires begun { IsBegun net.now.leaves spread.old }
    ensures { IfOk result (λ row. Tells net.now.leaves (direct_reads net.now number) spread.old [] spread.new row) }
{
    let mut row = List::new(alloc);
    push_reads(alloc, spread, &mut row, net, number)?;
    Ok(row)
}

/// Adds what a leaf reads directly.
fn push_reads(
    alloc: Global,
    spread: &mut Spread,
    row: &mut List<u32>,
    net: &Net,
    number: usize,
) -> Result<(), AllocError>
    requires within { number < length net.now.leaves }
    requires begun { IsBegun net.now.leaves spread.old }
    ensures { OnOk result (Tells net.now.leaves (direct_reads net.now number) spread.old row.old spread.new row.new) }
{
    let leaves = net.leaves.as_slice();
    let leaf = &leaves[number];
    match leaf.role {
        Role::Assigned => push_driver(alloc, spread, row, net, number),
        _ => Ok(()),
    }
}

/// Adds what the driver of a leaf mentions, where it has one.
pub fn push_driver(
    alloc: Global,
    spread: &mut Spread,
    row: &mut List<u32>,
    net: &Net,
    number: usize,
) -> Result<(), AllocError>
    requires { IsBegun net.now.leaves spread.old }
    ensures { OnOk result (Tells net.now.leaves (mentioned_by (driver_of net.now number)) spread.old row.old spread.new row.new) }
{
    match net.drivers.get(number) {
        Some(Some(driver)) => push_told(alloc, spread, row, net.leaves.as_slice(), driver),
        _ => Ok(()),
    }
}

/// Adds what an expression mentions: its assignments, and in place of a stretch its vertex.
#[cycle(telling)]
pub fn push_told(
    alloc: Global,
    spread: &mut Spread,
    row: &mut List<u32>,
    leaves: &[Leaf],
    ground: &Ground,
) -> Result<(), AllocError>
    requires { IsBegun leaves.now spread.old }
    ensures { OnOk result (Tells leaves.now (mentions ground.now) spread.old row.old spread.new row.new) }
{
    match ground {
        Ground::Const(_) => Ok(()),
        Ground::Leaf(leaf) => push_leaf(row, leaves, *leaf),
        Ground::Op(_, items, _) | Ground::Mux(items) | Ground::Fit(_, _, items) => {
            push_all(alloc, spread, row, leaves, items.as_slice())
        }
        // The address and the condition.
        Ground::Load(_, _, items) => push_all(alloc, spread, row, leaves, items.as_slice()),
        Ground::Indexed(numbers, indices, _) => {
            push_all(alloc, spread, row, leaves, indices.as_slice())?;
            push_numbers(alloc, spread, row, leaves, numbers)
        }
        Ground::Select(index, items) => {
            push_all(alloc, spread, row, leaves, index.as_slice())?;
            push_all(alloc, spread, row, leaves, items.as_slice())
        }
    }
}

/// Adds what expressions mention.
#[cycle(telling)]
fn push_all(
    alloc: Global,
    spread: &mut Spread,
    row: &mut List<u32>,
    leaves: &[Leaf],
    grounds: &[Ground],
) -> Result<(), AllocError>
    requires { IsBegun leaves.now spread.old }
    ensures { OnOk result (Tells leaves.now (joined (map mentions grounds.now)) spread.old row.old spread.new row.new) }
{
    for ground in grounds {
        push_told(alloc, spread, row, leaves, ground)?;
    }
    Ok(())
}

/// Adds numbers: the vertex of their stretch, or each assignment among them.
fn push_numbers(
    alloc: Global,
    spread: &mut Spread,
    row: &mut List<u32>,
    leaves: &[Leaf],
    numbers: &Numbers,
) -> Result<(), AllocError>
    requires { IsBegun leaves.now spread.old }
    ensures { OnOk result (Tells leaves.now numbers.now spread.old row.old spread.new row.new) }
{
    match numbers.stretch() {
        Some(stretch) => {
            let vertex = vertex_of(alloc, spread, leaves, numbers, stretch)?;
            Ok(row.push(vertex)?)
        }
        None => {
            let mut each = Vec::new(alloc);
            numbers.push_to(&mut each)?;
            push_leaves(row, leaves, each.as_slice())
        }
    }
}

/// The vertex of a stretch, which is made where there was none. More vertices than a `u32` numbers are a want of memory.
fn vertex_of(
    alloc: Global,
    spread: &mut Spread,
    leaves: &[Leaf],
    numbers: &Numbers,
    stretch: &Stretch,
) -> Result<u32, AllocError>
    requires begun { IsBegun leaves.now spread.old }
    requires tells { numbers.now ≡ listed stretch.now.spans stretch.now.first }
    ensures { IfOk result (λ vertex. IsVertex leaves.now numbers.now spread.old spread.new vertex) }
{
    let key = key_of(alloc, stretch)?;
    if let Some(vertex) = spread.known.get(&key) {
        return Ok(*vertex);
    }
    let row = assignments_of(alloc, leaves, numbers)?;
    let Ok(vertex) = u32::try_from(spread.rows.len()) else {
        return Err(AllocError);
    };
    spread.rows.push(row)?;
    spread.known.insert(key, vertex)?;
    Ok(vertex)
}

/// The numbers of a stretch: its first leaf, and of each vector how many elements it has and how far their leaves stand from one another.
fn key_of(alloc: Global, stretch: &Stretch) -> Result<Vec<u128>, AllocError>
    ensures { IfOk result (λ key. leaves_of key.items ≡ listed stretch.now.spans stretch.now.first) }
{
    let mut key = Vec::new(alloc);
    key.push(u128::from(stretch.first))?;
    for span in stretch.spans.as_slice() {
        key.push(span.length)?;
        key.push(u128::from(span.stride))?;
    }
    Ok(key)
}

/// The assignments among numbers of leaves.
fn assignments_of(
    alloc: Global,
    leaves: &[Leaf],
    numbers: &Numbers,
) -> Result<List<u32>, AllocError>
    ensures { IfOk result (λ row. row ≡ assignments_among leaves.now numbers.now) }
{
    let mut each = Vec::new(alloc);
    numbers.push_to(&mut each)?;
    let mut row = List::new(alloc);
    push_leaves(&mut row, leaves, each.as_slice())?;
    Ok(row)
}

/// Adds the assignments among leaves.
pub fn push_leaves(row: &mut List<u32>, leaves: &[Leaf], numbers: &[u32]) -> Result<(), AllocError>
    ensures { OnOk result (row.new ≡ row.old ++ assignments_among leaves.now numbers.now) }
{
    for number in numbers {
        push_leaf(row, leaves, *number)?;
    }
    Ok(())
}

/// Adds a leaf, where it is an assignment.
pub fn push_leaf(row: &mut List<u32>, leaves: &[Leaf], number: u32) -> Result<(), AllocError>
    ensures { OnOk result (row.new ≡ row.old ++ assignments_among leaves.now (number ∷ [])) }
{
    if is_assignment(leaves, number) {
        row.push(number)?;
    }
    Ok(())
}

/// Whether the leaf of a number is an assignment.
pub fn is_assignment(leaves: &[Leaf], number: u32) -> bool
    ensures { result ≡ is_assignment leaves.now number }
{
    match leaves.get(number as usize) {
        Some(leaf) => matches!(leaf.role, Role::Assigned),
        None => false,
    }
}
