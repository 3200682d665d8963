//! A walk through statements, from the last one back.
//!
//! A connect of a leaf that a later statement covers is left out. So each leaf's ways come in the order in which they are asked, the
//! last connect first, and none of them is ever taken back or copied.

ghost use Rattle.std.specs.Prelude.{◌≡◌, ◌≢◌, ◌<◌, ◌∷◌, ◌++◌, [], ℕ, List, Some, true, false, not, length, ◌==◌, ◌&&◌, ◌||◌, IfOk, OnOk};
ghost use Rattle.std.specs.Global.{Vec};
ghost use Rattle.ground_net.specs.declared.circuit.GroundStmt.{GroundStmt as TheStmt};
ghost use Rattle.expand_whens.specs.declared.guard.Asked.{Asked as TheAsked};
ghost use Rattle.expand_whens.specs.declared.guard.Way.{Way as TheWay};
ghost use Rattle.expand_whens.specs.Ways.{refusals, accepted};
ghost use Rattle.expand_whens.specs.Walking.{BlockWalks, ArmsWalk, BlockShapes, ArmsShapes, has, is_alone, is_covered, is_marked, ways_at};

use crate::guard::{Asked, Way, guard_of};
use crate::marks::mark;
use ground_net::{Ground, GroundArm, GroundStmt, copied};
use std::alloc::{AllocError, Global};

/// Walks through a block, and gives the leaves for which it is certain.
#[cycle(walk)]
pub fn walk_block(
    alloc: Global,
    block: &[GroundStmt],
    asked: &mut Vec<Asked>,
    ways: &mut Vec<Vec<Way>>,
    covered: &mut Vec<bool>,
) -> Result<Vec<u32>, AllocError>
    requires { length covered.old.items ≡ length ways.old.items }
    ensures asked { OnOk result (asked.new.items ≡ asked.old.items) }
    ensures covered { OnOk result (covered.new.items ≡ covered.old.items) }
    ensures walks { IfOk result (λ newly. BlockWalks asked.old.items block.now covered.old.items ways.old.items ways.new.items newly.items) }
    ensures shapes { OnOk result (BlockShapes asked.old.items block.now ways.old.items ways.new.items) }
{
    let mut certain = Vec::new(alloc);
    let mut left = block.len();
    while left > 0 {
        left -= 1;
        let newly = walk_statement(alloc, &block[left], asked, ways, covered)?;
        mark(covered, newly.as_slice(), true);
        certain.extend_from_slice(newly.as_slice())?;
    }
    mark(covered, certain.as_slice(), false);
    Ok(certain)
}

#[cycle(walk)]
fn walk_statement(
    alloc: Global,
    statement: &GroundStmt,
    asked: &mut Vec<Asked>,
    ways: &mut Vec<Vec<Way>>,
    covered: &mut Vec<bool>,
) -> Result<Vec<u32>, AllocError>
    requires { length covered.old.items ≡ length ways.old.items }
    ensures asked { OnOk result (asked.new.items ≡ asked.old.items) }
    ensures covered { OnOk result (covered.new.items ≡ covered.old.items) }
    ensures walks { IfOk result (λ newly. BlockWalks asked.old.items (statement.now ∷ []) covered.old.items ways.old.items ways.new.items newly.items) }
    ensures shapes { OnOk result (BlockShapes asked.old.items (statement.now ∷ []) ways.old.items ways.new.items) }
{
    match statement {
        GroundStmt::Connect(leaf, conditions, source) => connect(
            alloc,
            *leaf,
            conditions.as_slice(),
            source,
            asked.as_slice(),
            ways,
            covered.as_slice(),
        ),
        GroundStmt::When(first, arms, other) => {
            refuse(alloc, *first, arms.as_slice(), asked)?;
            let certain = walk_block(alloc, other.as_slice(), asked, ways, covered)?;
            let newly = walk_arms(alloc, arms.as_slice(), certain, asked, ways, covered)?;
            Ok(newly)
        }
    }
}

/// Walks through arms from the last one back, where their conditions are asked last and none is to hold, behind the statements of
/// their `else` and the leaves for which those are certain.
#[cycle(walk)]
fn walk_arms(
    alloc: Global,
    arms: &[GroundArm],
    certain: Vec<u32>,
    asked: &mut Vec<Asked>,
    ways: &mut Vec<Vec<Way>>,
    covered: &mut Vec<bool>,
) -> Result<Vec<u32>, AllocError>
    requires counted { length covered.old.items ≡ length ways.old.items }
    requires uncovered { (leaf : ℕ) → has certain.items leaf ≡ true → is_covered covered.old.items leaf ≡ false }
    ensures asked { OnOk result ((before : List TheAsked) (first : ℕ) → asked.old.items ≡ before ++ refusals first arms.now → asked.new.items ≡ before) }
    ensures covered { OnOk result (covered.new.items ≡ covered.old.items) }
    ensures walks { IfOk result (λ newly. (before : List TheAsked) (first : ℕ) (other : List TheStmt) (old : List (Vec TheWay)) → asked.old.items ≡ before ++ refusals first arms.now
        → BlockWalks asked.old.items other covered.old.items old ways.old.items certain.items → ArmsWalk before first arms.now other covered.old.items old ways.new.items newly.items) }
    ensures shapes { OnOk result ((before : List TheAsked) (first : ℕ) → asked.old.items ≡ before ++ refusals first arms.now → ArmsShapes before arms.now ways.old.items ways.new.items) }
{
    let mut all = certain;
    let mut left = arms.len();
    while left > 0 {
        left -= 1;
        accept_last(asked)?;
        let newly = walk_block(alloc, arms[left].body.as_slice(), asked, ways, covered)?;
        forget_last(asked);
        all = in_both(alloc, covered, all.as_slice(), newly.as_slice())?;
    }
    Ok(all)
}

/// The condition of each arm is not to hold.
fn refuse(
    alloc: Global,
    first: u32,
    arms: &[GroundArm],
    asked: &mut Vec<Asked>,
) -> Result<(), AllocError>
    ensures { OnOk result (asked.new.items ≡ asked.old.items ++ refusals first arms.now) }
{
    for arm in arms {
        asked.push(Asked {
            first,
            condition: copied(alloc, &arm.condition)?,
            holds: false,
        })?;
    }
    Ok(())
}

/// The last condition is to hold.
fn accept_last(asked: &mut Vec<Asked>) -> Result<(), AllocError>
    ensures { OnOk result ((before : List TheAsked) (one : TheAsked) → asked.old.items ≡ before ++ one ∷ [] → asked.new.items ≡ before ++ accepted one ∷ []) }
{
    if let Some(one) = asked.pop() {
        asked.push(Asked {
            first: one.first,
            condition: one.condition,
            holds: true,
        })?;
    }
    Ok(())
}

/// Drops the last condition.
fn forget_last(asked: &mut Vec<Asked>)
    ensures { (before : List TheAsked) (one : TheAsked) → asked.old.items ≡ before ++ one ∷ [] → asked.new.items ≡ before }
{
    asked.pop();
}

/// A way of the leaf, where no later statement covers it.
fn connect(
    alloc: Global,
    leaf: u32,
    conditions: &[Ground],
    source: &Ground,
    asked: &[Asked],
    ways: &mut Vec<Vec<Way>>,
    covered: &[bool],
) -> Result<Vec<u32>, AllocError>
    requires { length covered.now ≡ length ways.old.items }
    ensures walks { IfOk result (λ newly. BlockWalks asked.now (GroundStmt.Connect leaf conditions.now source.now ∷ []) covered.now ways.old.items ways.new.items newly.items) }
    ensures shapes { OnOk result (BlockShapes asked.now (GroundStmt.Connect leaf conditions.now source.now ∷ []) ways.old.items ways.new.items) }
{
    if !is_uncovered(covered, leaf) {
        return Ok(Vec::new(alloc));
    }
    let way = Way {
        guard: guard_of(alloc, leaf, asked, conditions)?,
        source: copied(alloc, source)?,
    };
    add(ways, leaf, way)?;
    let newly = certain_ones(alloc, leaf, conditions)?;
    Ok(newly)
}

/// The leaf, where its connect has no condition of its own.
fn certain_ones(alloc: Global, leaf: u32, conditions: &[Ground]) -> Result<Vec<u32>, AllocError>
    ensures { IfOk result (λ ones. (x : ℕ) → has ones.items x ≡ ((leaf == x) && is_alone conditions.now)) }
{
    let mut ones = Vec::new(alloc);
    if conditions.is_empty() {
        ones.push(leaf)?;
    }
    Ok(ones)
}

/// Whether the leaf is one of the module's and isn't covered.
fn is_uncovered(covered: &[bool], leaf: u32) -> bool
    ensures { result ≡ not (is_covered covered.now leaf) }
{
    match covered.get(leaf as usize) {
        Some(one) => !*one,
        None => false,
    }
}

/// A further way of a leaf.
fn add(ways: &mut Vec<Vec<Way>>, leaf: u32, way: Way) -> Result<(), AllocError>
    requires { leaf < length ways.old.items }
    ensures counted { OnOk result (length ways.new.items ≡ length ways.old.items) }
    ensures added { OnOk result (ways_at ways.new.items leaf ≡ ways_at ways.old.items leaf ++ way ∷ []) }
    ensures others { OnOk result ((x : ℕ) → x ≢ leaf → ways_at ways.new.items x ≡ ways_at ways.old.items x) }
{
    ways[leaf as usize].push(way)?;
    Ok(())
}

/// The leaves of both lists.
fn in_both(
    alloc: Global,
    covered: &mut Vec<bool>,
    first: &[u32],
    second: &[u32],
) -> Result<Vec<u32>, AllocError>
    requires first { (leaf : ℕ) → has first.now leaf ≡ true → is_covered covered.old.items leaf ≡ false }
    requires second { (leaf : ℕ) → has second.now leaf ≡ true → is_covered covered.old.items leaf ≡ false }
    ensures covered { OnOk result (covered.new.items ≡ covered.old.items) }
    ensures both { IfOk result (λ both. (leaf : ℕ) → has both.items leaf ≡ (has first.now leaf && has second.now leaf)) }
{
    mark(covered, second, true);
    let both = marked_ones(alloc, covered.as_slice(), first)?;
    mark(covered, second, false);
    Ok(both)
}

/// The leaves of a list that are marked.
fn marked_ones(alloc: Global, covered: &[bool], leaves: &[u32]) -> Result<Vec<u32>, AllocError>
    ensures { IfOk result (λ both. (leaf : ℕ) → has both.items leaf ≡ (has leaves.now leaf && is_marked covered.now leaf)) }
{
    let mut marked = Vec::new(alloc);
    for leaf in leaves {
        push_marked(&mut marked, covered, *leaf)?;
    }
    Ok(marked)
}

fn push_marked(marked: &mut Vec<u32>, covered: &[bool], leaf: u32) -> Result<(), AllocError>
    ensures { OnOk result ((x : ℕ) → has marked.new.items x ≡ (has marked.old.items x || ((leaf == x) && is_marked covered.now x))) }
{
    if is_marked_one(covered, leaf) {
        marked.push(leaf)?;
        return Ok(());
    }
    Ok(())
}

/// Whether the leaf is one of the module's and is marked.
fn is_marked_one(covered: &[bool], leaf: u32) -> bool
    ensures { result ≡ is_marked covered.now leaf }
{
    match covered.get(leaf as usize) {
        Some(one) => *one,
        None => false,
    }
}
