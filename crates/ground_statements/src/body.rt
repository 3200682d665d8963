//! Blocks as ground statements (FIRRTL specification 3.0, "Statements" and "Conditionals").

ghost use Rattle.std.specs.Prelude.{◌≡◌, ◌+◌, ◌∷◌, ◌++◌, [], true, nat_eq, length, map, option_map, Some, IfOk, OnOk};
ghost use Rattle.std.specs.Map.{lookup};
ghost use Rattle.fir_meaning.specs.WellTyped.{is_typed_stmt, are_typed};
ghost use Rattle.ground_net.specs.declared.circuit.GroundStmt.TheVariants as statement;
ghost use Rattle.ground_exprs.specs.Sources.{AreNarrow, known_of};
ghost use Rattle.ground_statements.specs.Arms.{AreArms, IsNodeOf, are_typed_arms, leaves_under};
ghost use Rattle.ground_statements.specs.Bodies.{IsBody};

use crate::connects::{connect, invalidate};
use crate::nodes::node;
use bit_words::List;
use fir_tree::{Arm, Stmt};
use ground_exprs::operation::lone;
use ground_exprs::reading::{as_number, sum_of};
use ground_exprs::{Component, Source, lower_expr};
use ground_net::{GroundArm, GroundStmt};
use indexmap::IndexMap;
use std::alloc::{AllocError, Global};

/// The ground statements of a body, and how many leaves are declared before what follows it.
#[derive(Drop)]
pub struct Lowered {
    pub body: List<GroundStmt>,
    pub behind: u32,
}

/// The arms of a `when`, and how many leaves are declared before its `else`.
#[derive(Drop)]
struct LoweredArms {
    arms: List<GroundArm>,
    behind: u32,
}

/// The ground statements of a body before which so many leaves are declared, where the components are known by the numbers of their
/// names, and the leaves that statements may set by their own numbers.
#[cycle(body)]
pub fn lower_body(
    alloc: Global,
    known: &IndexMap<u32, Component>,
    settable: &[bool],
    body: &[Stmt],
    before: u32,
) -> Result<Lowered, AllocError>
    requires narrow { AreNarrow known.now.entries }
    requires typed { are_typed (known_of known.now.entries) body.now ≡ true }
    ensures { IfOk result (λ lowered. IsBody known.now.entries settable.now body.now before lowered.behind lowered.body) }
{
    let mut made = List::new(alloc);
    let mut behind = before;
    for statement in body {
        let lowered = lower_statement(alloc, known, settable, statement, behind)?;
        behind = lowered.behind;
        append(&mut made, lowered.body)?;
    }
    Ok(Lowered { body: made, behind })
}

#[cycle(body)]
fn lower_statement(
    alloc: Global,
    known: &IndexMap<u32, Component>,
    settable: &[bool],
    statement: &Stmt,
    before: u32,
) -> Result<Lowered, AllocError>
    requires narrow { AreNarrow known.now.entries }
    requires typed { is_typed_stmt (known_of known.now.entries) statement.now ≡ true }
    ensures { IfOk result (λ lowered. IsBody known.now.entries settable.now (statement.now ∷ []) before lowered.behind lowered.body) }
{
    match statement {
        Stmt::Wire(name, _) => declared(alloc, known, name.id, before),
        Stmt::Reg(name, _, _) => declared(alloc, known, name.id, before),
        Stmt::RegReset(name, _, _, _, _) => declared(alloc, known, name.id, before),
        Stmt::Mem(memory) => declared(alloc, known, memory.name.id, before),
        Stmt::Inst(name, _) => declared(alloc, known, name.id, before),
        Stmt::Node(name, expr) => {
            let behind = behind_component(known, name.id, before)?;
            let sources = lower_expr(alloc, known, expr)?;
            let body = lower_node(alloc, known, name.id, sources)?;
            Ok(Lowered { body, behind })
        }
        Stmt::Connect(left, right) => {
            let body = connect(alloc, known, settable, left, right)?;
            Ok(staying(body, before))
        }
        Stmt::Invalidate(target) => {
            let body = invalidate(alloc, known, settable, target)?;
            Ok(staying(body, before))
        }
        Stmt::When(arms, other) => {
            let arms = lower_arms(alloc, known, settable, arms.as_slice(), before)?;
            let other = lower_body(alloc, known, settable, other.as_slice(), arms.behind)?;
            let lowered = joined(alloc, before, arms, other)?;
            Ok(lowered)
        }
        Stmt::Skip(_) => Ok(staying(List::new(alloc), before)),
    }
}

#[cycle(body)]
fn lower_arms(
    alloc: Global,
    known: &IndexMap<u32, Component>,
    settable: &[bool],
    arms: &[Arm],
    before: u32,
) -> Result<LoweredArms, AllocError>
    requires narrow { AreNarrow known.now.entries }
    requires typed { are_typed_arms (known_of known.now.entries) arms.now ≡ true }
    ensures { IfOk result (λ lowered. AreArms known.now.entries settable.now arms.now before lowered.behind lowered.arms) }
{
    let mut made = List::new(alloc);
    let mut behind = before;
    for arm in arms {
        let condition = lone(lower_expr(alloc, known, &arm.condition)?);
        let lowered = lower_body(alloc, known, settable, arm.body.as_slice(), behind)?;
        behind = lowered.behind;
        made.push(GroundArm {
            condition: condition.expr,
            body: lowered.body,
        })?;
    }
    Ok(LoweredArms { arms: made, behind })
}

/// A declaration that sets nothing.
fn declared(
    alloc: Global,
    known: &IndexMap<u32, Component>,
    name: u32,
    before: u32,
) -> Result<Lowered, AllocError>
    ensures { IfOk result (λ lowered. (lowered.body ≡ []) × (lowered.behind ≡ before + leaves_under known.now.entries name)) }
{
    let behind = behind_component(known, name, before)?;
    let body = List::new(alloc);
    Ok(Lowered { body, behind })
}

/// The ground statements of a statement that declares nothing.
fn staying(body: List<GroundStmt>, behind: u32) -> Lowered
    ensures body { result.body ≡ body }
    ensures behind { result.behind ≡ behind }
{
    Lowered { body, behind }
}

/// The number of leaves behind the component of a name; a name that no component has stands before none.
fn behind_component(
    known: &IndexMap<u32, Component>,
    name: u32,
    before: u32,
) -> Result<u32, AllocError>
    ensures { IfOk result (λ behind. behind ≡ before + leaves_under known.now.entries name) }
{
    match known.get(&name) {
        Some(component) => {
            let count = as_number(component.typ.tabled().leaf_count())?;
            let behind = sum_of(before, count)?;
            Ok(behind)
        }
        None => Ok(before),
    }
}

/// The node of a name gets these sources.
fn lower_node(
    alloc: Global,
    known: &IndexMap<u32, Component>,
    name: u32,
    sources: List<Source>,
) -> Result<List<GroundStmt>, AllocError>
    ensures { IfOk result (λ made. IsNodeOf known.now.entries name sources made) }
{
    match known.get(&name) {
        Some(component) => {
            let made = node(alloc, component, sources)?;
            Ok(made)
        }
        None => Ok(List::new(alloc)),
    }
}

/// A `when` before which so many leaves are declared.
fn joined(
    alloc: Global,
    before: u32,
    arms: LoweredArms,
    other: Lowered,
) -> Result<Lowered, AllocError>
    ensures body { IfOk result (λ lowered. lowered.body ≡ statement.When before arms.arms other.body ∷ []) }
    ensures behind { IfOk result (λ lowered. lowered.behind ≡ other.behind) }
{
    let behind = other.behind;
    let body = vec![in alloc; GroundStmt::When(before, arms.arms, other.body)]?;
    Ok(Lowered {
        body: List::from_vec(body),
        behind,
    })
}

fn append(made: &mut List<GroundStmt>, more: List<GroundStmt>) -> Result<(), AllocError>
    ensures { OnOk result (made.new ≡ made.old ++ more) }
{
    for statement in more.into_vec() {
        made.push(statement)?;
    }
    Ok(())
}
