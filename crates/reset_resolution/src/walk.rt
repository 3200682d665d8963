//! The walk through the statements of a body.

ghost use Rattle.std.specs.Prelude.{◌≡◌, ◌++◌, ◌∷◌, [], map, option_map, Some, OnOk, IfOk};
ghost use Rattle.reset_search.specs.declared.spot.Spot.TheVariants.{Cast as The_cast};
ghost use Rattle.reset_search.specs.Feeds.{known_with, connected, in_turn, declares, declares_memory, declares_instance, names_node, connects, reached_by, stmt_walk, arm_walk};
ghost use Rattle.reset_resolution.specs.Walked.{listed, Walks, found_as};
ghost use Rattle.reset_resolution.specs.Layers.{reached_as};

use crate::component::Indexed;
use crate::grounds::{are_alike, grounds_of};
use crate::memories::{Element, Numbered, push_lines};
use crate::ranges::{
    places_of, push_asyncs, push_declared, push_fed, push_nodes, push_pairs, spend,
};
use crate::reaching::{Reached, Scope, reach_expr};
use bit_words::List;
use fir_tree::steps::no_part;
use fir_tree::{Arm, Expr, Names, Stmt};
use fir_types::{FirType, Memory, Name, copy, element_of};
use indexmap::IndexMap;
use reset_search::masks::mask_places;
use reset_search::{Feed, Spot};
use std::alloc::{AllocError, Global};
use type_index::KnownType;

/// What all bodies stand among: the texts of names, the components of instances by the names of their modules, and the place of a cast alone.
#[derive(Clone, Copy)]
pub struct Context<'a> {
    pub names: &'a Names,
    pub instances: &'a IndexMap<u32, Indexed>,
    pub cast: &'a [Spot],
    ghost casts: { cast.now ≡ The_cast ∷ [] },
}

/// What a walk has come to.
#[derive(Drop)]
pub struct Found {
    /// The components of the module that are declared so far, by the numbers of their names.
    pub known: IndexMap<u32, Indexed>,
    /// The number of the next place of the text, and the units that are left.
    pub numbered: Numbered,
    /// The number of the next place of a node.
    pub nodes: usize,
    pub feeds: List<Feed>,
    pub asyncs: List<Spot>,
}

/// What an expression comes to, with places of its own.
#[derive(Drop)]
struct Source {
    known: KnownType,
    spots: List<Spot>,
}

fn scope<'b>(context: Context<'b>, found: &'b Found) -> Scope<'b>
    ensures { result.known.now ≡ found.now.known }
{
    Scope {
        names: context.names,
        known: &found.known,
        cast: context.cast,
    }
}

/// Statements in order.
#[cycle(walk)]
pub fn walk_statements(
    alloc: Global,
    context: Context<'_>,
    found: &mut Found,
    statements: &[Stmt],
) -> Result<(), AllocError>
    ensures { OnOk result (Walks (in_turn (map (stmt_walk (listed context.entry.instances.now.entries)) statements.now)) found.old found.new) }
{
    for statement in statements {
        walk_statement(alloc, context, found, statement)?;
    }
    Ok(())
}

#[cycle(walk)]
fn walk_statement(
    alloc: Global,
    context: Context<'_>,
    found: &mut Found,
    statement: &Stmt,
) -> Result<(), AllocError>
    ensures { OnOk result (Walks (stmt_walk (listed context.entry.instances.now.entries) statement.now) found.old found.new) }
{
    match statement {
        Stmt::Wire(name, typ) => declare(alloc, context, found, *name, typ),
        Stmt::Reg(name, typ, _) => declare(alloc, context, found, *name, typ),
        Stmt::RegReset(name, typ, _, _, _) => declare(alloc, context, found, *name, typ),
        Stmt::Mem(memory) => declare_memory(alloc, context, found, memory),
        Stmt::Inst(name, target) => declare_instance(context, found, *name, *target),
        Stmt::Node(name, expr) => declare_node(alloc, context, found, *name, expr),
        Stmt::Connect(left, right) => connect(alloc, context, found, left, right),
        Stmt::Invalidate(_) => Ok(()),
        Stmt::When(arms, other) => {
            walk_arms(alloc, context, found, arms.as_slice())?;
            walk_statements(alloc, context, found, other.as_slice())
        }
        Stmt::Skip(_) => Ok(()),
    }
}

#[cycle(walk)]
fn walk_arms(
    alloc: Global,
    context: Context<'_>,
    found: &mut Found,
    arms: &[Arm],
) -> Result<(), AllocError>
    ensures { OnOk result (Walks (in_turn (map (arm_walk (listed context.entry.instances.now.entries)) arms.now)) found.old found.new) }
{
    for arm in arms {
        walk_arm(alloc, context, found, arm)?;
    }
    Ok(())
}

#[cycle(walk)]
fn walk_arm(
    alloc: Global,
    context: Context<'_>,
    found: &mut Found,
    arm: &Arm,
) -> Result<(), AllocError>
    ensures { OnOk result (Walks (arm_walk (listed context.entry.instances.now.entries) arm.now) found.old found.new) }
{
    walk_statements(alloc, context, found, arm.body.as_slice())
}

/// A wire or a register.
fn declare(
    alloc: Global,
    context: Context<'_>,
    found: &mut Found,
    name: Name,
    typ: &FirType,
) -> Result<(), AllocError>
    ensures { OnOk result (Walks (declares name.id typ.now) found.old found.new) }
{
    let count = places_of(typ)?;
    let mut spots = List::new(alloc);
    push_declared(&mut spots, &mut found.numbered.next, count)?;
    let grounds = grounds_of(alloc, typ)?;
    push_asyncs(&mut found.asyncs, grounds.as_slice(), spots.as_slice())?;
    let component = Indexed::new(alloc, context.names, copy(typ)?, spots)?;
    note(&mut found.known, name.id, component)
}

/// A memory: its data have the element's places, and the other fields of its ports the next ones.
fn declare_memory(
    alloc: Global,
    context: Context<'_>,
    found: &mut Found,
    memory: &Memory,
) -> Result<(), AllocError>
    ensures { OnOk result (Walks (declares_memory memory.now) found.old found.new) }
{
    let empty = no_part(alloc)?.typ;
    let lines = memory.lines.as_slice();
    let typ = element_of(lines, &empty);
    let count = places_of(typ)?;
    let mut own = List::new(alloc);
    push_declared(&mut own, &mut found.numbered.next, count)?;
    let grounds = grounds_of(alloc, typ)?;
    push_asyncs(&mut found.asyncs, grounds.as_slice(), own.as_slice())?;
    let element = Element {
        spots: own.as_slice(),
        mask: mask_places(typ)?,
    };
    let mut spots = List::new(alloc);
    push_lines(&mut spots, &mut found.numbered, element, lines)?;
    let known = KnownType::of_memory(alloc, context.names, memory)?;
    let component = Indexed::of(alloc, known, spots)?;
    note(&mut found.known, memory.name.id, component)
}

/// An instance, where its module is known.
fn declare_instance(
    context: Context<'_>,
    found: &mut Found,
    name: Name,
    target: Name,
) -> Result<(), AllocError>
    ensures { OnOk result (Walks (declares_instance (listed context.entry.instances.now.entries) name.id target.id) found.old found.new) }
{
    match context.instances.get(&target.id) {
        Some(instance) => {
            let component = instance.share()?;
            note(&mut found.known, name.id, component)
        }
        None => Ok(()),
    }
}

/// A node, where its expression has a type: it has places of its own, which the expression feeds.
fn declare_node(
    alloc: Global,
    context: Context<'_>,
    found: &mut Found,
    name: Name,
    expr: &Expr,
) -> Result<(), AllocError>
    ensures { OnOk result (Walks (names_node name.id expr.now) found.old found.new) }
{
    let scope = scope(context, found);
    let Some(source) = source_of(alloc, scope, expr)? else {
        return Ok(());
    };
    let count = places_of(&source.known.typ)?;
    spend(&mut found.numbered.left, count)?;
    spend(&mut found.numbered.left, source.spots.len())?;
    let mut own = List::new(alloc);
    push_nodes(&mut own, &mut found.nodes, count)?;
    push_fed(&mut found.feeds, source.spots.as_slice(), own.as_slice())?;
    let grounds = grounds_of(alloc, &source.known.typ)?;
    push_asyncs(&mut found.asyncs, grounds.as_slice(), own.as_slice())?;
    let component = Indexed::of(alloc, source.known, own)?;
    note(&mut found.known, name.id, component)
}

/// What an expression comes to, with a list of its places.
fn source_of(alloc: Global, scope: Scope<'_>, expr: &Expr) -> Result<Option<Source>, AllocError>
    ensures { IfOk result (λ source. option_map found_as source ≡ reached_by expr.now scope.entry.known.now.entries) }
{
    match reach_expr(alloc, scope, expr)? {
        Some(reached) => {
            let spots = List::from_slice(alloc, reached.spots)?;
            Ok(Some(Source {
                known: reached.known,
                spots,
            }))
        }
        None => Ok(None),
    }
}

fn connect(
    alloc: Global,
    context: Context<'_>,
    found: &mut Found,
    left: &Expr,
    right: &Expr,
) -> Result<(), AllocError>
    ensures { OnOk result (Walks (connects left.now right.now) found.old found.new) }
{
    let mut units = found.numbered.left;
    let feeds = connected(alloc, scope(context, found), &mut units, left, right)?;
    found.numbered.left = units;
    push_feeds(&mut found.feeds, feeds.as_slice())
}

/// The feeds of a connect.
fn connected(
    alloc: Global,
    scope: Scope<'_>,
    units: &mut usize,
    left: &Expr,
    right: &Expr,
) -> Result<List<Feed>, AllocError>
    ensures { IfOk result (λ feeds. feeds ≡ connected (reached_by left.now scope.entry.known.now.entries) (reached_by right.now scope.entry.known.now.entries)) }
{
    match (
        reach_expr(alloc, scope, left)?,
        reach_expr(alloc, scope, right)?,
    ) {
        (Some(one), Some(other)) => feeds_between(alloc, units, &one, &other),
        _ => Ok(List::new(alloc)),
    }
}

fn push_feeds(feeds: &mut List<Feed>, more: &[Feed]) -> Result<(), AllocError>
    ensures { OnOk result (feeds.new ≡ feeds.old ++ more.now) }
{
    for feed in more {
        feeds.push(*feed)?;
    }
    Ok(())
}

/// The feeds between two sides. Takes time in proportion to the types, for which units are spent where both have places.
fn feeds_between(
    alloc: Global,
    units: &mut usize,
    left: &Reached<'_>,
    right: &Reached<'_>,
) -> Result<List<Feed>, AllocError>
    ensures { IfOk result (λ feeds. feeds ≡ connected (Some (reached_as left.now)) (Some (reached_as right.now))) }
{
    let mut feeds = List::new(alloc);
    if right.spots.is_empty() {
        return Ok(feeds);
    }
    spend(units, left.spots.len())?;
    spend(units, left.spots.len())?;
    if !are_alike(&left.known.typ, &right.known.typ) {
        return Ok(feeds);
    }
    let grounds = grounds_of(alloc, &left.known.typ)?;
    push_pairs(&mut feeds, grounds.as_slice(), left.spots, right.spots)?;
    Ok(feeds)
}

/// Notes a component by its name, where the name has none.
pub fn note(
    known: &mut IndexMap<u32, Indexed>,
    name: u32,
    component: Indexed,
) -> Result<(), AllocError>
    ensures { OnOk result (known.new.entries ≡ known_with known.old.entries name (Some component)) }
{
    if known.get(&name).is_none() {
        known.insert(name, component)?;
    }
    Ok(())
}
