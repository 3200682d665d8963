//! The walk through the statements of a body.

ghost use Rattle.std.specs.Prelude.{◌≡◌, ◌++◌, map, length, IfOk, OnOk};
ghost use Rattle.std.specs.List.{list_any};
ghost use Rattle.width_fit.specs.Judging.{in_turn, is_unknown, component_faults, slot_width, looks_at, asks, of_storage, of_memory, of_node};
ghost use Rattle.width_fit.specs.Walks.{Walks, solved, of_instance_among, stmt_among, arm_among};
ghost use Rattle.width_fit.specs.Held.{HoldsFits};

use crate::fault::WidthFault;
use crate::faults::{push_condition, push_over, push_where};
use crate::found::Findings;
use crate::given::Given;
use crate::memories::fit_of_memory;
use crate::survey::{survey_expr, survey_indexes};
use crate::wide::{is_wide, look_among};
use bit_words::List;
use fir_tree::steps::{no_part, source};
use fir_tree::{Arm, Expr, Form, Stmt};
use fir_types::{FirType, Memory, Name, copy, element_of};
use indexmap::IndexMap;
use part_fits::choices::{Among, Choices};
use part_fits::fits::{Fit, declare, fit_of, part_of};
use part_fits::widths::slot_widths;
use place_text::Place;
use prim_ops::Width;
use std::alloc::{AllocError, Global};
use width_rules::indexed::Indexed;
use width_rules::measuring::{look_up, no_component};
use width_rules::memories::memory_of_slots;
use width_rules::sizes::variables;
use width_rules::slot::Slot;
use width_rules::walk::{duplex, slots_of_type};

/// What a walk has come to.
#[derive(Drop)]
pub struct Walk {
    /// The components of the module that are declared so far, by the numbers of their names.
    pub known: IndexMap<u32, Indexed>,
    /// The fitted types of these components, where they have one.
    pub fits: IndexMap<u32, Fit>,
    /// What references and choices of the module came to.
    pub choices: Choices,
    /// For each variable so far the place of its component.
    pub places: Vec<Place>,
    /// The fitted types of declarations in text order.
    pub declared: Vec<FirType>,
    pub found: Findings,
}

/// Statements in order.
#[cycle(walk)]
pub fn walk_statements(
    alloc: Global,
    given: &Given<'_>,
    walk: &mut Walk,
    statements: &[Stmt],
) -> Result<(), AllocError>
    requires { HoldsFits given.now walk.old }
    ensures walks { OnOk result (Walks (in_turn (map (stmt_among (solved given.now) given.now.instances.components.entries) statements.now)) walk.old walk.new) }
    ensures fits { OnOk result (HoldsFits given.now walk.new) }
{
    for statement in statements {
        walk_statement(alloc, given, walk, statement)?;
    }
    Ok(())
}

#[cycle(walk)]
fn walk_statement(
    alloc: Global,
    given: &Given<'_>,
    walk: &mut Walk,
    statement: &Stmt,
) -> Result<(), AllocError>
    requires { HoldsFits given.now walk.old }
    ensures walks { OnOk result (Walks (stmt_among (solved given.now) given.now.instances.components.entries statement.now) walk.old walk.new) }
    ensures fits { OnOk result (HoldsFits given.now walk.new) }
{
    match statement {
        Stmt::Wire(name, typ) => declare_storage(alloc, given, walk, *name, typ),
        Stmt::Reg(name, typ, clock) => {
            look_at(alloc, given, walk, clock)?;
            declare_storage(alloc, given, walk, *name, typ)
        }
        Stmt::RegReset(name, typ, clock, reset, init) => {
            look_at(alloc, given, walk, clock)?;
            ask(alloc, given, walk, reset)?;
            look_at(alloc, given, walk, init)?;
            declare_storage(alloc, given, walk, *name, typ)
        }
        Stmt::Mem(memory) => declare_memory(alloc, given, walk, memory),
        Stmt::Inst(name, target) => { declare_instance(alloc, given, walk, *name, *target) }
        Stmt::Node(name, expr) => declare_node(alloc, given, walk, *name, expr),
        Stmt::Connect(left, right) => {
            look_at(alloc, given, walk, left)?;
            look_at(alloc, given, walk, right)
        }
        Stmt::Invalidate(target) => look_at(alloc, given, walk, target),
        Stmt::When(arms, other) => {
            walk_arms(alloc, given, walk, arms.as_slice())?;
            walk_statements(alloc, given, walk, other.as_slice())
        }
        Stmt::Skip(_) => Ok(()),
    }
}

#[cycle(walk)]
fn walk_arms(
    alloc: Global,
    given: &Given<'_>,
    walk: &mut Walk,
    arms: &[Arm],
) -> Result<(), AllocError>
    requires { HoldsFits given.now walk.old }
    ensures walks { OnOk result (Walks (in_turn (map (arm_among (solved given.now) given.now.instances.components.entries) arms.now)) walk.old walk.new) }
    ensures fits { OnOk result (HoldsFits given.now walk.new) }
{
    for arm in arms {
        walk_arm(alloc, given, walk, arm)?;
    }
    Ok(())
}

#[cycle(walk)]
fn walk_arm(alloc: Global, given: &Given<'_>, walk: &mut Walk, arm: &Arm) -> Result<(), AllocError>
    requires { HoldsFits given.now walk.old }
    ensures walks { OnOk result (Walks (arm_among (solved given.now) given.now.instances.components.entries arm.now) walk.old walk.new) }
    ensures fits { OnOk result (HoldsFits given.now walk.new) }
{
    ask(alloc, given, walk, &arm.condition)?;
    walk_statements(alloc, given, walk, arm.body.as_slice())
}

/// An expression whose widths nobody asks for. The fitted type of a reference is a share of its component's, and that of a choice
/// one that was seen before, in time that their fields don't count for.
fn look_at(alloc: Global, given: &Given<'_>, walk: &mut Walk, expr: &Expr) -> Result<(), AllocError>
    requires { HoldsFits given.now walk.old }
    ensures walks { OnOk result (Walks (looks_at given.now.widths.now expr.now) walk.old walk.new) }
    ensures fits { OnOk result (HoldsFits given.now walk.new) }
{
    if let Form::Ref(name, suffixes) = &expr.form {
        let suffixes = suffixes.as_slice();
        if let Some((typ, is_over)) = part_of(&walk.known, &walk.fits, name.id, suffixes) {
            walk.found.nodes.push(copy(typ)?)?;
            survey_indexes(alloc, given.widths, &walk.known, &mut walk.found, suffixes)?;
            let over = WidthFault::WidthOver(expr.place);
            return push_where(&mut walk.found.faults, is_over, over);
        }
    }
    if is_wide(&walk.known, expr) {
        let among = Among {
            alloc,
            widths: given.widths,
            known: &walk.known,
        };
        look_among(&among, &mut walk.choices, &mut walk.found, expr)?;
        return Ok(());
    }
    survey_expr(alloc, given.widths, &walk.known, &mut walk.found, expr)?;
    Ok(())
}

/// A condition or a reset, which has at most one bit.
fn ask(alloc: Global, given: &Given<'_>, walk: &mut Walk, expr: &Expr) -> Result<(), AllocError>
    requires { HoldsFits given.now walk.old }
    ensures walks { OnOk result (Walks (asks given.now.widths.now expr.now) walk.old walk.new) }
    ensures fits { OnOk result (HoldsFits given.now walk.new) }
{
    let surveyed = survey_expr(alloc, given.widths, &walk.known, &mut walk.found, expr)?;
    push_condition(
        &mut walk.found.faults,
        surveyed.place,
        surveyed.widths.as_slice(),
    )
}

/// A wire or a register.
fn declare_storage(
    alloc: Global,
    given: &Given<'_>,
    walk: &mut Walk,
    name: Name,
    typ: &FirType,
) -> Result<(), AllocError>
    requires { HoldsFits given.now walk.old }
    ensures walks { OnOk result (Walks (of_storage (solved given.now) name typ.now) walk.old walk.new) }
    ensures fits { OnOk result (HoldsFits given.now walk.new) }
{
    let slots = slots_of_type(alloc, &mut walk.places, name.place, typ)?;
    let widths = slot_widths(alloc, given.widths, slots.as_slice())?;
    let fitted = walk.found.made.fit(alloc, typ, widths.as_slice())?;
    let fit = fit_of(&fitted, &widths)?;
    walk.declared.push(fitted)?;
    push_component(
        &mut walk.found.faults,
        given,
        name.place,
        slots.as_slice(),
        widths.as_slice(),
    )?;
    let part = duplex(alloc, typ)?;
    let component = Indexed::new(alloc, given.names, part, slots)?;
    declare(&mut walk.known, &mut walk.fits, name.id, component, fit)
}

/// A memory, whose ports share the fitted type of its elements.
fn declare_memory(
    alloc: Global,
    given: &Given<'_>,
    walk: &mut Walk,
    memory: &Memory,
) -> Result<(), AllocError>
    requires { HoldsFits given.now walk.old }
    ensures walks { OnOk result (Walks (of_memory (solved given.now) memory.now) walk.old walk.new) }
    ensures fits { OnOk result (HoldsFits given.now walk.new) }
{
    let empty = no_part(alloc)?.typ;
    let element = element_of(memory.lines.as_slice(), &empty);
    let place = memory.name.place;
    let slots = slots_of_type(alloc, &mut walk.places, place, element)?;
    let widths = slot_widths(alloc, given.widths, slots.as_slice())?;
    push_component(
        &mut walk.found.faults,
        given,
        place,
        slots.as_slice(),
        widths.as_slice(),
    )?;
    let fitted = walk.found.made.fit(alloc, element, widths.as_slice())?;
    let fit = fit_of_memory(alloc, memory, &fitted, widths.as_slice())?;
    walk.declared.push(copy(&fit.typ)?)?;
    let component = memory_of_slots(alloc, given.names, memory, slots)?;
    let name = memory.name.id;
    declare(&mut walk.known, &mut walk.fits, name, component, fit)
}

/// An instance, whose widths are those of its module's ports.
fn declare_instance(
    alloc: Global,
    given: &Given<'_>,
    walk: &mut Walk,
    name: Name,
    target: Name,
) -> Result<(), AllocError>
    requires { HoldsFits given.now walk.old }
    ensures walks { OnOk result (Walks (of_instance_among (solved given.now) given.now.instances.components.entries name target) walk.old walk.new) }
    ensures fits { OnOk result (HoldsFits given.now walk.new) }
{
    let nothing = no_component(alloc)?;
    let instance = look_up(&given.instances.components, target.id, &nothing).share()?;
    let fit = given.fit_of_instance(alloc, target.id)?;
    walk.declared.push(copy(&fit.typ)?)?;
    declare(&mut walk.known, &mut walk.fits, name.id, instance, fit)
}

/// A node, whose places have variables, but for those that are an AsyncReset.
fn declare_node(
    alloc: Global,
    given: &Given<'_>,
    walk: &mut Walk,
    name: Name,
    expr: &Expr,
) -> Result<(), AllocError>
    requires { HoldsFits given.now walk.old }
    ensures walks { OnOk result (Walks (of_node (solved given.now) name expr.now) walk.old walk.new) }
    ensures fits { OnOk result (HoldsFits given.now walk.new) }
{
    let part = survey_expr(alloc, given.widths, &walk.known, &mut walk.found, expr)?.part;
    let slots = variables(alloc, &mut walk.places, name.place, &part.typ)?;
    let widths = slot_widths(alloc, given.widths, slots.as_slice())?;
    let fitted = walk.found.made.fit(alloc, &part.typ, widths.as_slice())?;
    let fit = fit_of(&fitted, &widths)?;
    walk.declared.push(fitted)?;
    push_component(
        &mut walk.found.faults,
        given,
        name.place,
        slots.as_slice(),
        widths.as_slice(),
    )?;
    let part = source(part.typ);
    let component = Indexed::new(alloc, given.names, part, slots)?;
    declare(&mut walk.known, &mut walk.fits, name.id, component, fit)
}

/// Adds the faults of a component at this place, whose widths these are.
pub fn push_component(
    faults: &mut Vec<WidthFault>,
    given: &Given<'_>,
    place: Place,
    slots: &[Slot],
    widths: &[Width],
) -> Result<(), AllocError>
    requires { widths.now ≡ map (slot_width given.now.widths.now) slots.now }
    ensures { OnOk result (faults.new.items ≡ faults.old.items ++ component_faults (solved given.now) place slots.now) }
{
    push_where(
        faults,
        any_unknown(given, slots),
        WidthFault::WidthUnknown(place),
    )?;
    push_over(faults, place, widths)
}

fn any_unknown(given: &Given<'_>, slots: &[Slot]) -> bool
    ensures { result ≡ list_any (is_unknown given.now.rules.now) slots.now }
{
    for slot in slots {
        if given.is_unknown(*slot) {
            return true;
        }
    }
    false
}
