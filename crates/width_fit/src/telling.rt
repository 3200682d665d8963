//! The fitted types and the faults of a whole circuit.

ghost use Rattle.std.specs.Prelude.{◌≡◌, ◌++◌, ◌∷◌, [], map, length, drop, get_or, false, IfOk, OnOk};
ghost use Rattle.fir_tree.specs.Parts.{part_of, port_flow};
ghost use Rattle.width_rules.specs.Circuits.{rules_in, known_ports};
ghost use Rattle.width_rules.specs.Sources.{known_with};
ghost use Rattle.width_rules.specs.Walks.{ported};
ghost use Rattle.type_filling.specs.Filling.{filled as filled_with};
ghost use Rattle.width_fit.specs.Judging.{told_of, slot_width, component_faults, ports_declared, ports_faults, where_reached};
ghost use Rattle.width_fit.specs.Walks.{solved, module_among, told_among, WalksModule, WalksAll};
ghost use Rattle.width_fit.specs.Held.{HoldsFits};

use crate::found::Findings;
use crate::given::{Given, Instances};
use crate::instances::fits_of_instances;
use crate::walk::{Walk, push_component, walk_statements};
use bit_words::List;
use fir_tree::steps::port_flow;
use fir_tree::{Checked, Part};
use fir_types::{FirType, Port, copy};
use indexmap::IndexMap;
use part_fits::choices::Choices;
use part_fits::fits::{declare, fit_of};
use part_fits::widths::slot_widths;
use std::alloc::{AllocError, Global};
use type_filling::filled;
use type_filling::made::Made;
use width_rules::gathering::{Ported, instances_of, with_ports};
use width_rules::indexed::Indexed;
use width_rules::slot::Slot;
use width_rules::{Rules, Widths};

/// The fitted types of all modules, with the faults of those that the main module reaches.
pub fn tell(
    alloc: Global,
    checked: &Checked,
    rules: &Rules,
    widths: &Widths,
) -> Result<(Vec<FirType>, Findings), AllocError>
    requires { rules.now ≡ rules_in checked.now.resolved }
    ensures declared { IfOk result (λ told. told.0.items ≡ (told_of checked.now widths.now).declared) }
    ensures nodes { IfOk result (λ told. told.1.nodes.items ≡ (told_of checked.now widths.now).nodes) }
    ensures faults { IfOk result (λ told. told.1.faults.items ≡ (told_of checked.now widths.now).faults) }
{
    let mut walk = Walk {
        known: IndexMap::new(alloc),
        places: Vec::new(alloc),
        declared: Vec::new(alloc),
        found: Findings {
            nodes: Vec::new(alloc),
            faults: Vec::new(alloc),
            made: Made::new(alloc),
        },
        fits: IndexMap::new(alloc),
        choices: Choices::new(alloc),
    };
    let modules = with_ports(
        alloc,
        &mut walk.places,
        checked.resolved.get().modules.as_slice(),
    )?;
    let names = &checked.resolved.get().names;
    let components = instances_of(alloc, names, modules.as_slice())?;
    let fits = fits_of_instances(alloc, widths.as_slice(), &components, modules.as_slice())?;
    let instances = Instances { components, fits };
    let (widths, rules) = (widths.as_slice(), rules.rules.as_slice());
    let given = Given::new(alloc, names, widths, rules, instances)?;
    let reached = checked.scope.reached.as_slice();
    walk_modules(alloc, &given, &mut walk, modules, reached)?;
    Ok((walk.declared, walk.found))
}

/// Modules in order, with whether the main module reaches each.
fn walk_modules(
    alloc: Global,
    given: &Given<'_>,
    walk: &mut Walk,
    modules: Vec<Ported<'_>>,
    reached: &[bool],
) -> Result<(), AllocError>
    ensures { OnOk result (WalksAll (told_among (solved given.now) given.now.instances.components.entries (length walk.old.places.items) (map ported modules.entry.items) reached.now) walk.old walk.new) }
{
    let mut rest = reached;
    for held in modules {
        let (is_reached, others) = take_flag(rest);
        walk_reached(alloc, given, walk, held, is_reached)?;
        rest = others;
    }
    Ok(())
}

/// The first flag, and those behind it. Where there is none, it is false.
fn take_flag(flags: &[bool]) -> (bool, &[bool])
    ensures first { result.0 ≡ get_or flags.now 0 false }
    ensures rest { result.1.now ≡ drop 1 flags.now }
{
    match flags.split_first() {
        Some((first, rest)) => (*first, rest),
        None => (false, flags),
    }
}

/// A module, without its faults where the main module doesn't reach it.
fn walk_reached(
    alloc: Global,
    given: &Given<'_>,
    walk: &mut Walk,
    held: Ported<'_>,
    is_reached: bool,
) -> Result<(), AllocError>
    ensures { OnOk result (WalksModule (module_among (solved given.now) given.now.instances.components.entries (ported held.entry) (length walk.old.places.items)) (where_reached is_reached (module_among (solved given.now) given.now.instances.components.entries (ported held.entry) (length walk.old.places.items)).faults) walk.old walk.new) }
{
    let before = walk.found.faults.len();
    walk_module(alloc, given, walk, held)?;
    if !is_reached {
        walk.found.faults.truncate(before);
    }
    Ok(())
}

fn walk_module(
    alloc: Global,
    given: &Given<'_>,
    walk: &mut Walk,
    held: Ported<'_>,
) -> Result<(), AllocError>
    ensures { OnOk result (WalksModule (module_among (solved given.now) given.now.instances.components.entries (ported held.entry) (length walk.old.places.items)) (module_among (solved given.now) given.now.instances.components.entries (ported held.entry) (length walk.old.places.items)).faults walk.old walk.new) }
{
    walk.known = IndexMap::new(alloc);
    walk.fits = IndexMap::new(alloc);
    walk.choices = Choices::new(alloc);
    let ports = held.holder.ports.as_slice();
    declare_ports(alloc, given, walk, ports, held.ports)?;
    walk_statements(alloc, given, walk, held.holder.body.as_slice())
}

/// The ports of a module as components, with their fitted types and their faults.
fn declare_ports(
    alloc: Global,
    given: &Given<'_>,
    walk: &mut Walk,
    ports: &[Port],
    widths: List<List<Slot>>,
) -> Result<(), AllocError>
    requires { HoldsFits given.now walk.old }
    ensures known { OnOk result (walk.new.known.entries ≡ known_ports ports.now widths walk.old.known.entries) }
    ensures places { OnOk result (walk.new.places.items ≡ walk.old.places.items) }
    ensures declared { OnOk result (walk.new.declared.items ≡ walk.old.declared.items ++ ports_declared (solved given.now) ports.now widths) }
    ensures nodes { OnOk result (walk.new.found.nodes.items ≡ walk.old.found.nodes.items) }
    ensures faults { OnOk result (walk.new.found.faults.items ≡ walk.old.found.faults.items ++ ports_faults (solved given.now) ports.now widths) }
    ensures fits { OnOk result (HoldsFits given.now walk.new) }
{
    let mut widths = widths.into_vec().into_iter();
    for port in ports {
        let Some(slots) = widths.next() else {
            return Ok(());
        };
        declare_port(alloc, given, walk, port, slots)?;
    }
    Ok(())
}

fn declare_port(
    alloc: Global,
    given: &Given<'_>,
    walk: &mut Walk,
    port: &Port,
    slots: List<Slot>,
) -> Result<(), AllocError>
    requires { HoldsFits given.now walk.old }
    ensures known { OnOk result (walk.new.known.entries ≡ known_with walk.old.known.entries port.now.name.id (record { part = part_of port.now.typ (port_flow port.now); slots = slots })) }
    ensures places { OnOk result (walk.new.places.items ≡ walk.old.places.items) }
    ensures declared { OnOk result (walk.new.declared.items ≡ walk.old.declared.items ++ filled_with port.now.typ (map (slot_width given.now.widths.now) slots) ∷ []) }
    ensures nodes { OnOk result (walk.new.found.nodes.items ≡ walk.old.found.nodes.items) }
    ensures faults { OnOk result (walk.new.found.faults.items ≡ walk.old.found.faults.items ++ component_faults (solved given.now) port.now.name.place slots) }
    ensures fits { OnOk result (HoldsFits given.now walk.new) }
{
    let widths = slot_widths(alloc, given.widths, slots.as_slice())?;
    let fitted = filled(alloc, &port.typ, widths.as_slice())?;
    let fit = fit_of(&fitted, &widths)?;
    walk.declared.push(fitted)?;
    push_component(
        &mut walk.found.faults,
        given,
        port.name.place,
        slots.as_slice(),
        widths.as_slice(),
    )?;
    let part = Part {
        typ: copy(&port.typ)?,
        flow: port_flow(port),
    };
    let component = Indexed::new(alloc, given.names, part, slots)?;
    declare(
        &mut walk.known,
        &mut walk.fits,
        port.name.id,
        component,
        fit,
    )
}
