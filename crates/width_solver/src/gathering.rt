//! The rules of a circuit.

ghost use Rattle.std.specs.Prelude.{◌≡◌, ◌++◌, map, length, IfOk, OnOk};
ghost use Rattle.width_rules.specs.Circuits.{rules_in};
ghost use Rattle.width_rules.specs.Walks.{ported, body_among, bodies_among};
ghost use Rattle.width_rules.specs.Solutions.{AreRules};
ghost use Rattle.width_solver.specs.Walked.{WalksBodies};

use crate::found::FoundRules;
use crate::walk::{Found, walk_statements};
use bit_words::List;
use fir_tree::Checked;
use indexmap::IndexMap;
use std::alloc::{AllocError, Global};
use width_rules::Rules;
use width_rules::gathering::{Ported, instances_of, note_ports, with_ports};
use width_rules::indexed::Indexed;

/// The rules of a circuit's widths (FIRRTL specification 3.0, "Width Inference"): one for each place with a variable that a
/// connect, a value after a reset, a node's expression or an `invalidate` drives, through instances as well.
///
/// Takes time and memory in proportion to the circuit and its types. More variables than fit a `u32` are a want of memory.
pub fn rules_of(alloc: Global, checked: &Checked) -> Result<Rules, AllocError>
    ensures exact { IfOk result (λ rules. rules ≡ rules_in checked.now.resolved) }
    ensures rules { IfOk result (λ rules. AreRules (length rules.places) rules.rules) }
{
    let names = &checked.resolved.get().names;
    let mut found = Found {
        names,
        known: IndexMap::new(alloc),
        places: Vec::new(alloc),
        rules: FoundRules::new(alloc),
    };
    let modules = with_ports(
        alloc,
        &mut found.places,
        checked.resolved.get().modules.as_slice(),
    )?;
    let instances = instances_of(alloc, names, modules.as_slice())?;
    walk_bodies(alloc, &instances, &mut found, modules)?;
    Ok(Rules {
        places: List::from_vec(found.places),
        rules: found.rules.items,
    })
}

/// The bodies of modules in order.
fn walk_bodies(
    alloc: Global,
    instances: &IndexMap<u32, Indexed>,
    found: &mut Found<'_>,
    modules: Vec<Ported<'_>>,
) -> Result<(), AllocError>
    ensures { OnOk result (WalksBodies (bodies_among instances.now.entries (length found.old.places.items) (map ported modules.entry.items)) found.old found.new) }
{
    for held in modules {
        walk_body(alloc, instances, found, held)?;
    }
    Ok(())
}

fn walk_body(
    alloc: Global,
    instances: &IndexMap<u32, Indexed>,
    found: &mut Found<'_>,
    held: Ported<'_>,
) -> Result<(), AllocError>
    ensures places { OnOk result (found.new.places.items ≡ found.old.places.items ++ (body_among instances.now.entries (ported held.entry) (length found.old.places.items)).places) }
    ensures rules { OnOk result (found.new.rules.items ≡ found.old.rules.items ++ (body_among instances.now.entries (ported held.entry) (length found.old.places.items)).rules) }
{
    found.known = IndexMap::new(alloc);
    note_ports(
        alloc,
        found.names,
        &mut found.known,
        held.holder.ports.as_slice(),
        held.ports,
    )?;
    walk_statements(alloc, instances, found, held.holder.body.as_slice())
}
