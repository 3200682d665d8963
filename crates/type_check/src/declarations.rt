//! The declarations of a module.

ghost use Rattle.std.specs.Prelude.{◌≡◌, Some, OnOk};
ghost use Rattle.fir_types.specs.Bundles.{memory_of};
ghost use Rattle.fir_tree.specs.declared.part.Flow.TheVariants.{Duplex as A_duplex};
ghost use Rattle.fir_tree.specs.Parts.{part_of, source_of, instance_in, port_flow};
ghost use Rattle.type_check.specs.Texts.{twice_in, stored_faults};
ghost use Rattle.type_check.specs.Memories.{memory_faults};
ghost use Rattle.type_check.specs.Statements.{and_then, notes, declares, expects, names_node, port_walk, clock_faults, reset_faults, init_faults};
ghost use Rattle.type_check.specs.Walks.{Walks};

use crate::conditions::{expect_clock, expect_init, expect_reset};
use crate::fault::TypeFault;
use crate::judge::judge;
use crate::memory::push_memory;
use crate::texts::{push_stored, push_twice, push_unless};
use crate::walk::Walk;
use crate::whole::{is_passive_at, reference_at};
use fir_tree::steps::port_flow;
use fir_tree::{Expr, Flow};
use fir_types::{FirType, Memory, Name, Port};
use std::alloc::{AllocError, Global};

/// A port, which is read or driven inside its module.
pub fn declare_port(alloc: Global, walk: &mut Walk<'_>, port: &Port) -> Result<(), AllocError>
    ensures { OnOk result (Walks (port_walk port.now) walk.old walk.new) }
{
    push_twice(alloc, &mut walk.found.faults, &port.typ)?;
    declare(alloc, walk, port.name, &port.typ, port_flow(port))
}

/// A wire, which can be read and driven.
pub fn declare_wire(
    alloc: Global,
    walk: &mut Walk<'_>,
    name: Name,
    typ: &FirType,
) -> Result<(), AllocError>
    ensures { OnOk result (Walks (and_then (notes (twice_in typ.now)) (declares name.id (Some (part_of typ.now A_duplex)))) walk.old walk.new) }
{
    push_twice(alloc, &mut walk.found.faults, typ)?;
    declare(alloc, walk, name, typ, Flow::Duplex)
}

/// A register, with its clock.
pub fn declare_register(
    alloc: Global,
    walk: &mut Walk<'_>,
    name: Name,
    typ: &FirType,
    clock: &Expr,
) -> Result<(), AllocError>
    ensures { OnOk result (Walks (and_then (notes (stored_faults typ.now)) (and_then (expects (clock_faults clock.now.place) clock.now) (declares name.id (Some (part_of typ.now A_duplex))))) walk.old walk.new) }
{
    push_stored(alloc, &mut walk.found.faults, typ)?;
    expect_clock(alloc, walk, clock)?;
    declare(alloc, walk, name, typ, Flow::Duplex)
}

/// A register with its clock, its reset, and its value after a reset.
pub fn declare_reset_register(
    alloc: Global,
    walk: &mut Walk<'_>,
    name: Name,
    typ: &FirType,
    clock: &Expr,
    reset: &Expr,
    init: &Expr,
) -> Result<(), AllocError>
    ensures { OnOk result (Walks (and_then (notes (stored_faults typ.now)) (and_then (expects (clock_faults clock.now.place) clock.now) (and_then (expects (reset_faults reset.now.place) reset.now) (and_then (expects (init_faults typ.now init.now.place) init.now) (declares name.id (Some (part_of typ.now A_duplex))))))) walk.old walk.new) }
{
    push_stored(alloc, &mut walk.found.faults, typ)?;
    expect_clock(alloc, walk, clock)?;
    expect_reset(alloc, walk, reset)?;
    expect_init(alloc, walk, typ, init)?;
    declare(alloc, walk, name, typ, Flow::Duplex)
}

/// A memory, which is a bundle of its ports.
pub fn declare_memory(alloc: Global, walk: &mut Walk<'_>, memory: &Memory) -> Result<(), AllocError>
    ensures { OnOk result (Walks (and_then (notes (memory_faults memory.now)) (declares memory.now.name.id (Some (source_of (memory_of memory.now))))) walk.old walk.new) }
{
    push_memory(alloc, &mut walk.found.faults, memory)?;
    walk.known.note_memory(alloc, memory)
}

/// An instance of a module. It has no type where there is no module of the name.
pub fn declare_instance(walk: &mut Walk<'_>, name: Name, target: Name) -> Result<(), AllocError>
    ensures { OnOk result (Walks (declares name.id (instance_in walk.old.known.modules target.id)) walk.old walk.new) }
{
    walk.known.note_instance(name.id, target.id)
}

/// A node, which has the type of its expression where that has one.
pub fn declare_node(
    alloc: Global,
    walk: &mut Walk<'_>,
    name: Name,
    expr: &Expr,
) -> Result<(), AllocError>
    ensures { OnOk result (Walks (names_node name.id expr.now) walk.old walk.new) }
{
    let Some(part) = judge(alloc, &walk.known, &mut walk.found, expr)? else {
        return Ok(());
    };
    let passive = is_passive_at(&walk.known, expr, &part);
    let fault = TypeFault::NotPassive(expr.place);
    push_unless(&mut walk.found.faults, passive, fault)?;
    match reference_at(expr) {
        Some(reference) => walk.known.note_part(alloc, name.id, &part.typ, reference),
        None => declare(alloc, walk, name, &part.typ, Flow::Source),
    }
}

/// Declares a component of this type and flow.
fn declare(
    alloc: Global,
    walk: &mut Walk<'_>,
    name: Name,
    typ: &FirType,
    flow: Flow,
) -> Result<(), AllocError>
    ensures { OnOk result (Walks (declares name.id (Some (part_of typ.now flow))) walk.old walk.new) }
{
    walk.known.note_declared(alloc, name.id, typ, flow)
}
