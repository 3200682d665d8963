//! The numbers of all types that a circuit declares.

ghost use Rattle.std.specs.Prelude.{◌≡◌};

use crate::classes::Classes;
use crate::keys::FieldPart;
use crate::memory_classes::note_memory;
use crate::noting::{note_parts, note_type};
use fir_tree::{Module, Stmt};
use fir_types::Port;
use std::alloc::{AllocError, Global};

impl Classes {
    /// The numbers of the types of ports, wires, registers, memories and instances of these modules. What would be missing would have no
    /// number, and cost time alone. Takes time and memory in proportion to the text.
    pub fn of_circuit(alloc: Global, modules: &[Module]) -> Result<Classes, AllocError> {
        let mut classes = Classes::new(alloc);
        for module in modules {
            note_ports(alloc, &mut classes, module.ports.as_slice())?;
            note_statements(alloc, &mut classes, module.body.as_slice())?;
        }
        Ok(classes)
    }
}

/// Gives numbers to the type of the instances of a module with these ports, and to all its parts.
fn note_ports(alloc: Global, classes: &mut Classes, ports: &[Port]) -> Result<(), AllocError> {
    let mut parts = Vec::new(alloc);
    for port in ports {
        let class = note_type(alloc, classes, false, &port.typ)?;
        parts.push(FieldPart {
            name: port.name.id,
            flip: !port.output,
            class,
        })?;
    }
    note_parts(alloc, classes, &parts)?;
    Ok(())
}

#[cycle(statements)]
fn note_statements(
    alloc: Global,
    classes: &mut Classes,
    statements: &[Stmt],
) -> Result<(), AllocError> {
    for statement in statements {
        note_statement(alloc, classes, statement)?;
    }
    Ok(())
}

/// Gives numbers to the types that a statement declares.
#[cycle(statements)]
fn note_statement(
    alloc: Global,
    classes: &mut Classes,
    statement: &Stmt,
) -> Result<(), AllocError> {
    match statement {
        Stmt::Wire(_, typ) | Stmt::Reg(_, typ, _) | Stmt::RegReset(_, typ, _, _, _) => {
            note_type(alloc, classes, false, typ)?;
            Ok(())
        }
        Stmt::Mem(memory) => {
            note_memory(alloc, classes, memory)?;
            Ok(())
        }
        Stmt::When(arms, other) => {
            for arm in arms.as_slice() {
                note_statements(alloc, classes, arm.body.as_slice())?;
            }
            note_statements(alloc, classes, other.as_slice())
        }
        Stmt::Inst(_, _)
        | Stmt::Node(_, _)
        | Stmt::Connect(_, _)
        | Stmt::Invalidate(_)
        | Stmt::Skip(_) => Ok(()),
    }
}
