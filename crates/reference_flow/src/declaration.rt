//! The declarations of names. Takes no memory.

ghost use Rattle.std.specs.Prelude.{◌≡◌, ◌==◌, ◌∷◌, [], find, nat_eq};
ghost use Rattle.std.specs.List.{flat_map};
ghost use Rattle.std.specs.Map.{lookup};
ghost use Rattle.std.specs.Option.{option_copied};
ghost use Rattle.fir_tree.specs.declared.part.Part.{Part as APart};
ghost use Rattle.fir_tree.specs.Parts.{instance_in, port_flow, part_or_none};
ghost use Rattle.reference_flow.specs.Flows.{components_of, stmt_declared};
ghost use Rattle.reference_flow.specs.Declarations.{arm_declared};
ghost use Rattle.reference_flow.specs.Reached.{Means, MayMean};

use crate::component::{PartRef, Reached, port_named};
use fir_tree::steps::port_flow;
use fir_tree::{Arm, Flow, Module, Stmt};
use fir_types::{Name, Port};

/// The component of a name in a module: the first declaration of it, and what has no parts where there is none.
pub fn component_named<'a>(modules: &'a [Module], holder: &'a Module, id: u32) -> Reached<'a>
    ensures { Means result (components_of modules.now holder.now id) }
{
    if let Some(port) = port_named(holder.ports.as_slice(), id) {
        return Reached::Typed(PartRef {
            typ: &port.typ,
            flow: port_flow(port),
        });
    }
    match declared_among(modules, holder.body.as_slice(), id) {
        Some(reached) => reached,
        None => Reached::Plain(Flow::Source),
    }
}

#[cycle(declared)]
fn declared_among<'a>(modules: &'a [Module], statements: &'a [Stmt], id: u32) -> Option<Reached<'a>>
    ensures { MayMean result (lookup (nat_eq id) (flat_map (stmt_declared modules.now) statements.now)) }
{
    for statement in statements {
        if let Some(reached) = declared_by(modules, statement, id) {
            return Some(reached);
        }
    }
    None
}

#[cycle(declared)]
fn declared_by<'a>(modules: &'a [Module], statement: &'a Stmt, id: u32) -> Option<Reached<'a>>
    ensures { MayMean result (lookup (nat_eq id) (stmt_declared modules.now statement.now)) }
{
    match statement {
        Stmt::Wire(name, typ) | Stmt::Reg(name, typ, _) | Stmt::RegReset(name, typ, _, _, _) => {
            let part = PartRef {
                typ,
                flow: Flow::Duplex,
            };
            where_named(name, id, Reached::Typed(part))
        }
        Stmt::Mem(memory) => where_named(&memory.name, id, Reached::Memory(memory)),
        Stmt::Inst(name, target) => {
            if name.id == id {
                Some(instance(modules, target.id))
            } else {
                None
            }
        }
        Stmt::Node(name, _) => where_named(name, id, Reached::Plain(Flow::Source)),
        Stmt::When(arms, other) => match declared_in_arms(modules, arms.as_slice(), id) {
            Some(reached) => Some(reached),
            None => declared_among(modules, other.as_slice(), id),
        },
        Stmt::Connect(_, _) | Stmt::Invalidate(_) | Stmt::Skip(_) => None,
    }
}

#[cycle(declared)]
fn declared_in_arms<'a>(modules: &'a [Module], arms: &'a [Arm], id: u32) -> Option<Reached<'a>>
    ensures { MayMean result (lookup (nat_eq id) (flat_map (arm_declared modules.now) arms.now)) }
{
    for arm in arms {
        if let Some(reached) = declared_among(modules, arm.body.as_slice(), id) {
            return Some(reached);
        }
    }
    None
}

/// What is declared, where its name is the one that is asked for.
fn where_named<'a>(name: &Name, id: u32, reached: Reached<'a>) -> Option<Reached<'a>>
    ensures { (part : APart) → Means reached.entry part → MayMean result (lookup (nat_eq id) ((name.now.id, part) ∷ [])) }
{
    if name.id == id { Some(reached) } else { None }
}

/// An instance of the first module of a name.
fn instance<'a>(modules: &'a [Module], id: u32) -> Reached<'a>
    ensures { Means result (part_or_none (instance_in modules.now id)) }
{
    match module_named(modules, id) {
        Some(target) => Reached::Instance(target.ports.as_slice()),
        None => Reached::Plain(Flow::Source),
    }
}

fn module_named(modules: &[Module], id: u32) -> Option<&Module>
    ensures { option_copied result ≡ find (λ m. m.name.id == id) modules.now }
{
    modules.iter().find(|target| target.name.id == id)
}
