//! The types of a module's components.

ghost use Rattle.std.specs.Prelude.{◌≡◌, [], map, IfOk, OnOk};
ghost use Rattle.std.specs.Coded.{Coded-set};
ghost use Rattle.fir_types.specs.contracts.fir_type.FirType.{the_row as type_row};
ghost use Rattle.fir_types.specs.Bundles.{memory_of};
ghost use Rattle.fir_tree.specs.LeafNames.{Texts};
ghost use Rattle.size_check.specs.Kept.{types_of, IsMeasured, AreMeasured};
ghost use Rattle.size_check.specs.Typings.{known_with, known_in, stmt_notes, arm_notes, port_notes, in_turn, named, instance_type as instance_type_of};
ghost use Rattle.size_check.specs.Weights.{one_bit, no_type, weight};
ghost use Rattle.type_index.specs.Knowing.{HasWays};

use crate::component::Component;
use crate::weights::weigh;
use bit_words::{List, Shared};
use fir_tree::{Arm, Expr, Module, Names, Stmt, Ways};
use fir_types::{FirType, Memory, Name, Port, Shape, copy, instance_type};
use indexmap::IndexMap;
use module_table::{Modules, insert_new};
use place_text::Place;
use std::alloc::{AllocError, Global};
use type_index::{Known as Part, KnownType, TypeIndex};

/// The place of what stands nowhere in a text.
const NOWHERE: Place = Place { line: 1, column: 1 };

/// The components that are known, with their types.
#[derive(Drop)]
pub struct Known {
    /// By the numbers of their names: of each name the first.
    pub types: IndexMap<u32, Component>,
    /// The type of what is one leaf.
    pub bit: KnownType,
    /// The type of what is nothing.
    pub none: KnownType,
    ghost is_bit: { bit.typ ≡ one_bit } by { Coded-set type_row.coded bit.typ one_bit },
    ghost is_none: { none.typ ≡ no_type } by { Coded-set type_row.coded none.typ no_type },
    ghost bit_ways: { (texts : Texts) → ∥ HasWays texts bit.typ bit.index ∥₁ },
    ghost none_ways: { (texts : Texts) → ∥ HasWays texts none.typ none.index ∥₁ },
}

impl Known {
    ghost use Rattle.fir_types.specs.Leaves.{count};
    ghost use Rattle.size_check.specs.Caps.{cap};
    ghost use Rattle.size_check.specs.Reaching.{types_in, HasPart};
    ghost use Rattle.fir_tree.specs.Texts.{way_bytes};

    /// No component.
    pub fn new(alloc: Global) -> Result<Known, AllocError>
        ensures { IfOk result (λ known. known.types.entries ≡ []) }
    {
        let none = nothing(alloc)?;
        Ok(Known {
            types: IndexMap::new(alloc),
            bit: bit(),
            none,
        })
    }

    /// The type of the component of a name, given by the number of its text.
    pub fn of(&self, id: u32) -> Part<'_>
        ensures typ { result.typ.now ≡ types_in self.now id }
        ensures ways { (texts : Texts) → AreMeasured texts self.now.types.entries → HasPart texts result }
    {
        match self.types.get(&id) {
            Some(component) => component.known.known(),
            None => self.none.known(),
        }
    }

    /// How many leaves it has.
    pub fn leaves(&self, id: u32) -> u128
        ensures { result ≡ cap (count (types_in self.now id)) }
    {
        self.of(id).index.leaves
    }

    /// Its leaves, and the bytes of the ways to them.
    pub fn ways(&self, id: u32) -> Ways
        ensures leaves { result.leaves ≡ cap (count (types_in self.now id)) }
        ensures bytes { (texts : Texts) → AreMeasured texts self.now.types.entries → result.bytes ≡ cap (way_bytes texts (types_in self.now id)) }
    {
        let part = self.of(id);
        Ways {
            leaves: part.index.leaves,
            bytes: part.index.bytes,
        }
    }

    /// A node of an expression. It shares the type of the part that it is, with what is known of it.
    fn node(&self, expr: &Expr) -> Result<Component, AllocError>
        ensures typ { IfOk result (λ node. node.known.typ ≡ (weight expr.now (types_in self.now)).typ) }
        ensures measured { IfOk result (λ node. (texts : Texts) → AreMeasured texts self.now.types.entries → IsMeasured texts node) }
    {
        let reached = weigh(self, expr);
        let known = KnownType::of(reached.part)?;
        Ok(Component { known })
    }

    /// Notes a component of a name, unless there is one.
    fn note(&mut self, name: Name, component: Component) -> Result<(), AllocError>
        ensures types { OnOk result (types_of self.new.types.entries ≡ known_with (types_of self.old.types.entries) name.id component.known.typ) }
        ensures measured { OnOk result ((texts : Texts) → IsMeasured texts component → AreMeasured texts self.old.types.entries → AreMeasured texts self.new.types.entries) }
    {
        insert_new(&mut self.types, name.id, component)
    }
}

/// The components of a module, where these are all modules.
pub fn known_of(alloc: Global, modules: &Modules<'_>, holder: &Module) -> Result<Known, AllocError>
    ensures types { IfOk result (λ known. types_of known.types.entries ≡ known_in modules.now.all.now holder.now) }
    ensures measured { IfOk result (λ known. AreMeasured modules.now.names.now known.types.entries) }
{
    let mut known = Known::new(alloc)?;
    note_ports(alloc, modules.names, &mut known, holder.ports.as_slice())?;
    note_statements(alloc, modules, &mut known, holder.body.as_slice())?;
    Ok(known)
}

fn note_ports(
    alloc: Global,
    names: &Names,
    known: &mut Known,
    ports: &[Port],
) -> Result<(), AllocError>
    ensures types { OnOk result (types_of known.new.types.entries ≡ in_turn (map port_notes ports.now) (types_of known.old.types.entries)) }
    ensures measured { OnOk result (AreMeasured names.now known.old.types.entries → AreMeasured names.now known.new.types.entries) }
{
    for port in ports {
        known.note(port.name, declared(alloc, names, copy(&port.typ)?)?)?;
    }
    Ok(())
}

#[cycle(note)]
fn note_statements(
    alloc: Global,
    modules: &Modules<'_>,
    known: &mut Known,
    statements: &[Stmt],
) -> Result<(), AllocError>
    ensures types { OnOk result (types_of known.new.types.entries ≡ in_turn (map (stmt_notes modules.now.all.now) statements.now) (types_of known.old.types.entries)) }
    ensures measured { OnOk result (AreMeasured modules.now.names.now known.old.types.entries → AreMeasured modules.now.names.now known.new.types.entries) }
{
    for statement in statements {
        note_statement(alloc, modules, known, statement)?;
    }
    Ok(())
}

#[cycle(note)]
fn note_statement(
    alloc: Global,
    modules: &Modules<'_>,
    known: &mut Known,
    statement: &Stmt,
) -> Result<(), AllocError>
    ensures types { OnOk result (types_of known.new.types.entries ≡ stmt_notes modules.now.all.now statement.now (types_of known.old.types.entries)) }
    ensures measured { OnOk result (AreMeasured modules.now.names.now known.old.types.entries → AreMeasured modules.now.names.now known.new.types.entries) }
{
    match statement {
        Stmt::Wire(name, typ) | Stmt::Reg(name, typ, _) | Stmt::RegReset(name, typ, _, _, _) => {
            known.note(*name, declared(alloc, modules.names, copy(typ)?)?)
        }
        Stmt::Mem(memory) => {
            let ports = declared_memory(alloc, modules.names, memory)?;
            known.note(memory.name, ports)
        }
        Stmt::Inst(name, target) => {
            let instance = instance_of(alloc, modules, *target)?;
            known.note(*name, Component { known: instance })
        }
        Stmt::Node(name, expr) => {
            let node = known.node(expr)?;
            known.note(*name, node)
        }
        Stmt::When(arms, other) => {
            note_arms(alloc, modules, known, arms.as_slice())?;
            note_statements(alloc, modules, known, other.as_slice())
        }
        Stmt::Connect(_, _) | Stmt::Invalidate(_) | Stmt::Skip(_) => Ok(()),
    }
}

#[cycle(note)]
fn note_arms(
    alloc: Global,
    modules: &Modules<'_>,
    known: &mut Known,
    arms: &[Arm],
) -> Result<(), AllocError>
    ensures types { OnOk result (types_of known.new.types.entries ≡ in_turn (map (arm_notes modules.now.all.now) arms.now) (types_of known.old.types.entries)) }
    ensures measured { OnOk result (AreMeasured modules.now.names.now known.old.types.entries → AreMeasured modules.now.names.now known.new.types.entries) }
{
    for arm in arms {
        note_statements(alloc, modules, known, arm.body.as_slice())?;
    }
    Ok(())
}

/// A component of a declared type.
fn declared(alloc: Global, names: &Names, typ: FirType) -> Result<Component, AllocError>
    ensures typ { IfOk result (λ component. component.known.typ ≡ typ) }
    ensures measured { IfOk result (λ component. IsMeasured names.now component) }
{
    let known = KnownType::new(alloc, names, typ)?;
    Ok(Component { known })
}

/// A memory, whose ports share what is known of an element.
fn declared_memory(alloc: Global, names: &Names, memory: &Memory) -> Result<Component, AllocError>
    ensures typ { IfOk result (λ component. component.known.typ ≡ memory_of memory.now) }
    ensures measured { IfOk result (λ component. IsMeasured names.now component) }
{
    let known = KnownType::of_memory(alloc, names, memory)?;
    Ok(Component { known })
}

/// An instance of the first module of a name, and what is nothing where there is none.
fn instance_of(alloc: Global, modules: &Modules<'_>, target: Name) -> Result<KnownType, AllocError>
    ensures typ { IfOk result (λ instance. instance.typ ≡ instance_type_of (named modules.now.all.now target.id)) }
    ensures ways { IfOk result (λ instance. ∥ HasWays modules.now.names.now instance.typ instance.index ∥₁) }
{
    match modules.instance(target.id) {
        Some(instance) => instance.share(),
        None => KnownType::new(alloc, modules.names, instance_type(alloc, &[])?),
    }
}

/// The type of what is one leaf.
fn bit() -> KnownType
    ensures typ { result.typ ≡ one_bit }
    ensures ways { (texts : Texts) → ∥ HasWays texts result.typ result.index ∥₁ }
{
    KnownType {
        typ: FirType {
            place: NOWHERE,
            shape: Shape::Reset,
        },
        index: TypeIndex::of_reset(),
    }
}

/// The type of what is nothing.
fn nothing(alloc: Global) -> Result<KnownType, AllocError>
    ensures typ { IfOk result (λ none. none.typ ≡ no_type) }
    ensures ways { IfOk result (λ none. (texts : Texts) → ∥ HasWays texts none.typ none.index ∥₁) }
{
    let index = TypeIndex::of_nothing(alloc)?;
    let fields = Shared::new(alloc, List::new(alloc))?;
    Ok(KnownType {
        typ: FirType {
            place: NOWHERE,
            shape: Shape::Bundle(fields),
        },
        index,
    })
}
