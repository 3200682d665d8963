//! The components of a module that are known.

ghost use Rattle.std.specs.Prelude.{◌≡◌, [], Some, option_map, nat_eq, IfSome, OnOk};
ghost use Rattle.std.specs.Map.{lookup};
ghost use Rattle.std.specs.Option.{option_copied};
ghost use Rattle.fir_types.specs.declared.fir_type.FirType.{FirType as AType};
ghost use Rattle.fir_types.specs.Bundles.{memory_of};
ghost use Rattle.fir_tree.specs.Parts.{part_of, source_of, instance_in};
ghost use Rattle.module_table.specs.Components.{part_in, with_part};
ghost use Rattle.module_table.specs.Leading.{Leads, AreCompared as AreAnswered};

use crate::modules::{Modules, insert_new};
use crate::reference::{Reference, class_at, part_along};
use fir_tree::Flow;
use fir_types::{FirType, Memory, copy};
use indexmap::IndexMap;
use std::alloc::{AllocError, Global};
use std::marker::Model;
use type_index::{Known, KnownType};

/// A component: its type, with what is often asked of it, and its flow.
#[derive(Drop)]
pub struct Component {
    pub known: KnownType,
    pub flow: Flow,
}

/// A component that is noted, with the number of its type's class, where one is known.
#[derive(Drop)]
pub struct Noted {
    pub component: Component,
    pub class: Option<u32>,
}

/// Components by the numbers of their names: of each name the first. Contracts see them as parts, in the order in which they were
/// noted, beside the modules of the circuit.
#[derive(Drop)]
pub struct Components<'a> {
    /// The modules, with the numbers of the classes of all types that they declare.
    modules: &'a Modules<'a>,
    noted: IndexMap<u32, Noted>,
}

impl<'a> Model for Components<'a> {
    ghost use Rattle.module_table.specs.Components.{Environment, environment_code, parts_of, AreClassed};
    ghost use Rattle.type_index.specs.Sights.{table_of};

    ghost Value = { Environment };

    ghost coded = { environment_code };

    ghost view = { λ c. record { modules = c.modules.now.all.now; parts = parts_of c.noted.entries } };

    ghost invariant = { λ c. AreClassed (table_of c.modules.now.classes) c.noted.entries };
}

impl<'a> Components<'a> {
    /// No component, among these modules.
    pub fn new(alloc: Global, modules: &'a Modules<'a>) -> Components<'a>
        ensures { result ≡ record { modules = modules.now.all.now; parts = [] } }
    {
        Components {
            modules,
            noted: IndexMap::new(alloc),
        }
    }

    /// The component of a name, given by the number of its text.
    pub fn get(&self, name: u32) -> Option<&Component>
        ensures { option_map part_in (option_copied result) ≡ lookup (nat_eq name) self.now.parts }
    {
        let noted = self.noted.get(&name)?;
        Some(&noted.component)
    }

    /// What a reference leads to, with what is known of it. Takes time in proportion to the steps.
    pub fn part(&self, reference: Reference<'_>) -> Option<Known<'_>>
        ensures { IfSome result (λ there. Leads self.now.parts reference.entry.name reference.entry.suffixes.now there.typ.now) }
    {
        let component = self.get(reference.name)?;
        part_along(component.known.known(), reference.suffixes)
    }

    /// Notes a component whose type the text gives, unless there is one of its name. Takes time and memory in proportion to the type.
    pub fn note_declared(
        &mut self,
        alloc: Global,
        name: u32,
        typ: &FirType,
        flow: Flow,
    ) -> Result<(), AllocError>
        ensures { OnOk result (self.new ≡ with_part self.old name (Some (part_of typ.now flow))) }
    {
        let class = self.modules.classes.number(alloc, false, typ)?;
        let known = KnownType::new(alloc, self.modules.names, copy(typ)?)?;
        let component = Component { known, flow };
        insert_new(&mut self.noted, name, Noted { component, class })?;
        Ok(())
    }

    /// The same of a memory, which can only be read. Takes time and memory in proportion to the type of an element and to the number of
    /// ports.
    pub fn note_memory(&mut self, alloc: Global, memory: &Memory) -> Result<(), AllocError>
        ensures { OnOk result (self.new ≡ with_part self.old memory.now.name.id (Some (source_of (memory_of memory.now)))) }
    {
        let class = self.modules.classes.number_memory(alloc, memory)?;
        let known = KnownType::of_memory(alloc, self.modules.names, memory)?;
        let flow = Flow::Source;
        let component = Component { known, flow };
        insert_new(&mut self.noted, memory.name.id, Noted { component, class })?;
        Ok(())
    }

    /// The same of what can only be read and has this type, to which a reference leads. It shares what is known of the type there, so it
    /// takes time in proportion to the steps, and no memory for the type.
    pub fn note_part(
        &mut self,
        alloc: Global,
        name: u32,
        typ: &FirType,
        reference: Reference<'_>,
    ) -> Result<(), AllocError>
        requires { (part : AType) → Leads self.old.parts reference.name reference.suffixes.now part → typ.now ≡ part }
        ensures { OnOk result (self.new ≡ with_part self.old name (Some (source_of typ.now))) }
    {
        let Some(part) = self.part(reference) else {
            return self.note_declared(alloc, name, typ, Flow::Source);
        };
        let known = KnownType::of(part)?;
        let class = class_at(&self.modules.classes, &self.noted, reference);
        let flow = Flow::Source;
        let component = Component { known, flow };
        insert_new(&mut self.noted, name, Noted { component, class })?;
        Ok(())
    }

    /// The same of an instance of the first module of the name `target`, where there is such a module. It shares what is known of the
    /// instances' type, so it takes constant time and no memory for the type.
    pub fn note_instance(&mut self, name: u32, target: u32) -> Result<(), AllocError>
        ensures { OnOk result (self.new ≡ with_part self.old name (instance_in self.old.modules target)) }
    {
        let Some(instance) = self.modules.first_instance(target) else {
            return Ok(());
        };
        let known = instance.known.share()?;
        let class = instance.class;
        let flow = Flow::Source;
        let component = Component { known, flow };
        insert_new(&mut self.noted, name, Noted { component, class })?;
        Ok(())
    }

    /// Whether two references lead to equivalent types, where the classes of both are known. Takes time in proportion to the steps.
    pub fn same_class(&self, one: Reference<'_>, other: Reference<'_>) -> Option<bool>
        ensures { IfSome result (λ answer. AreAnswered self.now.parts (one.entry.name, one.entry.suffixes.now) (other.entry.name, other.entry.suffixes.now) answer) }
    {
        let classes = &self.modules.classes;
        let first = class_at(classes, &self.noted, one)?;
        let second = class_at(classes, &self.noted, other)?;
        Some(classes.same(first, second))
    }
}
