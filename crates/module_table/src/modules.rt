//! The modules of a circuit, by name.

ghost use Rattle.std.specs.Prelude.{◌≡◌, Some, All, map, option_map, slice_get, IfOk, IfSome, OnOk, OnErr};
ghost use Rattle.std.specs.Option.{option_copied};
ghost use Rattle.std.specs.Coded.{Coded-set, coded_list};
ghost use Rattle.fir_types.specs.contracts.fir_type.FirType.{the_row as type_row};
ghost use Rattle.module_table.specs.Tables.{IsIndex, named, bundle_of, with_new, typ_of, instance_typ, IsInstance};
ghost use Rattle.type_index.specs.Sights.{table_of};
ghost use Rattle.type_index.specs.Knowing.{HasWays};

use fir_tree::{Module, Names};
use fir_types::instance_type;
use indexmap::IndexMap;
use std::alloc::{AllocError, Global};
use type_index::{Classes, KnownType};

/// The type of the instances of a module, with the number of its class, where it has one.
#[derive(Drop)]
pub struct Instance {
    pub known: KnownType,
    pub class: Option<u32>,
}

/// The modules of a circuit, with the number of the first of each name, and with what the instances of each share.
#[derive(Drop)]
pub struct Modules<'a> {
    pub all: &'a [Module],
    /// The texts of their names.
    pub names: &'a Names,
    /// The numbers of the classes of all types that they declare.
    pub classes: Classes,
    numbers: IndexMap<u32, usize>,
    instances: Vec<Instance>,
    ghost indexed: { IsIndex all.now numbers.entries },
    ghost bundled: { map instance_typ instances.items ≡ map bundle_of all.now } by { Coded-set (coded_list type_row.coded) (map instance_typ instances.items) (map bundle_of all.now) },
    ghost known: { ∥ All (IsInstance names.now (table_of classes)) instances.items ∥₁ },
}

impl<'a> Modules<'a> {
    /// These modules. Takes time and memory in proportion to the text.
    pub fn new(
        alloc: Global,
        names: &'a Names,
        all: &'a [Module],
    ) -> Result<Modules<'a>, AllocError>
        ensures all { IfOk result (λ modules. modules.all.now ≡ all.now) }
        ensures names { IfOk result (λ modules. modules.names.now ≡ names.now) }
    {
        let classes = Classes::of_circuit(alloc, all)?;
        let numbers = numbers_of(alloc, all)?;
        let instances = instances_of(alloc, names, &classes, all)?;
        Ok(Modules {
            all,
            names,
            classes,
            numbers,
            instances,
        })
    }

    /// The number of the first module of a name, given by the number of its text.
    pub fn number(&self, name: u32) -> Option<usize>
        ensures { option_map (slice_get self.now.all.now) result ≡ option_map Some (named self.now.all.now name) }
    {
        self.numbers.get(&name).copied()
    }

    /// The first module of a name, given by the number of its text.
    pub fn first(&self, name: u32) -> Option<&Module>
        ensures { option_copied result ≡ named self.now.all.now name }
    {
        let number = self.numbers.get(&name)?;
        self.all.get(*number)
    }

    /// The type of the instances of the first module of a name, given by the number of its text.
    pub fn instance(&self, name: u32) -> Option<&KnownType>
        ensures typ { option_map typ_of (option_copied result) ≡ option_map bundle_of (named self.now.all.now name) }
        ensures ways { IfSome result (λ known. ∥ HasWays self.now.names.now known.now.typ known.now.index ∥₁) }
    {
        let instance = self.first_instance(name)?;
        Some(&instance.known)
    }

    /// The same type with the number of its class.
    pub fn first_instance(&self, name: u32) -> Option<&Instance>
        ensures typ { option_map instance_typ (option_copied result) ≡ option_map bundle_of (named self.now.all.now name) }
        ensures known { IfSome result (λ instance. ∥ IsInstance self.now.names.now (table_of self.now.classes) instance.now ∥₁) }
    {
        let number = self.numbers.get(&name)?;
        self.instances.get(*number)
    }
}

/// The types of the modules' instances, with their numbers.
fn instances_of(
    alloc: Global,
    names: &Names,
    classes: &Classes,
    modules: &[Module],
) -> Result<Vec<Instance>, AllocError>
    ensures typs { IfOk result (λ instances. map instance_typ instances.items ≡ map bundle_of modules.now) }
    ensures known { IfOk result (λ instances. All (IsInstance names.now (table_of classes.now)) instances.items) }
{
    let mut instances = Vec::new(alloc);
    for module in modules {
        let bundle = instance_type(alloc, module.ports.as_slice())?;
        let known = KnownType::new(alloc, names, bundle)?;
        let class = classes.number(alloc, false, &known.typ)?;
        instances.push(Instance { known, class })?;
    }
    Ok(instances)
}

/// The numbers of modules by name, of each name the first.
fn numbers_of(alloc: Global, modules: &[Module]) -> Result<IndexMap<u32, usize>, AllocError>
    ensures { IfOk result (λ numbers. IsIndex modules.now numbers.entries) }
{
    let mut numbers = IndexMap::new(alloc);
    for number in 0..modules.len() {
        insert_new(&mut numbers, modules[number].name.id, number)?;
    }
    Ok(numbers)
}

/// Inserts an entry, unless there is one of its name.
pub fn insert_new<V: Drop>(
    entries: &mut IndexMap<u32, V>,
    name: u32,
    value: V,
) -> Result<(), AllocError>
    ensures entries { OnOk result (entries.new.entries ≡ with_new entries.old.entries name value) }
    ensures unchanged { OnErr result (entries.new.entries ≡ entries.old.entries) }
{
    if entries.get(&name).is_none() {
        entries.insert(name, value)?;
    }
    Ok(())
}
