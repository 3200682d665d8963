//! What is known of the clocks of a module.

ghost use Rattle.std.specs.Prelude.{◌≡◌, ◌++◌, map, flat_map, IfOk, OnOk};
ghost use Rattle.fir_meaning.specs.Components.{flow_of};
ghost use Rattle.fir_meaning.specs.States.{is_source};
ghost use Rattle.drive_check.specs.HeldTypes.{types_in};
ghost use Rattle.drive_check.specs.Keys.{leaf_of_key};
ghost use Rattle.one_clock.specs.Modules.{port_sort, input_leaf, port_inputs, module_inputs};
ghost use Rattle.one_clock.specs.Tables.{HasClocks};

use clock_check::hung::{Hung, hung_in};
use clock_check::instances::{Instance, instances_in, targets_of};
use clock_check::walk::{Link, links_of};
use drive_check::leaf_set::{LeafKey, key_of};
use drive_check::listing::list_leaves;
use drive_check::module_types::ModuleTypes;
use fir_tree::Module;
use fir_types::{Port, Shape, TypeLeaf};
use indexmap::IndexMap;
use std::alloc::{AllocError, Global};

/// What is known of the clocks of a module.
#[derive(Drop)]
pub struct ModuleClocks {
    /// Its Clock inputs, in port order.
    pub inputs: Vec<LeafKey>,
    /// From where its Clock leaves have their values.
    pub links: Vec<Link>,
    /// Its registers and memory ports.
    pub hung: Vec<Hung>,
    pub instances: Vec<Instance>,
    /// For the name of each instance the name of its module.
    pub targets: IndexMap<u32, u32>,
}

/// What is known of the clocks of a module whose components have these types.
pub fn clocks_of(
    alloc: Global,
    types: &ModuleTypes<'_>,
    holder: &Module,
) -> Result<ModuleClocks, AllocError>
    ensures { IfOk result (λ clocks. HasClocks (types_in types.now) holder.now clocks) }
{
    let inputs = inputs_of(alloc, types, holder.ports.as_slice())?;
    let links = links_of(alloc, types, holder)?;
    let hung = hung_in(alloc, types, holder)?;
    let instances = instances_in(alloc, holder)?;
    let targets = targets_of(alloc, instances.as_slice())?;
    Ok(ModuleClocks {
        inputs,
        links,
        hung,
        instances,
        targets,
    })
}

/// The Clock leaves of ports that the module only reads.
fn inputs_of(
    alloc: Global,
    types: &ModuleTypes<'_>,
    ports: &[Port],
) -> Result<Vec<LeafKey>, AllocError>
    ensures { IfOk result (λ inputs. map leaf_of_key inputs.items ≡ flat_map (port_inputs (types_in types.now)) ports.now) }
{
    let mut inputs = Vec::new(alloc);
    for port in ports {
        push_port(alloc, types, &mut inputs, port)?;
    }
    Ok(inputs)
}

fn push_port(
    alloc: Global,
    types: &ModuleTypes<'_>,
    inputs: &mut Vec<LeafKey>,
    port: &Port,
) -> Result<(), AllocError>
    ensures { OnOk result (map leaf_of_key inputs.new.items ≡ map leaf_of_key inputs.old.items ++ port_inputs (types_in types.now) port.now) }
{
    let leaves = list_leaves(alloc, types.of(port.name.id))?;
    for leaf in &leaves {
        push_leaf(alloc, inputs, port.output, port.name.id, leaf)?;
    }
    Ok(())
}

/// Adds a leaf of a port, unless it is none that the module only reads, or no Clock.
fn push_leaf(
    alloc: Global,
    inputs: &mut Vec<LeafKey>,
    output: bool,
    name: u32,
    leaf: &TypeLeaf,
) -> Result<(), AllocError>
    ensures { OnOk result (map leaf_of_key inputs.new.items ≡ map leaf_of_key inputs.old.items ++ input_leaf output name leaf.now) }
{
    if !matches!(leaf.typ.shape, Shape::Clock) || !is_read(output, leaf.flip) {
        return Ok(());
    }
    let key = key_of(alloc, name, &[], leaf.path.as_slice())?;
    inputs.push(key)?;
    Ok(())
}

/// Whether the module only reads a leaf of an output or an input, flipped or not.
fn is_read(output: bool, flip: bool) -> bool
    ensures { result ≡ is_source (flow_of (port_sort output) flip) }
{
    if output { flip } else { !flip }
}
