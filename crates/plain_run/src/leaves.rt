//! The leaves of main's ports that are given from outside (FIRRTL specification 3.0, "Ports").

ghost use Rattle.std.specs.Prelude.{◌≡◌, ◌++◌, map, filter, IfOk, OnOk};
ghost use Rattle.fir_meaning.specs.Components.{design_of, flow_of};
ghost use Rattle.fir_meaning.specs.States.{is_port, is_source};
ghost use Rattle.drive_check.specs.Keys.{leaf_of_key};
ghost use Rattle.plain_cycle.specs.Held.{held, held_sort};
ghost use Rattle.plain_cycle.specs.Given.{inputs_in, inputs_of_component};
ghost use Rattle.plain_run.specs.Leaves.{component_with, is_given, leaf_named};

use bit_words::List;
use drive_check::leaf_set::{LeafKey, key_of};
use drive_check::listing::list_leaves;
use fir_tree::Fitted;
use fir_types::{FirType, Shape, TypeLeaf};
use plain_cycle::places::parts_of;
use plain_cycle::{Declaration, Sort};
use std::alloc::{AllocError, Global};

/// The leaves of main's ports that are given from outside, in port order: what main only reads, without clocks. Takes time and memory in
/// proportion to the leaves of the ports, and time to the statements of the circuit.
pub fn main_inputs(alloc: Global, fitted: &Fitted) -> Result<List<LeafKey>, AllocError>
    ensures { IfOk result (λ inputs. map leaf_of_key inputs ≡ inputs_in (design_of fitted.now)) }
{
    let mut inputs = List::new(alloc);
    let Some(parts) = parts_of(alloc, fitted, fitted.checked.resolved.get().main.id)? else {
        return Ok(inputs);
    };
    let declared = parts.declared.as_slice();
    let types = parts.types;
    for at in 0..declared.len().min(types.len()) {
        push_port(alloc, &mut inputs, &declared[at], &types[at])?;
    }
    Ok(inputs)
}

/// Adds the leaves that are given of a component of main with this type, where it is a port.
fn push_port(
    alloc: Global,
    inputs: &mut List<LeafKey>,
    declaration: &Declaration<'_>,
    typ: &FirType,
) -> Result<(), AllocError>
    ensures { OnOk result (map leaf_of_key inputs.new ≡ map leaf_of_key inputs.old ++ inputs_of_component (component_with (held declaration.now, typ.now))) }
{
    if !is_port(declaration.sort) {
        return Ok(());
    }
    let leaves = list_leaves(alloc, typ)?;
    push_inputs(alloc, inputs, declaration, leaves.as_slice())
}

/// Whether a declaration is a port.
fn is_port(sort: Sort<'_>) -> bool
    ensures { result ≡ is_port (held_sort sort.entry) }
{
    matches!(sort, Sort::Input | Sort::Output)
}

/// Adds those of the leaves of a component that are given from outside.
fn push_inputs(
    alloc: Global,
    inputs: &mut List<LeafKey>,
    declaration: &Declaration<'_>,
    leaves: &[TypeLeaf],
) -> Result<(), AllocError>
    ensures { OnOk result (map leaf_of_key inputs.new ≡ map leaf_of_key inputs.old ++ map (leaf_named declaration.now.name) (filter (is_given (held_sort declaration.now.sort)) leaves.now)) }
{
    for leaf in leaves {
        if is_given(declaration.sort, leaf) {
            let key = key_of(alloc, declaration.name, &[], leaf.path.as_slice())?;
            inputs.push(key)?;
        }
    }
    Ok(())
}

/// Whether a leaf is given from outside, where its component is a port of main.
fn is_given(sort: Sort<'_>, leaf: &TypeLeaf) -> bool
    ensures { result ≡ is_given (held_sort sort.entry) leaf.now }
{
    is_source(sort, leaf.flip) && !matches!(leaf.typ.shape, Shape::Clock)
}

/// Whether a leaf of a declaration, flipped or not, is only read in its module.
fn is_source(sort: Sort<'_>, flip: bool) -> bool
    ensures { result ≡ is_source (flow_of (held_sort sort.entry) flip) }
{
    match sort {
        Sort::Input | Sort::Memory(_) | Sort::Instance(_) => !flip,
        Sort::Output => flip,
        Sort::Wire | Sort::Register(_) | Sort::ResetRegister(_, _, _) => false,
        Sort::Node(_) => true,
    }
}
