//! The components of the run, in a list.

ghost use Rattle.std.specs.Prelude.{◌≡◌, ◌++◌, ◌∷◌, [], map, IfOk, OnOk};
ghost use Rattle.fir_meaning.specs.Components.{design_of, module_named};
ghost use Rattle.circuit_laws.specs.WellFormed.{IsWellFormed};
ghost use Rattle.plain_cycle.specs.Held.{held};
ghost use Rattle.plain_cycle.specs.Layouts.{site_with, located_in, Adds, IsLayout};

use crate::declarations::Declaration;
use crate::places::{Standing, parts_of, places_of, target_of};
use bit_words::List;
use circuit_laws::laws::names_are_declared_once;
use drive_check::listing::list_leaves;
use fir_tree::Fitted;
use fir_types::{FirType, copy};
use plain_values::Site;
use std::alloc::{AllocError, Global};

/// The components of the run and, beside each, its declaration.
#[derive(Drop)]
pub struct Layout<'a> {
    pub sites: List<Site>,
    pub declared: Vec<Declaration<'a>>,
}

/// All components of the run: those of main first, and then those of each module behind an instance. Takes time and memory in
/// proportion to their leaves, each component with the length of its path, and for each module of the run to the statements of the
/// circuit.
pub fn lay_out<'a>(alloc: Global, fitted: &'a Fitted) -> Result<Layout<'a>, AllocError>
    requires { IsWellFormed fitted.now }
    ensures { IfOk result (λ layout. IsLayout (design_of fitted.now) layout.sites layout.declared.items) }
{
    names_are_declared_once();
    let places = places_of(alloc, fitted)?;
    let mut layout = Layout {
        sites: List::new(alloc),
        declared: Vec::new(alloc),
    };
    let listed = places.as_slice();
    for place in listed {
        push_place(alloc, fitted, &mut layout, place)?;
    }
    Ok(layout)
}

/// Adds the components of the module at a place, in text order.
pub fn push_place<'a>(
    alloc: Global,
    fitted: &'a Fitted,
    layout: &mut Layout<'a>,
    place: &Standing,
) -> Result<(), AllocError>
    ensures { OnOk result (Adds (located_in place.now.path.items (module_named (design_of fitted.now) place.now.name)) layout.old layout.new) }
{
    let Some(parts) = parts_of(alloc, fitted, place.name)? else {
        return Ok(());
    };
    let declared = parts.declared.as_slice();
    let types = parts.types;
    for at in 0..declared.len().min(types.len()) {
        push(
            alloc,
            layout,
            place.path.as_slice(),
            declared[at],
            &types[at],
        )?;
    }
    Ok(())
}

/// Adds a component of this type at a path.
fn push<'a>(
    alloc: Global,
    layout: &mut Layout<'a>,
    path: &[u32],
    declaration: Declaration<'a>,
    typ: &FirType,
) -> Result<(), AllocError>
    ensures sites { OnOk result (layout.new.sites ≡ layout.old.sites ++ site_with path.now (held declaration.entry, typ.now) ∷ []) }
    ensures declared { OnOk result (map held layout.new.declared.items ≡ map held layout.old.declared.items ++ held declaration.entry ∷ []) }
{
    let site = Site {
        path: List::from_slice(alloc, path)?,
        name: declaration.name,
        target: target_of(&declaration),
        typ: copy(typ)?,
        leaves: List::from_vec(list_leaves(alloc, typ)?),
    };
    layout.sites.push(site)?;
    layout.declared.push(declaration)?;
    Ok(())
}
