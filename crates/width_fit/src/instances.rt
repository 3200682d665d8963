//! The fitted types of instances, one for each module.

ghost use Rattle.std.specs.Prelude.{IfOk};
ghost use Rattle.width_rules.specs.Sources.{component};
ghost use Rattle.part_fits.specs.Fits.{Fits, AreFits};

use indexmap::IndexMap;
use part_fits::fits::{Fit, fit_of};
use part_fits::widths::widths_in;
use prim_ops::Width;
use std::alloc::{AllocError, Global};
use type_filling::filled;
use width_rules::gathering::Ported;
use width_rules::indexed::Indexed;
use width_rules::measuring::{look_up, no_component};

/// The fitted types of the instances of these modules, by the modules' names. Takes time and memory in proportion to the ports.
pub fn fits_of_instances(
    alloc: Global,
    widths: &[Width],
    instances: &IndexMap<u32, Indexed>,
    modules: &[Ported<'_>],
) -> Result<IndexMap<u32, Fit>, AllocError>
    ensures { IfOk result (λ fits. AreFits widths.now instances.now.entries fits.entries) }
{
    let nothing = no_component(alloc)?;
    let mut fits = IndexMap::new(alloc);
    for held in modules {
        let name = held.holder.name.id;
        let fit = fit_of_component(alloc, widths, look_up(instances, name, &nothing))?;
        fits.insert(name, fit)?;
    }
    Ok(fits)
}

/// The fitted type of a component, made anew.
pub fn fit_of_component(
    alloc: Global,
    widths: &[Width],
    component: &Indexed,
) -> Result<Fit, AllocError>
    ensures { IfOk result (λ fit. Fits widths.now component.now fit.typ fit.is_over) }
{
    let found = widths_in(alloc, widths, component.slots())?;
    let fitted = filled(alloc, component.known().typ, found.as_slice())?;
    fit_of(&fitted, &found)
}
