//! The listing of a circuit's widths.

ghost use Rattle.std.specs.Prelude.{◌≡◌, ◌++◌, IfOk, OnOk};
ghost use Rattle.trace_print.specs.Listing.{component_lines, listing_of};

use crate::component::Component;
use crate::declarations::components;
use crate::leaf_lines::push_lines;
use fir_tree::{Fitted, Names, push_name};
use fir_types::FirType;
use std::alloc::{AllocError, Global};

/// The listing of the widths: a line `MODULE LEAF KIND WIDTH` for each leaf of the ports, wires, registers, nodes and memory
/// ports of the modules that the main module reaches, in text order, each line ended by a line feed. KIND is `UInt` or `SInt`.
/// A clock has no line, and an instance none beside those of its module's ports.
pub fn widths_text(alloc: Global, fitted: &Fitted) -> Result<Vec<u8>, AllocError>
    ensures { IfOk result (λ text. text.items ≡ listing_of fitted.now) }
{
    let all = components(alloc, &fitted.checked)?;
    let names = &fitted.checked.resolved.get().names;
    let mut text = Vec::new(alloc);
    for (component, typ) in all.iter().zip(fitted.declared.as_slice()) {
        push_component(alloc, &mut text, names, *component, typ)?;
    }
    Ok(text)
}

/// Adds the lines of a declaration.
fn push_component(
    alloc: Global,
    text: &mut Vec<u8>,
    names: &Names,
    component: Component,
    typ: &FirType,
) -> Result<(), AllocError>
    ensures { OnOk result (text.new.items ≡ text.old.items ++ component_lines names.now (component, typ.now)) }
{
    if component.listed {
        let mut front = Vec::new(alloc);
        push_name(&mut front, names, component.holder)?;
        front.push(b' ')?;
        push_name(&mut front, names, component.name)?;
        push_lines(text, &mut front, names, typ)?;
    }
    Ok(())
}
