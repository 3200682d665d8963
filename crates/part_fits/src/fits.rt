//! The fitted types of the components that are known, and of their parts.

ghost use Rattle.std.specs.Prelude.{◌≡◌, map, false, IfOk, OnOk, IfSome};
ghost use Rattle.std.specs.Prelude.{List as Listed};
ghost use Rattle.std.specs.List.{list_any};
ghost use Rattle.prim_ops.specs.declared.widths.Width.{Width as AWidth};
ghost use Rattle.width_rules.specs.declared.component.Component.{Component as AComponent};
ghost use Rattle.width_rules.specs.Sources.{component, known_with, named, suffix_step, field_step, element_step};
ghost use Rattle.part_fits.specs.Fits.{Fits, AreFits, StandsBeside};
ghost use Rattle.part_fits.specs.Seen.{Holds};
ghost use Rattle.part_fits.specs.declared.choices.Choices.{Choices};
ghost use Rattle.part_fits.specs.Widths.{is_over};

use crate::widths::any_over;
use bit_words::List;
use fir_tree::Suffix;
use fir_types::{FirType, Shape, copy};
use indexmap::IndexMap;
use prim_ops::Width;
use std::alloc::AllocError;
use type_index::Known;
use width_rules::indexed::Indexed;
use width_rules::walk::note;

/// The fitted type of a component, and whether one of its widths is over the limit.
#[derive(Drop)]
pub struct Fit {
    pub typ: FirType,
    pub is_over: bool,
}

impl Fit {
    /// The same once more. Takes no memory.
    pub fn share(&self) -> Result<Fit, AllocError>
        ensures { IfOk result (λ fit. fit ≡ self.now) }
    {
        Ok(Fit {
            typ: copy(&self.typ)?,
            is_over: self.is_over,
        })
    }
}

/// What is kept of a fitted type with these widths. It takes no memory but the type's own.
pub fn fit_of(fitted: &FirType, widths: &List<Width>) -> Result<Fit, AllocError>
    ensures typ { IfOk result (λ fit. fit.typ ≡ fitted.now) }
    ensures over { IfOk result (λ fit. fit.is_over ≡ list_any is_over widths.now) }
{
    let is_over = any_over(widths.as_slice());
    Ok(Fit {
        typ: copy(fitted)?,
        is_over,
    })
}

/// Notes a component and its fitted type by its name, where the name has none.
pub fn declare(
    known: &mut IndexMap<u32, Indexed>,
    fits: &mut IndexMap<u32, Fit>,
    name: u32,
    component: Indexed,
    fit: Fit,
) -> Result<(), AllocError>
    ensures known { OnOk result (known.new.entries ≡ known_with known.old.entries name component) }
    ensures fits { (ws : Listed AWidth) (choices : Choices) → Fits ws component fit.typ fit.is_over → Holds ws known.old.entries fits.old.entries choices → OnOk result (Holds ws known.new.entries fits.new.entries choices) }
{
    if known.get(&name).is_some() {
        return Ok(());
    }
    fits.insert(name, fit)?;
    note(known, name, component)
}

/// The fitted type of what a reference names, where its parts are there, and whether one of its widths is over the limit. The
/// part of a type over the limit isn't told. Takes constant time for each step, and no memory.
pub fn part_of<'a>(
    known: &'a IndexMap<u32, Indexed>,
    fits: &'a IndexMap<u32, Fit>,
    name: u32,
    suffixes: &[Suffix],
) -> Option<(&'a FirType, bool)>
    ensures { (ws : Listed AWidth) → AreFits ws known.now.entries fits.now.entries → IfSome result (λ part. Fits ws (named (map suffix_step suffixes.now) (component known.now.entries name)) part.0.now part.1) }
{
    let fit = fits.get(&name)?;
    if suffixes.is_empty() {
        return Some((&fit.typ, fit.is_over));
    }
    if fit.is_over {
        return None;
    }
    let whole = Beside {
        known: known.get(&name)?.known(),
        fitted: &fit.typ,
    };
    let part = walk_beside(whole, suffixes)?;
    Some((part.fitted, false))
}

/// A part of a component's type, and beside it the part of the fitted type.
#[derive(Clone, Copy)]
struct Beside<'a> {
    known: Known<'a>,
    fitted: &'a FirType,
}

/// The part that steps lead to, where it is there.
fn walk_beside<'a>(whole: Beside<'a>, suffixes: &[Suffix]) -> Option<Beside<'a>>
    ensures { (ws : Listed AWidth) (sized : AComponent) → StandsBeside ws sized whole.entry.known.typ.now whole.entry.fitted.now → IfSome result (λ part. StandsBeside ws (named (map suffix_step suffixes.now) sized) part.known.typ.now part.fitted.now) }
{
    let mut part = whole;
    for suffix in suffixes {
        part = step(part, suffix)?;
    }
    Some(part)
}

fn step<'a>(part: Beside<'a>, suffix: &Suffix) -> Option<Beside<'a>>
    ensures { (ws : Listed AWidth) (sized : AComponent) → StandsBeside ws sized part.entry.known.typ.now part.entry.fitted.now → IfSome result (λ inside. StandsBeside ws (suffix_step suffix.now sized) inside.known.typ.now inside.fitted.now) }
{
    match suffix {
        Suffix::Field(name) => field_inside(part, name.id),
        Suffix::At(_, _, _) | Suffix::Index(_, _) => element_inside(part),
    }
}

fn field_inside<'a>(part: Beside<'a>, name: u32) -> Option<Beside<'a>>
    ensures { (ws : Listed AWidth) (sized : AComponent) → StandsBeside ws sized part.entry.known.typ.now part.entry.fitted.now → IfSome result (λ inside. StandsBeside ws (field_step name sized) inside.known.typ.now inside.fitted.now) }
{
    let field = part.known.field(name)?;
    let Shape::Bundle(fields) = &part.fitted.shape else {
        return None;
    };
    let fitted = fields.as_slice().get(field.place.position)?;
    Some(Beside {
        known: field.known(),
        fitted: &fitted.typ,
    })
}

fn element_inside<'a>(part: Beside<'a>) -> Option<Beside<'a>>
    ensures { (ws : Listed AWidth) (sized : AComponent) → StandsBeside ws sized part.entry.known.typ.now part.entry.fitted.now → IfSome result (λ inside. StandsBeside ws (element_step sized) inside.known.typ.now inside.fitted.now) }
{
    let known = part.known.element()?;
    let Shape::Vector(element, _) = &part.fitted.shape else {
        return None;
    };
    Some(Beside {
        known,
        fitted: element.get(),
    })
}
