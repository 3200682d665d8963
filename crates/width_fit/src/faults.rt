//! The faults of single components and expressions.

ghost use Rattle.std.specs.Prelude.{◌≡◌, ◌++◌, OnOk};
ghost use Rattle.std.specs.List.{list_any};
ghost use Rattle.width_fit.specs.declared.fault.WidthFault.TheVariants.{WidthOver};
ghost use Rattle.width_fit.specs.Judging.{where_, is_over, fit_on, fit_width};
ghost use Rattle.width_fit.specs.Surveys.{lone_of, condition_over, parameters_over};

use crate::fault::WidthFault;
use part_fits::widths::any_over;
use place_text::Place;
use prim_ops::{Prim, Width};
use std::alloc::AllocError;
use width_rules::widths::level;

/// Adds a fault where it is one.
pub fn push_where(
    faults: &mut Vec<WidthFault>,
    is_fault: bool,
    fault: WidthFault,
) -> Result<(), AllocError>
    ensures { OnOk result (faults.new.items ≡ faults.old.items ++ where_ is_fault fault) }
{
    if is_fault {
        faults.push(fault)?;
    }
    Ok(())
}

/// Adds a fault where one of the widths is over the limit.
pub fn push_over(
    faults: &mut Vec<WidthFault>,
    place: Place,
    widths: &[Width],
) -> Result<(), AllocError>
    ensures { OnOk result (faults.new.items ≡ faults.old.items ++ where_ (list_any is_over widths.now) (WidthOver place)) }
{
    push_where(faults, any_over(widths), WidthFault::WidthOver(place))
}

/// Adds a fault where a condition at this place has more than one bit.
pub fn push_condition(
    faults: &mut Vec<WidthFault>,
    place: Place,
    widths: &[Width],
) -> Result<(), AllocError>
    ensures { OnOk result (faults.new.items ≡ faults.old.items ++ condition_over place widths.now) }
{
    let several = level(lone(widths)) > 1;
    push_where(faults, several, WidthFault::ConditionWidth(place))
}

/// Adds a fault where the parameters of an operation don't fit its one operand.
pub fn push_parameters(
    faults: &mut Vec<WidthFault>,
    prim: Prim,
    place: Place,
    widths: &[Width],
    params: &[u128],
) -> Result<(), AllocError>
    ensures { OnOk result (faults.new.items ≡ faults.old.items ++ parameters_over prim place params.now widths.now) }
{
    let [width] = widths else {
        return Ok(());
    };
    let fits = fit_width(prim, params, *width);
    push_where(faults, !fits, WidthFault::ParameterRange(place))
}

/// Whether parameters fit an operand of this width.
fn fit_width(prim: Prim, params: &[u128], width: Width) -> bool
    ensures { result ≡ fit_width prim params.now width }
{
    match width {
        Width::Bits(bits) => {
            let first = params.get(0).copied().unwrap_or(0);
            let second = params.get(1).copied().unwrap_or(0);
            fit_on(prim, u128::from(bits), first, second)
        }
        Width::Over => true,
    }
}

fn fit_on(prim: Prim, width: u128, first: u128, second: u128) -> bool
    ensures { result ≡ fit_on prim width first second }
{
    match prim {
        Prim::Bits => second <= first && first < width,
        Prim::Head | Prim::Tail => first <= width,
        _ => true,
    }
}

/// The width of what is no bundle and no vector.
pub fn lone(widths: &[Width]) -> Width
    ensures { result ≡ lone_of widths.now }
{
    match widths.first() {
        Some(width) => *width,
        None => Width::Bits(0),
    }
}
