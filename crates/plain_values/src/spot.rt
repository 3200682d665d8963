//! What references name.

ghost use Rattle.std.specs.Prelude.{◌≡◌, map, IfOk, option_map};
ghost use Rattle.bit_words.specs.declared.value.Kind.TheVariants.{Unsigned};
ghost use Rattle.bit_words.specs.Values.{integer_of};
ghost use Rattle.fir_meaning.specs.Values.{part_of, further, vector_length, element_step};
ghost use Rattle.drive_check.specs.Keys.{step_of};
ghost use Rattle.plain_values.specs.Finding.{spot_of_held};

use bit_words::{List, Value};
use drive_check::leaf_set::Step;
use fir_types::{FirType, Shape};
use std::alloc::AllocError;

/// A part of a component: the component's name, the type of the part, and the way to it; no way where an index is out of its vector.
#[derive(Drop)]
pub struct HeldSpot {
    pub component: u32,
    pub typ: FirType,
    pub way: Option<List<Step>>,
}

/// A part of a spot, one step further.
pub fn part_of(spot: HeldSpot, typ: FirType, next: Option<Step>) -> Result<HeldSpot, AllocError>
    ensures is { IfOk result (λ part. spot_of_held part ≡ part_of (spot_of_held spot) typ (option_map step_of next)) }
    ensures typ { IfOk result (λ part. part.typ ≡ typ) }
{
    let way = further(spot.way, next)?;
    Ok(HeldSpot {
        component: spot.component,
        typ,
        way,
    })
}

/// The way with one more step, where both are there.
fn further(way: Option<List<Step>>, next: Option<Step>) -> Result<Option<List<Step>>, AllocError>
    ensures { IfOk result (λ more. option_map (map step_of) more ≡ further (option_map (map step_of) way) (option_map step_of next)) }
{
    let (Some(mut way), Some(next)) = (way, next) else {
        return Ok(None);
    };
    way.push(next)?;
    Ok(Some(way))
}

/// How many elements a vector has.
pub fn vector_length(typ: &FirType) -> u128
    ensures { result ≡ vector_length typ.now }
{
    match &typ.shape {
        Shape::Vector(_, length) => *length,
        _ => 0,
    }
}

/// The step to the element that an index gives, where the vector has one.
pub fn element_step(length: u128, index: Value) -> Option<Step>
    requires { index.kind ≡ Unsigned }
    ensures { option_map step_of result ≡ element_step length (integer_of index) }
{
    if index.bits < length {
        Some(Step::Element(index.bits))
    } else {
        None
    }
}
