//! What references may name, through dynamic indices as well.

ghost use Rattle.std.specs.Prelude.{◌≡◌, ℕ, ◌||◌, ◌++◌, [], ◌∷◌, map, Some, IsTrue, IfOk, OnOk};
ghost use Rattle.fir_meaning.specs.Mentions.{Scope, Region, region_of, leaves_at, follow_all, suffix_onward, behind_each, elements_behind};
ghost use Rattle.fir_meaning.specs.Values.{vector_length};
ghost use Rattle.fir_meaning.specs.ClockRoot.{named_leaves, leaves_of_region};
ghost use Rattle.drive_check.specs.HeldTypes.{types_in};
ghost use Rattle.drive_check.specs.Keys.{step_of, leaf_of_key};
ghost use Rattle.clock_check.specs.Driving.{bare, region_at, ways_of, Reaches};

use drive_check::leaf_set::{LeafKey, Step, key_of};
use drive_check::listing::list_leaves;
use drive_check::module_types::ModuleTypes;
use drive_check::spot::{to_element, to_field};
use field_tables::Tabled;
use fir_tree::{Expr, Form, Suffix};
use fir_types::{FirType, Name, Shape, TypeLeaf};
use std::alloc::{AllocError, Global};

/// Parts of a component that have one type: the number of the component's name, the ways to them, and whether there is a dynamic
/// index on the way.
#[derive(Drop)]
pub struct Reach<'a> {
    pub component: u32,
    pub part: Tabled<'a>,
    pub ways: Vec<Vec<Step>>,
    pub dynamic: bool,
}

/// What an expression may name, where it is a reference to what has leaves and leads through no vector of no element.
pub fn reach_of<'a>(
    alloc: Global,
    types: &'a ModuleTypes<'_>,
    expr: &Expr,
) -> Result<Option<Reach<'a>>, AllocError>
    ensures { IfOk result (λ reach. Reaches (region_of (types_in types.now) expr.now) reach) }
{
    match &expr.form {
        Form::Ref(name, suffixes) => {
            let (whole, steps) = (types.tabled(name.id), suffixes.as_slice());
            if leads_nowhere(whole, steps) {
                return Ok(None);
            }
            if part_behind(whole, steps).leaf_count() == 0 {
                return Ok(None);
            }
            Ok(Some(follow(alloc, types, *name, steps)?))
        }
        Form::Literal(_, _, _) | Form::Prim(_, _, _) | Form::Mux(_) => Ok(None),
    }
}

/// Whether a dynamic index among the suffixes is one of a vector of no element.
fn leads_nowhere(whole: Tabled<'_>, suffixes: &[Suffix]) -> bool
    ensures { IsTrue result → (types : Scope) (id : ℕ) → types id ≡ whole.entry.typ.now → (follow_all types id (map suffix_onward suffixes.now)).ways ≡ [] }
{
    let mut found = whole;
    let mut nowhere = false;
    for suffix in suffixes {
        nowhere = nowhere || has_no_element(found.typ, suffix);
        found = step_part(found, suffix);
    }
    nowhere
}

/// Whether this is a dynamic index of a vector of no element.
fn has_no_element(typ: &FirType, suffix: &Suffix) -> bool
    ensures { IsTrue result → (types : Scope) (region : Region) → region.typ ≡ typ.now → (suffix_onward suffix.now types region).ways ≡ [] }
{
    match suffix {
        Suffix::Field(_) | Suffix::At(_, _, _) => false,
        Suffix::Index(_, _) => vector_length(typ) == 0,
    }
}

/// The part that the suffixes lead to.
fn part_behind<'a>(whole: Tabled<'a>, suffixes: &[Suffix]) -> Tabled<'a>
    ensures { (types : Scope) (id : ℕ) → types id ≡ whole.entry.typ.now → (follow_all types id (map suffix_onward suffixes.now)).typ ≡ result.typ.now }
{
    let mut found = whole;
    for suffix in suffixes {
        found = step_part(found, suffix);
    }
    found
}

/// What the suffixes may lead to from a component.
fn follow<'a>(
    alloc: Global,
    types: &'a ModuleTypes<'_>,
    name: Name,
    suffixes: &[Suffix],
) -> Result<Reach<'a>, AllocError>
    ensures { IfOk result (λ reach. bare (follow_all (types_in types.now) name.id (map suffix_onward suffixes.now)) ≡ region_at reach) }
{
    let mut reach = Reach {
        component: name.id,
        part: types.tabled(name.id),
        ways: no_steps(alloc)?,
        dynamic: false,
    };
    for suffix in suffixes {
        reach = onward(alloc, &reach, suffix)?;
    }
    Ok(reach)
}

/// The one way that has no steps.
fn no_steps(alloc: Global) -> Result<Vec<Vec<Step>>, AllocError>
    ensures { IfOk result (λ ways. ways_of ways.items ≡ [] ∷ []) }
{
    let mut ways = Vec::new(alloc);
    ways.push(Vec::new(alloc))?;
    Ok(ways)
}

/// One step more.
fn onward<'a>(alloc: Global, reach: &Reach<'a>, suffix: &Suffix) -> Result<Reach<'a>, AllocError>
    ensures { IfOk result (λ next. (types : Scope) (region : Region) → bare region ≡ region_at reach.now → bare (suffix_onward suffix.now types region) ≡ region_at next) }
{
    Ok(Reach {
        component: reach.component,
        part: step_part(reach.part, suffix),
        ways: step_ways(alloc, reach, suffix)?,
        dynamic: reach.dynamic || is_dynamic(suffix),
    })
}

fn step_part<'a>(part: Tabled<'a>, suffix: &Suffix) -> Tabled<'a>
    ensures { (types : Scope) (region : Region) → region.typ ≡ part.entry.typ.now → (suffix_onward suffix.now types region).typ ≡ result.typ.now }
{
    match suffix {
        Suffix::Field(name) => to_field(part, name.id),
        Suffix::At(_, _, _) | Suffix::Index(_, _) => to_element(part),
    }
}

fn is_dynamic(suffix: &Suffix) -> bool
    ensures { (types : Scope) (region : Region) → (suffix_onward suffix.now types region).dynamic ≡ (region.dynamic || result) }
{
    match suffix {
        Suffix::Field(_) | Suffix::At(_, _, _) => false,
        Suffix::Index(_, _) => true,
    }
}

fn step_ways(
    alloc: Global,
    reach: &Reach<'_>,
    suffix: &Suffix,
) -> Result<Vec<Vec<Step>>, AllocError>
    ensures { IfOk result (λ ways. (types : Scope) (region : Region) → region.typ ≡ reach.now.part.typ.now → region.ways ≡ ways_of reach.now.ways.items → (suffix_onward suffix.now types region).ways ≡ ways_of ways.items) }
{
    let ways = reach.ways.as_slice();
    match suffix {
        Suffix::Field(name) => behind_all(alloc, ways, Step::Field(name.id)),
        Suffix::At(_, _, number) => behind_all(alloc, ways, Step::Element(*number)),
        Suffix::Index(_, _) => Ok(elements(alloc, ways, vector_length(reach.part.typ))?),
    }
}

/// The ways with one step more behind each.
fn behind_all(alloc: Global, ways: &[Vec<Step>], step: Step) -> Result<Vec<Vec<Step>>, AllocError>
    ensures { IfOk result (λ next. ways_of next.items ≡ behind_each (ways_of ways.now) (step_of step)) }
{
    let mut next = Vec::new(alloc);
    push_behind(alloc, &mut next, ways, step)?;
    Ok(next)
}

/// The ways with each element of a vector behind each.
fn elements(alloc: Global, ways: &[Vec<Step>], length: u128) -> Result<Vec<Vec<Step>>, AllocError>
    ensures { IfOk result (λ next. ways_of next.items ≡ elements_behind (ways_of ways.now) length) }
{
    let mut next = Vec::new(alloc);
    for number in 0..length {
        push_behind(alloc, &mut next, ways, Step::Element(number))?;
    }
    Ok(next)
}

fn push_behind(
    alloc: Global,
    next: &mut Vec<Vec<Step>>,
    ways: &[Vec<Step>],
    step: Step,
) -> Result<(), AllocError>
    ensures { OnOk result (ways_of next.new.items ≡ ways_of next.old.items ++ behind_each (ways_of ways.now) (step_of step)) }
{
    for way in ways {
        let mut longer = Vec::from_slice(alloc, way.as_slice())?;
        longer.push(step)?;
        next.push(longer)?;
    }
    Ok(())
}

/// The length of a vector, and 0 of what is none.
fn vector_length(typ: &FirType) -> u128
    ensures { result ≡ vector_length typ.now }
{
    match &typ.shape {
        Shape::Vector(_, length) => *length,
        _ => 0,
    }
}

/// The leaves that an expression names, where it is a reference without a dynamic index.
pub fn named(
    alloc: Global,
    types: &ModuleTypes<'_>,
    expr: &Expr,
) -> Result<Vec<LeafKey>, AllocError>
    ensures { IfOk result (λ keys. map leaf_of_key keys.items ≡ named_leaves (types_in types.now) expr.now) }
{
    let mut keys = Vec::new(alloc);
    if let Some(reach) = reach_of(alloc, types, expr)? {
        push_named(alloc, &mut keys, &reach)?;
    }
    Ok(keys)
}

fn push_named(alloc: Global, keys: &mut Vec<LeafKey>, reach: &Reach<'_>) -> Result<(), AllocError>
    ensures { OnOk result (map leaf_of_key keys.new.items ≡ map leaf_of_key keys.old.items ++ leaves_of_region (Some (region_at reach.now))) }
{
    if reach.dynamic {
        return Ok(());
    }
    let leaves = list_leaves(alloc, reach.part.typ)?;
    for leaf in &leaves {
        push_parts(alloc, keys, reach, leaf)?;
    }
    Ok(())
}

/// Adds the leaves that this part may be.
fn push_parts(
    alloc: Global,
    keys: &mut Vec<LeafKey>,
    reach: &Reach<'_>,
    part: &TypeLeaf,
) -> Result<(), AllocError>
    ensures { OnOk result (map leaf_of_key keys.new.items ≡ map leaf_of_key keys.old.items ++ leaves_at (region_at reach.now) part.now.path) }
{
    for way in reach.ways.as_slice() {
        let key = key_of(alloc, reach.component, way.as_slice(), part.path.as_slice())?;
        keys.push(key)?;
    }
    Ok(())
}
