//! What references without a dynamic index name.

ghost use Rattle.std.specs.Prelude.{◌≡◌, map, IfOk};
ghost use Rattle.fir_meaning.specs.Mentions.{region_of, follow_all, suffix_onward};
ghost use Rattle.fir_meaning.specs.Values.{field_type, element_type};
ghost use Rattle.drive_check.specs.HeldTypes.{types_in};
ghost use Rattle.drive_check.specs.Spots.{Names, Leads};

use crate::leaf_set::Step;
use crate::module_types::ModuleTypes;
use field_tables::Tabled;
use fir_tree::{Expr, Form, Suffix};
use fir_types::{FirType, Name};
use std::alloc::{AllocError, Global};

/// A part of a component: the number of the component's name, the way to the part, and its type.
#[derive(Drop)]
pub struct Spot<'a> {
    pub component: u32,
    pub way: Vec<Step>,
    pub part: Tabled<'a>,
}

/// What an expression names, where it is a reference without a dynamic index.
pub fn spot_of<'a>(
    alloc: Global,
    types: &'a ModuleTypes<'_>,
    expr: &Expr,
) -> Result<Option<Spot<'a>>, AllocError>
    ensures { IfOk result (λ spot. Names (region_of (types_in types.now) expr.now) spot) }
{
    match &expr.form {
        Form::Ref(name, suffixes) => follow(alloc, types, *name, suffixes.as_slice()),
        Form::Literal(_, _, _) | Form::Prim(_, _, _) | Form::Mux(_) => Ok(None),
    }
}

/// What the suffixes lead to from a component.
fn follow<'a>(
    alloc: Global,
    types: &'a ModuleTypes<'_>,
    name: Name,
    suffixes: &[Suffix],
) -> Result<Option<Spot<'a>>, AllocError>
    ensures { IfOk result (λ spot. Leads (follow_all (types_in types.now) name.id (map suffix_onward suffixes.now)) spot) }
{
    let mut reached = types.tabled(name.id);
    let mut way = Vec::new(alloc);
    let mut dynamic = false;
    for suffix in suffixes {
        match suffix {
            Suffix::Field(field) => {
                way.push(Step::Field(field.id))?;
                reached = to_field(reached, field.id);
            }
            Suffix::At(_, _, number) => {
                way.push(Step::Element(*number))?;
                reached = to_element(reached);
            }
            Suffix::Index(_, _) => {
                dynamic = true;
                reached = to_element(reached);
            }
        }
    }
    if dynamic {
        return Ok(None);
    }
    Ok(Some(Spot {
        component: name.id,
        way,
        part: reached,
    }))
}

/// The first field of a name. What has no such field stays.
pub fn to_field<'a>(reached: Tabled<'a>, id: u32) -> Tabled<'a>
    ensures { result.typ.now ≡ field_type id reached.entry.typ.now }
{
    match reached.field(id) {
        Some(part) => part,
        None => reached,
    }
}

/// An element. What is no vector stays.
pub fn to_element<'a>(reached: Tabled<'a>) -> Tabled<'a>
    ensures { result.typ.now ≡ element_type reached.entry.typ.now }
{
    match reached.element() {
        Some(part) => part,
        None => reached,
    }
}

/// The type of a bundle's first field of a name. What has no such field stays.
pub fn field_type(typ: &FirType, id: u32) -> &FirType
    ensures { result.now ≡ field_type id typ.now }
{
    to_field(Tabled::plain(typ), id).typ
}

/// The type of a vector's elements. What is no vector stays.
pub fn element_type(typ: &FirType) -> &FirType
    ensures { result.now ≡ element_type typ.now }
{
    to_element(Tabled::plain(typ)).typ
}
