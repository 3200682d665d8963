//! The list of a type's leaves (FIRRTL specification 3.0, "Types").

ghost use Rattle.std.specs.Prelude.{◌≡◌, ◌≤◌, ◌++◌, ◌*◌, map, sum, IfOk, OnOk, flat_map};
ghost use Rattle.fir_types.specs.Leaves.{count, field_count, leaves, field_leaves, elements, under};

use crate::copying::copy;
use crate::counting::leaf_count;
use crate::fir_type::{Field, FirType, Shape};
use crate::leaf::{PathStep, TypeLeaf};
use bit_words::List;
use std::alloc::{AllocError, Global};

/// The leaves of a type, depth first: a bundle's by its fields in order, and a vector's by its elements from 0. The type has at
/// most 65,536 of them.
pub fn leaves(alloc: Global, typ: &FirType) -> Result<Vec<TypeLeaf>, AllocError>
    requires { count typ.now ≤ 65536 }
    ensures { IfOk result (λ listed. listed.items ≡ leaves typ.now) }
{
    let mut listed = Vec::new(alloc);
    let mut path = Vec::new(alloc);
    push_leaves(alloc, &mut listed, &mut path, false, typ)?;
    Ok(listed)
}

/// Adds the leaves of a part of a type, to which this path leads. On the way `flip`s an odd number of times, or not. Lengths
/// of 1, of which any number may stand in one another, are taken in a loop.
#[cycle(push)]
fn push_leaves(
    alloc: Global,
    listed: &mut Vec<TypeLeaf>,
    path: &mut Vec<PathStep>,
    flip: bool,
    typ: &FirType,
) -> Result<(), AllocError>
    requires { count typ.now ≤ 65536 }
    ensures listed { OnOk result (listed.new.items ≡ listed.old.items ++ map (under path.old.items flip) (leaves typ.now)) }
    ensures path { OnOk result (path.new.items ≡ path.old.items) }
{
    let before = path.len();
    let mut inside = typ;
    while let Shape::Vector(element, length) = &inside.shape {
        if *length != 1 {
            break;
        }
        path.push(PathStep::Element(0))?;
        inside = element.get();
    }
    push_inside(alloc, listed, path, flip, inside)?;
    path.truncate(before);
    Ok(())
}

/// As above, for what stands inside lengths of 1. Each other length doubles the leaves at least, or leaves none, so at most 16 of
/// those that have leaves stand in one another.
#[cycle(push)]
fn push_inside(
    alloc: Global,
    listed: &mut Vec<TypeLeaf>,
    path: &mut Vec<PathStep>,
    flip: bool,
    typ: &FirType,
) -> Result<(), AllocError>
    requires { count typ.now ≤ 65536 }
    ensures listed { OnOk result (listed.new.items ≡ listed.old.items ++ map (under path.old.items flip) (leaves typ.now)) }
    ensures path { OnOk result (path.new.items ≡ path.old.items) }
{
    match &typ.shape {
        Shape::Unsigned(_) | Shape::Signed(_) | Shape::Clock | Shape::Reset | Shape::AsyncReset => {
            listed.push(TypeLeaf {
                path: List::from_slice(alloc, path.as_slice())?,
                flip,
                typ: copy(typ)?,
            })?;
            Ok(())
        }
        Shape::Bundle(fields) => push_field_leaves(alloc, listed, path, flip, fields.as_slice()),
        Shape::Vector(element, length) => {
            if leaf_count(typ) > 0 {
                push_elements(alloc, listed, path, flip, element.get(), *length as u32)?;
            }
            Ok(())
        }
    }
}

#[cycle(push)]
fn push_field_leaves(
    alloc: Global,
    listed: &mut Vec<TypeLeaf>,
    path: &mut Vec<PathStep>,
    flip: bool,
    fields: &[Field],
) -> Result<(), AllocError>
    requires { sum (map field_count fields.now) ≤ 65536 }
    ensures listed { OnOk result (listed.new.items ≡ listed.old.items ++ map (under path.old.items flip) (flat_map field_leaves fields.now)) }
    ensures path { OnOk result (path.new.items ≡ path.old.items) }
{
    for field in fields {
        path.push(PathStep::Field(field.name.id))?;
        push_leaves(alloc, listed, path, flip != field.flip, &field.typ)?;
        path.pop();
    }
    Ok(())
}

#[cycle(push)]
fn push_elements(
    alloc: Global,
    listed: &mut Vec<TypeLeaf>,
    path: &mut Vec<PathStep>,
    flip: bool,
    element: &FirType,
    length: u32,
) -> Result<(), AllocError>
    requires { count element.now ≤ 65536 }
    ensures listed { OnOk result (listed.new.items ≡ listed.old.items ++ map (under path.old.items flip) (elements (leaves element.now) length)) }
    ensures path { OnOk result (path.new.items ≡ path.old.items) }
{
    for index in 0..length {
        path.push(PathStep::Element(index))?;
        push_leaves(alloc, listed, path, flip, element)?;
        path.pop();
    }
    Ok(())
}
