//! The lines of a type's leaves.

ghost use Rattle.std.specs.Prelude.{◌≡◌, ◌++◌, flat_map, OnOk};
ghost use Rattle.fir_types.specs.Leaves.{leaves};
ghost use Rattle.trace_print.specs.Listing.{leaf_line, width_line};

use fir_tree::{Names, push_name};
use fir_types::{FirType, Shape, leaf_count};
use itoa::Buffer;
use std::alloc::AllocError;

/// Adds the lines of the leaves of a type, which all begin with this front. Lengths of 1, of which any number may stand in one
/// another, are taken in a loop.
#[cycle(lines)]
pub fn push_lines(
    text: &mut Vec<u8>,
    front: &mut Vec<u8>,
    names: &Names,
    typ: &FirType,
) -> Result<(), AllocError>
    ensures text { OnOk result (text.new.items ≡ text.old.items ++ flat_map (leaf_line names.now front.old.items) (leaves typ.now)) }
    ensures front { OnOk result (front.new.items ≡ front.old.items) }
{
    let before = front.len();
    let mut inside = typ;
    while let Shape::Vector(element, length) = &inside.shape {
        if *length != 1 {
            break;
        }
        front.extend_from_slice(b"[0]")?;
        inside = element.get();
    }
    push_inside(text, front, names, inside)?;
    front.truncate(before);
    Ok(())
}

/// As above, for what stands inside lengths of 1. Each other length doubles the leaves at least, or leaves none, so few of those
/// that have leaves stand in one another.
#[cycle(lines)]
fn push_inside(
    text: &mut Vec<u8>,
    front: &mut Vec<u8>,
    names: &Names,
    typ: &FirType,
) -> Result<(), AllocError>
    ensures text { OnOk result (text.new.items ≡ text.old.items ++ flat_map (leaf_line names.now front.old.items) (leaves typ.now)) }
    ensures front { OnOk result (front.new.items ≡ front.old.items) }
{
    match &typ.shape {
        Shape::Unsigned(width) => push_width(text, front.as_slice(), "UInt", *width),
        Shape::Signed(width) => push_width(text, front.as_slice(), "SInt", *width),
        Shape::Reset | Shape::AsyncReset => push_width(text, front.as_slice(), "UInt", Some(1)),
        Shape::Clock => Ok(()),
        Shape::Bundle(fields) => {
            let before = front.len();
            for field in fields.as_slice() {
                front.push(b'.')?;
                push_name(front, names, field.name.id)?;
                push_lines(text, front, names, &field.typ)?;
                front.truncate(before);
            }
            Ok(())
        }
        Shape::Vector(element, length) => {
            if leaf_count(typ) == 0 {
                return Ok(());
            }
            let before = front.len();
            for index in 0..*length {
                let mut digits = Buffer::new();
                front.push(b'[')?;
                front.extend_from_slice(digits.format(index).as_bytes())?;
                front.push(b']')?;
                push_lines(text, front, names, element.get())?;
                front.truncate(before);
            }
            Ok(())
        }
    }
}

/// Adds the line of a leaf of a kind, where it has a width.
fn push_width(
    text: &mut Vec<u8>,
    front: &[u8],
    kind: &str,
    width: Option<u128>,
) -> Result<(), AllocError>
    ensures { OnOk result (text.new.items ≡ text.old.items ++ width_line front.now kind.now width) }
{
    if let Some(width) = width {
        let mut digits = Buffer::new();
        text.extend_from_slice(front)?;
        text.push(b' ')?;
        text.extend_from_slice(kind.as_bytes())?;
        text.push(b' ')?;
        text.extend_from_slice(digits.format(width).as_bytes())?;
        text.push(b'\n')?;
    }
    Ok(())
}
