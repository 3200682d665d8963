//! The list of a type's leaves (FIRRTL specification 3.0, "Types"), however many they are.

ghost use Rattle.std.specs.Prelude.{◌≡◌, ◌++◌, map, IfOk, OnOk};
ghost use Rattle.fir_types.specs.Leaves.{leaves, under};

use bit_words::List;
use field_tables::Tabled;
use fir_types::{FirType, PathStep, Shape, TypeLeaf, copy, leaf_count};
use std::alloc::{AllocError, Global};

/// The leaves of a type, depth first: a bundle's by its fields in order, and a vector's by its elements from 0. More elements
/// with leaves than fit a `u32` are a want of memory.
pub fn list_leaves(alloc: Global, typ: &FirType) -> Result<Vec<TypeLeaf>, AllocError>
    ensures { IfOk result (λ listed. listed.items ≡ leaves typ.now) }
{
    let mut listing = Listing {
        alloc,
        listed: Vec::new(alloc),
        path: Vec::new(alloc),
    };
    listing.push_leaves(false, typ)?;
    Ok(listing.listed)
}

/// The same of a type with its table. What has no leaf is passed over.
pub fn list_part(alloc: Global, part: Tabled<'_>) -> Result<Vec<TypeLeaf>, AllocError>
    ensures { IfOk result (λ listed. listed.items ≡ leaves part.entry.typ.now) }
{
    if part.leaf_count() == 0 {
        return Ok(Vec::new(alloc));
    }
    list_leaves(alloc, part.typ)
}

/// The leaves that are listed, and the path to the part that comes next.
#[derive(Drop)]
struct Listing {
    alloc: Global,
    listed: Vec<TypeLeaf>,
    path: Vec<PathStep>,
}

impl Listing {
    /// Adds the leaves of the part, which has this type. On the way to it stand `flip`s an odd number of times, or not. Lengths of 1,
    /// of which any number may stand in one another, are taken in a loop.
    #[cycle(push)]
    fn push_leaves(&mut self, flip: bool, typ: &FirType) -> Result<(), AllocError>
        ensures listed { OnOk result (self.new.listed.items ≡ self.old.listed.items ++ map (under self.old.path.items flip) (leaves typ.now)) }
        ensures path { OnOk result (self.new.path.items ≡ self.old.path.items) }
    {
        let before = self.path.len();
        let mut inside = typ;
        while let Shape::Vector(element, length) = &inside.shape {
            if *length != 1 {
                break;
            }
            self.path.push(PathStep::Element(0))?;
            inside = element.get();
        }
        self.push_inside(flip, inside)?;
        self.path.truncate(before);
        Ok(())
    }

    /// The same of what stands inside lengths of 1. Each other length doubles the leaves at least, or leaves none, so few of those
    /// that have leaves stand in one another.
    #[cycle(push)]
    fn push_inside(&mut self, flip: bool, typ: &FirType) -> Result<(), AllocError>
        ensures listed { OnOk result (self.new.listed.items ≡ self.old.listed.items ++ map (under self.old.path.items flip) (leaves typ.now)) }
        ensures path { OnOk result (self.new.path.items ≡ self.old.path.items) }
    {
        match &typ.shape {
            Shape::Unsigned(_)
            | Shape::Signed(_)
            | Shape::Clock
            | Shape::Reset
            | Shape::AsyncReset => {
                self.listed.push(TypeLeaf {
                    path: List::from_slice(self.alloc, self.path.as_slice())?,
                    flip,
                    typ: copy(typ)?,
                })?;
            }
            Shape::Bundle(fields) => {
                for field in fields.as_slice() {
                    self.path.push(PathStep::Field(field.name.id))?;
                    self.push_leaves(flip != field.flip, &field.typ)?;
                    self.path.pop();
                }
            }
            Shape::Vector(element, length) => {
                if leaf_count(typ) == 0 {
                    return Ok(());
                }
                let Ok(length) = u32::try_from(*length) else {
                    return Err(AllocError);
                };
                for index in 0..length {
                    self.path.push(PathStep::Element(index))?;
                    self.push_leaves(flip, element.get())?;
                    self.path.pop();
                }
            }
        }
        Ok(())
    }
}
