//! The bundles and vectors with widths that were made.

ghost use Rattle.std.specs.Prelude.{◌≡◌, IfOk, IfSome};
ghost use Rattle.type_filling.specs.Filling.{filled, taking};

use crate::counting::parts_of;
use crate::filling::fill;
use crate::sharing::behind_type;
use fir_types::{FirType, Shape, copy};
use indexmap::IndexMap;
use prim_ops::Width;
use std::alloc::{AllocError, Global};

/// The most types in types that may be made, and widths that may be kept beside them, over a whole circuit; more are a want of
/// memory. A type in a bundle takes some 80 bytes and up to twice that, as the list of fields grows.
const MOST_PARTS: usize = 8_000_000;

/// The text that a bundle or a vector is from: inside the lengths of vectors the place of the first field's name, or of the
/// type where it has none, and how many lengths there are.
#[derive(Clone, Copy, PartialEq, Eq, Hash)]
pub struct TypeText {
    line: u32,
    column: u32,
    lengths: u64,
}

/// The types that were made for one text: the first and the last.
#[derive(Drop)]
pub struct Versions {
    first: FirType,
    last: FirType,
}

/// The bundles and vectors with widths that were made. A type whose text has it with the same widths is taken again from
/// these, so that it takes memory once for its text and not once for each expression.
#[derive(Drop)]
pub struct Made {
    types: IndexMap<TypeText, Versions>,
    /// How much was counted so far.
    parts: usize,
}

impl Made {
    /// Nothing was made.
    pub fn new(alloc: Global) -> Made {
        Made {
            types: IndexMap::new(alloc),
            parts: 0,
        }
    }

    /// A type with these widths, in the order of its places.
    pub fn fit(
        &mut self,
        alloc: Global,
        typ: &FirType,
        widths: &[Width],
    ) -> Result<FirType, AllocError>
        ensures { IfOk result (λ fitted. fitted ≡ filled typ.now widths.now) }
    {
        let (fitted, _) = self.take(alloc, typ, widths)?;
        Ok(fitted)
    }

    /// A type with the first widths, and those that are left.
    fn take<'a>(
        &mut self,
        alloc: Global,
        typ: &FirType,
        widths: &'a [Width],
    ) -> Result<(FirType, &'a [Width]), AllocError>
        ensures { IfOk result (λ taken. (taken.0, taken.1.now) ≡ taking typ.now widths.now) }
    {
        if !matches!(&typ.shape, Shape::Bundle(_) | Shape::Vector(_, _)) {
            return fill(alloc, typ, widths);
        }
        let text = text_of(typ);
        if let Some(taken) = self.again(text, typ, widths)? {
            return Ok(taken);
        }
        self.count(parts_of(typ))?;
        let (fitted, rest) = fill(alloc, typ, widths)?;
        self.keep(text, &fitted)?;
        Ok((fitted, rest))
    }

    /// Counts parts of types, or widths that are kept beside them. Too many are a want of memory.
    pub fn count(&mut self, parts: usize) -> Result<(), AllocError> {
        self.parts = self.parts.saturating_add(parts);
        if self.parts > MOST_PARTS {
            return Err(AllocError);
        }
        Ok(())
    }

    /// The same type once more, where it was made for this text, and the widths behind it.
    fn again<'a>(
        &self,
        text: TypeText,
        typ: &FirType,
        widths: &'a [Width],
    ) -> Result<Option<(FirType, &'a [Width])>, AllocError>
        ensures { IfOk result (λ found. IfSome found (λ taken. taking typ.now widths.now ≡ (taken.0, taken.1.now))) }
    {
        let Some(versions) = self.types.get(&text) else {
            return Ok(None);
        };
        if let Some(rest) = behind_type(typ, &versions.first, widths) {
            return Ok(Some((copy(&versions.first)?, rest)));
        }
        if let Some(rest) = behind_type(typ, &versions.last, widths) {
            return Ok(Some((copy(&versions.last)?, rest)));
        }
        Ok(None)
    }

    /// Notes a type that was made for this text.
    fn keep(&mut self, text: TypeText, typ: &FirType) -> Result<(), AllocError> {
        let first = match self.types.get(&text) {
            Some(versions) => copy(&versions.first)?,
            None => copy(typ)?,
        };
        let last = copy(typ)?;
        self.types.insert(text, Versions { first, last })?;
        Ok(())
    }
}

fn text_of(typ: &FirType) -> TypeText {
    let mut inside = typ;
    let mut lengths: u64 = 0;
    while let Shape::Vector(element, _) = &inside.shape {
        lengths = lengths.saturating_add(1);
        inside = element.get();
    }
    let place = match &inside.shape {
        Shape::Bundle(fields) => match fields.as_slice().first() {
            Some(field) => field.name.place,
            None => inside.place,
        },
        _ => inside.place,
    };
    TypeText {
        line: place.line,
        column: place.column,
        lengths,
    }
}
