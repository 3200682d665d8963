//! Trees of the shape of a type.

ghost use Rattle.std.specs.Prelude.{◌≡◌, IfOk};

use bit_words::{Shared, SharedList};
use fir_types::FieldIndex;
use std::alloc::AllocError;

/// What is known of a type, and of each of its parts.
#[cycle(index)]
#[derive(Drop)]
pub struct TypeIndex {
    /// The number of its leaves, or 2^128 - 1 where there are more.
    pub leaves: u128,
    /// The bytes of the ways to them, or 2^128 - 1 where there are more.
    pub bytes: u128,
    /// Whether no `flip` stands in it.
    pub passive: bool,
    /// Whether one of its leaves is a `Clock`.
    pub clocked: bool,
    /// Whether one of its leaves is a `Clock` or an `AsyncReset`.
    pub signals: bool,
    /// The number of its places that have widths, or 2^64 - 1 where there are more.
    pub places: usize,
    pub inside: Inside,
}

/// What is known of the parts of a type.
#[cycle(index)]
#[derive(Drop)]
pub enum Inside {
    /// There are none.
    Ground,
    /// Of each element.
    Vector(Shared<TypeIndex>),
    /// Of the fields in order, which have an index where they are many.
    Bundle(Option<Shared<FieldIndex>>, SharedList<TypeIndex>),
}

impl TypeIndex {
    /// The same once more. Its parts are shared, so it takes constant time and no memory.
    pub fn share(&self) -> Result<TypeIndex, AllocError>
        ensures { IfOk result (λ index. index ≡ self.now) }
    {
        Ok(TypeIndex {
            leaves: self.leaves,
            bytes: self.bytes,
            passive: self.passive,
            clocked: self.clocked,
            signals: self.signals,
            places: self.places,
            inside: self.inside.share()?,
        })
    }
}

impl Inside {
    /// The same once more.
    fn share(&self) -> Result<Inside, AllocError>
        ensures { IfOk result (λ inside. inside ≡ self.now) }
    {
        match self {
            Inside::Ground => Ok(Inside::Ground),
            Inside::Vector(element) => Ok(Inside::Vector(element.share()?)),
            Inside::Bundle(None, fields) => Ok(Inside::Bundle(None, fields.share()?)),
            Inside::Bundle(Some(index), fields) => {
                Ok(Inside::Bundle(Some(index.share()?), fields.share()?))
            }
        }
    }
}
