//! Types with what is often asked of them and of their parts, which is found once and then shared.

ghost use Rattle.std.specs.Prelude.{◌≡◌, IfOk};
ghost use Rattle.fir_types.specs.Bundles.{memory_of};
ghost use Rattle.fir_tree.specs.LeafNames.{Texts};
ghost use Rattle.type_index.specs.Knowing.{Knows, HasWays};

use crate::known::Known;
use crate::memories::of_memory;
use crate::tree::TypeIndex;
use fir_tree::Names;
use fir_types::{FirType, Memory, copy};
use std::alloc::{AllocError, Global};

/// A type with what is known of it and of its parts.
#[derive(Drop)]
pub struct KnownType {
    pub typ: FirType,
    pub index: TypeIndex,
    ghost knows: { Knows typ index },
}

impl KnownType {
    /// A type with what is known of it. Takes time and memory in proportion to the type.
    pub fn new(alloc: Global, names: &Names, typ: FirType) -> Result<KnownType, AllocError>
        ensures typ { IfOk result (λ known. known.typ ≡ typ) }
        ensures ways { IfOk result (λ known. HasWays names.now known.typ known.index) }
    {
        let index = TypeIndex::new(alloc, names, &typ)?;
        Ok(KnownType { typ, index })
    }

    /// The type of a memory with what is known of it. Its ports share what is known of an element, so it takes time and memory in
    /// proportion to the type of an element and to the number of ports.
    pub fn of_memory(alloc: Global, names: &Names, memory: &Memory) -> Result<KnownType, AllocError>
        ensures typ { IfOk result (λ known. known.typ ≡ memory_of memory.now) }
        ensures ways { IfOk result (λ known. HasWays names.now known.typ known.index) }
    {
        let (typ, index) = of_memory(alloc, names, memory)?;
        Ok(KnownType { typ, index })
    }

    /// A type of which this is known. It shares what is known, so it takes constant time and no memory.
    pub fn of(part: Known<'_>) -> Result<KnownType, AllocError>
        ensures typ { IfOk result (λ known. known.typ ≡ part.entry.typ.now) }
        ensures ways { IfOk result (λ known. (texts : Texts) → HasWays texts part.entry.typ.now part.entry.index.now → HasWays texts known.typ known.index) }
    {
        let typ = copy(part.typ)?;
        let index = part.index.share()?;
        Ok(KnownType { typ, index })
    }

    /// The same type once more. It shares what is known, so it takes constant time and no memory.
    pub fn share(&self) -> Result<KnownType, AllocError>
        ensures typ { IfOk result (λ once_more. once_more.typ ≡ self.now.typ) }
        ensures ways { IfOk result (λ once_more. (texts : Texts) → HasWays texts self.now.typ self.now.index → HasWays texts once_more.typ once_more.index) }
    {
        KnownType::of(self.known())
    }

    /// What is known, with the steps to the parts.
    pub fn known(&self) -> Known<'_>
        ensures typ { result.typ.now ≡ self.now.typ }
        ensures index { result.index.now ≡ self.now.index }
    {
        Known::new(&self.typ, &self.index)
    }
}
