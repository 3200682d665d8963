//! What the number of a class is found by.

ghost use Rattle.std.specs.Prelude.{◌≡◌};

use indexmap::IndexMap;

/// Vectors: the number of their elements' class, and their length.
#[derive(Clone, Copy, PartialEq, Eq, PartialOrd, Ord)]
pub struct VectorKey {
    pub element: u32,
    pub length: u128,
}

/// Bundles with a field: the name of the first, its orientation, the number of its class, and the number of the bundle of the fields
/// after it.
#[derive(Clone, Copy, PartialEq, Eq, PartialOrd, Ord)]
pub struct FieldKey {
    pub name: u32,
    pub flip: bool,
    pub class: u32,
    pub after: u32,
}

/// The numbers of a bundle's fields by their names, of each name that of the first.
#[derive(Drop)]
pub struct FieldClasses {
    pub numbers: IndexMap<u32, u32>,
}

/// A field of a bundle: its name, its orientation, and the number of its class.
#[derive(Clone, Copy)]
pub struct FieldPart {
    pub name: u32,
    pub flip: bool,
    pub class: u32,
}

impl FieldPart {
    /// The key of the bundle of this field and those after it, which have this number.
    pub fn before(self, after: u32) -> FieldKey
        ensures { result ≡ record { name = self.name; flip = self.flip; class = self.class; after = after } }
    {
        FieldKey {
            name: self.name,
            flip: self.flip,
            class: self.class,
            after,
        }
    }
}
