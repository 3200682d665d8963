//! How much types take.

use fir_types::{Field, FirType, Shape};

/// How many types there are in a type, with itself: a vector has those of its element, a bundle those of its fields. It stops at
/// the greatest number. The lengths of vectors in one another are taken in a loop. Takes no memory.
#[cycle(parts)]
pub fn parts_of(typ: &FirType) -> usize {
    let mut inside = typ;
    let mut count: usize = 1;
    while let Shape::Vector(element, _) = &inside.shape {
        count = count.saturating_add(1);
        inside = element.get();
    }
    match &inside.shape {
        Shape::Bundle(fields) => count.saturating_add(parts_of_fields(fields.as_slice())),
        _ => count,
    }
}

#[cycle(parts)]
fn parts_of_fields(fields: &[Field]) -> usize {
    let mut count: usize = 0;
    for field in fields {
        count = count.saturating_add(parts_of(&field.typ));
    }
    count
}
