//! Questions to the text of a type, and the faults in it.

ghost use Rattle.std.specs.Prelude.{◌≡◌, ◌++◌, [], map, OnOk};
ghost use Rattle.std.specs.List.{flat_map};
ghost use Rattle.bit_words.specs.Numbers.{integer_of_number};
ghost use Rattle.type_check.specs.Parts.{unless};
ghost use Rattle.fir_tree.specs.Kinds.{sign_of, is_unsigned, is_a_clock};
ghost use Rattle.type_check.specs.Texts.{is_passive, are_equivalent, seconds_behind, twice_in, stored_faults};
ghost use Rattle.type_check.specs.Expressions.{fits_literal};

use crate::fault::TypeFault;
use bit_words::{Kind, Number, fits};
use fir_types::{Field, FirType, Shape, equivalent, has_signal, passive};
use indexmap::IndexSet;
use std::alloc::{AllocError, Global};

/// Whether no `flip` stands in a type.
pub fn is_passive(typ: &FirType) -> bool
    ensures { result ≡ is_passive typ.now }
{
    passive(typ)
}

/// Whether two types are equivalent.
pub fn are_equivalent(left: &FirType, right: &FirType) -> bool
    ensures { result ≡ are_equivalent left.now right.now }
{
    equivalent(left, right)
}

/// Whether a literal of this kind, and of this width where it has one, may hold the number.
pub fn fits_literal(kind: Kind, width: Option<u128>, number: Number) -> bool
    ensures { result ≡ fits_literal kind width (integer_of_number number) }
{
    match (width, kind) {
        (Some(width), _) => fits(number, kind, width),
        (None, Kind::Unsigned) => !number.negative || number.magnitude == 0,
        (None, Kind::Signed) => true,
    }
}

/// Adds the fault, where the condition isn't met.
pub fn push_unless(
    faults: &mut Vec<TypeFault>,
    fine: bool,
    fault: TypeFault,
) -> Result<(), AllocError>
    ensures { OnOk result (faults.new.items ≡ faults.old.items ++ unless fine fault) }
{
    if !fine {
        faults.push(fault)?;
    }
    Ok(())
}

/// Adds the second fields of a name in each bundle of a type.
#[cycle(twice)]
pub fn push_twice(
    alloc: Global,
    faults: &mut Vec<TypeFault>,
    typ: &FirType,
) -> Result<(), AllocError>
    ensures { OnOk result (faults.new.items ≡ faults.old.items ++ twice_in typ.now) }
{
    let mut inside = typ;
    loop {
        match &inside.shape {
            Shape::Unsigned(_)
            | Shape::Signed(_)
            | Shape::Clock
            | Shape::Reset
            | Shape::AsyncReset => return Ok(()),
            Shape::Bundle(fields) => {
                push_seconds(alloc, faults, fields.as_slice())?;
                return push_twice_in(alloc, faults, fields.as_slice());
            }
            Shape::Vector(element, _) => inside = element.get(),
        }
    }
}

#[cycle(twice)]
fn push_twice_in(
    alloc: Global,
    faults: &mut Vec<TypeFault>,
    fields: &[Field],
) -> Result<(), AllocError>
    ensures { OnOk result (faults.new.items ≡ faults.old.items ++ flat_map (λ field. twice_in field.typ) fields.now) }
{
    for field in fields {
        push_twice(alloc, faults, &field.typ)?;
    }
    Ok(())
}

/// Adds the fields whose names other fields before them have.
fn push_seconds(
    alloc: Global,
    faults: &mut Vec<TypeFault>,
    fields: &[Field],
) -> Result<(), AllocError>
    ensures { OnOk result (faults.new.items ≡ faults.old.items ++ seconds_behind [] (map (λ field. field.name) fields.now)) }
{
    let mut ids = IndexSet::new(alloc);
    for field in fields {
        let (_index, added) = ids.insert_full(field.name.id)?;
        push_unless(faults, added, TypeFault::FieldTwice(field.name.place))?;
    }
    Ok(())
}

/// Adds the faults of the type of a register or of a memory's elements.
pub fn push_stored(
    alloc: Global,
    faults: &mut Vec<TypeFault>,
    typ: &FirType,
) -> Result<(), AllocError>
    ensures { OnOk result (faults.new.items ≡ faults.old.items ++ stored_faults typ.now) }
{
    push_twice(alloc, faults, typ)?;
    let signals = has_signal(typ);
    push_unless(faults, !signals, TypeFault::OperandKind(typ.place))?;
    push_unless(faults, is_passive(typ), TypeFault::NotPassive(typ.place))
}
