//! References among the components, what they lead to, and the classes of the types there.

ghost use Rattle.std.specs.Prelude.{IfSome};
ghost use Rattle.fir_types.specs.declared.fir_type.FirType.{FirType as AType};
ghost use Rattle.type_index.specs.Numbers.{HasNumber};
ghost use Rattle.type_index.specs.Sights.{table_of};
ghost use Rattle.module_table.specs.Leading.{IsReference, IsBehind, AreBehind, ClassBehind, ClassAlong, LeadsClass};

use crate::components::Noted;
use fir_tree::{Expr, Form, Suffix};
use indexmap::IndexMap;
use type_index::{Classes, Known};

/// A component, given by the number of its name, and the steps to one of its parts.
#[derive(Clone, Copy)]
pub struct Reference<'a> {
    pub name: u32,
    pub suffixes: &'a [Suffix],
}

/// The reference that an expression is, if it is one.
pub fn reference_of(expr: &Expr) -> Option<Reference<'_>>
    ensures { IfSome result (λ reference. IsReference expr.now reference.name reference.suffixes.now) }
{
    let Form::Ref(name, suffixes) = &expr.form else {
        return None;
    };
    Some(Reference {
        name: name.id,
        suffixes: suffixes.as_slice(),
    })
}

/// What is behind some steps.
pub fn part_along<'a>(base: Known<'a>, suffixes: &[Suffix]) -> Option<Known<'a>>
    ensures { IfSome result (λ there. AreBehind suffixes.now base.entry.typ.now there.typ.now) }
{
    let mut reached = base;
    for suffix in suffixes {
        reached = part_behind(reached, suffix)?;
    }
    Some(reached)
}

/// What is behind a step.
fn part_behind<'a>(base: Known<'a>, suffix: &Suffix) -> Option<Known<'a>>
    ensures { IfSome result (λ there. IsBehind suffix.now base.entry.typ.now there.typ.now) }
{
    match suffix {
        Suffix::Field(name) => {
            let found = base.field(name.id)?;
            Some(found.known())
        }
        Suffix::At(_, _, _) | Suffix::Index(_, _) => base.element(),
    }
}

/// The number of the class of the type to which a reference leads among these components, where it is known.
pub fn class_at(
    classes: &Classes,
    noted: &IndexMap<u32, Noted>,
    reference: Reference<'_>,
) -> Option<u32>
    ensures { IfSome result (LeadsClass (table_of classes.now) noted.now.entries reference.entry.name reference.entry.suffixes.now) }
{
    let noted = noted.get(&reference.name)?;
    let class = noted.class?;
    class_along(classes, class, reference.suffixes)
}

/// The number of what is behind some steps from types with a number.
fn class_along(classes: &Classes, base: u32, suffixes: &[Suffix]) -> Option<u32>
    ensures { IfSome result (λ class. (typ : AType) → HasNumber (table_of classes.now) typ base → ClassAlong (table_of classes.now) suffixes.now typ class) }
{
    let mut class = base;
    for suffix in suffixes {
        class = class_behind(classes, class, suffix)?;
    }
    Some(class)
}

/// The number of what is behind a step.
fn class_behind(classes: &Classes, class: u32, suffix: &Suffix) -> Option<u32>
    ensures { IfSome result (λ part. (typ : AType) → HasNumber (table_of classes.now) typ class → ClassBehind (table_of classes.now) suffix.now typ part) }
{
    match suffix {
        Suffix::Field(name) => classes.field(class, name.id),
        Suffix::At(_, _, _) | Suffix::Index(_, _) => classes.element(class),
    }
}
