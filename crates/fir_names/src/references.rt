//! The names that expressions refer to.

ghost use Rattle.std.specs.Prelude.{◌≡◌, ◌++◌, OnOk};
ghost use Rattle.std.specs.List.{flat_map};
ghost use Rattle.fir_names.specs.Extents.{references, suffix_references};

use fir_tree::{Expr, Form, Suffix};
use fir_types::Name;
use std::alloc::AllocError;

/// Adds the references of an expression in text order: a reference itself, and then those in its indices.
#[cycle(references)]
pub fn push_references(names: &mut Vec<Name>, expr: &Expr) -> Result<(), AllocError>
    ensures { OnOk result (names.new.items ≡ names.old.items ++ references expr.now) }
{
    match &expr.form {
        Form::Ref(name, suffixes) => {
            names.push(*name)?;
            push_suffixes(names, suffixes.as_slice())
        }
        Form::Literal(_, _, _) => Ok(()),
        Form::Prim(_, operands, _) | Form::Mux(operands) => push_all(names, operands.as_slice()),
    }
}

#[cycle(references)]
fn push_all(names: &mut Vec<Name>, exprs: &[Expr]) -> Result<(), AllocError>
    ensures { OnOk result (names.new.items ≡ names.old.items ++ flat_map references exprs.now) }
{
    for expr in exprs {
        push_references(names, expr)?;
    }
    Ok(())
}

#[cycle(references)]
fn push_suffixes(names: &mut Vec<Name>, suffixes: &[Suffix]) -> Result<(), AllocError>
    ensures { OnOk result (names.new.items ≡ names.old.items ++ flat_map suffix_references suffixes.now) }
{
    for suffix in suffixes {
        match suffix {
            Suffix::Field(_) | Suffix::At(_, _, _) => {}
            Suffix::Index(_, expr) => push_references(names, expr)?,
        }
    }
    Ok(())
}
