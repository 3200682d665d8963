//! Parts of a circuit once more.

ghost use Rattle.std.specs.Prelude.{◌≡◌, IfOk};

use bit_words::List;
use fir_tree::{Expr, Form, Piece, PrintItem, Suffix};
use std::alloc::{AllocError, Global};

/// An expression once more. Takes time and memory in proportion to it.
#[cycle(copy)]
pub fn copy_expr(alloc: Global, expr: &Expr) -> Result<Expr, AllocError>
    ensures { IfOk result (λ copied. copied ≡ expr.now) }
{
    Ok(Expr {
        place: expr.place,
        form: copy_form(alloc, &expr.form)?,
    })
}

#[cycle(copy)]
fn copy_form(alloc: Global, form: &Form) -> Result<Form, AllocError>
    ensures { IfOk result (λ copied. copied ≡ form.now) }
{
    match form {
        Form::Ref(name, suffixes) => {
            let copied = copy_suffixes(alloc, suffixes.as_slice())?;
            Ok(Form::Ref(*name, copied))
        }
        Form::Literal(kind, width, number) => Ok(Form::Literal(*kind, *width, *number)),
        Form::Prim(prim, operands, params) => {
            let copied = copy_exprs(alloc, operands.as_slice())?;
            let params = List::from_slice(alloc, params.as_slice())?;
            Ok(Form::Prim(*prim, copied, params))
        }
        Form::Mux(operands) => {
            let copied = copy_exprs(alloc, operands.as_slice())?;
            Ok(Form::Mux(copied))
        }
    }
}

#[cycle(copy)]
fn copy_exprs(alloc: Global, exprs: &[Expr]) -> Result<List<Expr>, AllocError>
    ensures { IfOk result (λ copied. copied ≡ exprs.now) }
{
    let mut copied = List::new(alloc);
    for expr in exprs {
        copied.push(copy_expr(alloc, expr)?)?;
    }
    Ok(copied)
}

#[cycle(copy)]
fn copy_suffixes(alloc: Global, suffixes: &[Suffix]) -> Result<List<Suffix>, AllocError>
    ensures { IfOk result (λ copied. copied ≡ suffixes.now) }
{
    let mut copied = List::new(alloc);
    for suffix in suffixes {
        copied.push(copy_suffix(alloc, suffix)?)?;
    }
    Ok(copied)
}

#[cycle(copy)]
fn copy_suffix(alloc: Global, suffix: &Suffix) -> Result<Suffix, AllocError>
    ensures { IfOk result (λ copied. copied ≡ suffix.now) }
{
    match suffix {
        Suffix::Field(name) => Ok(Suffix::Field(*name)),
        Suffix::At(bracket, place, number) => Ok(Suffix::At(*bracket, *place, *number)),
        Suffix::Index(bracket, index) => Ok(Suffix::Index(*bracket, copy_expr(alloc, index)?)),
    }
}

/// The items of a circuit once more.
pub fn copy_prints(alloc: Global, prints: &[PrintItem]) -> Result<List<PrintItem>, AllocError>
    ensures { IfOk result (λ copied. copied ≡ prints.now) }
{
    let mut copied = List::new(alloc);
    for item in prints {
        copied.push(PrintItem {
            module: item.module,
            number: item.number,
            stop: item.stop,
            pieces: copy_pieces(alloc, item.pieces.as_slice())?,
        })?;
    }
    Ok(copied)
}

fn copy_pieces(alloc: Global, pieces: &[Piece]) -> Result<List<Piece>, AllocError>
    ensures { IfOk result (λ copied. copied ≡ pieces.now) }
{
    let mut copied = List::new(alloc);
    for piece in pieces {
        copied.push(copy_piece(alloc, piece)?)?;
    }
    Ok(copied)
}

fn copy_piece(alloc: Global, piece: &Piece) -> Result<Piece, AllocError>
    ensures { IfOk result (λ copied. copied ≡ piece.now) }
{
    match piece {
        Piece::Bytes(bytes) => Ok(Piece::Bytes(List::from_slice(alloc, bytes.as_slice())?)),
        Piece::Show(radix) => Ok(Piece::Show(*radix)),
    }
}
