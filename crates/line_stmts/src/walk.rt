//! The statements that lines stand for in their own places.

ghost use Rattle.std.specs.Prelude.{◌≡◌, ◌+◌, ◌<◌, ◌^◌, ◌++◌, ◌∷◌, [], length, map, IfOk, OnOk, IsTrue};
ghost use Rattle.item_lines.specs.Items.{in_order, in_block, stmts_of, the_item};
ghost use Rattle.item_lines.specs.Lines.{arm_of};
ghost use Rattle.line_stmts.specs.Walks.{Makes};

use crate::maker::Maker;
use bit_words::List;
use fir_tree::{Arm, Expr, Names, Piece, PrintItem, Stmt};
use item_lines::{Line, LineArm, item_stmts};
use place_text::Place;
use std::alloc::{AllocError, Global};

/// The statements of lines in order.
#[cycle(walk)]
pub fn statements_of(
    alloc: Global,
    maker: &mut Maker,
    lines: List<Line>,
) -> Result<List<Stmt>, AllocError>
    ensures { IfOk result (λ made. Makes (in_block (map stmts_of lines)) maker.old maker.new made) }
{
    let mut made = List::new(alloc);
    for line in lines.into_vec() {
        let statements = statements_of_line(alloc, maker, line)?;
        append(&mut made, statements)?;
    }
    Ok(made)
}

#[cycle(walk)]
fn statements_of_line(
    alloc: Global,
    maker: &mut Maker,
    line: Line,
) -> Result<List<Stmt>, AllocError>
    ensures { IfOk result (λ made. Makes (stmts_of line) maker.old maker.new made) }
{
    match line {
        Line::Plain(statement) => alone(alloc, statement),
        Line::Branch(arms, other) => {
            let arms = arms_of(alloc, maker, arms)?;
            let other = statements_of(alloc, maker, other)?;
            alone(alloc, Stmt::When(arms, other))
        }
        Line::Print(place, clock, condition, pieces, arguments) => {
            let call = Call {
                place,
                clock,
                condition,
                arguments,
            };
            item(alloc, maker, call, None, pieces)
        }
        Line::Stop(place, clock, condition, code) => {
            let call = Call {
                place,
                clock,
                condition,
                arguments: List::new(alloc),
            };
            item(alloc, maker, call, Some(code), List::new(alloc))
        }
    }
}

/// The arms of a `when` in order.
#[cycle(walk)]
fn arms_of(alloc: Global, maker: &mut Maker, arms: List<LineArm>) -> Result<List<Arm>, AllocError>
    ensures { IfOk result (λ made. Makes (in_order (map arm_of arms)) maker.old maker.new made) }
{
    let mut made = List::new(alloc);
    for arm in arms.into_vec() {
        let LineArm { condition, body } = arm;
        let body = statements_of(alloc, maker, body)?;
        made.push(Arm { condition, body })?;
    }
    Ok(made)
}

/// The list of one statement.
fn alone(alloc: Global, statement: Stmt) -> Result<List<Stmt>, AllocError>
    ensures { IfOk result (λ made. made ≡ statement ∷ []) }
{
    let mut made = List::new(alloc);
    made.push(statement)?;
    Ok(made)
}

/// Appends statements.
pub fn append(made: &mut List<Stmt>, more: List<Stmt>) -> Result<(), AllocError>
    ensures { OnOk result (made.new ≡ made.old ++ more) }
{
    for statement in more.into_vec() {
        made.push(statement)?;
    }
    Ok(())
}

/// An item as its text writes it: where it stands, its clock, its condition and its arguments.
#[derive(Drop)]
struct Call {
    place: Place,
    clock: Expr,
    condition: Expr,
    arguments: List<Expr>,
}

/// The statements of an item in its own place.
fn item(
    alloc: Global,
    maker: &mut Maker,
    call: Call,
    stop: Option<u128>,
    pieces: List<Piece>,
) -> Result<List<Stmt>, AllocError>
    ensures { IfOk result (λ made. Makes (the_item call.place call.clock call.condition call.arguments stop pieces) maker.old maker.new made) }
{
    let Ok(number) = u32::try_from(maker.places.len()) else {
        return Err(AllocError);
    };
    let Call {
        place,
        clock,
        condition,
        arguments,
    } = call;
    if !has_room(&maker.names, arguments.len()) {
        return Err(AllocError);
    }
    let arguments = arguments.into_vec();
    let made = item_stmts(
        alloc,
        &mut maker.names,
        number,
        place,
        clock,
        condition,
        arguments,
    )?;
    maker.places.push(place)?;
    let module = maker.module;
    maker.prints.push(PrintItem {
        module,
        number,
        stop,
        pieces,
    })?;
    Ok(List::from_vec(made))
}

/// Whether names have room for two more and for so many.
pub fn has_room(names: &Names, more: usize) -> bool
    ensures { IsTrue result → length names.now + more + 2 < 2 ^ 32 }
{
    let Ok(more) = u32::try_from(more) else {
        return false;
    };
    let Some(last) = 0xffff_fffd_u32.checked_sub(more) else {
        return false;
    };
    names.get(last).is_none()
}
