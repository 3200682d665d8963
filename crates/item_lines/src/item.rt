//! What the items of a module stand for.

ghost use Rattle.std.specs.Prelude.{◌≡◌, ◌+◌, ◌-◌, [], ◌<◌, ◌≤◌, ◌^◌, length, IfOk, OnOk};
ghost use Rattle.fir_tree.specs.Numbered.{IsDistinct};
ghost use Rattle.item_lines.specs.Items.{head_stmts, item_stmts, argument_nodes, one_bit, zero_bit, component, padded};
ghost use Rattle.item_lines.specs.Naming.{Keeps, IsNamed, IsMade};

use bit_words::{Kind, List, Number};
use fir_tree::{Expr, Form, Names, Stmt};
use fir_types::{FirType, Name, Shape};
use place_text::Place;
use prim_ops::Prim;
use std::alloc::{AllocError, Global};

/// The statements that stand for the item with this number at the beginning of its module's body: its wire, which is 0. No text
/// changes its number.
pub fn head_stmts(
    alloc: Global,
    names: &mut Names,
    number: u32,
    place: Place,
) -> Result<Vec<Stmt>, AllocError>
    requires { length names.old < 2 ^ 32 - 1 }
    ensures stmts { IfOk result (λ made. IsDistinct names.old → IsMade [] made.items names.new (head_stmts number place names.old)) }
    ensures names { Keeps names.old names.new }
{
    let text = format!(in alloc; "#{number}")?;
    let wire = add(names, text.as_str(), place)?;
    let mut made = Vec::new(alloc);
    made.push(Stmt::Wire(wire, one_bit(place)))?;
    made.push(Stmt::Connect(component(alloc, wire), zero_bit(place)))?;
    Ok(made)
}

/// The statements that stand for an item in its own place: a register under its clock, the connect of its condition, and a node for
/// each argument. No text changes its number.
pub fn item_stmts(
    alloc: Global,
    names: &mut Names,
    number: u32,
    place: Place,
    clock: Expr,
    condition: Expr,
    arguments: Vec<Expr>,
) -> Result<Vec<Stmt>, AllocError>
    requires { length names.old + length arguments.items + 2 < 2 ^ 32 }
    ensures stmts { IfOk result (λ made. IsDistinct names.old → IsMade [] made.items names.new (item_stmts number place clock condition arguments.items names.old)) }
    ensures names { Keeps names.old names.new }
{
    let text = format!(in alloc; "#{number}c")?;
    let register = add(names, text.as_str(), place)?;
    let text = format!(in alloc; "#{number}")?;
    let wire = add(names, text.as_str(), place)?;
    let mut made = Vec::new(alloc);
    made.push(Stmt::Reg(register, one_bit(place), clock))?;
    made.push(Stmt::Connect(component(alloc, wire), condition))?;
    push_nodes(&mut made, names, number, place, arguments)?;
    Ok(made)
}

/// Appends a node for each argument of an item.
fn push_nodes(
    made: &mut Vec<Stmt>,
    names: &mut Names,
    number: u32,
    place: Place,
    arguments: Vec<Expr>,
) -> Result<(), AllocError>
    requires { length names.old + length arguments.items < 2 ^ 32 }
    ensures nodes { OnOk result (IsDistinct names.old → IsMade made.old.items made.new.items names.new (argument_nodes number 0 place arguments.items names.old)) }
    ensures names { Keeps names.old names.new }
{
    let alloc = *made.allocator();
    let mut index: u32 = 0;
    for argument in arguments {
        let text = format!(in alloc; "#{number}a{index}")?;
        let node = add(names, text.as_str(), place)?;
        made.push(Stmt::Node(node, padded(alloc, argument)?))?;
        index += 1;
    }
    Ok(())
}

/// The name of a text, which is added where it is new.
fn add(names: &mut Names, text: &str, place: Place) -> Result<Name, AllocError>
    requires { length names.old < 2 ^ 32 - 1 }
    ensures named { IfOk result (λ name. IsDistinct names.old → IsNamed names.old names.new text.now place name) }
    ensures names { Keeps names.old names.new }
    ensures grows { length names.new ≤ length names.old + 1 }
{
    let id = names.add(text)?;
    Ok(Name { id, place })
}

/// `UInt<1>`
fn one_bit(place: Place) -> FirType
    ensures { result ≡ one_bit place }
{
    let shape = Shape::Unsigned(Some(1));
    FirType { place, shape }
}

/// `UInt<1>(0)`
fn zero_bit(place: Place) -> Expr
    ensures { result ≡ zero_bit place }
{
    let zero = Number {
        negative: false,
        magnitude: 0,
    };
    let form = Form::Literal(Kind::Unsigned, Some(1), zero);
    Expr { place, form }
}

/// A reference to a component.
fn component(alloc: Global, name: Name) -> Expr
    ensures { result ≡ component name }
{
    let form = Form::Ref(name, List::new(alloc));
    Expr {
        place: name.place,
        form,
    }
}

/// `pad(e, 0)`, at the place of e.
fn padded(alloc: Global, e: Expr) -> Result<Expr, AllocError>
    ensures { IfOk result (λ it. it ≡ padded e) }
{
    let place = e.place;
    let mut operands = List::new(alloc);
    operands.push(e)?;
    let mut parameters = List::new(alloc);
    parameters.push(0)?;
    let form = Form::Prim(Prim::Pad, operands, parameters);
    Ok(Expr { place, form })
}
