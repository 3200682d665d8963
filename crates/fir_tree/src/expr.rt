//! Expressions (FIRRTL specification 3.0, "Expressions").

use bit_words::{Kind, List, Number};
use fir_types::Name;
use place_text::Place;
use prim_ops::Prim;

/// An expression, with the place of its first token.
#[cycle(expr)]
#[derive(Drop)]
pub struct Expr {
    pub place: Place,
    pub form: Form,
}

/// What an expression is.
#[cycle(expr)]
#[derive(Drop)]
pub enum Form {
    /// A component, and the way from it to one of its parts.
    Ref(Name, List<Suffix>),
    /// `UInt(n)` or `SInt(n)`, with the width of `UInt<w>(n)` where one is given.
    Literal(Kind, Option<u128>, Number),
    /// An operation with its operands and its parameters, as many as it takes.
    Prim(Prim, List<Expr>, List<u128>),
    /// `mux(condition, first, second)`: the three in this order.
    Mux(List<Expr>),
}

/// A step of a reference.
#[cycle(expr)]
#[derive(Drop)]
pub enum Suffix {
    /// `.f`
    Field(Name),
    /// `[3]`: the element of this number, with the place of the `[` and that of the number.
    At(Place, Place, u128),
    /// `[e]`: the element that the expression gives, with the place of the `[`.
    Index(Place, Expr),
}
