//! Lines.

use bit_words::List;
use fir_tree::{Expr, Piece, Stmt};
use fir_types::{Name, Port};
use place_text::Place;

/// A statement as a text writes it.
#[cycle(line)]
#[derive(Drop)]
pub enum Line {
    /// A statement without a block.
    Plain(Stmt),
    /// A `when`: its arms, and the lines of its `else`.
    Branch(List<LineArm>, List<Line>),
    /// A `printf` with its place, its clock, its condition, its format and its arguments.
    Print(Place, Expr, Expr, List<Piece>, List<Expr>),
    /// A `stop` with its place, its clock, its condition and its code.
    Stop(Place, Expr, Expr, u128),
}

/// An arm of a `when`.
#[cycle(line)]
#[derive(Drop)]
pub struct LineArm {
    pub condition: Expr,
    pub body: List<Line>,
}

/// A module.
#[derive(Drop)]
pub struct LineModule {
    pub name: Name,
    pub ports: List<Port>,
    pub body: List<Line>,
}
