//! Statements (FIRRTL specification 3.0, "Statements").

use crate::expr::Expr;
use bit_words::List;
use fir_types::{FirType, Memory, Name};
use place_text::Place;

/// A statement.
#[cycle(stmt)]
#[derive(Drop)]
pub enum Stmt {
    Wire(Name, FirType),
    /// A register with its clock.
    Reg(Name, FirType, Expr),
    /// A register with its clock, its reset and its value after a reset.
    RegReset(Name, FirType, Expr, Expr, Expr),
    Mem(Memory),
    /// An instance, and the name of its module.
    Inst(Name, Name),
    Node(Name, Expr),
    /// The driven side, and the source.
    Connect(Expr, Expr),
    Invalidate(Expr),
    /// The arms of `when` and each `else when` in order, and the statements of `else`.
    When(List<Arm>, List<Stmt>),
    Skip(Place),
}

/// An arm of a `when`.
#[cycle(stmt)]
#[derive(Drop)]
pub struct Arm {
    pub condition: Expr,
    pub body: List<Stmt>,
}
