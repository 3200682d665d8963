//! Rules and formulas over width variables (FIRRTL specification 3.0, "Width Inference").

use bit_words::{Kind, List, SharedList};
use place_text::Place;
use prim_ops::Prim;

/// A width, by the variables.
#[derive(Drop)]
pub enum Formula {
    /// This many bits, where 129 stands for any number past 128.
    Fixed(u8),
    /// The variable of this number.
    Var(u32),
    /// The width of an operation's result: the kinds and the widths of its operands, and its parameters.
    Op(Prim, SharedList<Kind>, SharedList<Formula>, SharedList<u128>),
    /// The greatest of some widths.
    Greatest(SharedList<Formula>),
}

/// The variable `target` is at least the formula.
#[derive(Drop)]
pub struct Rule {
    pub target: u32,
    pub formula: Formula,
}

// A wide bundle in many nodes gives a rule for each of its places in each of them, so a rule is kept small.
const _: () = prove!(size_of::<Rule>() <= 40);

/// The rules of a circuit.
#[derive(Drop)]
pub struct Rules {
    /// For each variable the place of the component that it belongs to. Variables are numbered from 0: first those of the
    /// ports of all modules, then those of the bodies, each in text order.
    pub places: List<Place>,
    pub rules: List<Rule>,
}
