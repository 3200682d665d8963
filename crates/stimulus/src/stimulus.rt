//! Stimuli as data.

use bit_words::{List, Value};

/// How many cycles a run has, and what its inputs are set to, cycle by cycle.
#[derive(Drop)]
pub struct Stimulus {
    pub cycles: u64,
    pub settings: List<Setting>,
}

/// An input takes a value in a cycle and keeps it until it is set again. Inputs are counted from 0 in the order of
/// `Ports::inputs`.
#[derive(Clone, Copy)]
pub struct Setting {
    pub cycle: u64,
    pub input: u32,
    pub value: Value,
}
