//! Circuits and modules (FIRRTL specification 3.0, "Circuits and Modules").

use crate::names::Names;
use crate::print::PrintItem;
use crate::stmt::Stmt;
use bit_words::List;
use fir_types::{Name, Port};

/// A circuit as its text says it.
#[derive(Drop)]
pub struct Circuit {
    /// The texts of all names. The fields of memory ports have the numbers 0 to 8: `addr`, `en`, `clk`, `data`,
    /// `mask`, `rdata`, `wmode`, `wdata`, `wmask`.
    pub names: Names,
    /// The circuit's name, which is that of its main module.
    pub main: Name,
    pub modules: List<Module>,
    /// The items of all modules: `printf` and `stop`.
    pub prints: List<PrintItem>,
}

/// A module.
#[derive(Drop)]
pub struct Module {
    pub name: Name,
    pub ports: List<Port>,
    pub body: List<Stmt>,
}
