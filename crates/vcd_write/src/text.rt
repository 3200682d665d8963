//! The dump as a text of rows.

ghost use Rattle.std.specs.List.{AllZip};
ghost use Rattle.vcd_write.specs.Reading.{IsOfLeaf};
ghost use Rattle.vcd_write.specs.Pieces.{dump_telling};

use crate::dump::{front, push_cycle, vcd_end};
use bit_words::{List, Row};
use ground_net::PortLeaf;
use row_texts::{Spot, Teller};
use std::alloc::{AllocError, Global};

/// The dump of these variables, in a scope of this name: its front, what each row adds behind the row before it, and its end.
#[derive(Clone, Copy)]
pub struct DumpText<'a> {
    /// The bytes of the scope's name.
    pub top: &'a [u8],
    pub vars: &'a List<PortLeaf>,
}

impl Teller for DumpText<'_> {
    ghost tells = { λ t. dump_telling t.top.now t.vars.now };

    ghost reads = { λ t row. AllZip IsOfLeaf t.vars.now row };

    fn head(&self, alloc: Global) -> Result<Vec<u8>, AllocError> {
        front(alloc, self.top, self.vars)
    }

    fn push_row(
        &self,
        text: &mut Vec<u8>,
        cycle: u64,
        before: Option<&Row>,
        row: &Row,
    ) -> Result<(), AllocError> {
        push_cycle(text, cycle, before, row)
    }

    fn ends(&self, _row: &Row) -> bool {
        false
    }

    fn foot(&self, alloc: Global, spot: &Spot) -> Result<Vec<u8>, AllocError> {
        vcd_end(alloc, spot.cycle)
    }
}
