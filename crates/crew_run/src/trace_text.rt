//! The trace.

ghost use Rattle.std.specs.Prelude.{◌≡◌, ◌<◌, ⊤, length, All, IfOk};
ghost use Rattle.crew_run.specs.TraceTexts.{names_at, telling_of_names};

use bit_words::{List, Row, Text};
use ground_net::Leaf;
use row_texts::{Spot, Teller};
use std::alloc::{AllocError, Global};
use trace_print::{header, push_trace_line};

/// The trace of leaves of these names: their names, and then a line for each cycle with its number and their values.
#[derive(Drop)]
pub struct TraceText {
    /// The names of the leaves.
    pub names: List<Text>,
}

impl Teller for TraceText {
    ghost tells = { λ t. telling_of_names t.names };

    ghost reads = { λ t row. ⊤ };

    fn head(&self, alloc: Global) -> Result<Vec<u8>, AllocError> {
        header(alloc, &self.names)
    }

    fn push_row(
        &self,
        text: &mut Vec<u8>,
        cycle: u64,
        before: Option<&Row>,
        row: &Row,
    ) -> Result<(), AllocError> {
        let _ = before;
        push_trace_line(text, cycle, row)
    }

    fn ends(&self, row: &Row) -> bool {
        let _ = row;
        false
    }

    fn foot(&self, alloc: Global, spot: &Spot) -> Result<Vec<u8>, AllocError> {
        let _ = spot;
        Ok(Vec::new(alloc))
    }
}

/// The names of the leaves of these numbers.
pub fn names_of(alloc: Global, leaves: &[Leaf], watch: &[u32]) -> Result<List<Text>, AllocError>
    requires { All (λ x. x < length leaves.now) watch.now }
    ensures { IfOk result (λ names. names ≡ names_at leaves.now watch.now) }
{
    let mut names = List::new(alloc);
    for number in watch {
        let leaf = &leaves[*number as usize];
        names.push(List::from_slice(alloc, leaf.name.as_slice())?)?;
    }
    Ok(names)
}
