//! What a run writes.

ghost use Rattle.std.specs.Prelude.{◌≡◌, List as Listed, ◌++◌, IfOk, OnOk, IfSome, option_copied};
ghost use Rattle.bit_words.specs.declared.value.Value.{Value as OneValue};
ghost use Rattle.row_texts.specs.Tellings.{Telling};

use bit_words::Row;
use std::alloc::{AllocError, Global};

/// Where a text stands behind some rows.
#[derive(Drop)]
pub struct Spot {
    /// The number of the next cycle.
    pub cycle: u64,
    /// The last row, where there is one.
    pub before: Option<Row>,
    /// The last byte of the rows' texts, where there is one.
    pub byte: Option<u8>,
}

/// What the rows of a run write: a head, a text for each row, and an end. A row may end the run, and then later ones write nothing.
pub trait Teller {
    /// The texts.
    ghost tells: { Self → Telling };

    /// The row can be told.
    ghost reads: { Self → Listed OneValue → Type 0 };

    /// What stands before the first row's text.
    fn head(&self, alloc: Global) -> Result<Vec<u8>, AllocError>
        ensures { IfOk result (λ bytes. bytes.items ≡ (tells self.now).head) };

    /// Adds the text of a row, by the number of its cycle and the row before it.
    fn push_row(
        &self,
        text: &mut Vec<u8>,
        cycle: u64,
        before: Option<&Row>,
        row: &Row,
    ) -> Result<(), AllocError>
        requires row { reads self.now row.now }
        requires before { IfSome (option_copied before) (reads self.now) }
        ensures { OnOk result (text.new.items ≡ text.old.items ++ (tells self.now).row cycle (option_copied before.entry) row.now) };

    /// Whether the run ends behind the row.
    fn ends(&self, row: &Row) -> bool
        requires { reads self.now row.now }
        ensures { result ≡ (tells self.now).ends row.now };

    /// What stands behind the last row's text.
    fn foot(&self, alloc: Global, spot: &Spot) -> Result<Vec<u8>, AllocError>
        requires { IfSome spot.now.before (reads self.now) }
        ensures { IfOk result (λ bytes. bytes.items ≡ (tells self.now).foot spot.now.cycle spot.now.before spot.now.byte) };
}
