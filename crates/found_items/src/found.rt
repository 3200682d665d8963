//! Items that are found.

ghost use Rattle.std.specs.Prelude.{◌≡◌, ◌<◌, Some, length, slice_get};

use bit_words::List;
use fir_tree::PrintItem;

/// An item of a run.
#[derive(Drop)]
pub struct ItemAt {
    /// Its number among the items of the circuit.
    pub item: usize,
    /// The numbers of its leaves: of its wire, and of the nodes of its arguments in order.
    pub leaves: List<u32>,
}

/// The item of a number among those of a circuit.
pub fn item_at(prints: &[PrintItem], number: usize) -> &PrintItem
    requires { number < length prints.now }
    ensures { slice_get prints.now number ≡ Some result.now }
{
    let Some(print) = prints.get(number) else {
        unreachable!();
    };
    print
}
