//! A whole text.

ghost use Rattle.std.specs.Prelude.{◌≡◌, ℕ, ◌<◌, ◌≤◌, ◌^◌, ◌-◌, List, Option, Some, length, IfOk, IsErr, Err};
ghost use Rattle.shelf_io.specs.Outside.{Rose};
ghost use Rattle.shelf_io.specs.declared.take.TakeFault.TheVariants.{ReadFault, NoMemory};

use crate::traits::{Shelf, ShelfFailed};
use std::alloc::{AllocError, Global};
use thiserror::Error;

/// Why a text was not taken.
#[derive(Clone, Copy, Debug, PartialEq, Eq, Error)]
pub enum TakeFault {
    #[error("the text could not be read")]
    ReadFault,
    #[error("the text is longer than its limit")]
    TooLong,
    #[error("no memory is left")]
    NoMemory,
}

impl From<ShelfFailed> for TakeFault {
    ghost from_gives = { λ _ fault. fault ≡ ReadFault };

    fn from(_: ShelfFailed) -> TakeFault {
        TakeFault::ReadFault
    }
}

impl From<AllocError> for TakeFault {
    ghost from_gives = { λ _ fault. fault ≡ NoMemory };

    fn from(_: AllocError) -> TakeFault {
        TakeFault::NoMemory
    }
}

/// Opens the name and reads its text to the end: all of its bytes, at most `limit`. After a refusal the text may be open and
/// partly read.
pub fn take_text<H: Shelf>(
    alloc: Global,
    shelf: &mut H,
    name: &str,
    limit: usize,
) -> Result<Vec<u8>, TakeFault>
    requires { limit < 2 ^ 32 - 2 }
    ensures text { IfOk result (λ v. (texts : List ℕ → Option (List ℕ)) → H.held shelf.old ≡ Some texts → texts name.now ≡ Some v.items) }
    ensures short { IfOk result (λ v. length v.items ≤ limit) }

    // `TooLong` comes only where the told text is longer than the limit, and such a text is never taken.
    ensures too_long { result ≡ Err TakeFault.TooLong → (texts : List ℕ → Option (List ℕ)) → H.held shelf.old ≡ Some texts
        → (text : List ℕ) × (texts name.now ≡ Some text) × (limit < length text) }
    ensures refused { (texts : List ℕ → Option (List ℕ)) (text : List ℕ) → H.held shelf.old ≡ Some texts → texts name.now ≡ Some text
        → limit < length text → IsErr result }
    ensures fault { result ≡ Err TakeFault.ReadFault → Rose (H.faults shelf.old name.now) (H.faults shelf.new name.now) }

    ensures holds { H.held shelf.new ≡ H.held shelf.old }
    ensures never_falls { (n : List ℕ) → H.faults shelf.old n ≤ H.faults shelf.new n }
{
    shelf.open(name)?;
    let mut text = Vec::new(alloc);
    let mut buf = [0u8; 4096];
    'reading: while text.len() <= limit {
        let count = shelf.read(&mut buf)?;
        if count == 0 {
            return Ok(text);
        }
        text.extend_from_slice(&buf[..count])?;
    }
    Err(TakeFault::TooLong)
}
