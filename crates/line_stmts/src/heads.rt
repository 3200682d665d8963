//! The statements that items stand for at the beginning of their module's body.

ghost use Rattle.std.specs.Prelude.{◌≡◌, ◌<◌, ◌^◌, [], length, IfOk};
ghost use Rattle.fir_tree.specs.Numbered.{IsDistinct};
ghost use Rattle.item_lines.specs.Items.{heads};
ghost use Rattle.item_lines.specs.Naming.{IsMade};

use crate::walk::{append, has_room};
use bit_words::List;
use fir_tree::{Names, Stmt};
use item_lines::head_stmts;
use place_text::Place;
use std::alloc::{AllocError, Global};

/// The statements of items at these places, numbered from 0.
pub fn heads_of(
    alloc: Global,
    names: &mut Names,
    places: &[Place],
) -> Result<List<Stmt>, AllocError>
    requires { length places.now < 2 ^ 32 }
    ensures { IfOk result (λ made. IsDistinct names.old → IsMade [] made names.new (heads 0 places.now names.old)) }
{
    let mut made = List::new(alloc);
    let mut number = 0;
    for place in places {
        if !has_room(names, 0) {
            return Err(AllocError);
        }
        let statements = head_stmts(alloc, names, number, *place)?;
        append(&mut made, List::from_vec(statements))?;
        number += 1;
    }
    Ok(made)
}
