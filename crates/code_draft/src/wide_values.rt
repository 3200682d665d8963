//! Wide values.

ghost use Rattle.std.specs.Prelude.{◌≡◌, ◌≤◌, ◌<◌, ◌+◌, Some, All, IfOk, OnOk};
ghost use Rattle.flat_code.specs.Fine.{form_shape, location_shapes, InRegion, region_of, location_slots, slots_of};
ghost use Rattle.ground_net.specs.Shapes.{shaped};
ghost use Rattle.code_draft.specs.Drafts.{IsDraft, Makes, Stands, IsForm};
ghost use Rattle.code_draft.specs.Segments.{Step};

use crate::draft::Draft;
use crate::steps::{add_instr, add_wide, instr_of, new_location};
use bit_words::{Kind, List};
use flat_code::{Form, Location, Op, Wide};
use std::alloc::AllocError;

/// The value of a form on what stands at these locations, where it has this kind and this width of at most 128.
pub fn wide_value(
    draft: &mut Draft,
    form: Form,
    operands: List<Location>,
    kind: Kind,
    width: u8,
) -> Result<Location, AllocError>
    requires { width ≤ 128 }
    ensures shape { IfOk result (λ s. s.kind ≡ kind) }
    ensures width { IfOk result (λ s. s.width ≡ width) }
    ensures slots { OnOk result (draft.new.slots ≤ draft.old.slots + 2) }
    ensures makes { IfOk result (λ s. IsDraft draft.old → All (Stands draft.old) operands → form_shape form s (location_shapes operands) ≡ Some (shaped kind width) → InRegion draft.old.words width (region_of form) → Makes draft.old draft.new s (IsForm form s operands (shaped kind width))) }
    ensures step { IfOk result (λ s. Step draft.old draft.new (slots_of operands) (location_slots s) 2) }
{
    let target = new_location(draft, kind, width)?;
    let number = add_wide(
        draft,
        Wide {
            form,
            operands,
            target,
        },
    )?;
    add_instr(draft, instr_of(Op::Wide, number))?;
    Ok(target)
}
