//! The fitted types of a circuit, or the first fault of its widths.

ghost use Rattle.std.specs.Prelude.{◌≡◌, length};
ghost use Rattle.width_rules.specs.Circuits.{rules_in};
ghost use Rattle.width_rules.specs.Solutions.{IsLeast};
ghost use Rattle.width_fit.specs.Judging.{told_of};
ghost use Rattle.width_fit.specs.Fitting.{IsFitted};
ghost use Rattle.width_fit.specs.Faults.{IsFault, place_of, rank_of};
ghost use Rattle.place_text.specs.Verdicts.{IsVerdict};

use crate::fault::WidthFault;
use crate::found::Findings;
use crate::telling::tell;
use bit_words::List;
use fir_tree::{Checked, Fitted};
use place_text::earliest;
use std::alloc::Global;
use width_rules::{Rules, Widths};

/// The types of all declarations and expressions with their widths, or the first fault of the widths by place, and at one
/// place by kind (FIRRTL specification 3.0, "Width Inference"). Faults are told only of modules that the main module reaches.
///
/// The rules are those of the circuit, and the widths their least. Takes time and memory in proportion to the circuit and the
/// types that it answers. After a refusal the circuit is dropped.
pub fn judge(
    alloc: Global,
    checked: Checked,
    rules: &Rules,
    widths: &Widths,
) -> Result<Fitted, WidthFault>
    requires rules { rules.now ≡ rules_in checked.resolved }
    requires widths { IsLeast rules.now.rules (length rules.now.places) widths.now }
    ensures { IsVerdict place_of rank_of (IsFault checked widths.now) (IsFitted checked widths.now) result }
{
    let (declared, found) = tell(alloc, &checked, rules, widths)?;
    let Findings {
        nodes,
        faults,
        made: _,
    } = found;
    match earliest(faults.as_slice()) {
        Some(first) => Err(first),
        None => Ok(Fitted {
            checked,
            declared: List::from_vec(declared),
            nodes: List::from_vec(nodes),
        }),
    }
}
