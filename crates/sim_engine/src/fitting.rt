//! The stages up to the widths.

ghost use Rattle.std.specs.Prelude.{◌≡◌, ◌⊎◌, ◌≤◌, None, IfOk, IfErr, length};
ghost use Rattle.width_fit.specs.Faults.{place_of};
ghost use Rattle.width_fit.specs.Fitting.{IsFit};
ghost use Rattle.sim_engine.specs.Unfit.{IsUnfit};
ghost use Rattle.sim_engine.specs.Stages.{circuit_limit, IsParsed, IsFitted, IsGiven};

use crate::fault::CircuitFault;
use bit_words::Shared;
use fir_layout::lay_out;
use fir_lexer::lex;
use fir_names::resolve;
use fir_parser::parse;
use fir_tree::{Checked, Circuit, Fitted};
use reset_resolution::resolved_circuit;
use size_check::flat_measure;
use std::alloc::Global;
use type_check::check;
use width_fit::{WidthFault, judge};
use width_solver::{rules_of, solve};

/// The circuit of a text with the types that its least widths give, or the text's first fault up to the widths.
pub fn fit_text(alloc: Global, bytes: &[u8]) -> Result<Fitted, CircuitFault>
    requires { length bytes.now ≤ circuit_limit }
    ensures fits { IfOk result (IsFitted bytes.now) }
    ensures fault { IfErr result (IsGiven bytes.now) }
{
    let spelled = parse_text(alloc, bytes)?;
    let scope = resolve(alloc, &spelled)?;
    let circuit = Shared::new(alloc, spelled)?;
    let resolved = resolved_circuit(alloc, &circuit)?;
    let types = check(alloc, resolved.get(), &scope)?;
    let checked = Checked {
        circuit,
        resolved,
        scope,
        types,
    };
    flat_measure(alloc, &checked)?;
    let fitted = fit_widths(alloc, checked)?;
    Ok(fitted)
}

/// The circuit that a text spells, or the text's first fault up to the grammar. Tokens and laid list are dropped here: the later stages
/// take their memory without them.
fn parse_text(alloc: Global, bytes: &[u8]) -> Result<Circuit, CircuitFault>
    requires { length bytes.now ≤ circuit_limit }
    ensures parsed { IfOk result (IsParsed bytes.now) }
    ensures fault { IfErr result (IsGiven bytes.now) }
{
    let tokens = lex(alloc, bytes)?;
    let laid = lay_out(alloc, bytes, &tokens)?;
    let circuit = parse(alloc, bytes, &laid)?;
    Ok(circuit)
}

/// The circuit with the types that its least widths give, or the first fault of its widths.
fn fit_widths(alloc: Global, checked: Checked) -> Result<Fitted, WidthFault>
    ensures ok { IfOk result (IsFit checked) }
    ensures fault { IfErr result (λ fault. (place_of fault ≡ None) ⊎ IsUnfit checked fault) }
{
    let rules = rules_of(alloc, &checked)?;
    let widths = solve(alloc, &rules)?;
    judge(alloc, checked, &rules, &widths)
}
