//! The circuit's text, through all stages.

ghost use Rattle.std.specs.Prelude.{◌≡◌, ◌⊎◌, ◌≤◌, Some, IfOk, IfErr, MatchResult, length};
ghost use Rattle.place_text.specs.declared.place.Place.{Place as APlace};
ghost use Rattle.fir_tree.specs.declared.scope.Fitted.{Fitted as FittedCircuit};
ghost use Rattle.fir_meaning.specs.Components.{design_of};
ghost use Rattle.sim_engine.specs.Building.{IsBuilt};
ghost use Rattle.sim_engine.specs.Stages.{circuit_limit, IsAccepted, IsFirstFault, IsGiven};
ghost use Rattle.sim_engine.specs.Faults.{fault_place};
ghost use Rattle.sim_engine.specs.declared.fault.CircuitFault.{CircuitFault as AFault};
ghost use Rattle.sim_engine.specs.declared.fault.CircuitFault.TheVariants.{NoMemory as No_memory};

use crate::fault::CircuitFault;
use crate::fitting::fit_text;
use crate::laws::accepted_circuits_are_well_formed;
use crate::ordering::ordered_net;
use drive_check::covered;
use drive_check::laws::initialized_circuits_have_no_fault;
use fir_tree::Fitted;
use ground_net::{Ordered, Ports, ports_of};
use one_clock::clocks;
use std::alloc::Global;

/// The greatest length of a circuit's text in bytes.
pub const CIRCUIT_LIMIT: usize = 16_777_216;

/// A circuit without a fault, and the net that serves it, with its assignments in an order.
#[derive(Drop)]
pub struct Built {
    /// The circuit, with what its names mean and the types of all its parts.
    pub fitted: Fitted,
    pub ordered: Ordered,
    /// The leaves of main's ports.
    pub ports: Ports,
}

/// What a text compiles to, or the text's first fault.
///
/// Takes time and memory in proportion to the text, to what it answers, and to the work of the stages.
pub fn compile_text(alloc: Global, bytes: &[u8]) -> Result<Built, CircuitFault>
    requires { length bytes.now ≤ circuit_limit }
    ensures built { IfOk result (IsBuilt bytes.now) }
    ensures fault { IfErr result (λ fault. (fault ≡ No_memory) ⊎ IsFirstFault bytes.now fault) }
    // want of memory is said by one variant alone: every other fault has its place
    ensures placed { IfErr result (λ fault. (fault ≡ No_memory) ⊎ ((there' : APlace) × (fault_place fault ≡ Some there'))) }
    // a text that passes all stages is refused for want of memory alone
    ensures accepts { (fitted : FittedCircuit) → IsAccepted bytes.now fitted → MatchResult result (λ built. design_of built.fitted ≡ design_of fitted) (λ fault. fault ≡ No_memory) }
    // and a text with a fault is answered by its first one, or by want of memory
    ensures refuses { (first : AFault) → IsFirstFault bytes.now first → MatchResult result (λ built. ⊥) (λ fault. (fault ≡ No_memory) ⊎ (fault ≡ first)) }
{
    pass_stages(alloc, bytes)
}

fn pass_stages(alloc: Global, bytes: &[u8]) -> Result<Built, CircuitFault>
    requires { length bytes.now ≤ circuit_limit }
    ensures built { IfOk result (IsBuilt bytes.now) }
    ensures fault { IfErr result (IsGiven bytes.now) }
{
    accepted_circuits_are_well_formed();
    initialized_circuits_have_no_fault();
    let fitted = fit_text(alloc, bytes)?;
    covered(alloc, &fitted)?;
    clocks(alloc, &fitted)?;
    let ordered = ordered_net(alloc, &fitted)?;
    let ports = ports_of(alloc, &ordered.net)?;
    Ok(Built {
        fitted,
        ordered,
        ports,
    })
}
