//! The measure of a circuit, or the fault that it is too large.

ghost use Rattle.std.specs.Prelude.{◌≡◌, sum, map};
ghost use Rattle.place_text.specs.Verdicts.{IsVerdict};
ghost use Rattle.fir_types.specs.Leaves.{count};
ghost use Rattle.size_check.specs.Caps.{cap};
ghost use Rattle.size_check.specs.Faults.{place_of, rank_of};
ghost use Rattle.size_check.specs.Limits.{IsFault, IsMeasure, ports_of, IsWithin};
ghost use Rattle.size_check.specs.Typings.{named};

use crate::fault::SizeFault;
use crate::measure::Measure;
use crate::rounds::measure;
use crate::sums::Total;
use fir_tree::Checked;
use fir_types::{Port, leaf_count};
use module_table::Modules;
use std::alloc::Global;

/// The measure of a circuit. A circuit that passes a limit is too large, at its name.
///
/// A module is measured once, however often it stands. Time and memory are in proportion to the circuit.
pub fn flat_measure(alloc: Global, checked: &Checked) -> Result<Measure, SizeFault>
    ensures { IsVerdict place_of rank_of (IsFault checked.now.resolved) (IsMeasure checked.now.resolved) result }
{
    let circuit = checked.resolved.get();
    let modules = Modules::new(alloc, &circuit.names, circuit.modules.as_slice())?;
    let total = measure(alloc, circuit, &modules)?;
    let ports = main_ports(&modules, circuit.main.id);
    match within_limits(total, ports) {
        Some(measure) => Ok(measure),
        None => Err(SizeFault::TooLarge(circuit.main.place)),
    }
}

/// The leaves of the ports of the first module of a name.
fn main_ports(modules: &Modules<'_>, name: u32) -> u128
    ensures { result ≡ cap (ports_of (named modules.now.all.now name)) }
{
    match modules.first(name) {
        Some(holder) => port_leaves(holder.ports.as_slice()),
        None => 0,
    }
}

fn port_leaves(ports: &[Port]) -> u128
    ensures { result ≡ cap (sum (map (λ port. count port.typ) ports.now)) }
{
    let mut total: u128 = 0;
    for port in ports {
        total = total.saturating_add(leaf_count(&port.typ));
    }
    total
}

/// These numbers as a measure, where none passes its limit.
fn within_limits(total: Total, ports: u128) -> Option<Measure>
    ensures { IsWithin total ports result }
{
    let Total { sums, depth } = total;
    let within = depth <= 32
        && sums.bytes <= 67_108_864
        && sums.leaves <= 65_536
        && ports <= 4_096
        && sums.size <= 1_000_000
        && sums.words <= 262_144;
    if !within {
        return None;
    }
    Some(Measure {
        leaves: sums.leaves as u32,
        names: sums.bytes as u32,
        size: sums.size as u32,
        state_words: sums.words as u32,
        depth: depth as u32,
    })
}
