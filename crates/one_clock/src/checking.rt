//! Whether a circuit has one clock.

ghost use Rattle.std.specs.Prelude.{IfOk};
ghost use Rattle.place_text.specs.Verdicts.{IsVerdict};
ghost use Rattle.fir_meaning.specs.Components.{design_of};
ghost use Rattle.fir_meaning.specs.ClockRoot.{HasOneClock};
ghost use Rattle.circuit_laws.specs.WellFormed.{IsWellFormed};
ghost use Rattle.clock_check.specs.Clocked.{IsFault};
ghost use Rattle.clock_check.specs.Faults.{place_of, rank_of};
ghost use Rattle.one_clock.specs.Judged.{Judges};

use crate::chains::rooted_leaves;
use crate::judging::faults_of;
use crate::places::places_of;
use crate::table::table_of;
use circuit_laws::laws::{components_are_named, modules_are_named, reached_modules_stand_at_paths};
use clock_check::fault::ClockFault;
use clock_check::laws::{
    edges_are_links, faults_hang, instances_are_those_of_components, links_stand_at_paths,
    no_fault_has_one_clock, searches_find_what_is_rooted,
};
use fir_tree::Fitted;
use place_text::earliest;
use std::alloc::{AllocError, Global};

/// Ok where the clock of each register and of each memory port leads to main's first Clock input, at every path (FIRRTL specification
/// 3.0, "Clock" under "Ground Types"). Else the first fault by place.
///
/// Takes time and memory in proportion to the Clock leaves, registers and memory ports of the run, each with the length of its path, and
/// to the statements and leaves of each module.
pub fn clocks(alloc: Global, fitted: &Fitted) -> Result<(), ClockFault>
    requires { IsWellFormed fitted.now }
    ensures { IsVerdict place_of rank_of (IsFault fitted.now) (λ passed. HasOneClock (design_of fitted.now)) result }
{
    no_fault_has_one_clock();
    let faults = find(alloc, fitted)?;
    match earliest(faults.as_slice()) {
        Some(first) => Err(first),
        None => Ok(()),
    }
}

/// All faults of clocks.
fn find(alloc: Global, fitted: &Fitted) -> Result<Vec<ClockFault>, AllocError>
    requires { IsWellFormed fitted.now }
    ensures { IfOk result (λ faults. Judges fitted.now faults.items) }
{
    components_are_named();
    modules_are_named();
    reached_modules_stand_at_paths();
    edges_are_links();
    links_stand_at_paths();
    instances_are_those_of_components();
    searches_find_what_is_rooted();
    faults_hang();
    let main = fitted.checked.resolved.get().main.id;
    let table = table_of(alloc, fitted)?;
    let places = places_of(alloc, &table, main)?;
    let rooted = rooted_leaves(alloc, &table, places.as_slice(), main)?;
    faults_of(alloc, &table, &rooted, places.as_slice())
}
