//! The part of the greatest cost, and what its sinks need.

ghost use Rattle.std.specs.Prelude.{◌≡◌, ◌<◌, ◌^◌, length, IfOk};
ghost use Rattle.cone_cutter.specs.Rows.{places_of};
ghost use Rattle.cut_refine.specs.Standing.{AreConeRows, Stands, IsFirstMost, IsFullestPart};

use crate::counting::counts_of;
use crate::standing::Standing;
use cone_cutter::NetRows;
use std::alloc::{AllocError, Global};

/// A part, its sinks, and for each leaf how many of them need it.
#[derive(Drop)]
pub struct Fullest {
    pub part: u32,
    pub sinks: Vec<u32>,
    pub counts: Vec<u32>,
}

impl Fullest {
    /// The first part that has the greatest cost. Walks the cone of each of its sinks.
    pub fn new(alloc: Global, rows: &NetRows, standing: &Standing) -> Result<Fullest, AllocError>
        requires rows { AreConeRows rows.now }
        requires stands { Stands rows.now standing.now }
        ensures { IfOk result (IsFullestPart rows.now standing.now) }
    {
        let part = first_most(standing.costs.as_slice()) as u32;
        let sinks = places(alloc, standing.owners.as_slice(), part)?;
        let counts = counts_of(alloc, rows, sinks.as_slice())?;
        Ok(Fullest {
            part,
            sinks,
            counts,
        })
    }
}

/// The first place with the greatest number.
fn first_most(costs: &[usize]) -> usize
    requires { 0 < length costs.now }
    ensures { IsFirstMost costs.now result }
{
    let mut best = 0;
    for part in 1..costs.len() {
        if costs[part] > costs[best] {
            best = part;
        }
    }
    best
}

/// The sinks of a part, by rising numbers.
fn places(alloc: Global, owners: &[u32], part: u32) -> Result<Vec<u32>, AllocError>
    requires { length owners.now < 2 ^ 32 }
    ensures { IfOk result (λ places. places.items ≡ places_of owners.now part) }
{
    let mut places = Vec::new(alloc);
    for (sink, owner) in owners.iter().enumerate() {
        if *owner == part {
            places.push(sink as u32)?;
        }
    }
    Ok(places)
}
