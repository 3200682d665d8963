//! Cones of sinks, one after the other.

ghost use Rattle.std.specs.Prelude.{◌≡◌, ◌+◌, ◌<◌, ◌^◌, length, IfOk, OnOk};
ghost use Rattle.cut_refine.specs.Standing.{AreConeRows, IsReady, Walks};

use cone_cutter::{NetRows, no_stamps, walk_cone};
use std::alloc::{AllocError, Global};

/// The cone that was walked last, the number of that walk, and for each leaf and each vertex the number of the walk that met it last.
#[derive(Drop)]
pub struct Walker {
    pub stamps: Vec<u32>,
    pub turn: u32,
    pub found: Vec<u32>,
}

impl Walker {
    /// No cone was walked.
    pub fn new(alloc: Global, rows: &NetRows) -> Result<Walker, AllocError>
        ensures ready { IfOk result (IsReady rows.now) }
        ensures turn { IfOk result (λ walker. walker.turn ≡ 0) }
    {
        let stamps = no_stamps(alloc, rows.reads.len())?;
        Ok(Walker {
            stamps,
            turn: 0,
            found: Vec::new(alloc),
        })
    }

    /// Walks the cone of a sink. Takes time in proportion to the cone and what it reads.
    pub fn walk(&mut self, rows: &NetRows, sink: u32) -> Result<(), AllocError>
        requires rows { AreConeRows rows.now }
        requires ready { IsReady rows.now self.old }
        requires sink { sink < length rows.now.needed.items }
        requires room { self.old.turn + 1 < 2 ^ 32 }
        ensures { OnOk result (Walks rows.now sink self.old self.new) }
    {
        let needed = rows.needed.as_slice();
        let roots = needed[sink as usize].as_slice();
        let stamps = self.stamps.as_mut_slice();
        let turn = self.turn + 1;
        walk_cone(rows, roots, stamps, turn, &mut self.found)?;
        self.turn = turn;
        Ok(())
    }
}
