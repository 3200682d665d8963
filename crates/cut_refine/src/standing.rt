//! Where the sinks stand, and what the parts hold.

ghost use Rattle.std.specs.Prelude.{◌≡◌, ◌≢◌, ℕ, ◌+◌, ◌-◌, ◌<◌, ◌≤◌, ◌^◌, length, map, slice_get, slice_index, false, All, IfOk, OnOk};
ghost use Rattle.cone_cutter.specs.Loads.{has_bit, shared_by};
ghost use Rattle.cut_refine.specs.Refining.{moved};
ghost use Rattle.cut_refine.specs.Standing.{AreConeRows, Stands, Owns, AreParted, AreApart, Loses, Leaves, IsLook};

use crate::counting::lost;
use crate::look::Look;
use crate::walker::Walker;
use cone_cutter::{NetRows, count_shared, give, no_stamps, without_bit};
use ground_net::CutPart;
use std::alloc::{AllocError, Global};

/// The part of each sink, what each part holds, and how much it is.
///
/// The bit `p` of a leaf's mask says that part `p` holds it.
#[derive(Drop)]
pub struct Standing {
    pub owners: Vec<u32>,
    pub masks: Vec<u64>,
    pub costs: Vec<usize>,
}

impl Standing {
    /// That of the parts of a cut.
    pub fn of_parts(
        alloc: Global,
        leaves: usize,
        sinks: usize,
        parts: &[CutPart],
    ) -> Result<Standing, AllocError>
        requires few { length parts.now ≤ 64 }
        requires sinks { All (λ part. All (λ k. k < sinks) part.sinks) parts.now }
        requires assignments { All (λ part. All (λ x. x < leaves) part.assignments) parts.now }
        requires apart { AreApart parts.now }
        ensures owners { IfOk result (λ it. length it.owners.items ≡ sinks) }
        ensures masks { IfOk result (λ it. length it.masks.items ≡ leaves) }
        ensures costs { IfOk result (λ it. it.costs.items ≡ map (λ part. length part.assignments) parts.now) }
        ensures parted { IfOk result (λ it. AreParted (length parts.now) parts.now it.owners.items it.masks.items) }
    {
        let mut owners = no_stamps(alloc, sinks)?;
        let mut masks = vec![in alloc; 0; leaves]?;
        let mut costs = Vec::new(alloc);
        for (number, part) in parts.iter().enumerate() {
            own(owners.as_mut_slice(), part.sinks.as_slice(), number as u32);
            give(
                masks.as_mut_slice(),
                part.assignments.as_slice(),
                number as u32,
            );
            costs.push(part.assignments.len())?;
        }
        Ok(Standing {
            owners,
            masks,
            costs,
        })
    }

    /// Makes the best move.
    pub fn make(&mut self, alloc: Global, rows: &NetRows, look: &Look) -> Result<(), AllocError>
        requires rows { AreConeRows rows.now }
        requires stands { Stands rows.now self.old }
        requires look { IsLook rows.now self.old look.now }
        requires lowers { look.now.best.greatest < look.now.greatest }
        ensures stands { OnOk result (Stands rows.now self.new) }
        ensures owners { OnOk result (self.new.owners.items ≡ moved self.old.owners.items look.now.best) }
        ensures count { OnOk result (length self.new.costs.items ≡ length self.old.costs.items) }
    {
        let workers = self.costs.len();
        let mut walker = Walker::new(alloc, rows)?;
        walker.walk(rows, look.best.sink)?;
        let cone = walker.found.as_slice();
        let mut shared_table = vec![in alloc; 0; workers]?;
        let shared = shared_table.as_mut_slice();
        count_shared(self.masks.as_slice(), cone, shared);
        self.carry(cone, shared[look.best.target as usize], look);
        Ok(())
    }

    /// Takes a sink with this cone to the part of the best move, which shares so many leaves with it.
    fn carry(&mut self, cone: &[u32], shared: usize, look: &Look)
        requires masks { All (λ x. x < length self.old.masks.items) cone.now }
        requires counts { All (λ x. x < length look.now.full.counts.items) cone.now }
        requires few { length self.old.costs.items ≤ 64 }
        requires part { look.now.full.part < length self.old.costs.items }
        requires target { look.now.best.target < length self.old.costs.items }
        requires other { look.now.best.target ≢ look.now.full.part }
        requires shared { shared ≡ shared_by self.old.masks.items cone.now look.now.best.target }
        requires sink { look.now.best.sink < length self.old.owners.items }
        requires fits { (p : ℕ) → p < length self.old.costs.items → slice_index self.old.costs.items p + length cone.now < 2 ^ 64 }
        ensures { Leaves look.now.full.part cone.now look.now.full.counts.items look.now.best self.old self.new }
    {
        let part = look.full.part;
        let target = look.best.target;
        let owners = self.owners.as_mut_slice();
        let masks = self.masks.as_mut_slice();
        let costs = self.costs.as_mut_slice();
        let counts = look.full.counts.as_slice();
        costs[part as usize] = costs[part as usize].saturating_sub(lost(cone, counts));
        costs[target as usize] += cone.len() - shared;
        lose(masks, cone, counts, part);
        give(masks, cone, target);
        owners[look.best.sink as usize] = target;
    }
}

/// Gives sinks an owner.
fn own(owners: &mut [u32], sinks: &[u32], part: u32)
    requires { All (λ k. k < length owners.old) sinks.now }
    ensures { Owns part sinks.now owners.old owners.new }
{
    for sink in sinks {
        owners[*sink as usize] = part;
    }
}

/// Clears the bit of a part for those leaves of a cone that one sink alone needs.
fn lose(masks: &mut [u64], cone: &[u32], counts: &[u32], part: u32)
    requires masks { All (λ x. x < length masks.old) cone.now }
    requires counts { All (λ x. x < length counts.now) cone.now }
    requires few { part < 64 }
    ensures { Loses part cone.now counts.now masks.old masks.new }
{
    for leaf in cone {
        let old = masks[*leaf as usize];
        masks[*leaf as usize] = left_mask(old, counts[*leaf as usize], part);
    }
}

/// The mask without the bit of a part, where one sink alone needs the leaf.
fn left_mask(mask: u64, count: u32, part: u32) -> u64
    requires { part < 64 }
    ensures lone { count ≡ 1 → has_bit result part ≡ false }
    ensures shared { count ≢ 1 → result ≡ mask }
    ensures others { (p : ℕ) → p < 64 → p ≢ part → has_bit result p ≡ has_bit mask p }
{
    if count == 1 {
        without_bit(mask, part)
    } else {
        mask
    }
}
