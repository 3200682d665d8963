//! Slots.

ghost use Rattle.std.specs.Prelude.{◌≡◌, ◌≢◌, ℕ, ◌+◌, ◌<◌, ◌≤◌, ◌&&◌, ◌==◌, not, true, [], length, AllPairs, IfOk, OnOk, OnErr, Err};
ghost use Rattle.word_pool.specs.declared.fault.PoolFault.TheVariants.{Full, NoMemory as No_memory};
ghost use Rattle.word_pool.specs.Pools.{is_live, Takes, IsFull, Keeps};

use crate::fault::PoolFault;
use std::alloc::{AllocError, Global};
use std::cmp::Reverse;
use std::collections::BinaryHeap;
use std::marker::Model;

/// Numbers below a limit, of which some are live: taken, and not given back yet. Contracts see the live numbers in
/// ascending order, the limit, the greatest number of slots that were live at once, and how many can be taken without memory.
#[derive(Drop)]
pub struct Slots {
    limit: u32,
    /// No number from here on was ever live. All below were live at once.
    next: u32,
    /// The numbers below `next` that aren't live.
    freed: BinaryHeap<Reverse<u32>>,
}

impl Model for Slots {
    ghost use Rattle.word_pool.specs.Pools.{Pool};
    ghost use Rattle.word_pool.specs.Holding.{pool_of, IsKept};

    ghost Value = { Pool };

    ghost view = { λ s. pool_of s.limit s.next s.freed };

    ghost invariant = { λ s. IsKept s.limit s.next s.freed };
}

impl Slots {
    /// No slot is live. Takes no memory.
    pub fn new(alloc: Global, limit: u32) -> Slots
        ensures live { result.live ≡ [] }
        ensures limit { result.limit ≡ limit }
        ensures high { result.high ≡ 0 }
    {
        Slots {
            limit,
            next: 0,
            freed: BinaryHeap::new(alloc),
        }
    }

    /// Gives the least number that isn't live and makes it live. Takes memory for one number where none is spare, and time in
    /// the logarithm of the numbers given back.
    ///
    /// `Full` with the limit exactly where all numbers below the limit are live. After a refusal all is as before.
    pub fn take(&mut self) -> Result<u32, PoolFault>
        ensures ok { IfOk result (λ slot. Takes self.old self.new slot) }
        ensures err { OnErr result (Keeps self.old self.new) }
        ensures full { (n : ℕ) → result ≡ Err (Full n) → IsFull self.old × (n ≡ self.old.limit) }
        ensures refuses { IsFull self.old → result ≡ Err (Full self.old.limit) }
        ensures room { 0 < self.old.spare → result ≢ Err No_memory }
    {
        if let Some(Reverse(slot)) = self.freed.pop() {
            return Ok(slot);
        }
        if self.next == self.limit {
            return Err(PoolFault::Full(u64::from(self.limit)));
        }
        self.freed.reserve(self.next as usize + 1)?;
        let slot = self.next;
        self.next = slot + 1;
        Ok(slot)
    }

    /// Gives a live slot back. Takes no memory, and time in the logarithm of the numbers given back.
    pub fn give(&mut self, slot: u32)
        requires { is_live self.old slot ≡ true }
        ensures live { (k : ℕ) → is_live self.new k ≡ (is_live self.old k && not (k == slot)) }
        ensures limit { self.new.limit ≡ self.old.limit }
        ensures high { self.new.high ≡ self.old.high }
        ensures spare { self.old.spare < self.new.spare }
    {
        if self.freed.push(Reverse(slot)).is_err() {
            unreachable!();
        }
    }

    /// The greatest number of slots that were live at once since `new`. Takes no memory.
    pub fn high(&self) -> u32
        ensures value { result ≡ self.now.high }
        ensures most { length self.now.live ≤ result }
        // the live numbers ascend, and so are counted once each
        ensures ascending { AllPairs (λ x y. x < y) self.now.live }
    {
        self.next
    }

    /// Takes the memory for this many further slots. Where it is wanted the slots stay as they were.
    pub fn reserve(&mut self, spare: u32) -> Result<(), AllocError>
        ensures ok { OnOk result (spare ≤ self.new.spare) }
        ensures same { Keeps self.old self.new }
    {
        self.freed.reserve(self.next as usize + spare as usize)
    }
}
