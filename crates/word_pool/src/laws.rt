//! Laws of the definitions that the contracts here name. The functions do nothing.

ghost use Rattle.std.specs.Prelude.{◌≡◌, ℕ};
ghost use Rattle.word_pool.specs.Pools.{Pool, Takes};

/// From a pool one number can be taken: the least one that isn't live.
pub fn one_number_is_taken()
    ensures { (old new other : Pool) (slot least : ℕ) → Takes old new slot → Takes old other least → slot ≡ least }
{}
