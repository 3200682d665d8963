//! A law of sets of keys: what is held once one more key was taken. The function does nothing: its contract is the law.

ghost use Rattle.std.specs.Prelude.{◌≡◌, ◌||◌, ℕ, List, false, nat_eq};
ghost use Rattle.std.specs.List.{list_any};
ghost use Rattle.indexmap.specs.IndexSet.{insert_key};

/// A set that took a key holds what it held before, and the key.
pub fn taken_keys_are_held()
    ensures { (keys : List ℕ) (key other : ℕ) → list_any (nat_eq other) (insert_key nat_eq keys key) ≡ (list_any (nat_eq other) keys || (nat_eq other key || false)) }
{}
