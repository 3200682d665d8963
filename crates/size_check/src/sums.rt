//! What is counted of a part of a circuit, and sums of it. 2^128 - 1 stands for all numbers from there on.

ghost use Rattle.std.specs.Prelude.{◌≡◌};
ghost use Rattle.size_check.specs.Measures.{nothing, plus};
ghost use Rattle.size_check.specs.Standings.{add, no_total};
ghost use Rattle.size_check.specs.Caps.{capped, capped_total};

/// What is counted of a part of a circuit.
#[derive(Clone, Copy)]
pub struct Sums {
    /// The size of its statements.
    pub size: u128,
    pub leaves: u128,
    /// The flat names: one for each leaf, and one for each leaf of a memory's elements.
    pub names: u128,
    /// The bytes of the names.
    pub bytes: u128,
    /// The words of the state.
    pub words: u128,
}

/// The same of all that stands at some instance paths, and the greatest number of names in such a path.
#[derive(Clone, Copy)]
pub struct Total {
    pub sums: Sums,
    pub depth: u128,
}

impl Sums {
    /// Nothing.
    pub fn none() -> Sums
        ensures { result ≡ nothing }
    {
        Sums {
            size: 0,
            leaves: 0,
            names: 0,
            bytes: 0,
            words: 0,
        }
    }

    /// The two together.
    pub fn plus(self, other: Sums) -> Sums
        ensures { result ≡ capped (plus self other) }
    {
        Sums {
            size: self.size.saturating_add(other.size),
            leaves: self.leaves.saturating_add(other.leaves),
            names: self.names.saturating_add(other.names),
            bytes: self.bytes.saturating_add(other.bytes),
            words: self.words.saturating_add(other.words),
        }
    }
}

impl Total {
    /// Nothing.
    pub fn none() -> Total
        ensures { result ≡ no_total }
    {
        Total {
            sums: Sums::none(),
            depth: 0,
        }
    }

    /// The two together.
    pub fn plus(self, other: Total) -> Total
        ensures { result ≡ capped_total (add self other) }
    {
        Total {
            sums: self.sums.plus(other.sums),
            depth: self.depth.max(other.depth),
        }
    }
}
