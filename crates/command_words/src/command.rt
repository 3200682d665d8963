//! The commands.

/// What a command line asks for. Names of texts, of states and of leaves are lent by the words; `-` is the name of standard input.
#[derive(Drop)]
pub enum Command<'a> {
    /// Runs a circuit under a stimulus, which stands behind the circuit in its text where no name is given.
    Run {
        /// From 1 to 64.
        workers: u32,
        /// Whether the refined cut is run.
        refined: bool,
        circuit: &'a str,
        stimulus: Option<&'a str>,
    },
    /// Says whether a circuit has a fault.
    Check {
        circuit: &'a str,
    },
    /// Lists the widths of a circuit.
    Widths {
        circuit: &'a str,
    },
    /// Lists the partitions of a circuit.
    Cut {
        /// From 1 to 64.
        workers: u32,
        circuit: &'a str,
    },
    /// Makes a circuit and runs it.
    Make {
        /// From 1 to 64.
        workers: u32,
        /// From 1 to 4,096.
        cycles: u32,
        /// From 1 to 4,096.
        size: u32,
    },
    /// Dumps the changes of leaves while a circuit is run under the stimulus behind it in its text. Where no leaf is named, the leaves
    /// are those that a run watches.
    Vcd {
        /// From 1 to 64.
        workers: u32,
        circuit: &'a str,
        leaves: Vec<&'a str>,
    },
    /// Lists the partitions of a circuit's refined cut.
    Refine {
        /// From 1 to 64.
        workers: u32,
        circuit: &'a str,
    },
    /// Runs a circuit under the stimulus behind it in its text, and writes the state after the last cycle. The run begins in the named
    /// state, or in a circuit's first state where none is named.
    Save {
        /// From 1 to 64.
        workers: u32,
        circuit: &'a str,
        state: Option<&'a str>,
    },
    /// Runs a circuit from a state on, under the stimulus behind it in its text.
    Resume {
        /// From 1 to 64.
        workers: u32,
        circuit: &'a str,
        state: &'a str,
    },
    /// Writes what a circuit prints while it is run under the stimulus behind it in its text.
    Log {
        /// From 1 to 64.
        workers: u32,
        circuit: &'a str,
    },
}
