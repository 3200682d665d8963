//! Circuits, their stimuli and the traces that these mean.

/// A circuit, a stimulus, and the trace.
#[derive(Clone, Copy)]
pub struct Case {
    pub circuit: &'static str,
    pub stimulus: &'static str,
    pub cycles: u64,
    pub trace: &'static str,
}

/// Two registers that feed each other.
pub const EXCHANGE: Case = Case {
    circuit: "FIRRTL version 3.0.0
circuit M :
  module M :
    input clock : Clock
    input a : UInt<8>
    output x : UInt<8>
    output y : UInt<8>
    reg r : UInt<8>, clock
    reg s : UInt<8>, clock
    connect r, tail(add(s, a), 1)
    connect s, r
    connect x, r
    connect y, s
",
    stimulus: "cycles 4\n0 a 10\n2 a 1\n",
    cycles: 4,
    trace: "cycle x y\n0 0 0\n1 10 0\n2 10 10\n3 11 10\n",
};

/// A memory that is read in the cycle after, where 5 is written in each cycle.
const MEMORY: Case = Case {
    circuit: "FIRRTL version 3.0.0
circuit M :
  module M :
    input clock : Clock
    output o : UInt<8>
    mem m :
      data-type => UInt<8>
      depth => 4
      read-latency => 1
      write-latency => 1
      reader => r
      writer => w
      read-under-write => old
    connect m.r.clk, clock
    connect m.r.en, UInt<1>(1)
    connect m.r.addr, UInt<2>(0)
    connect m.w.clk, clock
    connect m.w.en, UInt<1>(1)
    connect m.w.addr, UInt<2>(0)
    connect m.w.data, UInt<8>(5)
    connect m.w.mask, UInt<1>(1)
    connect o, m.r.data
",
    stimulus: "cycles 4\n",
    cycles: 4,
    trace: "cycle o\n0 0\n1 0\n2 5\n3 5\n",
};

/// Two registers of which each takes what the other one isn't. A body that publishes before all have evaluated writes another trace.
pub const INVERTED: Case = Case {
    circuit: "FIRRTL version 3.0.0
circuit M :
  module M :
    input clock : Clock
    input reset : UInt<1>
    output x : UInt<4>
    regreset a : UInt<4>, clock, reset, UInt<4>(1)
    regreset b : UInt<4>, clock, reset, UInt<4>(2)
    node n = not(b)
    node m = not(a)
    connect a, n
    connect b, m
    connect x, a
",
    stimulus: "cycles 4\n0 reset 1\n1 reset 0\n",
    cycles: 4,
    trace: "cycle x\n0 0\n1 1\n2 13\n3 1\n",
};

pub const CASES: [Case; 3] = [EXCHANGE, MEMORY, INVERTED];
