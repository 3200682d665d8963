//! Worked examples of the definition. The functions do nothing.

ghost use Rattle.std.specs.Prelude.{◌≡◌, codes};
ghost use Rattle.circuit_make.specs.Rings.{ring_text};

/// The ring of one register, which takes itself, and that of two, each of which takes the other.
pub fn small_rings_are_written()
    ensures one { ring_text 1 3 ≡ codes "FIRRTL version 3.0.0\ncircuit Make :\n  module Make :\n    input clock : Clock\n    output out : UInt<32>\n    reg r0 : UInt<32>, clock\n    connect r0, tail(add(r0, UInt<32>(0)), 1)\n    node s0 = r0\n    connect out, s0\n%stimulus\ncycles 3\n" }
    ensures two { ring_text 2 10 ≡ codes "FIRRTL version 3.0.0\ncircuit Make :\n  module Make :\n    input clock : Clock\n    output out : UInt<32>\n    reg r0 : UInt<32>, clock\n    reg r1 : UInt<32>, clock\n    connect r0, tail(add(r1, UInt<32>(0)), 1)\n    connect r1, tail(add(r0, UInt<32>(1)), 1)\n    node s0 = r0\n    node s1 = tail(add(s0, r1), 1)\n    connect out, s1\n%stimulus\ncycles 10\n" }
{}
