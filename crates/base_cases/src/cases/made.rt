//! Made circuits.

use super::telling::expect;
use circuit_make::{MakeFault, make_joined};

/// A ring of one register, with a stimulus of one cycle.
const ONE: &str = "FIRRTL version 3.0.0
circuit Make :
  module Make :
    input clock : Clock
    output out : UInt<32>
    reg r0 : UInt<32>, clock
    connect r0, tail(add(r0, UInt<32>(0)), 1)
    node s0 = r0
    connect out, s0
%stimulus
cycles 1
";

#[test]
fn rings_have_their_texts(rt: HostRuntime) {
    match make_joined(rt.alloc(), 1, 1) {
        Ok(text) => expect(&rt, "one register", text.as_slice(), ONE.as_bytes()),
        Err(_) => assert!(rt; false, "no text"),
    }
    for (size, cycles) in [(0, 1), (1, 4097)] {
        let refused = matches!(make_joined(rt.alloc(), size, cycles), Err(MakeFault::Range));
        expect(&rt, (size, cycles), refused, true);
    }
}
