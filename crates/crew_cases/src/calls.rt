//! Calls that the built program doesn't make, or whose answers it doesn't show: the flows of references, equivalent types, and texts by their
//! numbers.

ghost use Rattle.std.specs.Prelude.{◌≡◌, []};

use fir_tree::{Flow, Names};
use fir_types::{copy, equivalent};
use reference_flow::flow_of;
use sim_engine::{Built, CIRCUIT_LIMIT, compile_text};
use std::alloc::Global;

/// The circuit that a text writes.
fn built_of(alloc: Global, text: &[u8]) -> Option<Built> {
    if text.len() > CIRCUIT_LIMIT {
        return None;
    }
    match compile_text(alloc, text) {
        Ok(built) => Some(built),
        Err(_) => None,
    }
}

/// The flows of all references of a circuit, and what is answered behind the last.
fn flows_of(alloc: Global, text: &[u8]) -> Option<Vec<Flow>> {
    let built = built_of(alloc, text)?;
    let checked = &built.fitted.checked;
    let mut flows = Vec::new(alloc);
    for (number, _use) in (0u32..).zip(checked.scope.uses.as_slice()) {
        flows.push(flow_of(checked, number)).ok()?;
    }
    flows.push(flow_of(checked, u32::MAX)).ok()?;
    Some(flows)
}

const FLOWS: [(&str, &[Flow]); 3] = [
    // a port is seen from inside
    (
        "FIRRTL version 3.0.0
circuit M :
  module M :
    input a : UInt<1>
    output b : { x : UInt<1>, flip y : UInt<1> }
    connect b.x, a
    node n = b.y
",
        &[Flow::Sink, Flow::Source, Flow::Source, Flow::Source],
    ),
    (
        "FIRRTL version 3.0.0
circuit M :
  module M :
    input i : UInt<1>
    wire a : { flip x : UInt<1> }
    connect a.x, i
    node n = a.x
",
        &[Flow::Duplex, Flow::Source, Flow::Duplex, Flow::Source],
    ),
    // an instance is seen from outside, and a memory too
    (
        "FIRRTL version 3.0.0
circuit M :
  module L :
    input a : UInt<1>
    output b : UInt<1>
    connect b, a
  module M :
    input clock : Clock
    inst x of L
    mem m :
      data-type => UInt<1>
      depth => 2
      read-latency => 1
      write-latency => 1
      reader => r
      writer => w
      read-under-write => undefined
    connect m.r.clk, clock
    connect m.r.en, UInt<1>(1)
    connect m.r.addr, x.b
    connect m.w.clk, clock
    connect m.w.en, m.r.data
    connect m.w.addr, UInt<1>(0)
    connect m.w.data, x.b
    connect m.w.mask, UInt<1>(1)
    connect x.a, m.r.data
",
        &[
            Flow::Sink,
            Flow::Source,
            Flow::Sink,
            Flow::Source,
            Flow::Sink,
            Flow::Sink,
            Flow::Source,
            Flow::Sink,
            Flow::Source,
            Flow::Sink,
            Flow::Source,
            Flow::Sink,
            Flow::Sink,
            Flow::Source,
            Flow::Sink,
            Flow::Sink,
            Flow::Source,
            Flow::Source,
        ],
    ),
];

#[test]
fn references_have_flows(rt: HostRuntime) {
    for (text, wanted) in FLOWS {
        match flows_of(rt.alloc(), text.as_bytes()) {
            Some(flows) => assert_eq!(rt; flows.as_slice(), wanted, "at {text}"),
            None => assert!(rt; false, "no flows at {text}"),
        }
    }
}

/// Two bundles that differ in an orientation.
const BUNDLES: &str = "FIRRTL version 3.0.0
circuit M :
  module M :
    wire p : { a : UInt<1>, flip b : Reset[2] }
    wire q : { a : UInt<1>, b : Reset[2] }
    connect p.a, UInt<1>(0)
    connect p.b[0], UInt<1>(0)
    connect p.b[1], UInt<1>(0)
    connect q.a, UInt<1>(0)
    connect q.b[0], UInt<1>(0)
    connect q.b[1], UInt<1>(0)
";

/// Whether the type of a circuit's first declaration is equivalent to a copy of it, and to the type of the second one.
fn equivalences_of(alloc: Global, text: &[u8]) -> Option<(bool, bool)> {
    let built = built_of(alloc, text)?;
    let first = built.fitted.declared.get(0)?;
    let second = built.fitted.declared.get(1)?;
    let same = copy(first).ok()?;
    Some((equivalent(first, &same), equivalent(first, second)))
}

#[test]
fn copies_are_equivalent(rt: HostRuntime) {
    let told = equivalences_of(rt.alloc(), BUNDLES.as_bytes());
    assert_eq!(rt; told, Some((true, false)));
}

/// The numbers that texts get in turn.
fn numbers_of(names: &mut Names) -> Option<[u32; 3]>
    requires { names.old ≡ [] }
{
    let first = names.add("a").ok()?;
    let second = names.add("b").ok()?;
    Some([first, second, names.add("a").ok()?])
}

#[test]
fn texts_are_numbered_in_order_of_first_use(rt: HostRuntime) {
    let mut names = Names::new(rt.alloc());
    assert_eq!(rt; numbers_of(&mut names), Some([0, 1, 0]));
    assert_eq!(rt; names.get(0), Some("a"));
    assert_eq!(rt; names.get(1), Some("b"));
    assert_eq!(rt; names.get(2), None);
}
