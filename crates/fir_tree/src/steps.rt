//! Parts of components, and their flows (FIRRTL specification 3.0, "Flows").

ghost use Rattle.std.specs.Prelude.{◌≡◌, IfOk};
ghost use Rattle.fir_tree.specs.Parts.{flow_through, port_flow, source_of, no_part};

use crate::kinds::no_type;
use crate::part::{Flow, Part};
use fir_types::{FirType, Port};
use place_text::Place;
use std::alloc::{AllocError, Global};

/// The flow of a field, whether it is flipped, of what has this flow. A flip turns a source and a sink round.
pub fn through(flip: bool, flow: Flow) -> Flow
    ensures { result ≡ flow_through flip flow }
{
    match (flip, flow) {
        (false, _) | (true, Flow::Duplex) => flow,
        (true, Flow::Source) => Flow::Sink,
        (true, Flow::Sink) => Flow::Source,
    }
}

/// An input can be read inside its module, and an output driven.
pub fn port_flow(port: &Port) -> Flow
    ensures { result ≡ port_flow port.now }
{
    if port.output {
        Flow::Sink
    } else {
        Flow::Source
    }
}

/// What can only be read.
pub fn source(typ: FirType) -> Part
    ensures { result ≡ source_of typ }
{
    Part {
        typ,
        flow: Flow::Source,
    }
}

/// What stands for a part where there is none: a source without parts.
pub fn no_part(alloc: Global) -> Result<Part, AllocError>
    ensures { IfOk result (λ part. part ≡ no_part) }
{
    Ok(source(no_type(alloc, Place { line: 1, column: 1 })?))
}
