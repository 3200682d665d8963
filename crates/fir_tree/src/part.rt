//! What is known of a component, or of a part of one.

use fir_types::FirType;

/// How a reference may be used in a connect (FIRRTL specification 3.0, "Flows").
#[derive(Clone, Copy, Debug, PartialEq, Eq)]
pub enum Flow {
    /// It may be read.
    Source,
    /// It may be driven.
    Sink,
    /// Both.
    Duplex,
}

/// A component, or a part of one: its type and its flow.
#[derive(Drop)]
pub struct Part {
    pub typ: FirType,
    pub flow: Flow,
}
