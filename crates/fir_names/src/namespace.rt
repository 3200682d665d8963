//! What a name stands beside, and the faults that tell of it.

use crate::fault::NameFault;
use place_text::Place;

/// Names that stand beside one another: those of the modules in a circuit, and those of the declarations in a module.
#[derive(Clone, Copy)]
pub enum Namespace {
    OfCircuit,
    OfModule,
}

impl Namespace {
    ghost use Rattle.std.specs.Prelude.{◌≡◌};
    ghost use Rattle.fir_names.specs.Namespaces.{twice, unknown};

    /// The fault of a name that one before it has as well.
    pub fn twice(self, place: Place) -> NameFault
        ensures { result ≡ twice self place }
    {
        match self {
            Namespace::OfCircuit => NameFault::ModuleTwice(place),
            Namespace::OfModule => NameFault::NameTwice(place),
        }
    }

    /// The fault of a name that nothing has.
    pub fn unknown(self, place: Place) -> NameFault
        ensures { result ≡ unknown self place }
    {
        match self {
            Namespace::OfCircuit => NameFault::ModuleUnknown(place),
            Namespace::OfModule => NameFault::NameUnknown(place),
        }
    }
}
