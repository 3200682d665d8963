//! The reasons to refuse a circuit's text.

ghost use Rattle.std.specs.Prelude.{◌≡◌};
ghost use Rattle.fir_lexer.specs.Faults.{place_of as place_of_tokens};
ghost use Rattle.fir_layout.specs.Faults.{place_of as place_of_layout};
ghost use Rattle.fir_tree.specs.Faults.{place_of as place_of_grammar};
ghost use Rattle.fir_names.specs.Faults.{place_of as place_of_names};
ghost use Rattle.type_check.specs.Faults.{place_of as place_of_types};
ghost use Rattle.size_check.specs.Faults.{place_of as place_of_size};
ghost use Rattle.width_fit.specs.Faults.{place_of as place_of_widths};
ghost use Rattle.drive_check.specs.Faults.{place_of as place_of_drives};
ghost use Rattle.clock_check.specs.Faults.{place_of as place_of_clocks};
ghost use Rattle.comb_order.specs.Faults.{place_of as place_of_order};
ghost use Rattle.sim_engine.specs.Faults.{kind_name, fault_place, unless_wanting};
ghost use Rattle.sim_engine.specs.declared.fault.CircuitFault.TheVariants.{Lex as Of_tokens, Layout as Of_layout, Parse as Of_grammar, Name as Of_names, Typing as Of_types, Size as Of_size, Width as Of_widths, Drive as Of_drives, Clock as Of_clocks, Order as Of_order, NoMemory as No_memory};

use clock_check::ClockFault;
use comb_order::OrderFault;
use drive_check::DriveFault;
use fir_layout::LayoutFault;
use fir_lexer::LexFault;
use fir_names::NameFault;
use fir_tree::ParseFault;
use place_text::{Fault, Place};
use size_check::SizeFault;
use std::alloc::AllocError;
use thiserror::Error;
use type_check::TypeFault;
use width_fit::WidthFault;

/// Why a text isn't accepted: its first fault, by the stage that finds it. Want of memory is said by `NoMemory` alone.
#[derive(Debug, Drop, Error)]
pub enum CircuitFault {
    #[error("a fault of the tokens")]
    Lex(LexFault),
    #[error("a fault of the layout")]
    Layout(LayoutFault),
    #[error("a fault of the syntax")]
    Parse(ParseFault),
    #[error("a fault of the names")]
    Name(NameFault),
    #[error("a fault of the types")]
    Typing(TypeFault),
    #[error("a circuit that is too large")]
    Size(SizeFault),
    #[error("a fault of the widths")]
    Width(WidthFault),
    #[error("a leaf that may be undriven")]
    Drive(DriveFault),
    #[error("a clock other than main's")]
    Clock(ClockFault),
    #[error("a combinational loop")]
    Order(OrderFault),
    #[error("no memory")]
    NoMemory,
}

impl CircuitFault {
    /// The name of the fault's kind, and `NoMemory` for want of memory.
    pub fn kind(&self) -> &str
        ensures { result.now ≡ kind_name self.now }
    {
        match self {
            CircuitFault::Lex(fault) => fault.kind(),
            CircuitFault::Layout(fault) => fault.kind(),
            CircuitFault::Parse(fault) => fault.kind(),
            CircuitFault::Name(fault) => fault.kind(),
            CircuitFault::Typing(fault) => fault.kind(),
            CircuitFault::Size(fault) => fault.kind(),
            CircuitFault::Width(fault) => fault.kind(),
            CircuitFault::Drive(fault) => fault.kind(),
            CircuitFault::Clock(fault) => fault.kind(),
            CircuitFault::Order(fault) => fault.kind(),
            CircuitFault::NoMemory => "NoMemory",
        }
    }

    /// The fault's place: none for want of memory, and only for that.
    pub fn place(&self) -> Option<Place>
        ensures { result ≡ fault_place self.now }
    {
        match self {
            CircuitFault::Lex(fault) => fault.place(),
            CircuitFault::Layout(fault) => fault.place(),
            CircuitFault::Parse(fault) => fault.place(),
            CircuitFault::Name(fault) => fault.place(),
            CircuitFault::Typing(fault) => fault.place(),
            CircuitFault::Size(fault) => fault.place(),
            CircuitFault::Width(fault) => fault.place(),
            CircuitFault::Drive(fault) => fault.place(),
            CircuitFault::Clock(fault) => fault.place(),
            CircuitFault::Order(fault) => fault.place(),
            CircuitFault::NoMemory => None,
        }
    }
}

impl From<LexFault> for CircuitFault {
    ghost from_gives = { λ fault given. given ≡ unless_wanting (place_of_tokens fault) (Of_tokens fault) };

    fn from(fault: LexFault) -> CircuitFault {
        match fault.place() {
            Some(_) => CircuitFault::Lex(fault),
            None => CircuitFault::NoMemory,
        }
    }
}

impl From<LayoutFault> for CircuitFault {
    ghost from_gives = { λ fault given. given ≡ unless_wanting (place_of_layout fault) (Of_layout fault) };

    fn from(fault: LayoutFault) -> CircuitFault {
        match fault.place() {
            Some(_) => CircuitFault::Layout(fault),
            None => CircuitFault::NoMemory,
        }
    }
}

impl From<ParseFault> for CircuitFault {
    ghost from_gives = { λ fault given. given ≡ unless_wanting (place_of_grammar fault) (Of_grammar fault) };

    fn from(fault: ParseFault) -> CircuitFault {
        match fault.place() {
            Some(_) => CircuitFault::Parse(fault),
            None => CircuitFault::NoMemory,
        }
    }
}

impl From<NameFault> for CircuitFault {
    ghost from_gives = { λ fault given. given ≡ unless_wanting (place_of_names fault) (Of_names fault) };

    fn from(fault: NameFault) -> CircuitFault {
        match fault.place() {
            Some(_) => CircuitFault::Name(fault),
            None => CircuitFault::NoMemory,
        }
    }
}

impl From<TypeFault> for CircuitFault {
    ghost from_gives = { λ fault given. given ≡ unless_wanting (place_of_types fault) (Of_types fault) };

    fn from(fault: TypeFault) -> CircuitFault {
        match fault.place() {
            Some(_) => CircuitFault::Typing(fault),
            None => CircuitFault::NoMemory,
        }
    }
}

impl From<SizeFault> for CircuitFault {
    ghost from_gives = { λ fault given. given ≡ unless_wanting (place_of_size fault) (Of_size fault) };

    fn from(fault: SizeFault) -> CircuitFault {
        match fault.place() {
            Some(_) => CircuitFault::Size(fault),
            None => CircuitFault::NoMemory,
        }
    }
}

impl From<WidthFault> for CircuitFault {
    ghost from_gives = { λ fault given. given ≡ unless_wanting (place_of_widths fault) (Of_widths fault) };

    fn from(fault: WidthFault) -> CircuitFault {
        match fault.place() {
            Some(_) => CircuitFault::Width(fault),
            None => CircuitFault::NoMemory,
        }
    }
}

impl From<DriveFault> for CircuitFault {
    ghost from_gives = { λ fault given. given ≡ unless_wanting (place_of_drives fault) (Of_drives fault) };

    fn from(fault: DriveFault) -> CircuitFault {
        match fault.place() {
            Some(_) => CircuitFault::Drive(fault),
            None => CircuitFault::NoMemory,
        }
    }
}

impl From<ClockFault> for CircuitFault {
    ghost from_gives = { λ fault given. given ≡ unless_wanting (place_of_clocks fault) (Of_clocks fault) };

    fn from(fault: ClockFault) -> CircuitFault {
        match fault.place() {
            Some(_) => CircuitFault::Clock(fault),
            None => CircuitFault::NoMemory,
        }
    }
}

impl From<OrderFault> for CircuitFault {
    ghost from_gives = { λ fault given. given ≡ unless_wanting (place_of_order fault) (Of_order fault) };

    fn from(fault: OrderFault) -> CircuitFault {
        match fault.place() {
            Some(_) => CircuitFault::Order(fault),
            None => CircuitFault::NoMemory,
        }
    }
}

impl From<AllocError> for CircuitFault {
    ghost from_gives = { λ _ given. given ≡ No_memory };

    fn from(_: AllocError) -> CircuitFault {
        CircuitFault::NoMemory
    }
}
