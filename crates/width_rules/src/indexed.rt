//! Components with what is known of their types.

ghost use Rattle.std.specs.Prelude.{◌≡◌, IfOk};
ghost use Rattle.fir_tree.specs.Parts.{part_of, source_of};
ghost use Rattle.width_rules.specs.Pieces.{joined, slots_in};
ghost use Rattle.width_rules.specs.Targets.{has_variable};

use crate::held::Held;
use crate::lists::Lists;
use crate::pieces::Slots;
use crate::slot::Slot;
use bit_words::{List, Shared, SharedList};
use fir_tree::{Flow, Names, Part};
use std::alloc::{AllocError, Global};
use std::marker::Model;
use type_index::{Known, KnownType};

/// A component, with what is known of its type, and whether a place has a variable. Its widths may stand in lists that are shared.
/// Contracts see the component.
#[derive(Drop)]
pub struct Indexed {
    known: KnownType,
    flow: Flow,
    held: Held,
    varies: bool,
}

impl Model for Indexed {
    ghost use Rattle.std.specs.Prelude.{◌≡◌};
    ghost use Rattle.fir_tree.specs.Parts.{part_of};
    ghost use Rattle.width_rules.specs.declared.component.Component.{Component as Value_of};
    ghost use Rattle.width_rules.specs.contracts.component.Component.{the_row};

    ghost Value = { Value_of };

    ghost coded = { the_row.coded };

    ghost use Rattle.width_rules.specs.Pieces.{held_slots};
    ghost use Rattle.width_rules.specs.Targets.{has_variable};

    ghost view = { λ a. record { part = part_of a.known.typ a.flow; slots = held_slots a.held } };

    ghost invariant = { λ a. a.varies ≡ has_variable (held_slots a.held) };
}

impl Indexed {
    /// A component with these widths. Takes time and memory in proportion to its type.
    pub fn new(
        alloc: Global,
        names: &Names,
        part: Part,
        slots: List<Slot>,
    ) -> Result<Indexed, AllocError>
        ensures { IfOk result (λ indexed. indexed ≡ record { part = part; slots = slots }) }
    {
        let known = KnownType::new(alloc, names, part.typ)?;
        Indexed::of(alloc, known, part.flow, slots)
    }

    /// A component with these widths, of a type that is known. Takes time in proportion to the widths.
    pub fn of(
        alloc: Global,
        known: KnownType,
        flow: Flow,
        slots: List<Slot>,
    ) -> Result<Indexed, AllocError>
        ensures { IfOk result (λ indexed. indexed ≡ record { part = part_of known.typ flow; slots = slots }) }
    {
        let varies = has_variable(slots.as_slice());
        let held = Held::One(Shared::new(alloc, slots)?);
        Ok(Indexed {
            known,
            flow,
            held,
            varies,
        })
    }

    /// What can only be read, of a type that is known, with the widths of several lists, one behind another, of which it is told
    /// whether one is a variable. Takes time in proportion to the number of lists.
    pub fn of_lists(
        alloc: Global,
        known: KnownType,
        lists: List<SharedList<Slot>>,
        varies: bool,
    ) -> Result<Indexed, AllocError>
        requires { varies ≡ has_variable (joined lists) }
        ensures { IfOk result (λ indexed. indexed ≡ record { part = source_of known.typ; slots = joined lists }) }
    {
        let held = Held::Many(Shared::new(alloc, Lists::new(alloc, lists)?)?);
        Ok(Indexed {
            known,
            flow: Flow::Source,
            held,
            varies,
        })
    }

    /// The type, with the steps to its parts.
    pub fn known(&self) -> Known<'_>
        ensures { result.typ.now ≡ self.now.part.typ }
    {
        self.known.known()
    }

    /// The flow.
    pub fn flow(&self) -> Flow
        ensures { result ≡ self.now.part.flow }
    {
        self.flow
    }

    /// The widths. Takes constant time.
    pub fn slots(&self) -> Slots<'_>
        ensures { slots_in result ≡ self.now.slots }
    {
        match &self.held {
            Held::One(slots) => Slots::Listed(slots.as_slice()),
            Held::Many(lists) => Slots::Between(lists.get(), 0, lists.get().count()),
        }
    }

    /// Whether a place has a variable. Takes constant time.
    pub fn is_open(&self) -> bool
        ensures { result ≡ has_variable self.now.slots }
    {
        self.varies
    }

    /// The same component once more. Takes no memory.
    pub fn share(&self) -> Result<Indexed, AllocError>
        ensures { IfOk result (λ copied. copied ≡ self.now) }
    {
        Ok(Indexed {
            known: self.known.share()?,
            flow: self.flow,
            held: share_held(&self.held)?,
            varies: self.varies,
        })
    }
}

fn share_held(held: &Held) -> Result<Held, AllocError>
    ensures { IfOk result (λ shared. shared ≡ held.now) }
{
    match held {
        Held::One(slots) => Ok(Held::One(slots.share()?)),
        Held::Many(lists) => Ok(Held::Many(lists.share()?)),
    }
}

/// Whether a width is a variable.
pub fn has_variable(slots: &[Slot]) -> bool
    ensures { result ≡ has_variable slots.now }
{
    slots.iter().any(|slot| matches!(slot, Slot::Var(_)))
}
