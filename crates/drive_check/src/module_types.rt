//! The types of a module's components.

ghost use Rattle.std.specs.Prelude.{◌≡◌, ℕ, IfOk, OnOk};
ghost use Rattle.drive_check.specs.Noted.{AreNoted};
ghost use Rattle.drive_check.specs.Typing.{typed, no_type, IsPlaced, with_new};

use crate::noted::{Note, notes_of};
use bit_words::{List, Shared};
use field_tables::Tabled;
use fir_types::{FirType, Name, Shape, has_clock};
use indexmap::IndexMap;
use place_text::Place;
use std::alloc::{AllocError, Global};

/// The types of a module's declarations in text order, with the number of the first of each name.
#[derive(Drop)]
pub struct ModuleTypes<'a> {
    pub declared: &'a [FirType],
    pub numbers: IndexMap<u32, usize>,
    /// What stands for the type of a component that is none.
    pub empty: FirType,
    /// What is noted of the types.
    pub notes: Vec<Note>,
    ghost is_empty: { empty ≡ no_type },
    ghost noted: { AreNoted declared.now notes.items },
}

impl<'a> ModuleTypes<'a> {
    ghost use Rattle.std.specs.Prelude.{IfSome};
    ghost use Rattle.fir_types.specs.Leaves.{has_clock};
    ghost use Rattle.drive_check.specs.Noted.{IsNote};
    ghost use Rattle.drive_check.specs.HeldTypes.{types_in};

    /// The types of declarations with these names. Takes time and memory in proportion to their number and that of their fields.
    pub fn new(
        alloc: Global,
        names: &[Name],
        declared: &'a [FirType],
    ) -> Result<ModuleTypes<'a>, AllocError>
        ensures { IfOk result (λ types. (id : ℕ) → types_in types id ≡ typed names.now declared.now id) }
    {
        let numbers = numbers_of(alloc, names)?;
        let empty = FirType {
            place: Place { line: 1, column: 1 },
            shape: Shape::Bundle(Shared::new(alloc, List::new(alloc))?),
        };
        let notes = notes_of(alloc, declared, names.len())?;
        Ok(ModuleTypes {
            declared,
            numbers,
            empty,
            notes,
        })
    }

    /// The type of the component of a name, given by the number of its text.
    pub fn of(&self, id: u32) -> &FirType
        ensures { result.now ≡ types_in self.now id }
    {
        let Some(number) = self.numbers.get(&id) else {
            return &self.empty;
        };
        match self.declared.get(*number) {
            Some(typ) => typ,
            None => &self.empty,
        }
    }

    /// The same, with its table where there is one.
    pub fn tabled(&self, id: u32) -> Tabled<'_>
        ensures { result.typ.now ≡ types_in self.now id }
    {
        let typ = self.of(id);
        match self.note(id) {
            Some(note) => Tabled::new(typ, note.table.as_ref()),
            None => Tabled::plain(typ),
        }
    }

    /// Whether a leaf of the component of a name is a `Clock`. Takes constant time.
    pub fn clocked(&self, id: u32) -> bool
        ensures { result ≡ has_clock (types_in self.now id) }
    {
        match self.note(id) {
            Some(note) => note.clocked,
            None => has_clock(self.of(id)),
        }
    }

    /// What is noted of the type of the component of a name.
    fn note(&self, id: u32) -> Option<&Note>
        ensures { IfSome result (λ note. IsNote (types_in self.now id) note.now) }
    {
        let number = *self.numbers.get(&id)?;
        if number < self.declared.len() {
            self.notes.get(number)
        } else {
            None
        }
    }
}

/// The numbers of names, of each name the first.
fn numbers_of(alloc: Global, names: &[Name]) -> Result<IndexMap<u32, usize>, AllocError>
    ensures { IfOk result (λ numbers. IsPlaced names.now numbers.entries) }
{
    let mut numbers = IndexMap::new(alloc);
    for number in 0..names.len() {
        insert_new(&mut numbers, names[number].id, number)?;
    }
    Ok(numbers)
}

/// Notes the number of a name, unless there is one.
fn insert_new(numbers: &mut IndexMap<u32, usize>, id: u32, number: usize) -> Result<(), AllocError>
    ensures { OnOk result (numbers.new.entries ≡ with_new numbers.old.entries id number) }
{
    if numbers.get(&id).is_none() {
        numbers.insert(id, number)?;
    }
    Ok(())
}
