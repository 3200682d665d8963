//! What references and choices of a module came to, so that each is found once.

ghost use Rattle.std.specs.Prelude.{◌≡◌, ◌<◌, map, zip, length, IfOk, OnOk};
ghost use Rattle.std.specs.Prelude.{List as Listed};
ghost use Rattle.std.specs.List.{list_any};
ghost use Rattle.fir_types.specs.declared.fir_type.FirType.{FirType as TheType};
ghost use Rattle.prim_ops.specs.declared.widths.Width.{Width as AWidth};
ghost use Rattle.width_rules.specs.Sources.{Known, component, named, suffix_step};
ghost use Rattle.type_filling.specs.Filling.{filled};
ghost use Rattle.part_fits.specs.Widths.{slot_width, is_over, wider_of};
ghost use Rattle.part_fits.specs.Seen.{IsSeen, IsSeenAt, IsPart, AreChoices, Keeps};

use crate::fits::Fit;
use crate::reference::{Reference, key_of};
use crate::widths::{any_over, is_as_wide, wider_each, widths_in};
use bit_words::List;
use fir_tree::Suffix;
use fir_types::{FirType, copy};
use indexmap::IndexMap;
use prim_ops::Width;
use std::alloc::{AllocError, Global};
use std::collections::BTreeMap;
use type_filling::made::Made;
use width_rules::indexed::Indexed;
use width_rules::measuring::{look_up, no_component};
use width_rules::steps::walk_steps;

/// What an expression is among: the widths of the variables, and the components that are declared before it, by the numbers of
/// their names.
#[derive(Clone, Copy)]
pub struct Among<'a> {
    pub alloc: Global,
    pub widths: &'a [Width],
    pub known: &'a IndexMap<u32, Indexed>,
}

/// What an expression comes to: its type, the widths of its type's places, and the type with these widths.
#[derive(Drop)]
pub struct Seen {
    pub typ: FirType,
    pub widths: List<Width>,
    pub fit: Fit,
}

impl Seen {
    /// Takes time in proportion to the places, which count as parts that are made. Too many in all are a want of memory.
    pub fn new(
        alloc: Global,
        made: &mut Made,
        typ: FirType,
        widths: List<Width>,
    ) -> Result<Seen, AllocError>
        ensures { IfOk result (IsSeen typ widths) }
    {
        made.count(widths.len())?;
        let fit = Fit {
            typ: made.fit(alloc, &typ, widths.as_slice())?,
            is_over: any_over(widths.as_slice()),
        };
        Ok(Seen { typ, widths, fit })
    }
}

/// What references and choices of a module came to. A reference to a component that is known comes to the same later on, and
/// so does a choice between two that were seen: each of them is kept once.
#[derive(Drop)]
pub struct Choices {
    /// By ordered maps, since a text chooses the keys.
    references: BTreeMap<Reference, usize>,
    /// By the numbers of what is chosen between.
    pairs: BTreeMap<(usize, usize), usize>,
    seen: Vec<Seen>,
}

impl Choices {
    /// Nothing was seen.
    pub fn new(alloc: Global) -> Choices
        ensures { (ws : Listed AWidth) (known : Known) → AreChoices ws known result }
    {
        Choices {
            references: BTreeMap::new(alloc),
            pairs: BTreeMap::new(alloc),
            seen: Vec::new(alloc),
        }
    }

    /// What was seen under this number, with its widths.
    pub fn fit(&self, number: usize) -> &Fit
        requires { number < length self.now.seen.items }
        ensures typ { (typ : TheType) (ws : Listed AWidth) → IsSeenAt self.now.seen.items number typ ws → result.now.typ ≡ filled typ ws }
        ensures over { (typ : TheType) (ws : Listed AWidth) → IsSeenAt self.now.seen.items number typ ws → result.now.is_over ≡ list_any is_over ws }
    {
        &self.seen[number].fit
    }

    /// Keeps what an expression comes to, under a number of its own.
    pub fn push(&mut self, seen: Seen) -> Result<usize, AllocError>
        ensures held { (ws : Listed AWidth) (known : Known) → AreChoices ws known self.old → OnOk result (AreChoices ws known self.new) }
        ensures keeps { OnOk result (Keeps self.old.seen.items self.new.seen.items) }
        ensures seen { (typ : TheType) (ws : Listed AWidth) → IsSeen typ ws seen → IfOk result (λ number. IsSeenAt self.new.seen.items number typ ws) }
        ensures references { OnOk result (self.new.references ≡ self.old.references) }
        ensures pairs { OnOk result (self.new.pairs ≡ self.old.pairs) }
    {
        let number = self.seen.len();
        self.seen.push(seen)?;
        Ok(number)
    }

    /// The number of what a reference comes to. Takes time in proportion to its steps where it was seen before.
    pub fn of_reference(
        &mut self,
        among: &Among<'_>,
        made: &mut Made,
        name: u32,
        suffixes: &[Suffix],
    ) -> Result<usize, AllocError>
        requires { AreChoices among.now.widths.now among.now.known.now.entries self.old }
        ensures held { OnOk result (AreChoices among.now.widths.now among.now.known.now.entries self.new) }
        ensures keeps { OnOk result (Keeps self.old.seen.items self.new.seen.items) }
        ensures seen { IfOk result (λ number. IsPart among.now.widths.now self.new.seen.items number (named (map suffix_step suffixes.now) (component among.now.known.now.entries name))) }
    {
        let key = key_of(among.alloc, name, suffixes)?;
        if let Some(number) = self.references.get(&key) {
            return Ok(*number);
        }
        let (typ, widths) = part_among(among, name, suffixes)?;
        let number = self.push(Seen::new(among.alloc, made, typ, widths)?)?;
        if among.known.get(&name).is_some() {
            self.references.insert(key, number)?;
        }
        Ok(number)
    }

    /// The number of a choice between two that were seen, which has the type of the first. Takes constant time where it was seen
    /// before.
    pub fn of_pair(
        &mut self,
        alloc: Global,
        made: &mut Made,
        first: usize,
        second: usize,
    ) -> Result<usize, AllocError>
        requires first { first < length self.old.seen.items }
        requires second { second < length self.old.seen.items }
        ensures held { (ws : Listed AWidth) (known : Known) (typ other : TheType) (firsts seconds : Listed AWidth) → AreChoices ws known self.old → IsSeenAt self.old.seen.items first typ firsts → IsSeenAt self.old.seen.items second other seconds → OnOk result (AreChoices ws known self.new) }
        ensures keeps { OnOk result (Keeps self.old.seen.items self.new.seen.items) }
        ensures seen { (ws : Listed AWidth) (known : Known) (typ other : TheType) (firsts seconds : Listed AWidth) → AreChoices ws known self.old → IsSeenAt self.old.seen.items first typ firsts → IsSeenAt self.old.seen.items second other seconds → IfOk result (λ number. IsSeenAt self.new.seen.items number typ (map wider_of (zip firsts seconds))) }
    {
        let pair = (first, second);
        if let Some(number) = self.pairs.get(&pair) {
            return Ok(*number);
        }
        let number = self.choose(alloc, made, first, second)?;
        self.pairs.insert(pair, number)?;
        Ok(number)
    }

    /// The same of two between which no choice is kept. It is the first where no width of the second is greater.
    fn choose(
        &mut self,
        alloc: Global,
        made: &mut Made,
        first: usize,
        second: usize,
    ) -> Result<usize, AllocError>
        requires first { first < length self.old.seen.items }
        requires second { second < length self.old.seen.items }
        ensures held { (ws : Listed AWidth) (known : Known) → AreChoices ws known self.old → OnOk result (AreChoices ws known self.new) }
        ensures keeps { OnOk result (Keeps self.old.seen.items self.new.seen.items) }
        ensures seen { (typ other : TheType) (firsts seconds : Listed AWidth) → IsSeenAt self.old.seen.items first typ firsts → IsSeenAt self.old.seen.items second other seconds → IfOk result (λ number. IsSeenAt self.new.seen.items number typ (map wider_of (zip firsts seconds))) }
        ensures references { OnOk result (self.new.references ≡ self.old.references) }
        ensures pairs { OnOk result (self.new.pairs ≡ self.old.pairs) }
    {
        let (one, other) = (&self.seen[first], &self.seen[second]);
        if is_as_wide(one.widths.as_slice(), other.widths.as_slice()) {
            return Ok(first);
        }
        let seen = chosen(alloc, made, one, other)?;
        self.push(seen)
    }
}

/// What a choice between two comes to.
fn chosen(alloc: Global, made: &mut Made, first: &Seen, second: &Seen) -> Result<Seen, AllocError>
    ensures { IfOk result (IsSeen first.now.typ (map wider_of (zip first.now.widths second.now.widths))) }
{
    let widths = wider_each(alloc, first.widths.as_slice(), second.widths.as_slice())?;
    Seen::new(alloc, made, copy(&first.typ)?, widths)
}

/// The type of what a reference names, and the widths of its places.
fn part_among(
    among: &Among<'_>,
    name: u32,
    suffixes: &[Suffix],
) -> Result<(FirType, List<Width>), AllocError>
    ensures typ { IfOk result (λ part. part.0 ≡ (named (map suffix_step suffixes.now) (component among.now.known.now.entries name)).part.typ) }
    ensures widths { IfOk result (λ part. part.1 ≡ map (slot_width among.now.widths.now) (named (map suffix_step suffixes.now) (component among.now.known.now.entries name)).slots) }
{
    let nothing = no_component(among.alloc)?;
    let view = walk_steps(look_up(among.known, name, &nothing), suffixes);
    let widths = widths_in(among.alloc, among.widths, view.slots)?;
    Ok((copy(view.known.typ)?, widths))
}
