//! The leaves that the words of a dump name.

ghost use Rattle.std.specs.Prelude.{◌≡◌, ℕ, ◌<◌, List as Listed, length, map, All, Some, None, slice_get, IfOk, OnOk, IfSome, IfNone, if◌then◌else◌};
ghost use Rattle.std.specs.List.{AllZip, position_from};
ghost use Rattle.std.specs.Str.{bytes_eq};
ghost use Rattle.std.specs.BTreeMap.{get_by};
ghost use Rattle.std.specs.Cmp.Lexicographic.{slice_cmp};
ghost use Rattle.std.specs.Ordering.{nat_cmp};
ghost use Rattle.fir_tree.specs.LeafNames.{Texts};
ghost use Rattle.fir_meaning.specs.Components.{Design};
ghost use Rattle.ground_net.specs.Naming.{IsFirstNamed};
ghost use Rattle.ground_net.specs.Watching.{watched};
ghost use Rattle.net_laws.specs.Serves.{Serves};
ghost use Rattle.circuit_texts.specs.Variables.{NamesNoLeaf};
ghost use Rattle.circuit_texts.specs.NetNames.{AreNumbersOf, NamesNone, is_valued, is_named};

use bit_words::List;
use crew_run::watched_numbers;
use ground_net::{Leaf, Net, Ordered, Ports, Role};
use std::alloc::{AllocError, Global};
use std::collections::BTreeMap;

/// The numbers of the leaves that are dumped: for each word that of the first leaf in flat order of this name that is no Clock; and where
/// there is no word, those of main's watched leaves. None where a word names no such leaf.
///
/// Goes once through all leaves, which a `u32` numbers.
pub fn variables(
    alloc: Global,
    ordered: &Ordered,
    ports: &Ports,
    names: &[&str],
) -> Result<Option<List<u32>>, AllocError>
    requires seen { ports.now.watched ≡ watched ordered.now.net }
    requires few { length ordered.now.net.leaves < 4294967296 }
    ensures found { IfOk result (λ r. IfSome r (AreNumbersOf ordered.now.net (map (λ n. n.now) names.now))) }
    ensures leaves { IfOk result (λ r. IfSome r (λ numbers. All (λ x. x < length ordered.now.net.leaves) numbers)) }
    ensures none { IfOk result (λ r. IfNone r (NamesNone ordered.now.net (map (λ n. n.now) names.now))) }
    ensures unknown { (texts : Texts) (design : Design) → Serves texts design ordered.now.net → IfOk result (λ r. IfNone r (NamesNoLeaf texts design (map (λ n. n.now) names.now))) }
    ensures known { (texts : Texts) (design : Design) → Serves texts design ordered.now.net → IfOk result (λ r. IfSome r (λ _. NamesNoLeaf texts design (map (λ n. n.now) names.now) → ⊥)) }
{
    if names.is_empty() {
        let numbers = watched_numbers(alloc, ordered, ports)?;
        return Ok(Some(numbers));
    }
    named(alloc, &ordered.net, names)
}

/// The numbers of the first leaves of some names.
fn named(alloc: Global, net: &Net, names: &[&str]) -> Result<Option<List<u32>>, AllocError>
    requires { length net.now.leaves < 4294967296 }
    ensures found { IfOk result (λ r. IfSome r (AllZip (IsFirstNamed net.now) (map (λ n. n.now) names.now))) }
    ensures none { IfOk result (λ r. IfNone r (NamesNone net.now (map (λ n. n.now) names.now))) }
{
    let firsts = first_numbers(alloc, net.leaves.as_slice())?;
    numbers_of(alloc, &firsts, names)
}

/// The number of the first leaf of each name that is no Clock.
fn first_numbers<'a>(
    alloc: Global,
    leaves: &'a [Leaf],
) -> Result<BTreeMap<&'a [u8], u32>, AllocError>
    requires { length leaves.now < 4294967296 }
    ensures { IfOk result (λ firsts. (name : Listed ℕ) → get_by (λ k. slice_cmp nat_cmp name k.now) firsts ≡ position_from (is_named name) 0 leaves.now) }
{
    let mut firsts = BTreeMap::new(alloc);
    for turn in 0..leaves.len() {
        let number = leaves.len() - 1 - turn;
        note(&mut firsts, &leaves[number], number as u32)?;
    }
    Ok(firsts)
}

/// Notes the number of a leaf under its name, in the place of any other, unless it is a Clock.
fn note<'a>(
    firsts: &mut BTreeMap<&'a [u8], u32>,
    leaf: &'a Leaf,
    number: u32,
) -> Result<(), AllocError>
    ensures { OnOk result ((name : Listed ℕ) → get_by (λ k. slice_cmp nat_cmp name k.now) firsts.new ≡ (if is_named name leaf.now then Some number else get_by (λ k. slice_cmp nat_cmp name k.now) firsts.old)) }
{
    if !has_value(leaf.role) {
        return Ok(());
    }
    firsts.insert(leaf.name.as_slice(), number)?;
    Ok(())
}

/// Whether a leaf of this role has a value.
fn has_value(role: Role) -> bool
    ensures { result ≡ is_valued role }
{
    !matches!(role, Role::Clock)
}

/// The numbers that words have, where each has one.
fn numbers_of(
    alloc: Global,
    firsts: &BTreeMap<&[u8], u32>,
    names: &[&str],
) -> Result<Option<List<u32>>, AllocError>
    ensures some { IfOk result (λ r. IfSome r (AllZip (λ name x. get_by (λ k. slice_cmp nat_cmp name k.now) firsts.now ≡ Some x) (map (λ n. n.now) names.now))) }
    ensures none { IfOk result (λ r. IfNone r ((at : ℕ) × (name : Listed ℕ) × (slice_get (map (λ n. n.now) names.now) at ≡ Some name) × (get_by (λ k. slice_cmp nat_cmp name k.now) firsts.now ≡ None))) }
{
    let mut numbers = List::new(alloc);
    for at in 0..names.len() {
        let name = names[at];
        let Some(number) = firsts.get(name.as_bytes()) else {
            return Ok(None);
        };
        numbers.push(*number)?;
    }
    Ok(Some(numbers))
}
