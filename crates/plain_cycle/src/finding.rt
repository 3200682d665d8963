//! What stands in lists beside the components of a run.

ghost use Rattle.std.specs.Prelude.{◌≡◌, map, pos, IfSome, IfNone, Some, None};
ghost use Rattle.bit_words.specs.Values.{integer_of};
ghost use Rattle.fir_meaning.specs.Drives.{same_leaf, same_way};
ghost use Rattle.fir_meaning.specs.States.{located};
ghost use Rattle.drive_check.specs.Keys.{leaf_of_key};
ghost use Rattle.plain_cycle.specs.Layouts.{Located};
ghost use Rattle.plain_cycle.specs.Given.{given_beside};
ghost use Rattle.plain_cycle.specs.Firsts.{first_beside, integer_beside_it};
ghost use Rattle.plain_cycle.specs.Runs.{IsRun, IsPart, design_in, captured_on, shows};

use crate::run::{Part, Run};
use bit_words::{Kind, List, Value};
use drive_check::leaf_set::LeafKey;
use fir_types::{PathStep, TypeLeaf};
use plain_values::sights::stands_at;
use plain_values::{Site, zero};

/// 0 of no bits.
pub fn nothing() -> Value
    ensures { integer_of result ≡ pos 0 }
{
    zero(Kind::Unsigned, 0)
}

/// The component of a name in the module at a path.
pub fn part_at<'a>(run: &Run<'a>, path: &[u32], name: u32) -> Option<Part<'a>>
    requires { IsRun run.now }
    ensures some { IfSome result (λ part. (x : Located) × IsPart (design_in run.now) x part × (x.path ≡ path.now) × (located (design_in run.now) path.now name ≡ Some (x.m, x.c))) }
    ensures none { IfNone result (located (design_in run.now) path.now name ≡ None) }
{
    for at in 0..run.sites.len().min(run.declared.len()) {
        let site = &run.sites[at];
        if stands_at(site, path, name) {
            return Some(Part {
                site,
                declaration: run.declared[at],
            });
        }
    }
    None
}

/// The value that a row of inputs gives for a leaf; 0 where it gives none.
pub fn given(inputs: &[LeafKey], row: &[Value], leaf: &LeafKey) -> Value
    ensures { integer_of result ≡ given_beside (leaf_of_key leaf.now) (map leaf_of_key inputs.now) row.now }
{
    for at in 0..inputs.len().min(row.len()) {
        if is_same(&inputs[at], leaf) {
            return row[at];
        }
    }
    nothing()
}

fn is_same(key: &LeafKey, leaf: &LeafKey) -> bool
    ensures { result ≡ same_leaf (leaf_of_key key.now) (leaf_of_key leaf.now) }
{
    *key == *leaf
}

/// What the port of a name has read at a way of an element.
pub fn captured(
    sites: &[Site],
    values: &[List<Value>],
    component: (&[u32], u32),
    port: u32,
    way: &[PathStep],
) -> Value
    ensures { integer_of result ≡ captured_on sites.now values.now component.entry.0.now component.entry.1 port way.now }
{
    for at in 0..sites.len().min(values.len()) {
        let site = &sites[at];
        if stands_at(site, component.0, component.1) {
            return read_in(site.leaves.as_slice(), values[at].as_slice(), port, way);
        }
    }
    nothing()
}

/// The value beside the first leaf that shows what a port reads at a way of an element.
fn read_in(leaves: &[TypeLeaf], values: &[Value], port: u32, way: &[PathStep]) -> Value
    ensures { integer_of result ≡ integer_beside_it (first_beside (shows port way.now) leaves.now values.now) }
{
    for at in 0..leaves.len().min(values.len()) {
        if shows(&leaves[at], port, way) {
            return values[at];
        }
    }
    nothing()
}

/// Whether a leaf shows what the port of a name reads at a way of an element.
fn shows(leaf: &TypeLeaf, port: u32, way: &[PathStep]) -> bool
    ensures { result ≡ shows port way.now leaf.now }
{
    if leaf.flip {
        return false;
    }
    match leaf.path.as_slice() {
        [PathStep::Field(name), PathStep::Field(_), inner @ ..] => *name == port
            && is_way(inner, way),
        _ => false,
    }
}

fn is_way(way: &[PathStep], other: &[PathStep]) -> bool
    ensures { result ≡ same_way way.now other.now }
{
    way == other
}
