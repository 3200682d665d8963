//! The leaves of main's ports by their names.

ghost use Rattle.std.specs.Prelude.{◌≡◌, ℕ, ◌<◌, ◌≤◌, ◌^◌, List, [], length, OnOk, IfOk};
ghost use Rattle.std.specs.Map.{update};
ghost use Rattle.std.specs.Str.{bytes_eq};
ghost use Rattle.stimulus.specs.Naming.{found, is_other, named_in, KnowsNames};

use bit_words::Text;
use ground_net::{PortLeaf, Ports};
use std::alloc::{AllocError, Global};
use std::collections::BTreeMap;

/// What a name stands for.
#[derive(Clone, Copy)]
pub enum NamedLeaf {
    /// The input of this number.
    Input(u32),
    /// A leaf that isn't set from outside.
    Other,
}

/// The leaves of main's ports by their names.
#[derive(Drop)]
pub struct Names<'a> {
    leaves: BTreeMap<&'a [u8], NamedLeaf>,
}

/// The names of ports.
pub fn names_of(alloc: Global, ports: &Ports) -> Result<Names<'_>, AllocError>
    requires { length ports.now.inputs < 2 ^ 32 }
    ensures { IfOk result (λ names. KnowsNames ports.now names) }
{
    let mut names = Names {
        leaves: BTreeMap::new(alloc),
    };
    add_names(&mut names, ports.names.as_slice())?;
    add_inputs(&mut names, ports.inputs.as_slice())?;
    Ok(names)
}

/// Adds the names of leaves.
fn add_names<'a>(known: &mut Names<'a>, names: &'a [Text]) -> Result<(), AllocError>
    requires { (name : List ℕ) → found known.old name ≡ named_in [] [] name }
    ensures { OnOk result ((name : List ℕ) → found known.new name ≡ named_in names.now [] name) }
{
    for name in names {
        add(known, name.as_slice(), NamedLeaf::Other)?;
    }
    Ok(())
}

/// Adds which of the names are those of inputs, the first input of each name.
fn add_inputs<'a>(known: &mut Names<'a>, inputs: &'a [PortLeaf]) -> Result<(), AllocError>
    requires { length inputs.now < 2 ^ 32 }
    ensures { OnOk result ((names : List (List ℕ)) → ((name : List ℕ) → found known.old name ≡ named_in names [] name) → (name : List ℕ) → found known.new name ≡ named_in names inputs.now name) }
{
    for number in 0..inputs.len() {
        let leaf = &inputs[number];
        let name = leaf.name.as_slice();
        if is_other(find(known, name)) {
            add(known, name, NamedLeaf::Input(number as u32))?;
        }
    }
    Ok(())
}

/// Whether it is a leaf that isn't set from outside.
fn is_other(leaf: Option<NamedLeaf>) -> bool
    ensures { result ≡ is_other leaf }
{
    matches!(leaf, Some(NamedLeaf::Other))
}

/// Adds what a name stands for.
fn add<'a>(known: &mut Names<'a>, name: &'a [u8], leaf: NamedLeaf) -> Result<(), AllocError>
    ensures { OnOk result ((other : List ℕ) → found known.new other ≡ update bytes_eq (found known.old) name.now (Some leaf) other) }
{
    known.leaves.insert(name, leaf)?;
    Ok(())
}

/// What a name stands for; none where no leaf has it.
pub fn find(known: &Names<'_>, name: &[u8]) -> Option<NamedLeaf>
    ensures { result ≡ found known.now name.now }
{
    known.leaves.get(name).copied()
}
