//! The texts of leaves: names and the ways to parts, as in an expression. Keeps the contract that each is, byte by byte, the text
//! of what it is made from.
ghost use Rattle.std.specs.Prelude.{◌≡◌, ◌++◌, IfOk, OnOk};
ghost use Rattle.fir_tree.specs.LeafNames.{text_of, step_text, way_text, leaf_text};

use crate::names::Names;
use bit_words::{List, Text};
use fir_types::PathStep;
use itoa::Buffer;
use std::alloc::{AllocError, Global};

/// Adds the text of a name.
pub fn push_name(text: &mut Vec<u8>, names: &Names, id: u32) -> Result<(), AllocError>
    ensures { OnOk result (text.new.items ≡ text.old.items ++ text_of names.now id) }
{
    if let Some(name) = names.get(id) {
        text.extend_from_slice(name.as_bytes())?;
    }
    Ok(())
}

/// Adds the text of a step, `.x` or `[2]`.
pub fn push_step(text: &mut Vec<u8>, names: &Names, step: PathStep) -> Result<(), AllocError>
    ensures { OnOk result (text.new.items ≡ text.old.items ++ step_text names.now step) }
{
    match step {
        PathStep::Field(id) => {
            text.push(b'.')?;
            push_name(text, names, id)
        }
        PathStep::Element(number) => {
            let mut digits = Buffer::new();
            text.push(b'[')?;
            text.extend_from_slice(digits.format(number).as_bytes())?;
            text.push(b']')?;
            Ok(())
        }
    }
}

/// Adds the text of the way to a part.
pub fn push_way(text: &mut Vec<u8>, names: &Names, way: &[PathStep]) -> Result<(), AllocError>
    ensures { OnOk result (text.new.items ≡ text.old.items ++ way_text names.now way.now) }
{
    for step in way {
        push_step(text, names, *step)?;
    }
    Ok(())
}

/// The text of a component's leaf.
pub fn leaf_name(
    alloc: Global,
    names: &Names,
    component: u32,
    way: &[PathStep],
) -> Result<Text, AllocError>
    ensures { IfOk result (λ text. text ≡ leaf_text names.now component way.now) }
{
    let mut text = Vec::new(alloc);
    push_name(&mut text, names, component)?;
    push_way(&mut text, names, way)?;
    Ok(List::from_vec(text))
}
