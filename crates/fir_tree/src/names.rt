//! The texts of names.

ghost use Rattle.std.specs.Prelude.{◌≡◌, ◌<◌, ◌≤◌, ◌^◌, ◌+◌, ◌-◌, [], length, Some, slice_get, option_copied, IfOk, OnErr};
ghost use Rattle.fir_tree.specs.Numbered.{AddsName};

use std::alloc::{AllocError, Global};
use std::collections::BTreeMap;
use std::marker::Model;

/// Texts, numbered from 0 in the order of their first use. Contracts see the list of the texts.
#[derive(Drop)]
pub struct Names {
    alloc: Global,
    texts: Vec<String>,
    /// The number of each text. An ordered map, so that no texts are slow to tell apart.
    numbers: BTreeMap<String, u32>,
}

impl Model for Names {
    ghost use Rattle.std.specs.Prelude.{List, ℕ, map, string_bytes};
    ghost use Rattle.std.specs.Coded.{coded_list, coded_ℕ};
    ghost use Rattle.fir_tree.specs.Naming.{FindsNumbers};

    ghost Value = { List (List ℕ) };

    ghost coded = { coded_list (coded_list coded_ℕ) };

    ghost view = { λ n. map string_bytes n.texts.items };

    ghost invariant = { λ n. FindsNumbers n.numbers (map string_bytes n.texts.items) };
}

impl Names {
    /// No text is held.
    pub fn new(alloc: Global) -> Names
        ensures { result ≡ [] }
    {
        Names {
            alloc,
            texts: Vec::new(alloc),
            numbers: BTreeMap::new(alloc),
        }
    }

    /// The number of a text, which is added where it is new. Where memory is wanted the texts stay as they were.
    pub fn add(&mut self, text: &str) -> Result<u32, AllocError>
        requires { length self.old < 2 ^ 32 - 1 }
        ensures added { IfOk result (λ id. AddsName self.old self.new text.now id) }
        ensures unchanged { OnErr result (self.new ≡ self.old) }
        ensures grows { length self.new ≤ length self.old + 1 }
    {
        if let Some(id) = self.numbers.get(text).copied() {
            return Ok(id);
        }
        let key = String::from_str(self.alloc, text)?;
        let owned = String::from_str(self.alloc, text)?;
        self.texts.reserve(1)?;
        let id = self.texts.len() as u32;
        self.numbers.insert(key, id)?;
        if self.texts.push(owned).is_err() {
            unreachable!();
        }
        Ok(id)
    }

    /// The text of a number, or `None` where no text has it.
    pub fn get(&self, id: u32) -> Option<&str>
        ensures { option_copied result ≡ slice_get self.now id }
    {
        let text = self.texts.get(id as usize)?;
        Some(text.as_str())
    }

    /// The text of a number.
    pub fn text(&self, id: u32) -> &str
        requires { id < length self.now }
        ensures { slice_get self.now id ≡ Some result.now }
    {
        self.texts[id as usize].as_str()
    }

    /// The same texts under the same numbers, in memory of their own.
    pub fn copy(&self) -> Result<Names, AllocError>
        ensures { IfOk result (λ copied. copied ≡ self.now) }
    {
        Ok(Names {
            alloc: self.alloc,
            texts: self.texts.clone()?,
            numbers: self.numbers.clone()?,
        })
    }
}
