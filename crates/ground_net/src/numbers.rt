//! Numbers of leaves that are told by a few of them.

ghost use Rattle.std.specs.Prelude.{◌≡◌, ◌<◌, ◌≤◌, ◌+◌, ◌*◌, ◌-◌, ◌^◌, ◌++◌, [], ◌∷◌, map, min, length, slice_get, slice_index, IfOk, IfSome, OnOk};
ghost use Rattle.ground_net.specs.Grounds.{element_count};
ghost use Rattle.ground_net.specs.Numbers.{listed, told, span_lengths};

use crate::new_numbers::NewNumbers;
use crate::stretch::{Span, Stretch};
use bit_words::List;
use std::alloc::{AllocError, Global};
use std::marker::Model;

/// Numbers of leaves, which contracts see as their list: any numbers, and then those of a leaf of the elements of vectors in one
/// another. A `u64` counts them.
#[derive(Drop)]
pub struct Numbers {
    others: List<u32>,
    stretch: Option<Stretch>,
}

impl Model for Numbers {
    ghost use Rattle.std.specs.Prelude.{ℕ, ◌<◌, ◌^◌, ◌++◌, length, List as Listed};
    ghost use Rattle.ground_net.specs.Numbers.{told};

    ghost Value = { Listed ℕ };

    ghost view = { λ n. n.others ++ told n.stretch };

    ghost invariant = { λ n. length (n.others ++ told n.stretch) < 2 ^ 64 };
}

impl Numbers {
    /// The numbers of a leaf of the elements of vectors in one another. More than a `u64` counts are a want of memory.
    pub fn of_spans(alloc: Global, first: u32, spans: List<Span>) -> Result<Numbers, AllocError>
        ensures { IfOk result (λ it. it ≡ listed spans first) }
    {
        let Ok(_) = u64::try_from(count_of(spans.as_slice())) else {
            return Err(AllocError);
        };
        Ok(Numbers {
            others: List::new(alloc),
            stretch: Some(Stretch { first, spans }),
        })
    }

    /// These numbers.
    pub fn of_list(numbers: List<u32>) -> Numbers
        ensures { result ≡ numbers }
    {
        Numbers {
            others: numbers,
            stretch: None,
        }
    }

    /// The same numbers.
    pub fn copied(&self, alloc: Global) -> Result<Numbers, AllocError>
        ensures { IfOk result (λ it. it ≡ self.now) }
    {
        let others = List::from_slice(alloc, self.others.as_slice())?;
        let stretch = match &self.stretch {
            Some(stretch) => Some(Stretch {
                first: stretch.first,
                spans: List::from_slice(alloc, stretch.spans.as_slice())?,
            }),
            None => None,
        };
        Ok(Numbers { others, stretch })
    }

    /// How many there are.
    pub fn count(&self) -> u64
        ensures { result ≡ length self.now }
    {
        let others = self.others.as_slice().len() as u64;
        match &self.stretch {
            Some(stretch) => others + count_of(stretch.spans.as_slice()) as u64,
            None => others,
        }
    }

    /// The number at a place. Takes no memory.
    pub fn get(&self, place: u64) -> Option<u128>
        ensures { result ≡ slice_get self.now place }
    {
        let others = self.others.as_slice();
        let before = others.len() as u64;
        if place < before {
            return Some(u128::from(others[place as usize]));
        }
        match &self.stretch {
            Some(stretch) => listed_at(stretch.spans.as_slice(), stretch.first, place - before),
            None => None,
        }
    }

    /// The stretch that tells all of them, where one does.
    pub fn stretch(&self) -> Option<&Stretch>
        ensures { IfSome result (λ r. self.now ≡ listed r.now.spans r.now.first) }
    {
        if self.others.is_empty() {
            self.stretch.as_ref()
        } else {
            None
        }
    }

    /// Adds them to a list, one by one.
    pub fn push_to(&self, row: &mut Vec<u32>) -> Result<(), AllocError>
        ensures { OnOk result (row.new.items ≡ row.old.items ++ self.now) }
    {
        row.extend_from_slice(self.others.as_slice())?;
        match &self.stretch {
            Some(stretch) => push_listed(row, stretch.spans.as_slice(), stretch.first),
            None => Ok(()),
        }
    }

    /// What stands for these numbers. Where leaves that stand side by side stay so, it takes no time by their count.
    pub fn renumbered(&self, alloc: Global, numbers: &NewNumbers) -> Result<Numbers, AllocError>
        ensures { IfOk result (λ it. it ≡ map (slice_index numbers.now) self.now) }
    {
        if let Some(stretch) = &self.stretch {
            if self.others.is_empty() && numbers.keep(stretch) {
                let spans = List::from_slice(alloc, stretch.spans.as_slice())?;
                let first = numbers.number_of(stretch.first);
                let kept = Numbers::of_spans(alloc, first, spans)?;
                return Ok(kept);
            }
        }
        let mut row = Vec::new(alloc);
        self.push_to(&mut row)?;
        let each = renumbered_each(alloc, numbers, row.as_slice())?;
        Ok(Numbers::of_list(each))
    }
}

/// How many elements the vectors in one another have, as far as a `u128` counts.
fn count_of(spans: &[Span]) -> u128
    ensures { result ≡ min (element_count (span_lengths spans.now)) (2 ^ 128 - 1) }
{
    let mut count: u128 = 1;
    for span in spans {
        count = count.saturating_mul(span.length);
    }
    count
}

/// The number at a place of a stretch.
fn listed_at(spans: &[Span], first: u32, place: u64) -> Option<u128>
    ensures { result ≡ slice_get (listed spans.now first) place }
{
    let mut number = u128::from(first);
    let mut left = u128::from(place);
    let mut at = 0;
    while at < spans.len() {
        let span = spans[at];
        let count = count_of(&spans[at + 1..]);
        if count == 0 {
            return None;
        }
        let index = left / count;
        if index >= span.length {
            return None;
        }
        number += index * u128::from(span.stride);
        left %= count;
        at += 1;
    }
    if left == 0 { Some(number) } else { None }
}

/// Adds the numbers of a stretch.
fn push_listed(row: &mut Vec<u32>, spans: &[Span], first: u32) -> Result<(), AllocError>
    ensures { OnOk result (row.new.items ≡ row.old.items ++ listed spans.now first) }
{
    let Some((span, rest)) = spans.split_first() else {
        row.push(first)?;
        return Ok(());
    };
    let Ok(length) = u32::try_from(span.length) else {
        return Err(AllocError);
    };
    for number in 0..length {
        push_listed(row, rest, at_stride(first, number, span.stride)?)?;
    }
    Ok(())
}

/// The number of the leaf in an element; where a `u32` doesn't hold it, memory is said to be wanted.
fn at_stride(first: u32, number: u32, stride: u32) -> Result<u32, AllocError>
    ensures { IfOk result (λ moved. moved ≡ first + number * stride) }
{
    match number.checked_mul(stride) {
        Some(by) => match first.checked_add(by) {
            Some(moved) => Ok(moved),
            None => Err(AllocError),
        },
        None => Err(AllocError),
    }
}

/// The numbers that stand for these, one by one.
fn renumbered_each(
    alloc: Global,
    numbers: &NewNumbers,
    row: &[u32],
) -> Result<List<u32>, AllocError>
    ensures { IfOk result (λ it. it ≡ map (slice_index numbers.now) row.now) }
{
    let mut each = List::new(alloc);
    for number in row {
        each.push(numbers.number_of(*number))?;
    }
    Ok(each)
}
