//! The rows of an epoch: each output at its position in the watch list.

ghost use Rattle.std.specs.Prelude.{◌≡◌, ℕ, ◌<◌, ◌↔◌, [], length, slice_index_or, slice_set, IsTrue, IfOk};
ghost use Rattle.flat_code.specs.declared.code.Code.{Code as Cod};
ghost use Rattle.crew_workers.specs.Spreads.{Apart, AreBelow, Placed};
ghost use Rattle.crew_workers.specs.Places.{HasPlaces, OwnPlaces};
ghost use Rattle.worker_crew.specs.Joins.{AreInTurn, part_row, LetGo, IsJoined, AreJoined};

use bit_words::{Kind, List, Row, Rows, Value};
use crew_workers::place;
use flat_code::Code;
use std::alloc::{AllocError, Global};

// Whether these are the positions 0, 1, 2 and so on.
pub(crate) fn are_in_turn(positions: &[u32]) -> bool
    ensures { IsTrue result ↔ AreInTurn positions.now }
{
    for j in 0..positions.len() {
        if positions[j] as usize != j {
            return false;
        }
    }
    true
}

// Puts a code's outputs of a cycle at their positions, and lets its row of the cycle go.
fn move_in(alloc: Global, positions: &[u32], part: &mut Rows, cycle: usize, row: &mut [Value])
    requires there { cycle < length part.old }
    requires many { length (slice_index_or part.old cycle []) ≡ length positions.now }
    requires apart { Apart positions.now }
    requires within { AreBelow (length row.old) positions.now }
    ensures row { Placed positions.now (slice_index_or part.old cycle []) row.old row.new (length positions.now) }
    ensures part { part.new ≡ slice_set part.old cycle [] }
{
    place(positions, part.as_slice()[cycle].as_slice(), row);
    part.set(cycle, List::new(alloc));
}

// The same for all codes.
fn move_all(alloc: Global, codes: &[Code], parts: &mut [Rows], cycle: usize, row: &mut [Value])
    requires own { OwnPlaces codes.now }
    requires places { HasPlaces codes.now (length row.old) }
    requires parts { length parts.old ≡ length codes.now }
    requires there { (k : ℕ) → k < length codes.now → cycle < length (slice_index_or parts.old k []) }
    requires many { (k : ℕ) (d : Cod) → k < length codes.now → length (part_row parts.old k cycle) ≡ length (slice_index_or codes.now k d).positions }
    ensures many { length row.new ≡ length row.old }
    ensures row { IsJoined codes.now parts.old cycle row.new (length codes.now) }
    ensures parts { LetGo cycle parts.old parts.new (length codes.now) }
{
    for k in 0..codes.len() {
        let code = &codes[k];
        move_in(alloc, code.positions(), &mut parts[k], cycle, row);
    }
}

// The row of a cycle. The codes' rows of the cycle are let go.
fn join_row(
    alloc: Global,
    codes: &[Code],
    parts: &mut [Rows],
    cycle: usize,
    width: usize,
) -> Result<Row, AllocError>
    requires own { OwnPlaces codes.now }
    requires places { HasPlaces codes.now width }
    requires parts { length parts.old ≡ length codes.now }
    requires there { (k : ℕ) → k < length codes.now → cycle < length (slice_index_or parts.old k []) }
    requires many { (k : ℕ) (d : Cod) → k < length codes.now → length (part_row parts.old k cycle) ≡ length (slice_index_or codes.now k d).positions }
    ensures many { IfOk result (λ r. length r ≡ width) }
    ensures row { IfOk result (λ r. IsJoined codes.now parts.old cycle r (length codes.now)) }
    ensures parts { IfOk result (λ r. LetGo cycle parts.old parts.new (length codes.now)) }
{
    let nothing = Value {
        kind: Kind::Unsigned,
        width: 0,
        bits: 0,
    };
    let mut row = Vec::from_elem(alloc, nothing, width)?;
    move_all(alloc, codes, parts, cycle, row.as_mut_slice());
    Ok(List::from_vec(row))
}

// The rows of all cycles, one after the other: a code's row is let go as soon as its values stand in the joined one.
pub(crate) fn join_rows(
    alloc: Global,
    codes: &[Code],
    parts: &mut [Rows],
    cycles: usize,
    width: usize,
) -> Result<Rows, AllocError>
    requires own { OwnPlaces codes.now }
    requires places { HasPlaces codes.now width }
    requires parts { length parts.old ≡ length codes.now }
    requires rows { (k : ℕ) → k < length codes.now → length (slice_index_or parts.old k []) ≡ cycles }
    requires many { (k c : ℕ) (d : Cod) → k < length codes.now → c < cycles → length (part_row parts.old k c) ≡ length (slice_index_or codes.now k d).positions }
    ensures many { IfOk result (λ rows. length rows ≡ cycles) }
    ensures joined { IfOk result (AreJoined codes.now parts.old) }
{
    let mut rows = List::new(alloc);
    for cycle in 0..cycles {
        let row = join_row(alloc, codes, parts, cycle, width)?;
        rows.push(row)?;
    }
    Ok(rows)
}
