//! The version line.

ghost use Rattle.std.specs.Prelude.{◌≡◌, ◌⊎◌, ◌+◌, ◌-◌, ◌<◌, ◌^◌, [], ◌∷◌, length, IfOk, IfErr, IfSome, IfNone, OnOk, OnErr};
ghost use Rattle.fir_grammar.specs.Grammar.{Is, Nothing, Its_magnitude, A_major, A_number, The_mark, word, mark, line_end};
ghost use Rattle.fir_grammar.specs.Faults.{most, last_suffixes};
ghost use Rattle.token_reader.specs.Standing.{IsLaidFrom};
ghost use Rattle.fir_parser.specs.Taking.{StandsAt, HasTaken, Refuses, ReadsAll, Steps, blocks_at, here};
ghost use Rattle.fir_parser.specs.Expected.{Meets};
ghost use Rattle.fir_parser.specs.Heads.{VersionRefused, WordsStand};

use crate::symbols::{Expected, advance, fault_here, meets, take};
use fir_expr::Reader;
use fir_tree::ParseFault;

/// The words before the version's numbers.
pub fn read_words(reader: &mut Reader) -> Result<(), ParseFault>
    requires at { StandsAt reader.old }
    ensures reads { ReadsAll (word "FIRRTL" ∷ word "version" ∷ []) (λ _. tt) reader.old reader.new result }
    ensures absent { OnErr result (¬ (WordsStand reader.old)) }
    ensures two { OnOk result (reader.new.at ≡ reader.old.at + 2) }
{
    take(reader, Expected::Word("FIRRTL"))?;
    take(reader, Expected::Word("version"))?;
    Ok(())
}

/// The version's first number.
pub fn take_major(reader: &mut Reader) -> Result<u8, ParseFault>
    requires at { StandsAt reader.old }
    ensures ok { IfOk result (λ major. HasTaken (Is Its_magnitude A_major ∷ []) reader.old reader.new (major, tt)) }
    ensures known { IfOk result (λ major. (major ≡ 3) ⊎ (major ≡ 4)) }
    ensures at { OnOk result (StandsAt reader.new) }
    ensures blocks { OnOk result (blocks_at reader.new ≡ blocks_at reader.old) }
    ensures suffixes { OnOk result (last_suffixes (here reader.new).suffixes ≡ 0) }
    ensures refused { IfErr result (λ fault. VersionRefused reader.old fault) }
{
    let Some(number) = reader.number_here() else {
        return Err(fault_here(reader));
    };
    let (place, magnitude) = number;
    let Some(major) = major_of(magnitude) else {
        return Err(ParseFault::BadVersion(place));
    };
    advance(reader);
    Ok(major)
}

/// A number as the first one of a version that is read.
fn major_of(magnitude: u128) -> Option<u8>
    ensures same { IfSome result (λ major. major ≡ magnitude) }
    ensures known { IfSome result (λ major. (major ≡ 3) ⊎ (major ≡ 4)) }
    ensures none { IfNone result (¬ ((magnitude ≡ 3) ⊎ (magnitude ≡ 4))) }
{
    match magnitude {
        3 => Some(3),
        4 => Some(4),
        _ => None,
    }
}

/// The version's other numbers, each behind a `.`, and the end of the line.
pub fn read_numbers(reader: &mut Reader) -> Result<(), ParseFault>
    requires at { StandsAt reader.old }
    requires suffixes { last_suffixes (here reader.old).suffixes ≡ 0 }
    ensures { ReadsAll (mark 46 ∷ Is Nothing A_number ∷ mark 46 ∷ Is Nothing A_number ∷ line_end ∷ []) (λ _. tt) reader.old reader.new result }
{
    take_next_number(reader)?;
    take_next_number(reader)?;
    take(reader, Expected::LineEnd)?;
    Ok(())
}

/// A `.` and a number.
fn take_next_number(reader: &mut Reader) -> Result<(), ParseFault>
    requires at { StandsAt reader.old }
    requires suffixes { last_suffixes (here reader.old).suffixes < most }
    ensures reads { ReadsAll (mark 46 ∷ Is Nothing A_number ∷ []) (λ _. tt) reader.old reader.new result }
    ensures suffixes { OnOk result (last_suffixes (here reader.new).suffixes ≡ last_suffixes (here reader.old).suffixes + 1) }
{
    step_dot(reader)?;
    step_number(reader)?;
    Ok(())
}

/// Moves behind a `.`.
fn step_dot(reader: &mut Reader) -> Result<(), ParseFault>
    requires short { length reader.old.bytes.now < 2 ^ 32 - 1 }
    requires laid { IsLaidFrom reader.old.bytes.now reader.old.laid.now }
    ensures steps { OnOk result (Steps reader.old reader.new) }
    ensures meets { OnOk result (Meets (The_mark 46) reader.old) }
    ensures refused { IfErr result (λ fault. Refuses (mark 46 ∷ []) reader.old fault) }
{
    if !meets(reader, Expected::Mark(b'.')) {
        return Err(fault_here(reader));
    }
    advance(reader);
    Ok(())
}

/// Moves behind a number.
fn step_number(reader: &mut Reader) -> Result<(), ParseFault>
    requires short { length reader.old.bytes.now < 2 ^ 32 - 1 }
    requires laid { IsLaidFrom reader.old.bytes.now reader.old.laid.now }
    ensures steps { OnOk result (Steps reader.old reader.new) }
    ensures meets { OnOk result (Meets A_number reader.old) }
    ensures refused { IfErr result (λ fault. Refuses (Is Nothing A_number ∷ []) reader.old fault) }
{
    let Some(_number) = reader.number_here() else {
        return Err(fault_here(reader));
    };
    advance(reader);
    Ok(())
}
