//! The beginnings of lines.

ghost use Rattle.std.specs.Prelude.{[], ◌∷◌, OnOk};
ghost use Rattle.fir_grammar.specs.Grammar.{Is, A, Nothing, The_word, The_mark, name, mark, colon, Type_of};
ghost use Rattle.fir_parser.specs.Taking.{StandsAt, IsFresh, ReadsAll};
ghost use Rattle.fir_parser.specs.Expected.{IsQuietMark};

use crate::symbols::{Expected, take, take_name, take_type};
use fir_expr::Reader;
use fir_tree::ParseFault;
use fir_types::{FirType, Name};
use std::alloc::Global;

/// A word, a name and a `:` or `=`.
pub fn read_named(reader: &mut Reader, word: &str, mark: u8) -> Result<Name, ParseFault>
    requires at { StandsAt reader.old }
    requires mark { IsQuietMark mark }
    ensures reads { ReadsAll (Is Nothing (The_word word.now) ∷ name ∷ Is Nothing (The_mark mark) ∷ []) (λ id. (id, tt)) reader.old reader.new result }
    ensures fresh { OnOk result (IsFresh reader.new) }
{
    take(reader, Expected::Word(word))?;
    let name = take_name(reader)?;
    take(reader, Expected::Mark(mark))?;
    Ok(name)
}

/// A word, a name, a `:` and a type.
pub fn read_typed(
    alloc: Global,
    reader: &mut Reader,
    word: &str,
) -> Result<(Name, FirType), ParseFault>
    requires at { StandsAt reader.old }
    ensures { ReadsAll (Is Nothing (The_word word.now) ∷ name ∷ colon ∷ A Type_of ∷ []) (λ it. (it.0, (it.1, tt))) reader.old reader.new result }
{
    let name = read_named(reader, word, b':')?;
    let typ = take_type(alloc, reader)?;
    Ok((name, typ))
}
