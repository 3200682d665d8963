//! The reader of circuits.

ghost use Rattle.std.specs.Prelude.{◌≡◌, ◌<◌, ◌+◌, ◌-◌, ◌^◌, ◌⊎◌, ◌++◌, ℕ, [], ◌∷◌, length, drop, IfOk, IfErr, OnOk, IsTrue, MatchResult};
ghost use Rattle.fir_layout.specs.Pieces.{pieces_of};
ghost use Rattle.fir_grammar.specs.Grammar.{Is, A, Nothing, Ends, Circuit_body, IsCircuit, word, name, colon, line_end, field_names};
ghost use Rattle.fir_grammar.specs.Faults.{IsDeepAt, FaultOf};
ghost use Rattle.fir_tree.specs.declared.fault.ParseFault.{ParseFault as TheFault};
ghost use Rattle.fir_tree.specs.declared.fault.ParseFault.TheVariants.{NoMemory};
ghost use Rattle.fir_tree.specs.declared.circuit.Circuit.{Circuit as TheCircuit};
ghost use Rattle.token_reader.specs.Standing.{IsLaidFrom};
ghost use Rattle.fir_parser.specs.Taking.{InBlocks, HasTaken, Refuses};
ghost use Rattle.fir_parser.specs.Heads.{IsTextRead};
ghost use Rattle.fir_parser.specs.Reading.{is_apart};

use crate::header::read_named;
use crate::module::read_circuit_body;
use crate::symbols::{Expected, take};
use crate::version::{read_numbers, read_words, take_major};
use bit_words::List;
use fir_expr::Reader;
use fir_layout::Laid;
use fir_tree::{Circuit, Names, ParseFault};
use fir_types::Name;
use item_lines::LineModule;
use line_stmts::stand;
use std::alloc::Global;

/// A text with as many parts or more isn't read: its names might have no numbers.
const MOST_PARTS: usize = 0xffff_ffff - 9;

/// The circuit that a laid list spells, or the first token that refuses it.
pub fn parse(alloc: Global, bytes: &[u8], laid: &[Laid]) -> Result<Circuit, ParseFault>
    requires short { length bytes.now < 2 ^ 32 - 1 }
    requires laid { IsLaidFrom bytes.now laid.now }
    ensures ok { IfOk result (λ circuit. IsCircuit bytes.now laid.now circuit) }
    ensures shallow { IfOk result (λ _. (k : ℕ) → ¬ (IsDeepAt (pieces_of bytes.now laid.now) k)) }
    ensures fault { IfErr result (λ fault. (fault ≡ NoMemory) ⊎ FaultOf bytes.now laid.now fault) }
    // a list that spells a circuit and goes nowhere too deep is refused for want of memory alone
    ensures accepts { (circuit : TheCircuit) → IsCircuit bytes.now laid.now circuit → ((k : ℕ) → ¬ (IsDeepAt (pieces_of bytes.now laid.now) k)) → MatchResult result (λ given. given ≡ circuit) (λ fault. fault ≡ NoMemory) }
    // and a list with a fault is answered by it, or by want of memory
    ensures refuses { (fault : TheFault) → FaultOf bytes.now laid.now fault → MatchResult result (λ given. ⊥) (λ given. (given ≡ NoMemory) ⊎ (given ≡ fault)) }
{
    read_all(alloc, bytes, laid)
}

fn read_all<'a>(alloc: Global, bytes: &'a [u8], laid: &'a [Laid]) -> Result<Circuit, ParseFault>
    requires short { length bytes.now < 2 ^ 32 - 1 }
    requires laid { IsLaidFrom bytes.now laid.now }
    ensures ok { IfOk result (λ circuit. IsCircuit bytes.now laid.now circuit) }
    ensures shallow { IfOk result (λ _. (k : ℕ) → ¬ (IsDeepAt (pieces_of bytes.now laid.now) k)) }
    ensures fault { IfErr result (λ fault. (fault ≡ NoMemory) ⊎ FaultOf bytes.now laid.now fault) }
{
    if laid.len() >= MOST_PARTS {
        return Err(ParseFault::NoMemory);
    }
    let mut reader = Reader::new(alloc, bytes, laid);
    reader.index_lines(alloc)?;
    add_field_names(&mut reader.names)?;
    let text = read_text(alloc, &mut reader)?;
    let (_major, (main, lines)) = text;
    let circuit = stand(alloc, reader.names, main, lines)?;
    Ok(circuit)
}

/// What a text has: its version's first number, the name of its main module, and its modules.
type Parsed = (u8, (Name, List<LineModule>));

/// The version line and the circuit.
fn read_text(alloc: Global, reader: &mut Reader) -> Result<Parsed, ParseFault>
    requires inside { InBlocks 0 reader.old }
    requires start { reader.old.at ≡ 0 }
    ensures ok { IfOk result (λ it. IsTextRead it.0 reader.old reader.new it.1) }
    ensures end { OnOk result (drop reader.new.at reader.old.laid.now ≡ []) }
    ensures shallow { IfOk result (λ _. (k : ℕ) → ¬ (IsDeepAt (pieces_of reader.old.bytes.now reader.old.laid.now) k)) }
    ensures fault { IfErr result (λ fault. (fault ≡ NoMemory) ⊎ FaultOf reader.old.bytes.now reader.old.laid.now fault) }
{
    read_words(reader)?;
    let major = take_major(reader)?;
    reader.set_major(major);
    read_numbers(reader)?;
    let circuit = read_circuit(alloc, reader)?;
    Ok((major, circuit))
}

/// The circuit behind the version line, up to the end of the text.
fn read_circuit(alloc: Global, reader: &mut Reader) -> Result<(Name, List<LineModule>), ParseFault>
    requires { InBlocks 0 reader.old }
    ensures ok { IfOk result (λ it. HasTaken (word "circuit" ∷ name ∷ colon ∷ line_end ∷ A Circuit_body ∷ Is Nothing Ends ∷ []) reader.old reader.new (it.0, (it.1, tt))) }
    ensures end { OnOk result (drop reader.new.at reader.old.laid.now ≡ []) }
    ensures refused { IfErr result (λ fault. Refuses (word "circuit" ∷ name ∷ colon ∷ line_end ∷ A Circuit_body ∷ Is Nothing Ends ∷ []) reader.old fault) }
{
    let name = read_named(reader, "circuit", b':')?;
    take(reader, Expected::LineEnd)?;
    let modules = read_circuit_body(alloc, reader)?;
    take(reader, Expected::End)?;
    Ok((name, modules))
}

/// Adds the names of the fields of memory ports.
fn add_field_names(names: &mut Names) -> Result<(), ParseFault>
    requires { names.old ≡ [] }
    ensures ok { OnOk result (names.new ≡ field_names) }
    ensures fault { IfErr result (λ fault. fault ≡ NoMemory) }
{
    add_field(names, "addr")?;
    add_field(names, "en")?;
    add_field(names, "clk")?;
    add_field(names, "data")?;
    add_field(names, "mask")?;
    add_field(names, "rdata")?;
    add_field(names, "wmode")?;
    add_field(names, "wdata")?;
    add_field(names, "wmask")?;
    Ok(())
}

/// Adds a name that isn't there.
fn add_field(names: &mut Names, text: &str) -> Result<(), ParseFault>
    requires room { length names.old < 100 }
    requires new { IsTrue (is_apart text.now names.old) }
    ensures ok { OnOk result (names.new ≡ names.old ++ text.now ∷ []) }
    ensures fault { IfErr result (λ fault. fault ≡ NoMemory) }
{
    let _id = names.add(text)?;
    Ok(())
}
