//! Modules with their ports (FIRRTL specification 3.0, "Circuits and Modules").

ghost use Rattle.std.specs.Prelude.{◌≡◌, [], ◌∷◌, codes, MatchBool};
ghost use Rattle.fir_grammar.specs.Grammar.{A, The_word, Circuit_body, Modules, Module, Module_body, Ports, Port, word, name, colon, line_end};
ghost use Rattle.fir_parser.specs.Taking.{StandsAt, InBlocks, Reads, ReadsAll, ReadsToEnd};
ghost use Rattle.fir_parser.specs.Expected.{Meets};
ghost use Rattle.fir_parser.specs.Heads.{BeginsPort, side_of};

use crate::block::read_statements;
use crate::header::{read_named, read_typed};
use crate::symbols::{Expected, meets, take, take_close, take_open};
use bit_words::List;
use fir_expr::Reader;
use fir_tree::ParseFault;
use fir_types::Port as ModulePort;
use item_lines::{Line, LineModule};
use std::alloc::Global;

/// The modules of a circuit in their block, or none where no block stands.
pub fn read_circuit_body(alloc: Global, reader: &mut Reader) -> Result<List<LineModule>, ParseFault>
    requires { InBlocks 0 reader.old }
    ensures { Reads Circuit_body reader.old reader.new result }
{
    if !meets(reader, Expected::Open) {
        return Ok(List::new(alloc));
    }
    take_open(reader, 0)?;
    let modules = read_modules(alloc, reader)?;
    Ok(modules)
}

/// The modules of a circuit and the end of their block.
fn read_modules(alloc: Global, reader: &mut Reader) -> Result<List<LineModule>, ParseFault>
    requires { InBlocks 1 reader.old }
    ensures { ReadsToEnd Modules reader.old reader.new result }
{
    let mut modules = List::new(alloc);
    while !meets(reader, Expected::Close) {
        let module = read_module(alloc, reader)?;
        modules.push(module)?;
    }
    take_close(reader)?;
    Ok(modules)
}

/// A module, which may be public.
fn read_module(alloc: Global, reader: &mut Reader) -> Result<LineModule, ParseFault>
    requires { InBlocks 1 reader.old }
    ensures { Reads Module reader.old reader.new result }
{
    if meets(reader, Expected::Word("public")) {
        return read_public(alloc, reader);
    }
    let module = read_headed(alloc, reader)?;
    Ok(module)
}

/// The word `public` and a module behind it.
fn read_public(alloc: Global, reader: &mut Reader) -> Result<LineModule, ParseFault>
    requires inside { InBlocks 1 reader.old }
    requires word { Meets (The_word (codes "public")) reader.old }
    ensures { Reads Module reader.old reader.new result }
{
    take(reader, Expected::Word("public"))?;
    let module = read_headed(alloc, reader)?;
    Ok(module)
}

/// A module from the word `module` on.
fn read_headed(alloc: Global, reader: &mut Reader) -> Result<LineModule, ParseFault>
    requires { InBlocks 1 reader.old }
    ensures { ReadsAll (word "module" ∷ name ∷ colon ∷ line_end ∷ A Module_body ∷ []) (λ it. (it.name, ((it.ports, it.body), tt))) reader.old reader.new result }
{
    let name = read_named(reader, "module", b':')?;
    take(reader, Expected::LineEnd)?;
    let inside = read_module_body(alloc, reader)?;
    let (ports, body) = inside;
    Ok(LineModule { name, ports, body })
}

/// The ports and the statements of a module.
type Inside = (List<ModulePort>, List<Line>);

/// The ports and the statements of a module in their block, or none where no block stands.
fn read_module_body(alloc: Global, reader: &mut Reader) -> Result<Inside, ParseFault>
    requires { InBlocks 1 reader.old }
    ensures { Reads Module_body reader.old reader.new result }
{
    if !meets(reader, Expected::Open) {
        return Ok((List::new(alloc), List::new(alloc)));
    }
    take_open(reader, 1)?;
    let body = read_ports(alloc, reader)?;
    Ok(body)
}

/// The ports of a module, then its statements and the end of their block.
fn read_ports(alloc: Global, reader: &mut Reader) -> Result<Inside, ParseFault>
    requires { InBlocks 2 reader.old }
    ensures { ReadsToEnd Ports reader.old reader.new result }
{
    let mut ports = List::new(alloc);
    while begins_port(reader) {
        let port = read_port(alloc, reader)?;
        ports.push(port)?;
    }
    let statements = read_statements(alloc, reader, 2)?;
    Ok((ports, statements))
}

/// Whether a port begins at the reader's place.
fn begins_port(reader: &Reader) -> bool
    requires { StandsAt reader.now }
    ensures { MatchBool result (BeginsPort reader.now) (¬ (BeginsPort reader.now)) }
{
    meets(reader, Expected::Word("input")) || meets(reader, Expected::Word("output"))
}

/// A port and the end of its line.
fn read_port(alloc: Global, reader: &mut Reader) -> Result<ModulePort, ParseFault>
    requires at { StandsAt reader.old }
    ensures { ReadsAll (A Port ∷ line_end ∷ []) (λ it. (it, tt)) reader.old reader.new result }
{
    let port = read_sided(alloc, reader)?;
    take(reader, Expected::LineEnd)?;
    Ok(port)
}

/// An input or an output.
fn read_sided(alloc: Global, reader: &mut Reader) -> Result<ModulePort, ParseFault>
    requires at { StandsAt reader.old }
    ensures { Reads Port reader.old reader.new result }
{
    let output = !meets(reader, Expected::Word("input"));
    let (name, typ) = read_typed(alloc, reader, side(output))?;
    Ok(ModulePort { output, name, typ })
}

/// The word of a port.
fn side(output: bool) -> &'static str
    ensures { result.now ≡ side_of output }
{
    if output { "output" } else { "input" }
}
