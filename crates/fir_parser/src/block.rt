//! Statements with their blocks.

ghost use Rattle.std.specs.Prelude.{◌≡◌, ◌≤◌, [], ◌∷◌, codes, IfOk, IfErr, OnOk};
ghost use Rattle.fir_grammar.specs.Grammar.{A, The_word, Statement, Statements, Block, Branches, Expression, word, colon, line_end};
ghost use Rattle.fir_grammar.specs.Faults.{most};
ghost use Rattle.fir_tree.specs.declared.fault.ParseFault.TheVariants.{NoMemory};
ghost use Rattle.fir_parser.specs.Branching.{Branched};
ghost use Rattle.fir_parser.specs.Taking.{StandsAt, InBlocks, Refuses, Reads, ReadsAll, ReadsToEnd, blocks_at};
ghost use Rattle.fir_parser.specs.Expected.{Meets};

use crate::statement::read_plain;
use crate::symbols::{Expected, meets, meets_next, take, take_close, take_expression, take_open};
use bit_words::List;
use fir_expr::Reader;
use fir_tree::ParseFault;
use item_lines::{Line, LineArm};
use std::alloc::Global;

/// The statements of a block and its end. So many blocks are open with it.
#[cycle(block)]
pub fn read_statements(
    alloc: Global,
    reader: &mut Reader,
    blocks: u32,
) -> Result<List<Line>, ParseFault>
    requires inside { InBlocks blocks reader.old }
    requires few { blocks ≤ most }
    ensures { ReadsToEnd Statements reader.old reader.new result }
{
    let mut statements = List::new(alloc);
    while !meets(reader, Expected::Close) {
        let statement = read_statement(alloc, reader, blocks)?;
        statements.push(statement)?;
    }
    take_close(reader)?;
    Ok(statements)
}

/// A statement. So many blocks are open before it.
#[cycle(block)]
fn read_statement(alloc: Global, reader: &mut Reader, blocks: u32) -> Result<Line, ParseFault>
    requires inside { InBlocks blocks reader.old }
    requires few { blocks ≤ most }
    ensures { Reads Statement reader.old reader.new result }
{
    if meets(reader, Expected::Word("when")) {
        return read_when(alloc, reader, blocks);
    }
    read_plain(alloc, reader, blocks)
}

/// A `when` with its branches.
#[cycle(block)]
fn read_when(alloc: Global, reader: &mut Reader, blocks: u32) -> Result<Line, ParseFault>
    requires inside { InBlocks blocks reader.old }
    requires few { blocks ≤ most }
    requires word { Meets (The_word (codes "when")) reader.old }
    ensures { Reads Statement reader.old reader.new result }
{
    take(reader, Expected::Word("when"))?;
    let arm = read_arm(alloc, reader, blocks)?;
    let arms = one_arm(alloc, arm)?;
    let branches = read_branches(alloc, reader, blocks, arms)?;
    let (arms, other) = branches;
    Ok(Line::Branch(arms, other))
}

/// The list of one arm.
fn one_arm(alloc: Global, arm: LineArm) -> Result<List<LineArm>, ParseFault>
    ensures ok { IfOk result (λ arms. arms ≡ arm ∷ []) }
    ensures err { IfErr result (λ fault. fault ≡ NoMemory) }
{
    let mut arms = List::new(alloc);
    arms.push(arm)?;
    Ok(arms)
}

/// The condition of an arm and its block.
#[cycle(block)]
fn read_arm(alloc: Global, reader: &mut Reader, blocks: u32) -> Result<LineArm, ParseFault>
    requires inside { InBlocks blocks reader.old }
    requires few { blocks ≤ most }
    ensures { ReadsAll (A Expression ∷ colon ∷ line_end ∷ A Block ∷ []) (λ it. (it.condition, (it.body, tt))) reader.old reader.new result }
{
    let condition = take_expression(alloc, reader)?;
    take(reader, Expected::Mark(b':'))?;
    take(reader, Expected::LineEnd)?;
    let body = read_block(alloc, reader, blocks)?;
    Ok(LineArm { condition, body })
}

/// `else when` with its condition and its block.
#[cycle(block)]
fn read_else_when(alloc: Global, reader: &mut Reader, blocks: u32) -> Result<LineArm, ParseFault>
    requires inside { InBlocks blocks reader.old }
    requires few { blocks ≤ most }
    ensures { ReadsAll (word "else" ∷ word "when" ∷ A Expression ∷ colon ∷ line_end ∷ A Block ∷ []) (λ it. (it.condition, (it.body, tt))) reader.old reader.new result }
{
    take(reader, Expected::Word("else"))?;
    take(reader, Expected::Word("when"))?;
    let arm = read_arm(alloc, reader, blocks)?;
    Ok(arm)
}

/// Behind these arms, each `else when` and the `else`.
#[cycle(block)]
fn read_branches(
    alloc: Global,
    reader: &mut Reader,
    blocks: u32,
    before: List<LineArm>,
) -> Result<(List<LineArm>, List<Line>), ParseFault>
    requires inside { InBlocks blocks reader.old }
    requires few { blocks ≤ most }
    ensures ok { IfOk result (λ it. Branched before reader.old reader.new it.0 it.1) }
    ensures at { OnOk result (StandsAt reader.new) }
    ensures blocks { OnOk result (blocks_at reader.new ≡ blocks_at reader.old) }
    ensures refused { IfErr result (λ fault. Refuses (A Branches ∷ []) reader.old fault) }
{
    let mut arms = before;
    while meets(reader, Expected::Word("else")) {
        if meets_next(reader, Expected::Mark(b':')) {
            let other = read_else(alloc, reader, blocks)?;
            return Ok((arms, other));
        }
        let arm = read_else_when(alloc, reader, blocks)?;
        arms.push(arm)?;
    }
    Ok((arms, List::new(alloc)))
}

/// `else` and its block.
#[cycle(block)]
fn read_else(alloc: Global, reader: &mut Reader, blocks: u32) -> Result<List<Line>, ParseFault>
    requires inside { InBlocks blocks reader.old }
    requires few { blocks ≤ most }
    ensures { ReadsAll (word "else" ∷ colon ∷ line_end ∷ A Block ∷ []) (λ it. (it, tt)) reader.old reader.new result }
{
    take(reader, Expected::Word("else"))?;
    take(reader, Expected::Mark(b':'))?;
    take(reader, Expected::LineEnd)?;
    let body = read_block(alloc, reader, blocks)?;
    Ok(body)
}

/// A block, or nothing where none stands.
#[cycle(block)]
fn read_block(alloc: Global, reader: &mut Reader, blocks: u32) -> Result<List<Line>, ParseFault>
    requires inside { InBlocks blocks reader.old }
    requires few { blocks ≤ most }
    ensures { Reads Block reader.old reader.new result }
{
    if !meets(reader, Expected::Open) {
        return Ok(List::new(alloc));
    }
    take_open(reader, blocks)?;
    let statements = read_statements(alloc, reader, blocks + 1)?;
    Ok(statements)
}
