//! Expressions and references (FIRRTL specification 3.0, "Expressions").

ghost use Rattle.std.specs.Prelude.{◌≡◌, ◌≤◌, ◌<◌, ◌+◌, ℕ, List, length, take, codes, IfOk, IfErr, IfSome, IfNone, IsTrue, ◌↔◌, ◌∷◌, []};
ghost use Rattle.prim_ops.specs.Operations.{name_of, IsWritten};
ghost use Rattle.fir_layout.specs.Pieces.{piece_of, pieces_of};
ghost use Rattle.fir_grammar.specs.Faults.{most, levels, last_suffixes};
ghost use Rattle.fir_grammar.specs.Grammar.{A, Expression, Expressions, Reference, Suffixes, The_call, The_mark};
ghost use Rattle.fir_grammar.specs.Reading.{IsRefused};
ghost use Rattle.token_reader.specs.Standing.{StandsIn};
ghost use Rattle.token_reader.specs.Parts.{IsSource, StartsWith};
ghost use Rattle.fir_expr.specs.Parts.{Answers, MayBegin};
ghost use Rattle.fir_expr.specs.Operands.{IsDigits, HasDigits, HasNoDigits, HasNoSuffix, HasOperands, HasSuffixes, HasStepped, AnswersSuffix};

use crate::Read;
use crate::literals::{Head, head_at, literal, numbers, wide_literal};
use crate::source::Source;
use bit_words::List;
use fir_layout::Laid;
use fir_lexer::TokenKind;
use fir_tree::{Expr, Form, Names, ParseFault, Suffix};
use prim_ops::{Prim, arity, in_version};
use token_reader::{
    NameSort, is_mark, open_call, part_at, place_of_part, take_mark, take_name, take_number,
    take_suffix,
};

/// Reads the longest expression. So many brackets are open before it.
#[cycle(expr)]
pub fn expr(from: &Source, names: &mut Names, at: usize, brackets: u32) -> Read<Expr>
    requires { MayBegin from.now.text.now from.now.laid.now names.old at brackets }
    ensures { Answers from.now.major Expression from.now.text.now from.now.laid.now at names.old result names.new }
{
    match head_at(from.text, from.laid, at)? {
        Head::Component => {
            let (component, end) = reference(from, names, at, brackets)?;
            Ok((component, end))
        }
        Head::Mux => mux(from, names, at, brackets),
        Head::Literal(kind) => literal(from.text, from.laid, at, kind, brackets),
        Head::WideLiteral(kind) => wide_literal(from.text, from.laid, at, kind, brackets),
        Head::Operation(prim) => operation(from, names, at, brackets, prim),
    }
}

/// Reads `mux(`, three expressions and `)`. So many brackets are open before it.
#[cycle(expr)]
fn mux(from: &Source, names: &mut Names, at: usize, brackets: u32) -> Read<Expr>
    requires start { MayBegin from.now.text.now from.now.laid.now names.old at brackets }
    requires head { StartsWith (The_call (codes "mux")) from.now.text.now from.now.laid.now at }
    ensures { Answers from.now.major Expression from.now.text.now from.now.laid.now at names.old result names.new }
{
    let call = open_call(from.text, from.laid, at, brackets)?;
    let mut read = List::new(from.alloc);
    let inside = at + 1;
    let close = operands(from, names, inside, brackets + 1, 3, &mut read)?;
    take_mark(from.text, from.laid, close, b')')?;
    let place = place_of_part(from.text, call);
    Ok((
        Expr {
            place,
            form: Form::Mux(read),
        },
        close + 1,
    ))
}

/// Reads an operation with its `(`, its operands, its parameters and `)`. So many brackets are open before it.
#[cycle(expr)]
fn operation(from: &Source, names: &mut Names, at: usize, brackets: u32, prim: Prim) -> Read<Expr>
    requires start { MayBegin from.now.text.now from.now.laid.now names.old at brackets }
    requires written { IsWritten prim }
    requires head { StartsWith (The_call (name_of prim)) from.now.text.now from.now.laid.now at }
    ensures { Answers from.now.major Expression from.now.text.now from.now.laid.now at names.old result names.new }
{
    let call = open_call(from.text, from.laid, at, brackets)?;
    let counts = arity(prim);
    let mut read = List::new(from.alloc);
    let inside = at + 1;
    let behind = operands(from, names, inside, brackets + 1, counts.0, &mut read)?;
    let (parameters, close) = numbers(from.alloc, from.text, from.laid, behind, counts.1)?;
    take_mark(from.text, from.laid, close, b')')?;
    let place = place_of_part(from.text, call);
    Ok((
        Expr {
            place,
            form: Form::Prim(in_version(from.major, prim), read, parameters),
        },
        close + 1,
    ))
}

/// Reads so many expressions onto a list. So many brackets are open before them.
#[cycle(expr)]
fn operands(
    from: &Source,
    names: &mut Names,
    at: usize,
    brackets: u32,
    count: u32,
    read: &mut List<Expr>,
) -> Result<usize, ParseFault>
    requires start { MayBegin from.now.text.now from.now.laid.now names.old at brackets }
    requires within { at ≤ length from.now.laid.now }
    ensures ok { IfOk result (λ end. HasOperands from.now.major count from.now.text.now from.now.laid.now at names.old read.old read.new end names.new) }
    ensures err { IfErr result (λ fault. IsRefused (A (Expressions count) ∷ []) from.now.text.now from.now.laid.now at fault) }
{
    if count == 0 {
        return Ok(at);
    }
    let (operand, next) = expr(from, names, at, brackets)?;
    read.push(operand)?;
    let end = operands(from, names, next, brackets, count - 1, read)?;
    Ok(end)
}

/// Reads the longest reference. So many brackets are open before it.
#[cycle(expr)]
pub fn reference(from: &Source, names: &mut Names, at: usize, brackets: u32) -> Read<Expr>
    requires { MayBegin from.now.text.now from.now.laid.now names.old at brackets }
    ensures { Answers from.now.major Reference from.now.text.now from.now.laid.now at names.old result names.new }
{
    let name = take_name(from.text, from.laid, names, at, NameSort::Plain)?;
    let mut read = List::new(from.alloc);
    let behind = at + 1;
    let end = suffixes(from, names, behind, brackets, &mut read)?;
    Ok((
        Expr {
            place: name.place,
            form: Form::Ref(name, read),
        },
        end,
    ))
}

/// Reads the suffixes of a reference onto a list. So many brackets are open before them.
#[cycle(expr)]
fn suffixes(
    from: &Source,
    names: &mut Names,
    at: usize,
    brackets: u32,
    read: &mut List<Suffix>,
) -> Result<usize, ParseFault>
    requires start { MayBegin from.now.text.now from.now.laid.now names.old at brackets }
    requires counted { last_suffixes (levels (take at (pieces_of from.now.text.now from.now.laid.now))).suffixes ≡ 0 }
    ensures ok { IfOk result (λ end. HasSuffixes from.now.major from.now.text.now from.now.laid.now at names.old read.old read.new end names.new) }
    ensures err { IfErr result (λ fault. IsRefused (A Suffixes ∷ []) from.now.text.now from.now.laid.now at fault) }
{
    let mut here = at;
    let mut passed = 0;
    loop {
        let Some((next, behind)) = suffix(from, names, here, brackets, passed)? else {
            return Ok(here);
        };
        read.push(next)?;
        here = behind;
        passed += 1;
    }
}

/// Reads a suffix, where one stands, of a reference that has so many already. So many brackets are open before it.
#[cycle(expr)]
fn suffix(
    from: &Source,
    names: &mut Names,
    at: usize,
    brackets: u32,
    count: u32,
) -> Result<Option<(Suffix, usize)>, ParseFault>
    requires start { MayBegin from.now.text.now from.now.laid.now names.old at brackets }
    requires counted { last_suffixes (levels (take at (pieces_of from.now.text.now from.now.laid.now))).suffixes ≡ count }
    ensures some { IfOk result (λ o. IfSome o (λ x. HasStepped from.now.major from.now.text.now from.now.laid.now at names.old x.0 x.1 names.new)) }
    ensures few { IfOk result (λ o. IfSome o (λ _. count < most)) }
    ensures none { IfOk result (λ o. IfNone o (HasNoSuffix from.now.text.now from.now.laid.now at × (names.new ≡ names.old))) }
    ensures err { IfErr result (λ fault. IsRefused (A Suffixes ∷ []) from.now.text.now from.now.laid.now at fault) }
{
    let part = part_at(from.laid, at)?;
    if is_mark(part, b'.') {
        let read = field(from, names, at, brackets, count)?;
        return Ok(Some(read));
    }
    if is_mark(part, b'[') {
        let read = index(from, names, at, brackets, count)?;
        return Ok(Some(read));
    }
    Ok(None)
}

/// Reads a `.` and a field, where so many brackets are open and the reference has so many suffixes.
fn field(from: &Source, names: &mut Names, at: usize, brackets: u32, count: u32) -> Read<Suffix>
    requires start { MayBegin from.now.text.now from.now.laid.now names.old at brackets }
    requires counted { last_suffixes (levels (take at (pieces_of from.now.text.now from.now.laid.now))).suffixes ≡ count }
    requires begins { StartsWith (The_mark 46) from.now.text.now from.now.laid.now at }
    ensures { AnswersSuffix from.now.major from.now.text.now from.now.laid.now at names.old count result names.new }
{
    take_suffix(from.text, from.laid, at, b'.', brackets, count)?;
    let behind = at + 1;
    let name = take_name(from.text, from.laid, names, behind, NameSort::Field)?;
    Ok((Suffix::Field(name), behind + 1))
}

/// Reads a `[`, a number or an expression, and a `]`, where so many brackets are open and the reference has so many suffixes.
#[cycle(expr)]
fn index(from: &Source, names: &mut Names, at: usize, brackets: u32, count: u32) -> Read<Suffix>
    requires start { MayBegin from.now.text.now from.now.laid.now names.old at brackets }
    requires counted { last_suffixes (levels (take at (pieces_of from.now.text.now from.now.laid.now))).suffixes ≡ count }
    requires begins { StartsWith (The_mark 91) from.now.text.now from.now.laid.now at }
    requires within { at < length from.now.laid.now }
    ensures { AnswersSuffix from.now.major from.now.text.now from.now.laid.now at names.old count result names.new }
{
    let inside = at + 1;
    let first = part_at(from.laid, inside)?;
    if is_digits(first) {
        element(from, names, at, brackets, count)
    } else {
        dynamic(from, names, at, brackets, count)
    }
}

/// Reads a `[`, a number and a `]`, where so many brackets are open and the reference has so many suffixes.
fn element(from: &Source, names: &Names, at: usize, brackets: u32, count: u32) -> Read<Suffix>
    requires source { IsSource from.now.text.now from.now.laid.now }
    requires stands { StandsIn (pieces_of from.now.text.now from.now.laid.now) at brackets }
    requires counted { last_suffixes (levels (take at (pieces_of from.now.text.now from.now.laid.now))).suffixes ≡ count }
    requires number { HasDigits from.now.text.now from.now.laid.now (at + 1) }
    requires begins { StartsWith (The_mark 91) from.now.text.now from.now.laid.now at }
    ensures { AnswersSuffix from.now.major from.now.text.now from.now.laid.now at names.now count result names.now }
{
    let mark = take_suffix(from.text, from.laid, at, b'[', brackets, count)?;
    let inside = at + 1;
    let (place, number) = take_number(from.text, from.laid, inside)?;
    let close = inside + 1;
    take_mark(from.text, from.laid, close, b']')?;
    Ok((
        Suffix::At(place_of_part(from.text, mark), place, number),
        close + 1,
    ))
}

/// Reads a `[`, an expression and a `]`, where so many brackets are open and the reference has so many suffixes.
#[cycle(expr)]
fn dynamic(from: &Source, names: &mut Names, at: usize, brackets: u32, count: u32) -> Read<Suffix>
    requires start { MayBegin from.now.text.now from.now.laid.now names.old at brackets }
    requires counted { last_suffixes (levels (take at (pieces_of from.now.text.now from.now.laid.now))).suffixes ≡ count }
    requires begins { StartsWith (The_mark 91) from.now.text.now from.now.laid.now at }
    requires number { HasNoDigits from.now.text.now from.now.laid.now (at + 1) }
    ensures { AnswersSuffix from.now.major from.now.text.now from.now.laid.now at names.old count result names.new }
{
    let mark = take_suffix(from.text, from.laid, at, b'[', brackets, count)?;
    let inside = at + 1;
    let (index, close) = expr(from, names, inside, brackets + 1)?;
    take_mark(from.text, from.laid, close, b']')?;
    Ok((
        Suffix::Index(place_of_part(from.text, mark), index),
        close + 1,
    ))
}

/// Whether a part is a number.
fn is_digits(part: Laid) -> bool
    ensures { (text : List ℕ) → IsTrue result ↔ IsDigits (piece_of text part) }
{
    matches!(part, Laid::Item(token) if token.kind == TokenKind::Digits)
}
