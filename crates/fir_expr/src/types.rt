//! Types (FIRRTL specification 3.0, "Types").

ghost use Rattle.std.specs.Prelude.{◌≡◌, ◌≤◌, ◌<◌, ◌+◌, ◌^◌, ◌-◌, ℕ, List, [], ◌∷◌, length, take, IfOk, IfErr};
ghost use Rattle.fir_layout.specs.Pieces.{pieces_of};
ghost use Rattle.fir_grammar.specs.Faults.{most, levels, last_suffixes};
ghost use Rattle.fir_grammar.specs.Grammar.{Type_of, Base_type, Width, Lengths, Fields, Field as FieldRule, A, The_word, mark, number, field, colon, a_bundle};
ghost use Rattle.fir_grammar.specs.Reading.{IsRefused};
ghost use Rattle.token_reader.specs.Standing.{StandsIn, BeginsType, wanted};
ghost use Rattle.token_reader.specs.Parts.{IsSource, StartsWith};
ghost use Rattle.fir_expr.specs.Parts.{Answers, HasPassed, GoesInto, kind_name};
ghost use Rattle.fir_expr.specs.TypeParts.{HasLengths, HasFields, Flips, IsBareAt, shape_of};

use crate::Read;
use crate::source::Source;
use bit_words::{Kind, List, Shared};
use fir_layout::Laid;
use fir_tree::{Names, ParseFault};
use fir_types::{Field, FirType, Name, Shape};
use token_reader::{
    NameSort, Text, is_mark, is_word, open_bracket, part_at, place_of_part, take_mark, take_name,
    take_number, take_suffix,
};

/// Reads a width between `<` and `>`, where one stands.
fn width(text: &Text, laid: &[Laid], at: usize) -> Read<Option<u128>>
    requires source { IsSource text.now laid.now }
    requires begins { (brackets : ℕ) × BeginsType (pieces_of text.now laid.now) at brackets }
    ensures read { (major : ℕ) (names : List (List ℕ)) → Answers major Width text.now laid.now at names result names }
    ensures begins { IfOk result (λ x. (brackets : ℕ) → BeginsType (pieces_of text.now laid.now) at brackets → BeginsType (pieces_of text.now laid.now) x.1 brackets) }
{
    let part = part_at(laid, at)?;
    if !is_mark(part, b'<') {
        return Ok((None, at));
    }
    let number = at + 1;
    let (_place, width) = take_number(text, laid, number)?;
    let close = number + 1;
    take_mark(text, laid, close, b'>')?;
    Ok((Some(width), close + 1))
}

/// Reads `UInt` or `SInt`, with a width or without.
fn integer_type(text: &Text, laid: &[Laid], at: usize, kind: Kind) -> Read<FirType>
    requires source { IsSource text.now laid.now }
    requires begins { (brackets : ℕ) × BeginsType (pieces_of text.now laid.now) at brackets }
    requires word { StartsWith (The_word (kind_name kind)) text.now laid.now at }
    ensures read { (major : ℕ) (names : List (List ℕ)) → Answers major Base_type text.now laid.now at names result names }
    ensures begins { IfOk result (λ x. (brackets : ℕ) → BeginsType (pieces_of text.now laid.now) at brackets → BeginsType (pieces_of text.now laid.now) x.1 brackets) }
{
    let part = part_at(laid, at)?;
    let place = place_of_part(text, part);
    let (width, end) = width(text, laid, at + 1)?;
    let shape = integer_shape(kind, width);
    Ok((FirType { place, shape }, end))
}

/// The shape of an integer type of a width, where it has one.
fn integer_shape(kind: Kind, width: Option<u128>) -> Shape
    ensures { result ≡ shape_of kind width }
{
    match kind {
        Kind::Unsigned => Shape::Unsigned(width),
        Kind::Signed => Shape::Signed(width),
    }
}

/// Reads a type that is one word, `Clock` or `Reset`, of this shape.
fn bare_type(text: &Text, laid: &[Laid], at: usize, shape: Shape) -> Read<FirType>
    requires source { IsSource text.now laid.now }
    requires begins { (brackets : ℕ) × BeginsType (pieces_of text.now laid.now) at brackets }
    requires word { IsBareAt shape text.now laid.now at }
    ensures read { (major : ℕ) (names : List (List ℕ)) → Answers major Base_type text.now laid.now at names result names }
    ensures begins { IfOk result (λ x. (brackets : ℕ) → BeginsType (pieces_of text.now laid.now) at brackets → BeginsType (pieces_of text.now laid.now) x.1 brackets) }
{
    let part = part_at(laid, at)?;
    let place = place_of_part(text, part);
    Ok((FirType { place, shape }, at + 1))
}

/// Reads a length between `[` and `]`, behind a type that has so many.
fn length(text: &Text, laid: &[Laid], at: usize, brackets: u32, suffixes: u32) -> Read<u128>
    requires source { IsSource text.now laid.now }
    requires stands { StandsIn (pieces_of text.now laid.now) at brackets }
    requires counted { last_suffixes (levels (take at (pieces_of text.now laid.now))).suffixes ≡ suffixes }
    ensures ok { IfOk result (λ x. (major : ℕ) (names : List (List ℕ)) → HasPassed major (mark 91 ∷ number ∷ mark 93 ∷ []) text.now laid.now at names (x.0, tt) x.1 names) }
    ensures counted { IfOk result (λ x. last_suffixes (levels (take x.1 (pieces_of text.now laid.now))).suffixes ≡ suffixes + 1) }
    ensures few { IfOk result (λ _. suffixes < most) }
    ensures err { IfErr result (λ fault. IsRefused (mark 91 ∷ number ∷ mark 93 ∷ []) text.now laid.now at fault) }
{
    take_suffix(text, laid, at, b'[', brackets, suffixes)?;
    let number = at + 1;
    let (_place, length) = take_number(text, laid, number)?;
    let close = number + 1;
    take_mark(text, laid, close, b']')?;
    Ok((length, close + 1))
}

/// Reads all lengths behind a type that has so many. Answers its vector.
fn lengths(from: &Source, element: FirType, at: usize, brackets: u32, passed: u32) -> Read<FirType>
    requires source { IsSource from.now.text.now from.now.laid.now }
    requires stands { StandsIn (pieces_of from.now.text.now from.now.laid.now) at brackets }
    requires counted { last_suffixes (levels (take at (pieces_of from.now.text.now from.now.laid.now))).suffixes ≡ passed }
    ensures ok { IfOk result (λ x. HasLengths element from.now.text.now from.now.laid.now at x.0 x.1) }
    ensures err { IfErr result (λ fault. IsRefused (A Lengths ∷ []) from.now.text.now from.now.laid.now at fault) }
{
    let part = part_at(from.laid, at)?;
    if !is_mark(part, b'[') {
        return Ok((element, at));
    }
    let (length, end) = length(from.text, from.laid, at, brackets, passed)?;
    let vector = FirType {
        place: element.place,
        shape: Shape::Vector(Shared::new(from.alloc, element)?, length),
    };
    let (read, end) = lengths(from, vector, end, brackets, passed + 1)?;
    Ok((read, end))
}

/// Whether a field is turned round, and where its name stands. A `flip` with a colon behind it is the name itself.
fn flip_before(text: &Text, laid: &[Laid], at: usize) -> Read<bool>
    requires { IsSource text.now laid.now }
    ensures ok { IfOk result (λ x. Flips x.0 text.now laid.now at x.1) }
    ensures err { IfErr result (λ fault. fault ≡ ParseFault.NoMemory) }
{
    let part = part_at(laid, at)?;
    if !is_word(text, part, "flip") {
        return Ok((false, at));
    }
    let named = at + 1;
    let next = part_at(laid, named)?;
    if is_mark(next, b':') {
        return Ok((false, at));
    }
    Ok((true, named))
}

/// Reads the longest type. So many brackets are open before it.
#[cycle(typ)]
pub fn typ(from: &Source, names: &mut Names, at: usize, brackets: u32) -> Read<FirType>
    requires source { IsSource from.now.text.now from.now.laid.now }
    requires room { wanted names.old from.now.laid.now at < 2 ^ 32 - 1 }
    requires begins { BeginsType (pieces_of from.now.text.now from.now.laid.now) at brackets }
    ensures { Answers from.now.major Type_of from.now.text.now from.now.laid.now at names.old result names.new }
{
    let (base, behind) = base_type(from, names, at, brackets)?;
    let (read, end) = lengths(from, base, behind, brackets, 0)?;
    Ok((read, end))
}

/// Reads a type without lengths.
#[cycle(typ)]
fn base_type(from: &Source, names: &mut Names, at: usize, brackets: u32) -> Read<FirType>
    requires source { IsSource from.now.text.now from.now.laid.now }
    requires room { wanted names.old from.now.laid.now at < 2 ^ 32 - 1 }
    requires begins { BeginsType (pieces_of from.now.text.now from.now.laid.now) at brackets }
    ensures read { Answers from.now.major Base_type from.now.text.now from.now.laid.now at names.old result names.new }
    ensures begins { IfOk result (λ x. BeginsType (pieces_of from.now.text.now from.now.laid.now) x.1 brackets) }
{
    let part = part_at(from.laid, at)?;
    if is_word(from.text, part, "UInt") {
        return integer_type(from.text, from.laid, at, Kind::Unsigned);
    }
    if is_word(from.text, part, "SInt") {
        return integer_type(from.text, from.laid, at, Kind::Signed);
    }
    if is_word(from.text, part, "Clock") {
        return bare_type(from.text, from.laid, at, Shape::Clock);
    }
    if is_word(from.text, part, "Reset") {
        return bare_type(from.text, from.laid, at, Shape::Reset);
    }
    bundle(from, names, at, brackets)
}

/// Reads a bundle, where no type with a name stands.
#[cycle(typ)]
fn bundle(from: &Source, names: &mut Names, at: usize, brackets: u32) -> Read<FirType>
    requires source { IsSource from.now.text.now from.now.laid.now }
    requires room { wanted names.old from.now.laid.now at < 2 ^ 32 - 1 }
    requires begins { BeginsType (pieces_of from.now.text.now from.now.laid.now) at brackets }
    requires into { GoesInto a_bundle from.now.text.now from.now.laid.now at }
    ensures read { Answers from.now.major Base_type from.now.text.now from.now.laid.now at names.old result names.new }
    ensures begins { IfOk result (λ x. BeginsType (pieces_of from.now.text.now from.now.laid.now) x.1 brackets) }
{
    let part = open_bracket(from.text, from.laid, at, b'{', brackets)?;
    let place = place_of_part(from.text, part);
    let first = at + 1;
    let (fields, end) = fields(from, names, first, brackets + 1)?;
    let shape = Shape::Bundle(Shared::new(from.alloc, fields)?);
    Ok((FirType { place, shape }, end))
}

/// Reads fields and the `}` behind them, in so many brackets.
#[cycle(typ)]
fn fields(from: &Source, names: &mut Names, first: usize, brackets: u32) -> Read<List<Field>>
    requires source { IsSource from.now.text.now from.now.laid.now }
    requires room { wanted names.old from.now.laid.now first < 2 ^ 32 - 1 }
    requires stands { StandsIn (pieces_of from.now.text.now from.now.laid.now) first brackets }
    requires within { first ≤ length from.now.laid.now }
    ensures ok { IfOk result (λ x. HasFields from.now.major from.now.text.now from.now.laid.now first names.old x.0 x.1 names.new) }
    ensures err { IfErr result (λ fault. IsRefused (A Fields ∷ []) from.now.text.now from.now.laid.now first fault) }
{
    let mut fields = List::new(from.alloc);
    let mut at = first;
    while !is_mark(part_at(from.laid, at)?, b'}') {
        let (field, end) = field(from, names, at, brackets)?;
        fields.push(field)?;
        at = end;
    }
    take_mark(from.text, from.laid, at, b'}')?;
    Ok((fields, at + 1))
}

/// Reads a field, in so many brackets.
#[cycle(typ)]
fn field(from: &Source, names: &mut Names, at: usize, brackets: u32) -> Read<Field>
    requires source { IsSource from.now.text.now from.now.laid.now }
    requires room { wanted names.old from.now.laid.now at < 2 ^ 32 - 1 }
    requires stands { StandsIn (pieces_of from.now.text.now from.now.laid.now) at brackets }
    ensures further { IfOk result (λ x. at < x.1) }
    ensures read { Answers from.now.major FieldRule from.now.text.now from.now.laid.now at names.old result names.new }
{
    let (flip, named) = flip_before(from.text, from.laid, at)?;
    let (name, typ, end) = named_type(from, names, named, brackets)?;
    Ok((Field { flip, name, typ }, end))
}

/// Reads a field's name, a colon and a type, in so many brackets.
#[cycle(typ)]
fn named_type(
    from: &Source,
    names: &mut Names,
    at: usize,
    brackets: u32,
) -> Result<(Name, FirType, usize), ParseFault>
    requires source { IsSource from.now.text.now from.now.laid.now }
    requires room { wanted names.old from.now.laid.now at < 2 ^ 32 - 1 }
    requires stands { StandsIn (pieces_of from.now.text.now from.now.laid.now) at brackets }
    ensures ok { IfOk result (λ x. HasPassed from.now.major (field ∷ colon ∷ A Type_of ∷ []) from.now.text.now from.now.laid.now at names.old (x.0, (x.1, tt)) x.2 names.new) }
    ensures further { IfOk result (λ x. at < x.2) }
    ensures err { IfErr result (λ fault. IsRefused (field ∷ colon ∷ A Type_of ∷ []) from.now.text.now from.now.laid.now at fault) }
{
    let name = take_name(from.text, from.laid, names, at, NameSort::Field)?;
    let colon = at + 1;
    take_mark(from.text, from.laid, colon, b':')?;
    let begin = colon + 1;
    let (typ, end) = typ(from, names, begin, brackets)?;
    Ok((name, typ, end))
}
