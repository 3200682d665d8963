//! The reader and its calls.

ghost use Rattle.std.specs.Prelude.{◌≡◌, ◌⊎◌, ◌≤◌, ◌<◌, ◌+◌, ◌-◌, ◌^◌, [], length, IfOk, IfErr, IfSome, IfNone, OnOk, slice_get, Some};
ghost use Rattle.fir_layout.specs.Pieces.{piece_of, pieces_of};
ghost use Rattle.place_text.specs.Places.{place};
ghost use Rattle.fir_layout.specs.declared.laid.Laid.{Laid as TheLaid};
ghost use Rattle.fir_grammar.specs.Grammar.{Type_of, Expression, Reference, Terminal, A_name, A_number, Takes, start_of};
ghost use Rattle.fir_grammar.specs.Reading.{Reads as ReadsRule, ReadsLongest};
ghost use Rattle.token_reader.specs.LineStarts.{AreLines};
ghost use Rattle.token_reader.specs.Parts.{IsSource, IsNotTaken, IsNumberAt, IsNameAt};
ghost use Rattle.token_reader.specs.Standing.{IsLaidFrom, StandsIn, BeginsType, IsWhole, wanted};

use crate::expressions::{expr, reference};
use crate::source::Source;
use crate::types::typ;
use bit_words::List;
use fir_layout::Laid;
use fir_tree::{Expr, Names, ParseFault};
use fir_types::{FirType, Name};
use place_text::Place;
use std::alloc::{AllocError, Global};
use token_reader::{NameSort, Text, lines_of, number_at, refusal_at, start, take_name};

/// A place in a laid list, with the names read so far.
#[derive(Drop)]
pub struct Reader<'a> {
    /// The text.
    pub bytes: &'a [u8],
    /// The laid list of the text.
    pub laid: &'a [Laid],
    /// The part of the list that is read next, from 0.
    pub at: usize,
    /// The texts of the names read so far.
    pub names: Names,
    /// How many brackets are open at `at`: each `(`, `[`, `{` and word with its `(` opens one, but for `printf(` and `stop(`.
    pub brackets: u32,
    /// The first number of the text's version, 3 or 4.
    pub major: u8,
    /// Where the lines of the text begin, or nothing.
    lines: List<u32>,
    pub ghost lines_are: { AreLines bytes.now lines },
}

impl<'a> Reader<'a> {
    /// A reader at the beginning of the list that holds no names.
    pub fn new(alloc: Global, bytes: &'a [u8], laid: &'a [Laid]) -> Reader<'a>
        ensures bytes { result.bytes.now ≡ bytes.now }
        ensures laid { result.laid.now ≡ laid.now }
        ensures at { result.at ≡ 0 }
        ensures names { result.names ≡ [] }
        ensures brackets { result.brackets ≡ 0 }
        ensures major { result.major ≡ 3 }
    {
        Reader {
            bytes,
            laid,
            at: 0,
            names: Names::new(alloc),
            brackets: 0,
            major: 3,
            lines: List::new(alloc),
        }
    }

    /// Sets the first number of the text's version. Takes no memory.
    pub fn set_major(&mut self, major: u8)
        requires { (major ≡ 3) ⊎ (major ≡ 4) }
        ensures major { self.new.major ≡ major }
        ensures bytes { self.new.bytes.now ≡ self.old.bytes.now }
        ensures laid { self.new.laid.now ≡ self.old.laid.now }
        ensures at { self.new.at ≡ self.old.at }
        ensures names { self.new.names ≡ self.old.names }
        ensures brackets { self.new.brackets ≡ self.old.brackets }
    {
        self.major = major;
    }

    /// Makes a table of the lines, by which `place_of` and the readers find a place in time that grows with the logarithm of
    /// the number of lines; without it they count from the text's beginning each time. Reads the text once. After a refusal,
    /// which is for want of memory, the reader is as it was.
    pub fn index_lines(&mut self, alloc: Global) -> Result<(), AllocError>
        requires short { length self.old.bytes.now < 2 ^ 32 - 1 }
        ensures bytes { self.new.bytes.now ≡ self.old.bytes.now }
        ensures laid { self.new.laid.now ≡ self.old.laid.now }
        ensures at { self.new.at ≡ self.old.at }
        ensures names { self.new.names ≡ self.old.names }
        ensures brackets { self.new.brackets ≡ self.old.brackets }
        ensures major { self.new.major ≡ self.old.major }
    {
        self.lines = lines_of(alloc, self.bytes)?;
        Ok(())
    }

    /// The place of a part of the laid list: where it begins in the text.
    pub fn place_of(&self, part: Laid) -> Place
        requires short { length self.now.bytes.now < 2 ^ 32 - 1 }
        requires inside { start_of part ≤ length self.now.bytes.now }
        ensures { result ≡ place self.now.bytes.now (start_of part) }
    {
        Text::new(self.bytes, self.lines.as_slice()).place_at(start(part))
    }

    /// The fault of the part at the reader's place, which can't continue the text there.
    pub fn refusal_here(&self) -> ParseFault
        requires { IsSource self.now.bytes.now self.now.laid.now }
        ensures { (s : Terminal) → ((l : TheLaid) → slice_get self.now.laid.now self.now.at ≡ Some l → ¬ (Takes s (piece_of self.now.bytes.now l))) → IsNotTaken s self.now.bytes.now self.now.laid.now self.now.at result }
    {
        let text = Text::new(self.bytes, self.lines.as_slice());
        refusal_at(&text, self.laid, self.at)
    }

    /// The number that stands at the reader's place, with its own place.
    pub fn number_here(&self) -> Option<(Place, u128)>
        requires { IsSource self.now.bytes.now self.now.laid.now }
        ensures some { IfSome result (λ n. IsNumberAt self.now.bytes.now self.now.laid.now self.now.at n.0 n.1) }
        ensures within { IfSome result (λ _. self.now.at < length self.now.laid.now) }
        ensures none { IfNone result ((l : TheLaid) → slice_get self.now.laid.now self.now.at ≡ Some l → ¬ (Takes A_number (piece_of self.now.bytes.now l))) }
    {
        let text = Text::new(self.bytes, self.lines.as_slice());
        number_at(&text, self.laid, self.at)
    }

    /// Takes the name at the reader's place, and moves behind it; its text is added to the names where it is new. After a
    /// refusal the reader isn't used again.
    pub fn take_name(&mut self) -> Result<Name, ParseFault>
        requires source { IsSource self.old.bytes.now self.old.laid.now }
        requires room { wanted self.old.names self.old.laid.now self.old.at < 2 ^ 32 - 1 }
        ensures ok { IfOk result (λ name. IsNameAt A_name self.old.bytes.now self.old.laid.now self.old.at self.old.names name self.new.names) }
        ensures err { IfErr result (λ fault. IsNotTaken A_name self.old.bytes.now self.old.laid.now self.old.at fault) }
        ensures at { OnOk result (self.new.at ≡ self.old.at + 1) }
        ensures bytes { self.new.bytes.now ≡ self.old.bytes.now }
        ensures laid { self.new.laid.now ≡ self.old.laid.now }
        ensures brackets { self.new.brackets ≡ self.old.brackets }
        ensures major { self.new.major ≡ self.old.major }
    {
        let text = Text::new(self.bytes, self.lines.as_slice());
        let name = take_name(&text, self.laid, &mut self.names, self.at, NameSort::Plain)?;
        self.at += 1;
        Ok(name)
    }
}

/// The longest type from the reader's place on (FIRRTL specification 3.0, "Types"). A vector's lengths stand behind its
/// element type, the innermost first.
///
/// The reader stands where a type may begin, and moves behind it; names that are new are added. The refusal is the first
/// token that can't continue the type, or that goes too deep, and then the reader isn't used again. Where a type stands there
/// and the token behind it can't go on with it, the answer is that type, whatever the token. Reads each token of the
/// type once; where `index_lines` has been called, takes time in proportion to them and to the logarithm of the number of lines.
pub fn read_type(alloc: Global, reader: &mut Reader) -> Result<FirType, ParseFault>
    requires short { length reader.old.bytes.now < 2 ^ 32 - 1 }
    requires laid { IsLaidFrom reader.old.bytes.now reader.old.laid.now }
    requires within { reader.old.at ≤ length reader.old.laid.now }
    requires room { wanted reader.old.names reader.old.laid.now reader.old.at < 2 ^ 32 - 1 }
    requires begins { BeginsType (pieces_of reader.old.bytes.now reader.old.laid.now) reader.old.at reader.old.brackets }
    ensures read { ReadsRule reader.old.major Type_of reader.old.bytes.now reader.old.laid.now reader.old.at reader.old.names result reader.new.at reader.new.names }
    ensures longest { ReadsLongest reader.old.major Type_of reader.old.bytes.now reader.old.laid.now reader.old.at reader.old.names result reader.new.at reader.new.names }
    ensures bytes { reader.new.bytes.now ≡ reader.old.bytes.now }
    ensures laid { reader.new.laid.now ≡ reader.old.laid.now }
    ensures brackets { reader.new.brackets ≡ reader.old.brackets }
    ensures major { reader.new.major ≡ reader.old.major }
    ensures whole { IfOk result (λ _. IsWhole (pieces_of reader.old.bytes.now reader.old.laid.now) reader.old.at reader.new.at) }
    ensures room { IfOk result (λ _. wanted reader.new.names reader.old.laid.now reader.new.at ≤ wanted reader.old.names reader.old.laid.now reader.old.at) }
{
    let text = Text::new(reader.bytes, reader.lines.as_slice());
    let from = Source {
        alloc,
        text: &text,
        laid: reader.laid,
        major: reader.major,
    };
    let (read, end) = typ(&from, &mut reader.names, reader.at, reader.brackets)?;
    reader.at = end;
    Ok(read)
}

/// The longest expression from the reader's place on (FIRRTL specification 3.0, "Expressions"). As `read_type` otherwise.
pub fn read_expr(alloc: Global, reader: &mut Reader) -> Result<Expr, ParseFault>
    requires short { length reader.old.bytes.now < 2 ^ 32 - 1 }
    requires laid { IsLaidFrom reader.old.bytes.now reader.old.laid.now }
    requires within { reader.old.at ≤ length reader.old.laid.now }
    requires room { wanted reader.old.names reader.old.laid.now reader.old.at < 2 ^ 32 - 1 }
    requires stands { StandsIn (pieces_of reader.old.bytes.now reader.old.laid.now) reader.old.at reader.old.brackets }
    ensures read { ReadsRule reader.old.major Expression reader.old.bytes.now reader.old.laid.now reader.old.at reader.old.names result reader.new.at reader.new.names }
    ensures longest { ReadsLongest reader.old.major Expression reader.old.bytes.now reader.old.laid.now reader.old.at reader.old.names result reader.new.at reader.new.names }
    ensures bytes { reader.new.bytes.now ≡ reader.old.bytes.now }
    ensures laid { reader.new.laid.now ≡ reader.old.laid.now }
    ensures brackets { reader.new.brackets ≡ reader.old.brackets }
    ensures major { reader.new.major ≡ reader.old.major }
    ensures whole { IfOk result (λ _. IsWhole (pieces_of reader.old.bytes.now reader.old.laid.now) reader.old.at reader.new.at) }
    ensures room { IfOk result (λ _. wanted reader.new.names reader.old.laid.now reader.new.at ≤ wanted reader.old.names reader.old.laid.now reader.old.at) }
{
    let text = Text::new(reader.bytes, reader.lines.as_slice());
    let from = Source {
        alloc,
        text: &text,
        laid: reader.laid,
        major: reader.major,
    };
    let (read, end) = expr(&from, &mut reader.names, reader.at, reader.brackets)?;
    reader.at = end;
    Ok(read)
}

/// The longest reference from the reader's place on: a component and the way to one of its parts (FIRRTL specification 3.0,
/// "Expressions"). As `read_type` otherwise.
pub fn read_reference(alloc: Global, reader: &mut Reader) -> Result<Expr, ParseFault>
    requires short { length reader.old.bytes.now < 2 ^ 32 - 1 }
    requires laid { IsLaidFrom reader.old.bytes.now reader.old.laid.now }
    requires within { reader.old.at ≤ length reader.old.laid.now }
    requires room { wanted reader.old.names reader.old.laid.now reader.old.at < 2 ^ 32 - 1 }
    requires stands { StandsIn (pieces_of reader.old.bytes.now reader.old.laid.now) reader.old.at reader.old.brackets }
    ensures read { ReadsRule reader.old.major Reference reader.old.bytes.now reader.old.laid.now reader.old.at reader.old.names result reader.new.at reader.new.names }
    ensures longest { ReadsLongest reader.old.major Reference reader.old.bytes.now reader.old.laid.now reader.old.at reader.old.names result reader.new.at reader.new.names }
    ensures bytes { reader.new.bytes.now ≡ reader.old.bytes.now }
    ensures laid { reader.new.laid.now ≡ reader.old.laid.now }
    ensures brackets { reader.new.brackets ≡ reader.old.brackets }
    ensures major { reader.new.major ≡ reader.old.major }
    ensures whole { IfOk result (λ _. IsWhole (pieces_of reader.old.bytes.now reader.old.laid.now) reader.old.at reader.new.at) }
    ensures room { IfOk result (λ _. wanted reader.new.names reader.old.laid.now reader.new.at ≤ wanted reader.old.names reader.old.laid.now reader.old.at) }
{
    let text = Text::new(reader.bytes, reader.lines.as_slice());
    let from = Source {
        alloc,
        text: &text,
        laid: reader.laid,
        major: reader.major,
    };
    let (read, end) = reference(&from, &mut reader.names, reader.at, reader.brackets)?;
    reader.at = end;
    Ok(read)
}
