//! Formats: what stands between the quotes of a `printf`.

ghost use Rattle.std.specs.Prelude.{◌≡◌, ℕ, [], ◌∷◌, ◌++◌, None, Some, List as Listed, Option as Optional, IfOk, OnOk, MatchOption};
ghost use Rattle.std.specs.Option.{IfSome, IfNone};
ghost use Rattle.fir_tree.specs.declared.print.Piece.{Piece as APiece};
ghost use Rattle.item_lines.specs.declared.format.After.TheVariants as asks;
ghost use Rattle.item_lines.specs.Formats.{IsFormat};
ghost use Rattle.item_lines.specs.FormatReading.{radix_of, escaped, fill, meant, shown, pieces_from, behind};

use bit_words::List;
use fir_tree::{Piece, Radix};
use std::alloc::{AllocError, Global};
use std::mem;

/// The pieces of a format, and None where the bytes are none. Neighbouring bytes are one piece.
pub fn read_format(alloc: Global, bytes: &[u8]) -> Result<Option<List<Piece>>, AllocError>
    ensures pieces { IfOk result (λ read. IfSome read (λ pieces. IsFormat bytes.now pieces)) }
    ensures none { IfOk result (λ read. IfNone read ((pieces : Listed APiece) → ¬ (IsFormat bytes.now pieces))) }
{
    let mut held = Held {
        alloc,
        pieces: Vec::new(alloc),
        text: Vec::new(alloc),
    };
    let mut after = After::Byte;
    for byte in bytes {
        match held.take(after, *byte)? {
            Some(next) => after = next,
            None => return Ok(None),
        }
    }
    match after {
        After::Byte => Ok(Some(held.finish()?)),
        After::Percent | After::Backslash => Ok(None),
    }
}

/// What the byte before asks of the next one.
#[derive(Clone, Copy)]
enum After {
    /// Nothing.
    Byte,
    /// A letter of a radix, or a second `%`.
    Percent,
    /// A letter of an escape.
    Backslash,
}

/// The pieces that were read, and the bytes of the one that isn't at its end.
#[derive(Drop)]
struct Held {
    alloc: Global,
    pieces: Vec<Piece>,
    text: Vec<u8>,
}

impl Held {
    /// Takes a byte, and answers what it asks of the next one; None where no format goes on with it.
    fn take(&mut self, after: After, byte: u8) -> Result<Option<After>, AllocError>
        ensures { IfOk result (λ asked. (rest : Listed ℕ) → MatchOption asked (pieces_from after (byte ∷ rest) ≡ None)
            (λ next. behind self.old.pieces.items self.old.text.items (pieces_from after (byte ∷ rest)) ≡ behind self.new.pieces.items self.new.text.items (pieces_from next rest))) }
    {
        match after {
            After::Byte => self.take_plain(byte),
            After::Percent => {
                if byte == b'%' {
                    self.put(byte)?;
                    return Ok(Some(After::Byte));
                }
                match radix_of(byte) {
                    Some(radix) => {
                        self.show(radix)?;
                        Ok(Some(After::Byte))
                    }
                    None => Ok(None),
                }
            }
            After::Backslash => match escaped(byte) {
                Some(meant) => {
                    self.put(meant)?;
                    Ok(Some(After::Byte))
                }
                None => Ok(None),
            },
        }
    }

    /// The same behind a byte that asks nothing.
    fn take_plain(&mut self, byte: u8) -> Result<Option<After>, AllocError>
        ensures { IfOk result (λ asked. (rest : Listed ℕ) → MatchOption asked (pieces_from asks.Byte (byte ∷ rest) ≡ None)
            (λ next. behind self.old.pieces.items self.old.text.items (pieces_from asks.Byte (byte ∷ rest)) ≡ behind self.new.pieces.items self.new.text.items (pieces_from next rest))) }
    {
        match byte {
            b'%' => Ok(Some(After::Percent)),
            b'\\' => Ok(Some(After::Backslash)),
            _ => {
                self.put(byte)?;
                Ok(Some(After::Byte))
            }
        }
    }

    /// Appends a byte.
    fn put(&mut self, byte: u8) -> Result<(), AllocError>
        ensures { OnOk result ((later : Optional (Listed APiece)) → behind self.new.pieces.items self.new.text.items later ≡ behind self.old.pieces.items self.old.text.items (meant (Some byte) later)) }
    {
        self.text.push(byte)?;
        Ok(())
    }

    /// Appends a value that is shown.
    fn show(&mut self, radix: Radix) -> Result<(), AllocError>
        ensures { OnOk result ((later : Optional (Listed APiece)) → behind self.new.pieces.items self.new.text.items later ≡ behind self.old.pieces.items self.old.text.items (shown (Some radix) later)) }
    {
        self.close()?;
        self.pieces.push(Piece::Show(radix))?;
        Ok(())
    }

    /// Ends the piece of bytes.
    fn close(&mut self) -> Result<(), AllocError>
        ensures text { OnOk result (self.new.text.items ≡ []) }
        ensures pieces { OnOk result (self.new.pieces.items ≡ self.old.pieces.items ++ fill self.old.text.items []) }
    {
        if !self.text.is_empty() {
            let text = mem::replace(&mut self.text, Vec::new(self.alloc));
            self.pieces.push(Piece::Bytes(List::from_vec(text)))?;
        }
        Ok(())
    }

    /// All pieces.
    fn finish(mut self) -> Result<List<Piece>, AllocError>
        ensures { IfOk result (λ all. all ≡ self.pieces.items ++ fill self.text.items []) }
    {
        self.close()?;
        let Held { pieces, .. } = self;
        Ok(List::from_vec(pieces))
    }
}

/// The radix of a letter behind a `%`.
fn radix_of(letter: u8) -> Option<Radix>
    ensures { result ≡ radix_of letter }
{
    match letter {
        b'b' => Some(Radix::Bin),
        b'd' => Some(Radix::Dec),
        b'x' => Some(Radix::Hex),
        b'c' => Some(Radix::Char),
        _ => None,
    }
}

/// The byte that a letter behind a backslash means.
fn escaped(letter: u8) -> Option<u8>
    ensures { result ≡ escaped letter }
{
    match letter {
        b'n' => Some(b'\n'),
        b't' => Some(b'\t'),
        b'\\' | b'"' | b'\'' => Some(letter),
        _ => None,
    }
}
