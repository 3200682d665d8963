//! What a line says, or where it breaks its form.

ghost use Rattle.std.specs.Prelude.{◌≡◌, ℕ, ◌+◌, ◌<◌, ◌≤◌, ◌^◌, List, [], ◌∷◌, length, OnOk, IfOk, IfErr};
ghost use Rattle.bit_words.specs.declared.number.Base.TheVariants.{Decimal};
ghost use Rattle.bit_words.specs.Numbers.{WritesDigits, Holds};
ghost use Rattle.stimulus.specs.Words.{Word as TheWord, behind};
ghost use Rattle.stimulus.specs.Forms.{Digits, A_number, HasForm, Breaks, heading_forms, setting_forms, Said, Says};
ghost use Rattle.stimulus.specs.Reading.{line_at, lines_after, shown, IsNextWord, IsHeading, IsSaid, IsInside, HoldsNumber};

use crate::words::{Word, next_word};
use bit_words::{Base, Number, NumberFault, digits_value, read_number};

/// What the first line says: the word with the number of cycles, and the number, or none where it is over `2^128 - 1`.
#[derive(Clone, Copy)]
pub struct Heading<'a> {
    pub number: Word<'a>,
    pub cycles: Option<u128>,
}

/// What the line of a setting says: its three words and its two numbers, or none for a magnitude over `2^128 - 1`.
#[derive(Clone, Copy)]
pub struct SettingLine<'a> {
    pub cycle_word: Word<'a>,
    pub leaf: Word<'a>,
    pub value_word: Word<'a>,
    pub cycle: Option<u128>,
    pub number: Option<Number>,
}

/// What the first line says, whose first word this is; or the offset where it breaks its form.
pub fn read_heading<'a>(bytes: &'a [u8], first: Word<'a>) -> Result<Heading<'a>, usize>
    requires { behind (shown first) ≤ length bytes.now }
    ensures ok { IfOk result (λ heading. IsHeading bytes.now (shown first.entry) heading) }
    ensures err { IfErr result (λ at. Breaks heading_forms 0 (shown first.entry ∷ line_at bytes.now (behind (shown first.entry))) at) }
    ensures within { IfErr result (λ at. at ≤ length bytes.now) }
{
    if first.bytes != b"cycles".as_slice() {
        return Err(first.at);
    }
    let number = word_behind(bytes, first)?;
    let cycles = read_digits(number)?;
    no_more(bytes, number)?;
    Ok(Heading { number, cycles })
}

/// What the line of a setting says, whose first word this is; or the offset where it breaks its form.
pub fn read_setting<'a>(bytes: &'a [u8], first: Word<'a>) -> Result<SettingLine<'a>, usize>
    requires some { first.at < behind (shown first) }
    requires within { behind (shown first) ≤ length bytes.now }
    ensures ok { IfOk result (λ line. (said : Said) × IsSaid line said × Says (shown first.entry ∷ line_at bytes.now (behind (shown first.entry))) said) }
    ensures after { IfOk result (λ line. line_at bytes.now (behind (shown line.value_word)) ≡ []) }
    ensures same { IfOk result (λ line. lines_after bytes.now (behind (shown first.entry)) ≡ lines_after bytes.now (behind (shown line.value_word))) }
    ensures onward { IfOk result (λ line. first.entry.at < line.value_word.at) }
    ensures inside { IfOk result (λ line. IsInside bytes.now line) }
    ensures err { IfErr result (λ at. Breaks setting_forms 0 (shown first.entry ∷ line_at bytes.now (behind (shown first.entry))) at) }
    ensures within { IfErr result (λ at. at ≤ length bytes.now) }
{
    let cycle = read_digits(first)?;
    let leaf = word_behind(bytes, first)?;
    let value_word = word_behind(bytes, leaf)?;
    let number = read_value(value_word)?;
    no_more(bytes, value_word)?;
    Ok(SettingLine {
        cycle_word: first,
        leaf,
        value_word,
        cycle,
        number,
    })
}

/// The word behind another one in its line; or the offset directly behind that where there is none.
fn word_behind<'a>(bytes: &'a [u8], word: Word<'a>) -> Result<Word<'a>, usize>
    requires { behind (shown word) ≤ length bytes.now }
    ensures ok { IfOk result (λ next. IsNextWord bytes.now (behind (shown word.entry)) (shown next)) }
    ensures missing { IfErr result (λ at. at ≡ behind (shown word.entry)) }
    ensures err { IfErr result (λ at. line_at bytes.now (behind (shown word.entry)) ≡ []) }
{
    let end = word.at + word.bytes.len();
    next_word(bytes, end).ok_or(end)
}

/// Refuses a word behind another one in its line, with its offset.
fn no_more(bytes: &[u8], word: Word<'_>) -> Result<(), usize>
    requires { behind (shown word) ≤ length bytes.now }
    ensures ok { OnOk result (line_at bytes.now (behind (shown word.entry)) ≡ []) }
    ensures err { IfErr result (λ at. (next : TheWord) × (words : List TheWord) × (line_at bytes.now (behind (shown word.entry)) ≡ next ∷ words) × (at ≡ next.at)) }
    ensures within { IfErr result (λ at. at ≤ length bytes.now) }
{
    match word_behind(bytes, word) {
        Ok(next) => Err(next.at),
        Err(_) => Ok(()),
    }
}

/// The number that a word of decimal digits writes, or none where it is over `2^128 - 1`; else the word's offset.
fn read_digits(word: Word<'_>) -> Result<Option<u128>, usize>
    ensures ok { IfOk result (λ number. (n : ℕ) × WritesDigits Decimal word.entry.bytes.now n × Holds number n) }
    ensures err { IfErr result (λ at. (at ≡ word.entry.at) × ¬ (HasForm Digits word.entry.bytes.now)) }
{
    match digits_value(Base::Decimal, word.bytes) {
        Ok(number) => Ok(Some(number)),
        Err(NumberFault::Over) => Ok(None),
        Err(NumberFault::NotNumber) => Err(word.at),
    }
}

/// The number of a number word, or none where its magnitude is over `2^128 - 1`; else the word's offset.
fn read_value(word: Word<'_>) -> Result<Option<Number>, usize>
    ensures ok { IfOk result (λ number. HoldsNumber word.entry.bytes.now number) }
    ensures err { IfErr result (λ at. (at ≡ word.entry.at) × ¬ (HasForm A_number word.entry.bytes.now)) }
{
    match read_number(word.bytes) {
        Ok(number) => Ok(Some(number)),
        Err(NumberFault::Over) => Ok(None),
        Err(NumberFault::NotNumber) => Err(word.at),
    }
}
