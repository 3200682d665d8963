//! From word to word and from line to line over a text.

ghost use Rattle.std.specs.Prelude.{◌≡◌, ℕ, ◌+◌, ◌<◌, ◌≤◌, [], ◌∷◌, true, false, length, drop, slice_index, IfSome, IfNone, ◌==◌};
ghost use Rattle.place_text.specs.Places.{is_feed};
ghost use Rattle.stimulus.specs.Words.{is_blank, begins_with};
ghost use Rattle.stimulus.specs.Reading.{ahead, line_at, lines_after, told_at, is_ink_at, shown, EndsAt, IsNextWord, IsNextLine};

/// A word: the offset of its first byte in its text, and its bytes.
#[derive(Clone, Copy)]
pub struct Word<'a> {
    pub at: usize,
    pub bytes: &'a [u8],
}

/// The first word of the next line that isn't skipped, from an offset on.
pub fn next_line(bytes: &[u8], from: usize) -> Option<Word<'_>>
    requires { from ≤ length bytes.now }
    ensures some { IfSome result (λ word. IsNextLine bytes.now from (shown word)) }
    ensures none { IfNone result (told_at bytes.now from ≡ []) }
{
    let mut at = from;
    'lines: while at < bytes.len() {
        if let Some(word) = next_word(bytes, at) {
            if !is_comment(word.bytes) {
                return Some(word);
            }
        }
        at = behind_line(bytes, at);
    }
    None
}

/// The next word of a line, from an offset on.
pub fn next_word(bytes: &[u8], from: usize) -> Option<Word<'_>>
    requires { from ≤ length bytes.now }
    ensures some { IfSome result (λ word. IsNextWord bytes.now from (shown word)) }
    ensures none { IfNone result (line_at bytes.now from ≡ []) }
{
    let at = behind_blanks(bytes, from);
    let end = behind_ink(bytes, at);
    if at == end {
        return None;
    }
    Some(Word {
        at,
        bytes: &bytes[at..end],
    })
}

/// The offset behind the white space that stands at an offset.
fn behind_blanks(bytes: &[u8], from: usize) -> usize
    requires { from ≤ length bytes.now }
    ensures same { ahead bytes.now result ≡ ahead bytes.now from }
    ensures onward { from ≤ result }
    ensures within { result ≤ length bytes.now }
    ensures stops { result < length bytes.now → is_blank (slice_index bytes.now result) (drop (result + 1) bytes.now) ≡ false }
{
    let mut at = from;
    while at < bytes.len() && is_blank(bytes, at) {
        at += 1;
    }
    at
}

/// The offset behind the bytes of words that stand at an offset.
fn behind_ink(bytes: &[u8], from: usize) -> usize
    requires { from ≤ length bytes.now }
    ensures { EndsAt bytes.now from result }
{
    let mut at = from;
    while at < bytes.len() && is_ink(bytes, at) {
        at += 1;
    }
    at
}

/// Whether the byte at an offset is one of a word.
fn is_ink(bytes: &[u8], at: usize) -> bool
    requires { at < length bytes.now }
    ensures { result ≡ is_ink_at bytes.now at }
{
    bytes[at] != b'\n' && !is_blank(bytes, at)
}

/// Whether the byte at an offset is white space: a space, a tab, or a carriage return directly before a line feed.
fn is_blank(bytes: &[u8], at: usize) -> bool
    requires { at < length bytes.now }
    ensures { result ≡ is_blank (slice_index bytes.now at) (drop (at + 1) bytes.now) }
{
    match bytes[at] {
        b' ' | b'\t' => true,
        b'\r' => begins_with_feed(&bytes[at + 1..]),
        _ => false,
    }
}

fn begins_with_feed(bytes: &[u8]) -> bool
    ensures { result ≡ begins_with is_feed bytes.now }
{
    matches!(bytes, [b'\n', ..])
}

/// Whether a word makes its line a comment.
fn is_comment(word: &[u8]) -> bool
    ensures { result ≡ begins_with (λ b. b == 59) word.now }
{
    matches!(word, [b';', ..])
}

/// The offset where the next line begins, from an offset in a line on: the end of the text where there is none.
fn behind_line(bytes: &[u8], from: usize) -> usize
    requires { from < length bytes.now }
    ensures told { told_at bytes.now result ≡ lines_after bytes.now from }
    ensures onward { from < result }
    ensures within { result ≤ length bytes.now }
{
    let mut at = from;
    while at < bytes.len() {
        if bytes[at] == b'\n' {
            return at + 1;
        }
        at += 1;
    }
    at
}
