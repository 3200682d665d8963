//! Where strings, annotations and infos end.

ghost use Rattle.std.specs.Prelude.{◌≡◌, ℕ, ◌+◌, ◌<◌, ◌≤◌, Bool, true, false, length, IfSome, IfNone};
ghost use Rattle.fir_lexer.specs.Bytes.{Closes, IsInfoRest};
ghost use Rattle.fir_lexer.specs.Scan.{Only, Never, Follows};

/// What is still open at a place: a string or none, and how many brackets.
#[derive(Clone, Copy)]
struct Unclosed {
    string: bool,
    brackets: usize,
}

/// How many bytes follow an opening quotation mark, up to and with the one that ends the string.
pub fn string_rest(bytes: &[u8]) -> Option<usize>
    ensures some { IfSome result (λ n. Only (Closes true 0) bytes.now n) }
    ensures none { IfNone result (Never (Closes true 0) bytes.now) }
{
    closing(bytes, true, 0)
}

/// How many bytes follow an opening bracket, up to and with the one that closes it.
pub fn bracket_rest(bytes: &[u8]) -> Option<usize>
    ensures some { IfSome result (λ n. Only (Closes false 1) bytes.now n) }
    ensures none { IfNone result (Never (Closes false 1) bytes.now) }
{
    closing(bytes, false, 1)
}

fn closing(bytes: &[u8], string: bool, brackets: usize) -> Option<usize>
    requires { brackets ≤ 1 }
    ensures some { IfSome result (λ n. Only (Closes string brackets) bytes.now n) }
    ensures none { IfNone result (Never (Closes string brackets) bytes.now) }
{
    let mut unclosed = Unclosed { string, brackets };
    let mut at = 0;
    while unclosed.string || unclosed.brackets > 0 {
        let rest = &bytes[at..];
        let Some((next, passed)) = pass(unclosed, rest) else {
            return None;
        };
        unclosed = next;
        at += passed;
    }
    Some(at)
}

/// Passes a byte, or two where the first takes the other along, while something is open.
fn pass(unclosed: Unclosed, bytes: &[u8]) -> Option<(Unclosed, usize)>
    requires room { unclosed.brackets < usize.MAX }
    requires any_open { unclosed.string ≡ false → 0 < unclosed.brackets }
    ensures some { IfSome result (λ p. Follows (Closes unclosed.string unclosed.brackets) (Closes p.0.string p.0.brackets) bytes.now p.1) }
    ensures counted { IfSome result (λ p. (0 < p.1) × (p.0.brackets ≤ unclosed.brackets + p.1)) }
    ensures none { IfNone result (Never (Closes unclosed.string unclosed.brackets) bytes.now) }
{
    if unclosed.string {
        pass_in_string(unclosed.brackets, bytes)
    } else {
        pass_in_brackets(unclosed.brackets, bytes)
    }
}

fn pass_in_string(brackets: usize, bytes: &[u8]) -> Option<(Unclosed, usize)>
    ensures some { IfSome result (λ p. Follows (Closes true brackets) (Closes p.0.string p.0.brackets) bytes.now p.1) }
    ensures counted { IfSome result (λ p. (0 < p.1) × (p.0.brackets ≤ brackets + p.1)) }
    ensures none { IfNone result (Never (Closes true brackets) bytes.now) }
{
    let unclosed = Unclosed {
        string: true,
        brackets,
    };
    match bytes {
        [b'"', ..] => Some((
            Unclosed {
                string: false,
                brackets,
            },
            1,
        )),
        [b'\\', _, ..] => Some((unclosed, 2)),
        [b'\\'] => None,
        [_, ..] => Some((unclosed, 1)),
        [] => None,
    }
}

fn pass_in_brackets(brackets: usize, bytes: &[u8]) -> Option<(Unclosed, usize)>
    requires room { brackets < usize.MAX }
    requires any_open { 0 < brackets }
    ensures some { IfSome result (λ p. Follows (Closes false brackets) (Closes p.0.string p.0.brackets) bytes.now p.1) }
    ensures counted { IfSome result (λ p. (0 < p.1) × (p.0.brackets ≤ brackets + p.1)) }
    ensures none { IfNone result (Never (Closes false brackets) bytes.now) }
{
    match bytes {
        [b'"', ..] => Some((
            Unclosed {
                string: true,
                brackets,
            },
            1,
        )),
        [b'[', ..] => Some((
            Unclosed {
                string: false,
                brackets: brackets + 1,
            },
            1,
        )),
        [b']', ..] => Some((
            Unclosed {
                string: false,
                brackets: brackets - 1,
            },
            1,
        )),
        [_, ..] => Some((
            Unclosed {
                string: false,
                brackets,
            },
            1,
        )),
        [] => None,
    }
}

/// How many bytes follow the `@` of an info, up to and with the bracket that ends it.
pub fn info_rest(bytes: &[u8]) -> Option<usize>
    ensures some { IfSome result (λ n. Only IsInfoRest bytes.now n) }
    ensures none { IfNone result (Never IsInfoRest bytes.now) }
{
    let [b'[', ..] = bytes else {
        return None;
    };
    for at in 1..bytes.len() {
        if bytes[at] == b']' && bytes[at - 1] != b'\\' {
            return Some(at + 1);
        }
        if bytes[at] == b'\n' {
            return None;
        }
    }
    None
}
