//! Laws of the definitions that the contracts here name. The functions do nothing.

ghost use Rattle.std.specs.Prelude.{◌≡◌, ℕ, List, []};
ghost use Rattle.fir_lexer.specs.declared.token.Token.{Token as TheToken};
ghost use Rattle.fir_lexer.specs.declared.pieces.PieceKind.{PieceKind as TheKind};
ghost use Rattle.fir_lexer.specs.declared.fault.LexFault.{LexFault as AFault};
ghost use Rattle.fir_lexer.specs.Tokens.{Lexes, AreTokens, IsFault, joined};

/// A text is at most one list of pieces, and that list's bytes joined are the text.
pub fn texts_have_one_reading()
    ensures one { (text : List ℕ) (pieces others : List (TheKind × ℕ)) → Lexes text pieces [] → Lexes text others [] → pieces ≡ others }
    ensures whole { (text : List ℕ) (pieces : List (TheKind × ℕ)) → Lexes text pieces [] → joined text pieces ≡ text }
{}

/// A text has at most one fault, and then it has no tokens.
pub fn texts_have_one_fault()
    ensures place { (text : List ℕ) (at other : ℕ) (fault second : AFault) → IsFault text at fault → IsFault text other second → at ≡ other }
    ensures fault { (text : List ℕ) (at other : ℕ) (fault second : AFault) → IsFault text at fault → IsFault text other second → fault ≡ second }
    ensures no_tokens { (text : List ℕ) (at : ℕ) (fault : AFault) (tokens : List TheToken) → IsFault text at fault → AreTokens text tokens → ⊥ }
{}
