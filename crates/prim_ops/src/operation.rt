//! The primitive operations (FIRRTL specification 3.0, "Primitive Operations").

ghost use Rattle.std.specs.Prelude.{◌≡◌, Some, IfSome};
ghost use Rattle.prim_ops.specs.Operations.{arity_of, name_of, IsWritten, of_version};

/// A primitive operation.
#[derive(Clone, Copy)]
pub enum PrimOp {
    /// The sum.
    Add,
    /// The difference.
    Sub,
    /// The product.
    Mul,
    /// The quotient, rounded toward zero.
    Div,
    /// The remainder, with the sign of the numerator.
    Rem,
    /// Whether the first is less.
    Lt,
    /// Whether the first is at most the second.
    Leq,
    /// Whether the first is greater.
    Gt,
    /// Whether the first is at least the second.
    Geq,
    /// Whether both are equal.
    Eq,
    /// Whether both differ.
    Neq,
    /// The same value, at least as wide as the parameter says.
    Pad,
    /// The same bits, read without a sign.
    AsUInt,
    /// The same bits, read with a sign.
    AsSInt,
    /// The lowest bit, as an asynchronous reset.
    AsAsyncReset,
    /// Shifted left by the parameter.
    Shl,
    /// Shifted right by the parameter.
    Shr,
    /// The same in a text of version 4: of a `UInt` nothing may be left.
    ShrFour,
    /// Shifted left by the second operand.
    Dshl,
    /// Shifted right by the second operand.
    Dshr,
    /// The same value with a sign.
    Cvt,
    /// The negated value.
    Neg,
    /// Each bit turned.
    Not,
    /// Bit by bit: both are 1.
    And,
    /// Bit by bit: at least one is 1.
    Or,
    /// Bit by bit: exactly one is 1.
    Xor,
    /// Whether all bits are 1.
    Andr,
    /// Whether some bit is 1.
    Orr,
    /// Whether an odd number of bits are 1.
    Xorr,
    /// The bits of the first above those of the second.
    Cat,
    /// The bits from the first parameter down to the second.
    Bits,
    /// As many of the highest bits as the parameter says.
    Head,
    /// All but as many of the highest bits as the parameter says.
    Tail,
}

impl PrimOp {
    /// The operation's name as a circuit writes it.
    pub fn name(self) -> &'static str
        ensures { result.now ≡ name_of self }
    {
        match self {
            PrimOp::Add => "add",
            PrimOp::Sub => "sub",
            PrimOp::Mul => "mul",
            PrimOp::Div => "div",
            PrimOp::Rem => "rem",
            PrimOp::Lt => "lt",
            PrimOp::Leq => "leq",
            PrimOp::Gt => "gt",
            PrimOp::Geq => "geq",
            PrimOp::Eq => "eq",
            PrimOp::Neq => "neq",
            PrimOp::Pad => "pad",
            PrimOp::AsUInt => "asUInt",
            PrimOp::AsSInt => "asSInt",
            PrimOp::AsAsyncReset => "asAsyncReset",
            PrimOp::Shl => "shl",
            PrimOp::Shr => "shr",
            PrimOp::ShrFour => "shr",
            PrimOp::Dshl => "dshl",
            PrimOp::Dshr => "dshr",
            PrimOp::Cvt => "cvt",
            PrimOp::Neg => "neg",
            PrimOp::Not => "not",
            PrimOp::And => "and",
            PrimOp::Or => "or",
            PrimOp::Xor => "xor",
            PrimOp::Andr => "andr",
            PrimOp::Orr => "orr",
            PrimOp::Xorr => "xorr",
            PrimOp::Cat => "cat",
            PrimOp::Bits => "bits",
            PrimOp::Head => "head",
            PrimOp::Tail => "tail",
        }
    }
}

/// How many operands an operation takes, and how many parameters (numbers) behind them.
pub fn arity(prim: PrimOp) -> (u32, u32)
    ensures { result ≡ arity_of prim }
{
    match prim {
        PrimOp::Add
        | PrimOp::Sub
        | PrimOp::Mul
        | PrimOp::Div
        | PrimOp::Rem
        | PrimOp::Lt
        | PrimOp::Leq
        | PrimOp::Gt
        | PrimOp::Geq
        | PrimOp::Eq
        | PrimOp::Neq
        | PrimOp::Dshl
        | PrimOp::Dshr
        | PrimOp::And
        | PrimOp::Or
        | PrimOp::Xor
        | PrimOp::Cat => (2, 0),
        PrimOp::Pad | PrimOp::Shl | PrimOp::Shr | PrimOp::ShrFour | PrimOp::Head | PrimOp::Tail => (
            1, 1,
        ),
        PrimOp::Bits => (1, 2),
        PrimOp::AsUInt
        | PrimOp::AsSInt
        | PrimOp::AsAsyncReset
        | PrimOp::Cvt
        | PrimOp::Neg
        | PrimOp::Not
        | PrimOp::Andr
        | PrimOp::Orr
        | PrimOp::Xorr => (1, 0),
    }
}

/// The operation of this name, if there is one that a text writes: `shr` is that of version 3.
pub fn named(text: &[u8]) -> Option<PrimOp>
    ensures found { IfSome result (λ prim. IsWritten prim × (text.now ≡ name_of prim)) }
    ensures only { (prim : PrimOp) → IsWritten prim → text.now ≡ name_of prim → result ≡ Some prim }
{
    match text {
        b"add" => Some(PrimOp::Add),
        b"sub" => Some(PrimOp::Sub),
        b"mul" => Some(PrimOp::Mul),
        b"div" => Some(PrimOp::Div),
        b"rem" => Some(PrimOp::Rem),
        b"lt" => Some(PrimOp::Lt),
        b"leq" => Some(PrimOp::Leq),
        b"gt" => Some(PrimOp::Gt),
        b"geq" => Some(PrimOp::Geq),
        b"eq" => Some(PrimOp::Eq),
        b"neq" => Some(PrimOp::Neq),
        b"pad" => Some(PrimOp::Pad),
        b"asUInt" => Some(PrimOp::AsUInt),
        b"asSInt" => Some(PrimOp::AsSInt),
        b"shl" => Some(PrimOp::Shl),
        b"shr" => Some(PrimOp::Shr),
        b"dshl" => Some(PrimOp::Dshl),
        b"dshr" => Some(PrimOp::Dshr),
        b"cvt" => Some(PrimOp::Cvt),
        b"neg" => Some(PrimOp::Neg),
        b"not" => Some(PrimOp::Not),
        b"and" => Some(PrimOp::And),
        b"or" => Some(PrimOp::Or),
        b"xor" => Some(PrimOp::Xor),
        b"andr" => Some(PrimOp::Andr),
        b"orr" => Some(PrimOp::Orr),
        b"xorr" => Some(PrimOp::Xorr),
        b"cat" => Some(PrimOp::Cat),
        b"bits" => Some(PrimOp::Bits),
        b"head" => Some(PrimOp::Head),
        b"tail" => Some(PrimOp::Tail),
        _ => None,
    }
}

/// The operation that a text of this version means by a name: `shr` is `ShrFour` in version 4.
pub fn in_version(major: u8, prim: PrimOp) -> PrimOp
    ensures { result ≡ of_version major prim }
{
    match prim {
        PrimOp::Shr if major == 4 => PrimOp::ShrFour,
        _ => prim,
    }
}
