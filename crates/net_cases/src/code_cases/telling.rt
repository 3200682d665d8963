//! Codes are told as texts and compared.

use flat_code::Code;
use std::alloc::Global;
use std::io::Write;
use std::process::Abort;

/// How many slots a code has, and behind a colon the operation, the first and the second number and the target of each instruction.
pub fn told_code(alloc: Global, code: &Code) -> Option<Vec<u8>> {
    let mut text = Vec::new(alloc);
    write!(text, "{}:", code.frame_length()).ok()?;
    for instr in code.instrs.as_slice() {
        write!(
            text,
            " {:?} {} {} {};",
            instr.op, instr.first, instr.second, instr.target
        )
        .ok()?;
    }
    Some(text)
}

/// Compares what is told of a case with what is wanted.
pub fn expect(rt: &impl Abort, told: Option<Vec<u8>>, case: &str, wanted: &str) {
    match told {
        Some(told) => assert_eq!(rt; told.as_slice(), wanted.as_bytes(), "at {case}"),
        None => assert!(rt; false, "no answer at {case}"),
    }
}
