//! Whole codes.

ghost use Rattle.std.specs.Prelude.{◌≡◌, All, length, IfOk};
ghost use Rattle.flat_code.specs.Meaning.{push_of as most_of, pushes};
ghost use Rattle.flat_code.specs.Fine.{nothing};
ghost use Rattle.flat_code.specs.Orders.{Single};
ghost use Rattle.code_draft.specs.Drafts.{IsDraft, Stands};
ghost use Rattle.code_draft.specs.Finishing.{IsCodeOf};

use crate::draft::Draft;
use bit_words::List;
use flat_code::{Code, Instr, Location, Op, Span};
use std::alloc::{AllocError, Global};

/// The code of a draft, which puts out what stands at these locations, as the outputs at these positions of the watch list, and owns the
/// shared words of these spans. It has no runs, and publishes all.
pub fn finish(
    alloc: Global,
    draft: Draft,
    shown: List<Location>,
    positions: List<u32>,
    owned: List<Span>,
) -> Result<Code, AllocError>
    requires draft { IsDraft draft }
    requires shown { All (Stands draft) shown }
    requires positions { length positions ≡ length shown }
    ensures effects { IfOk result (λ code. IsCodeOf code draft shown) }
    ensures positions { IfOk result (λ code. code.positions ≡ positions) }
    ensures owned { IfOk result (λ code. code.owned ≡ owned) }
    ensures instrs { IfOk result (λ code. code.instrs ≡ draft.instrs) }
    ensures ports { IfOk result (λ code. code.ports ≡ draft.ports) }
    ensures wides { IfOk result (λ code. code.wides ≡ draft.wides) }
    ensures shown { IfOk result (λ code. code.shown ≡ shown) }
    ensures words { IfOk result (λ code. code.words ≡ draft.words) }
    ensures once { IfOk result (λ code. code.once ≡ 0) }
    ensures slots { IfOk result (λ code. code.slots ≡ draft.slots) }
    ensures most { IfOk result (λ code. code.most ≡ pushes draft.instrs) }
    ensures single { IfOk result (λ code. Single nothing code.ports code.wides code.instrs) }
{
    let most = publications(draft.instrs.as_slice())?;
    Ok(Code {
        instrs: draft.instrs,
        runs: List::new(alloc),
        ports: draft.ports,
        wides: draft.wides,
        shown,
        positions,
        owned,
        slots: draft.slots,
        words: draft.words,
        once: 0,
        most,
    })
}

/// How many publications instructions make at most. A number that a machine can't count is want of memory.
fn publications(instrs: &[Instr]) -> Result<usize, AllocError>
    ensures { IfOk result (λ n. n ≡ pushes instrs.now) }
{
    let mut most: usize = 0;
    for instr in instrs {
        let Some(more) = most.checked_add(push_of(instr.op)) else {
            return Err(AllocError);
        };
        most = more;
    }
    Ok(most)
}

/// How many publications an instruction makes at most.
fn push_of(op: Op) -> usize
    ensures { result ≡ most_of op }
{
    match op {
        Op::Publish => 1,
        Op::PublishAt => 2,
        _ => 0,
    }
}
