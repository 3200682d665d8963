//! Choices.

ghost use Rattle.std.specs.Prelude.{◌≡◌, [], ◌∷◌, map, Some, IfOk, IsSome};
ghost use Rattle.fir_meaning.specs.WellTyped.{wider_each};
ghost use Rattle.ground_exprs.specs.Sources.{told};
ghost use Rattle.ground_exprs.specs.Choices.{AreChosen, IsChosen};

use crate::fitting::fit_source;
use crate::source::Source;
use bit_words::List;
use ground_net::{Ground, copied};
use std::alloc::{AllocError, Global};

/// Leaf by leaf the first operand where the condition is 1, and else the second, at the greater of their widths.
pub fn chosen(
    alloc: Global,
    condition: Source,
    first: List<Source>,
    second: List<Source>,
) -> Result<List<Source>, AllocError>
    ensures { IfOk result (λ sources. AreChosen condition.expr first second sources) }
{
    let mut sources = List::new(alloc);
    let mut others = second.into_vec().into_iter();
    for source in first.into_vec() {
        let Some(other) = others.next() else {
            return Ok(sources);
        };
        sources.push(one_of_two(alloc, &condition.expr, source, other)?)?;
    }
    Ok(sources)
}

/// One of two sources, at the greater of their widths and of the first one's kind.
fn one_of_two(
    alloc: Global,
    condition: &Ground,
    first: Source,
    second: Source,
) -> Result<Source, AllocError>
    ensures { IfOk result (λ s. IsChosen condition.now first second s) }
{
    let kind = first.kind;
    let width = first.width.max(second.width);
    let first = fit_source(alloc, first, kind, width)?;
    let second = fit_source(alloc, second, kind, width)?;
    let items = vec![in alloc; copied(alloc, condition)?, first.expr, second.expr]?;
    Ok(Source {
        expr: Ground::Mux(List::from_vec(items)),
        kind,
        width,
    })
}
