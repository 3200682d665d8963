//! Sources at other kinds and widths.

ghost use Rattle.std.specs.Prelude.{◌≡◌, ◌≤◌, IfOk};
ghost use Rattle.ground_exprs.specs.Sources.{IsFitted};

use crate::source::Source;
use bit_words::{Kind, List};
use ground_net::Ground;
use std::alloc::{AllocError, Global};

/// The source, fitted to a kind and a width of at most 128.
pub fn fit_source(
    alloc: Global,
    source: Source,
    kind: Kind,
    width: u8,
) -> Result<Source, AllocError>
    requires { width ≤ 128 }
    ensures kind { IfOk result (λ s. s.kind ≡ kind) }
    ensures width { IfOk result (λ s. s.width ≡ width) }
    ensures fits { IfOk result (λ s. IsFitted source s) }
{
    if source.kind == kind && source.width == width {
        return Ok(source);
    }
    let items = vec![in alloc; source.expr]?;
    Ok(Source {
        expr: Ground::Fit(kind, width, List::from_vec(items)),
        kind,
        width,
    })
}
