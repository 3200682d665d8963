//! One side of a connect: the leaves of a part that are flipped, or those that aren't.

ghost use Rattle.std.specs.Prelude.{◌≡◌, ◌≤◌, ◌++◌, false, pos, IfOk, OnOk};
ghost use Rattle.prim_ops.specs.Values.{fitted};
ghost use Rattle.ground_net.specs.declared.ground.Ground.TheVariants.{Const};
ghost use Rattle.ground_statements.specs.Connects.{has_none};
ghost use Rattle.ground_statements.specs.Targets.{AreFits, FitsLeaf, IsSide, set_leaves, set_one, are_numbered, AreCounted};

use crate::targets::{push_each, targets_of};
use bit_words::{Kind, List, Number};
use fir_types::{FirType, TypeLeaf};
use ground_exprs::constants::constant;
use ground_exprs::fitting::fit_source;
use ground_exprs::part_sources::{kind_of, leaves_of, width_of};
use ground_exprs::reading::{lead_nowhere, sum_of};
use ground_exprs::{Part, Pick, Source};
use ground_net::{Ground, GroundStmt};
use std::alloc::{AllocError, Global};

/// A part whose flipped leaves are set, or those that aren't.
#[derive(Clone, Copy)]
pub struct Side<'a> {
    pub settable: &'a [bool],
    pub flip: bool,
    pub typ: &'a FirType,
    pub part: &'a Part,
}

/// Sets each leaf of the side to the source beside it, and to 0 where there is none.
pub fn set_side(
    alloc: Global,
    side: Side,
    sources: List<Source>,
) -> Result<List<GroundStmt>, AllocError>
    ensures { IfOk result (λ made. IsSide side.entry.settable.now side.entry.flip side.entry.typ.now side.entry.part.now sources made) }
{
    let listed = leaves_of(alloc, side.typ)?;
    check_counted(listed.as_slice(), side.part.picks.as_slice())?;
    let fits = fit_all(alloc, side.flip, listed.as_slice(), sources)?;
    let made = set_all(alloc, side.settable, side.part, fits)?;
    Ok(made)
}

/// Numbers of 32 bits count the elements of each vector on the way to leaves; where they don't, memory is said to be wanted.
fn check_counted(leaves: &[TypeLeaf], picks: &[Pick]) -> Result<(), AllocError>
    ensures { IfOk result (λ fits. has_none leaves.now ≡ false → AreCounted picks.now) }
{
    if leaves.is_empty() || lead_nowhere(picks) || are_numbered(picks) {
        Ok(())
    } else {
        Err(AllocError)
    }
}

fn are_numbered(picks: &[Pick]) -> bool
    ensures { result ≡ are_numbered picks.now }
{
    picks.iter().all(|pick| pick.length < 0x1_0000_0000)
}

/// What the leaves of one orientation are set to.
fn fit_all(
    alloc: Global,
    flip: bool,
    leaves: &[TypeLeaf],
    sources: List<Source>,
) -> Result<List<Option<Source>>, AllocError>
    ensures { IfOk result (λ fits. AreFits flip leaves.now sources fits) }
{
    let mut fits = List::new(alloc);
    let mut others = sources.into_vec().into_iter();
    for leaf in leaves {
        let source = others.next();
        let fit = fit_leaf(alloc, flip, leaf, source)?;
        fits.push(fit)?;
    }
    Ok(fits)
}

/// What a leaf of this orientation is set to.
fn fit_leaf(
    alloc: Global,
    flip: bool,
    leaf: &TypeLeaf,
    source: Option<Source>,
) -> Result<Option<Source>, AllocError>
    ensures { IfOk result (λ fit. FitsLeaf flip leaf.now source fit) }
{
    if leaf.flip != flip {
        return Ok(None);
    }
    let kind = kind_of(&leaf.typ);
    let width = width_of(&leaf.typ);
    match source {
        Some(source) => {
            let fit = fit_source(alloc, source, kind, width)?;
            Ok(Some(fit))
        }
        None => Ok(Some(zero(kind, width))),
    }
}

/// The source that is 0.
fn zero(kind: Kind, width: u8) -> Source
    requires { width ≤ 128 }
    ensures kind { result.kind ≡ kind }
    ensures width { result.width ≡ width }
    ensures expr { result.expr ≡ Const (fitted kind width (pos 0)) }
{
    let number = Number {
        negative: false,
        magnitude: 0,
    };
    Source {
        expr: Ground::Const(constant(kind, width, number)),
        kind,
        width,
    }
}

/// The connects of all leaves of a part that have a source.
fn set_all(
    alloc: Global,
    settable: &[bool],
    part: &Part,
    fits: List<Option<Source>>,
) -> Result<List<GroundStmt>, AllocError>
    ensures { IfOk result (λ made. made ≡ set_leaves settable.now part.now.picks part.now.first fits) }
{
    let mut made = List::new(alloc);
    let mut number = part.first;
    for fit in fits.into_vec() {
        let leaf = At {
            picks: part.picks.as_slice(),
            number,
        };
        set_one(alloc, settable, leaf, fit, &mut made)?;
        number = sum_of(number, 1)?;
    }
    Ok(made)
}

/// A leaf of a part, by its number in the elements with the number 0.
#[derive(Clone, Copy)]
struct At<'a> {
    picks: &'a [Pick],
    number: u32,
}

/// Adds the connects of a leaf, where it has a source.
fn set_one(
    alloc: Global,
    settable: &[bool],
    leaf: At,
    fit: Option<Source>,
    made: &mut List<GroundStmt>,
) -> Result<(), AllocError>
    ensures { OnOk result (made.new ≡ made.old ++ set_one settable.now leaf.entry.picks.now leaf.entry.number fit) }
{
    match fit {
        Some(source) => {
            let listed = targets_of(alloc, leaf.picks, leaf.number)?;
            push_each(alloc, settable, listed, &source.expr, made)?;
            Ok(())
        }
        None => Ok(()),
    }
}
