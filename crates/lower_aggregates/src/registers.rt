//! Registers (FIRRTL specification 3.0, "Registers"), leaf by leaf.

ghost use Rattle.std.specs.Prelude.{◌≡◌, ◌++◌, All, map, length, option_copied, IfOk, OnOk};
ghost use Rattle.fir_types.specs.Leaves.{leaves};
ghost use Rattle.ground_exprs.specs.Sources.{AreNarrow};
ghost use Rattle.lower_aggregates.specs.Held.{held_sort, held_part};
ghost use Rattle.lower_aggregates.specs.Registers.{IsInit, AreFirst, PlainReset, ResetTo, AreOwn, IsTypedSort, AreRegisters};

use crate::declarations::Sort;
use crate::pieces::Piece;
use bit_words::{List, Number};
use fir_types::TypeLeaf;
use ground_exprs::constants::constant;
use ground_exprs::fitting::fit_source;
use ground_exprs::operation::lone;
use ground_exprs::part_sources::{kind_of, leaves_of, width_of};
use ground_exprs::reading::sum_of;
use ground_exprs::{Component, Source, lower_expr};
use ground_net::net::{NetRegister, NetReset};
use ground_net::{Ground, copied};
use indexmap::IndexMap;
use std::alloc::{AllocError, Global};

/// The leaves of a module's registers in text order, with their resets.
pub fn registers_of(
    alloc: Global,
    known: &IndexMap<u32, Component>,
    pieces: &[Piece<'_>],
) -> Result<List<NetRegister>, AllocError>
    requires narrow { AreNarrow known.now.entries }
    requires typed { All (λ p. IsTypedSort known.now.entries (held_sort p.sort)) pieces.now }
    ensures { IfOk result (λ registers. AreRegisters known.now.entries (map held_part pieces.now) registers) }
{
    let mut registers = List::new(alloc);
    for piece in pieces {
        let own = own_registers(alloc, known, piece)?;
        push_all(&mut registers, own)?;
    }
    Ok(registers)
}

fn push_all(registers: &mut List<NetRegister>, own: List<NetRegister>) -> Result<(), AllocError>
    ensures { OnOk result (registers.new ≡ registers.old ++ own) }
{
    for register in own.into_vec() {
        registers.push(register)?;
    }
    Ok(())
}

/// The leaves of a register, and none of any other component.
fn own_registers(
    alloc: Global,
    known: &IndexMap<u32, Component>,
    piece: &Piece<'_>,
) -> Result<List<NetRegister>, AllocError>
    requires narrow { AreNarrow known.now.entries }
    requires typed { IsTypedSort known.now.entries (held_sort piece.now.sort) }
    ensures { IfOk result (λ own. AreOwn known.now.entries (held_part piece.now) own) }
{
    match piece.sort {
        Sort::Register(_) => {
            let own = plain_registers(alloc, piece)?;
            Ok(own)
        }
        Sort::ResetRegister(_, reset, init) => {
            let source = lone(lower_expr(alloc, known, reset)?);
            let inits = lower_expr(alloc, known, init)?;
            let own = reset_registers(alloc, piece, &source.expr, &inits)?;
            Ok(own)
        }
        _ => Ok(List::new(alloc)),
    }
}

fn plain_registers(alloc: Global, piece: &Piece<'_>) -> Result<List<NetRegister>, AllocError>
    ensures { IfOk result (λ own. AreFirst (held_part piece.now) PlainReset (length (leaves piece.now.typ.now)) own) }
{
    let listed = leaves_of(alloc, piece.typ)?;
    let list = listed.as_slice();
    let mut own = List::new(alloc);
    let mut number = piece.first;
    for _at in 0..list.len() {
        own.push(NetRegister {
            leaf: number,
            reset: None,
        })?;
        number = sum_of(number, 1)?;
    }
    Ok(own)
}

/// The leaves of a register with this reset, of which the k-th takes the k-th of these sources.
fn reset_registers(
    alloc: Global,
    piece: &Piece<'_>,
    reset: &Ground,
    inits: &List<Source>,
) -> Result<List<NetRegister>, AllocError>
    ensures { IfOk result (λ own. AreFirst (held_part piece.now) (ResetTo reset.now inits.now) (length (leaves piece.now.typ.now)) own) }
{
    let listed = leaves_of(alloc, piece.typ)?;
    let list = listed.as_slice();
    let mut own = List::new(alloc);
    let mut number = piece.first;
    for at in 0..list.len() {
        let init = init_of(alloc, &list[at], inits.get(at))?;
        let reset = NetReset {
            reset: copied(alloc, reset)?,
            init,
        };
        own.push(NetRegister {
            leaf: number,
            reset: Some(reset),
        })?;
        number = sum_of(number, 1)?;
    }
    Ok(own)
}

/// What a reset sets in a leaf: the source, fitted to the leaf's kind and width, and 0 where there is none.
fn init_of(alloc: Global, leaf: &TypeLeaf, source: Option<&Source>) -> Result<Ground, AllocError>
    ensures { IfOk result (λ init. IsInit (option_copied source.entry) leaf.now init) }
{
    let kind = kind_of(&leaf.typ);
    let width = width_of(&leaf.typ);
    match source {
        Some(source) => {
            let own = Source {
                expr: copied(alloc, &source.expr)?,
                kind: source.kind,
                width: source.width,
            };
            let fit = fit_source(alloc, own, kind, width)?;
            Ok(fit.expr)
        }
        None => {
            let zero = Number {
                negative: false,
                magnitude: 0,
            };
            Ok(Ground::Const(constant(kind, width, zero)))
        }
    }
}
