//! The table of a module's leaves.

ghost use Rattle.std.specs.Prelude.{◌≡◌, ◌++◌, map, flat_map, sum_by, IfOk, OnOk};
ghost use Rattle.lower_aggregates.specs.Tables.{row_of_leaf, piece_rows, leaf_row, role_in, flags_of_piece, is_set_in, port_size};

use crate::declarations::Sort;
use crate::pieces::{Piece, leaf_number};
use bit_words::List;
use fir_tree::{Names, leaf_name};
use fir_types::{Shape, TypeLeaf};
use ground_exprs::part_sources::{kind_of, leaves_of, width_of};
use ground_exprs::reading::sum_of;
use ground_net::{GroundLeaf, GroundRole};
use std::alloc::{AllocError, Global};

/// The leaves of a module in text order.
pub fn leaf_table(
    alloc: Global,
    names: &Names,
    pieces: &[Piece<'_>],
) -> Result<List<GroundLeaf>, AllocError>
    ensures { IfOk result (λ leaves. map leaf_row leaves ≡ flat_map (piece_rows names.now) pieces.now) }
{
    let mut table = List::new(alloc);
    for piece in pieces {
        push_leaves(alloc, &mut table, names, piece)?;
    }
    Ok(table)
}

/// Adds the leaves of a piece.
fn push_leaves(
    alloc: Global,
    table: &mut List<GroundLeaf>,
    names: &Names,
    piece: &Piece<'_>,
) -> Result<(), AllocError>
    ensures { OnOk result (map leaf_row table.new ≡ map leaf_row table.old ++ piece_rows names.now piece.now) }
{
    let listed = leaves_of(alloc, piece.typ)?;
    for leaf in &listed {
        table.push(ground_leaf(alloc, names, piece, leaf)?)?;
    }
    Ok(())
}

/// A leaf of a piece.
fn ground_leaf(
    alloc: Global,
    names: &Names,
    piece: &Piece<'_>,
    leaf: &TypeLeaf,
) -> Result<GroundLeaf, AllocError>
    ensures { IfOk result (λ made. leaf_row made ≡ row_of_leaf names.now piece.now leaf.now) }
{
    let name = leaf_name(alloc, names, piece.name.id, leaf.path.as_slice())?;
    Ok(GroundLeaf {
        name,
        kind: kind_of(&leaf.typ),
        width: width_of(&leaf.typ),
        place: piece.name.place,
        role: role_of(piece.sort, leaf),
    })
}

/// What a leaf is.
fn role_of(sort: Sort<'_>, leaf: &TypeLeaf) -> GroundRole
    ensures { result ≡ role_in sort.entry leaf.now }
{
    if matches!(leaf.typ.shape, Shape::Clock) {
        return GroundRole::Clock;
    }
    match sort {
        Sort::Register(_) | Sort::ResetRegister(_, _, _) => GroundRole::Register,
        Sort::Input if !leaf.flip => GroundRole::Input,
        Sort::Output if leaf.flip => GroundRole::Input,
        _ => GroundRole::Plain,
    }
}

/// For each leaf whether statements may set it: it is no source and no Clock.
pub fn settable_leaves(alloc: Global, pieces: &[Piece<'_>]) -> Result<Vec<bool>, AllocError>
    ensures { IfOk result (λ flags. flags.items ≡ flat_map flags_of_piece pieces.now) }
{
    let mut flags = Vec::new(alloc);
    for piece in pieces {
        push_flags(alloc, &mut flags, piece)?;
    }
    Ok(flags)
}

fn push_flags(alloc: Global, flags: &mut Vec<bool>, piece: &Piece<'_>) -> Result<(), AllocError>
    ensures { OnOk result (flags.new.items ≡ flags.old.items ++ flags_of_piece piece.now) }
{
    let listed = leaves_of(alloc, piece.typ)?;
    for leaf in &listed {
        flags.push(is_set(piece.sort, leaf))?;
    }
    Ok(())
}

/// Whether statements may set the leaf.
fn is_set(sort: Sort<'_>, leaf: &TypeLeaf) -> bool
    ensures { result ≡ is_set_in sort.entry leaf.now }
{
    let sink = match sort {
        Sort::Input | Sort::Memory(_) | Sort::Instance(_) => leaf.flip,
        Sort::Output => !leaf.flip,
        Sort::Wire | Sort::Register(_) | Sort::ResetRegister(_, _, _) => true,
        Sort::Node(_) => false,
    };
    sink && !matches!(leaf.typ.shape, Shape::Clock)
}

/// How many leaves the ports have.
pub fn port_leaves(pieces: &[Piece<'_>]) -> Result<u32, AllocError>
    ensures { IfOk result (λ n. n ≡ sum_by port_size pieces.now) }
{
    let mut total: u32 = 0;
    for piece in pieces {
        total = sum_of(total, port_leaves_of(piece)?)?;
    }
    Ok(total)
}

fn port_leaves_of(piece: &Piece<'_>) -> Result<u32, AllocError>
    ensures { IfOk result (λ n. n ≡ port_size piece.now) }
{
    match piece.sort {
        Sort::Input | Sort::Output => leaf_number(piece.typ),
        _ => Ok(0),
    }
}
