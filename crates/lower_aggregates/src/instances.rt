//! Instances (FIRRTL specification 3.0, "Instances").

ghost use Rattle.std.specs.Prelude.{◌≡◌, ◌+◌, ◌++◌, All, map, option_to_list, IfOk, OnOk};
ghost use Rattle.lower_aggregates.specs.Held.{held_sort, held_part};
ghost use Rattle.lower_aggregates.specs.Instances.{instance_row, instance_where, instances_from, memories_by, IsMade};

use crate::declarations::Sort;
use crate::memories::text_of_name;
use crate::pieces::Piece;
use bit_words::List;
use fir_tree::Names;
use ground_exprs::reading::sum_of;
use ground_net::GroundInstance;
use indexmap::IndexMap;
use std::alloc::{AllocError, Global};

/// The instances of a module in text order, where modules have these numbers by their names.
pub fn instances_of(
    alloc: Global,
    names: &Names,
    numbers: &IndexMap<u32, u32>,
    pieces: &[Piece<'_>],
) -> Result<List<GroundInstance>, AllocError>
    requires { All (λ p. IsMade numbers.now.entries (held_sort p.sort)) pieces.now }
    ensures { IfOk result (λ instances. map instance_row instances ≡ instances_from names.now numbers.now.entries 0 (map held_part pieces.now)) }
{
    let mut instances = List::new(alloc);
    let mut memories: u32 = 0;
    for piece in pieces {
        let own = instance_of(alloc, names, numbers, piece, memories)?;
        push_own(&mut instances, own)?;
        memories = sum_of(memories, memories_of_sort(piece.sort))?;
    }
    Ok(instances)
}

fn push_own(
    instances: &mut List<GroundInstance>,
    own: Option<GroundInstance>,
) -> Result<(), AllocError>
    ensures { OnOk result (instances.new ≡ instances.old ++ option_to_list own) }
{
    if let Some(instance) = own {
        instances.push(instance)?;
    }
    Ok(())
}

fn memories_of_sort(sort: Sort<'_>) -> u32
    ensures { result ≡ memories_by (held_sort sort.entry) }
{
    match sort {
        Sort::Memory(_) => 1,
        _ => 0,
    }
}

/// The instance that a piece is, where it is one.
fn instance_of(
    alloc: Global,
    names: &Names,
    numbers: &IndexMap<u32, u32>,
    piece: &Piece<'_>,
    memories: u32,
) -> Result<Option<GroundInstance>, AllocError>
    requires { IsMade numbers.now.entries (held_sort piece.now.sort) }
    ensures { IfOk result (λ own. map instance_row (option_to_list own) ≡ option_to_list (instance_where names.now numbers.now.entries memories (held_part piece.now) (held_sort piece.now.sort))) }
{
    match piece.sort {
        Sort::Instance(target) => {
            let Some(number) = numbers.get(&target) else {
                unreachable!();
            };
            let module = *number;
            let name = text_of_name(alloc, names, piece.name.id)?;
            Ok(Some(GroundInstance {
                name,
                first: piece.first,
                memories,
                module,
            }))
        }
        _ => Ok(None),
    }
}
