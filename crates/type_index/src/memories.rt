//! Trees of the types of memories, whose ports share what is known of their data and of their masks.

ghost use Rattle.std.specs.Prelude.{◌≡◌, IfOk, IfSome, All, List};
ghost use Rattle.fir_types.specs.declared.fir_type.FirType.{FirType as AType};
ghost use Rattle.fir_types.specs.declared.fir_type.Field.{Field as AField};
ghost use Rattle.fir_types.specs.declared.fir_type.Shape.TheVariants as shape;
ghost use Rattle.fir_types.specs.Bundles.{memory_of};
ghost use Rattle.type_index.specs.Knowing.{Matches, IsRight, Knows, HasWays};
ghost use Rattle.type_index.specs.Gathering.{Gathers};
ghost use Rattle.type_index.specs.Ports.{IsPortField, ArePortFields, ArePorts, Keeps};

use crate::gathered::Gathered;
use crate::making::make;
use crate::tree::TypeIndex;
use fir_tree::Names;
use fir_types::{Field, FirType, Memory, Shape, memory_type};
use std::alloc::{AllocError, Global};

/// What is known of the data and of the masks of a memory's ports, as soon as a port has some.
#[derive(Drop)]
pub struct Kept {
    of_data: Option<TypeIndex>,
    of_mask: Option<TypeIndex>,
}

/// The type of a memory, and what is known of it. Takes time and memory in proportion to the type of an element and to the number
/// of ports.
pub fn of_memory(
    alloc: Global,
    names: &Names,
    memory: &Memory,
) -> Result<(FirType, TypeIndex), AllocError>
    ensures typ { IfOk result (λ both. both.0 ≡ memory_of memory.now) }
    ensures knows { IfOk result (λ both. Knows both.0 both.1) }
    ensures ways { IfOk result (λ both. HasWays names.now both.0 both.1) }
{
    let typ = memory_type(alloc, memory)?;
    let index = make_memory(alloc, names, &typ)?;
    Ok((typ, index))
}

fn make_memory(alloc: Global, names: &Names, typ: &FirType) -> Result<TypeIndex, AllocError>
    ensures { IfOk result (λ index. (element mask : AType) (ports : List AField) → typ.now.shape ≡ shape.Bundle ports → ArePorts element mask ports → Matches (IsRight names.now) typ.now index) }
{
    let Shape::Bundle(ports) = &typ.shape else {
        return make(alloc, names, typ);
    };
    let kept = Kept {
        of_data: None,
        of_mask: None,
    };
    let gathered = gather_ports(alloc, names, ports.as_slice(), kept)?;
    gathered.finish(alloc, ports.as_slice())
}

fn gather_ports(
    alloc: Global,
    names: &Names,
    ports: &[Field],
    before: Kept,
) -> Result<Gathered, AllocError>
    ensures { IfOk result (λ gathered. (element mask : AType) → ArePorts element mask ports.now → Keeps names.now element mask before → Gathers names.now ports.now gathered) }
{
    let mut kept = before;
    let mut gathered = Gathered::new(alloc);
    for port in ports {
        let part = make_port(alloc, names, &port.typ, &mut kept)?;
        gathered.push(names, port, part)?;
    }
    Ok(gathered)
}

fn make_port(
    alloc: Global,
    names: &Names,
    port: &FirType,
    kept: &mut Kept,
) -> Result<TypeIndex, AllocError>
    ensures { IfOk result (λ part. (element mask : AType) → ArePortFields element mask port.now → Keeps names.now element mask kept.old → Matches (IsRight names.now) port.now part × Keeps names.now element mask kept.new) }
{
    let Shape::Bundle(fields) = &port.shape else {
        return make(alloc, names, port);
    };
    let gathered = gather_fields(alloc, names, fields.as_slice(), kept)?;
    gathered.finish(alloc, fields.as_slice())
}

fn gather_fields(
    alloc: Global,
    names: &Names,
    fields: &[Field],
    kept: &mut Kept,
) -> Result<Gathered, AllocError>
    ensures { IfOk result (λ gathered. (element mask : AType) → All (IsPortField element mask) fields.now → Keeps names.now element mask kept.old → Gathers names.now fields.now gathered × Keeps names.now element mask kept.new) }
{
    let mut gathered = Gathered::new(alloc);
    for field in fields {
        let part = part_of(alloc, names, field, kept)?;
        gathered.push(names, field, part)?;
    }
    Ok(gathered)
}

/// What is known of a field of a port: of data (`data`, `rdata`, `wdata`) and of a mask (`mask`, `wmask`) what is kept.
fn part_of(
    alloc: Global,
    names: &Names,
    field: &Field,
    kept: &mut Kept,
) -> Result<TypeIndex, AllocError>
    ensures { IfOk result (λ part. (element mask : AType) → IsPortField element mask field.now → Keeps names.now element mask kept.old → Matches (IsRight names.now) field.now.typ part × Keeps names.now element mask kept.new) }
{
    match field.name.id {
        3 | 5 | 7 => of_kept(alloc, names, &mut kept.of_data, &field.typ),
        4 | 8 => of_kept(alloc, names, &mut kept.of_mask, &field.typ),
        _ => make(alloc, names, &field.typ),
    }
}

/// What is kept, or what is known of the type, which is kept then.
fn of_kept(
    alloc: Global,
    names: &Names,
    kept: &mut Option<TypeIndex>,
    typ: &FirType,
) -> Result<TypeIndex, AllocError>
    ensures { IfOk result (λ part. IfSome kept.old (Matches (IsRight names.now) typ.now) → Matches (IsRight names.now) typ.now part × IfSome kept.new (Matches (IsRight names.now) typ.now)) }
{
    if let Some(index) = kept {
        return index.share();
    }
    let index = make(alloc, names, typ)?;
    *kept = Some(index.share()?);
    Ok(index)
}
