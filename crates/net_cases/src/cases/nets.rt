//! Nets that are made by hand.

ghost use Rattle.std.specs.Prelude.{◌≤◌, length, IfOk};
ghost use Rattle.ground_net.specs.Reads.{MentionsLeaves};
ghost use Rattle.base_cases.specs.Drivers.{ReadsBelow};

use base_cases::choice;
use bit_words::{Kind, List};
use ground_net::{Ground, Leaf, Net, NetRegister, Role};
use place_text::Place;
use std::alloc::{AllocError, Global};

/// A leaf: its name and role, and three leaves that its driver mentions, where it mentions any.
pub type Row = (&'static str, Role, Option<(u32, u32, u32)>);

/// A net with more leaves is no case.
const MOST: usize = 1000;

/// The net of these leaves, of which so many are main's. All leaves are of one bit and stand at one place.
pub fn net_of(alloc: Global, ports: u32, rows: &[Row]) -> Result<Net, AllocError>
    ensures mentions { IfOk result MentionsLeaves }
    ensures leaves { IfOk result (λ net. length net.leaves ≤ 1000) }
    ensures registers { IfOk result (λ net. length net.registers ≤ 1000) }
    ensures memories { IfOk result (λ net. length net.memories ≤ 1000) }
{
    let count = rows.len();
    if count > MOST {
        return Err(AllocError);
    }
    let registers = registers_of(alloc, rows)?;
    if registers.len() > MOST {
        return Err(AllocError);
    }
    let mut leaves = List::new(alloc);
    let mut drivers = List::new(alloc);
    for index in 0..count {
        let (name, role, reads) = rows[index];
        let leaf = leaf_of(alloc, name, role)?;
        leaves.push(leaf)?;
        let driver = driver_of(alloc, reads, count)?;
        drivers.push(driver)?;
    }
    Ok(Net {
        ports,
        leaves,
        drivers,
        registers,
        memories: List::new(alloc),
    })
}

fn leaf_of(alloc: Global, name: &str, role: Role) -> Result<Leaf, AllocError> {
    Ok(Leaf {
        name: List::from_slice(alloc, name.as_bytes())?,
        kind: Kind::Unsigned,
        width: 1,
        place: Place { line: 1, column: 1 },
        role,
    })
}

/// A driver that mentions these leaves, where there are any and they are below the count.
fn driver_of(
    alloc: Global,
    reads: Option<(u32, u32, u32)>,
    count: usize,
) -> Result<Option<Ground>, AllocError>
    ensures { IfOk result (ReadsBelow count) }
{
    let Some((first, second, third)) = reads else {
        return Ok(None);
    };
    if first as usize >= count || second as usize >= count || third as usize >= count {
        return Err(AllocError);
    }
    let driver = choice(alloc, first, second, third)?;
    Ok(Some(driver))
}

fn registers_of(alloc: Global, rows: &[Row]) -> Result<List<NetRegister>, AllocError> {
    let mut registers = List::new(alloc);
    for (leaf, (_, role, _)) in (0_u32..).zip(rows) {
        if matches!(role, Role::Register(_)) {
            registers.push(NetRegister { leaf, reset: None })?;
        }
    }
    Ok(registers)
}
