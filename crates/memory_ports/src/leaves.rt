//! The leaves of nets, in their roles.

ghost use Rattle.std.specs.Prelude.{◌≡◌, ◌∷◌, [], ◌++◌, ◌+◌, List as Listed, length, IfOk, OnOk};
ghost use Rattle.memory_ports.specs.Placing.{Part, part_of, role_behind, IsLeafOf};
ghost use Rattle.memory_ports.specs.Keeping.{CountsOf, AreLeaves};

use crate::reads::ReadData;
use bit_words::List;
use ground_net::{GroundLeaf, GroundRole, Leaf, Role, copied_text};
use std::alloc::{AllocError, Global};

/// How many leaves have had a number in each sort of role.
#[derive(Clone, Copy)]
pub struct Counts {
    pub inputs: u32,
    pub registers: u32,
    pub captured: u32,
}

/// The leaves of a circuit as those of a net, where they show these data.
pub fn placed_leaves(
    alloc: Global,
    leaves: &[GroundLeaf],
    shown: &[Option<ReadData>],
) -> Result<List<Leaf>, AllocError>
    requires { length shown.now ≡ length leaves.now }
    ensures counted { IfOk result (λ placed. length placed ≡ length leaves.now) }
    ensures are { IfOk result (λ placed. AreLeaves leaves.now shown.now placed) }
{
    let mut placed = List::new(alloc);
    let mut counts = Counts {
        inputs: 0,
        registers: 0,
        captured: 0,
    };
    for (number, leaf) in leaves.iter().enumerate() {
        let role = next_role(&mut counts, leaf.role, &shown[number])?;
        let one = placed_leaf(alloc, leaf, role)?;
        placed.push(one)?;
    }
    Ok(placed)
}

/// A leaf in its role.
fn placed_leaf(alloc: Global, leaf: &GroundLeaf, role: Role) -> Result<Leaf, AllocError>
    ensures leaf { IfOk result (λ placed. IsLeafOf leaf.now placed) }
    ensures role { IfOk result (λ placed. placed.role ≡ role) }
{
    Ok(Leaf {
        name: copied_text(alloc, &leaf.name)?,
        kind: leaf.kind,
        width: leaf.width,
        place: leaf.place,
        role,
    })
}

/// The role of the next leaf.
fn next_role(
    counts: &mut Counts,
    role: GroundRole,
    shown: &Option<ReadData>,
) -> Result<Role, AllocError>
    ensures role { IfOk result (λ placed. (before : Listed Part) → CountsOf before counts.old → placed ≡ role_behind before (part_of role shown.now)) }
    ensures counts { OnOk result ((before : Listed Part) → CountsOf before counts.old → CountsOf (before ++ part_of role shown.now ∷ []) counts.new) }
{
    Ok(match role {
        GroundRole::Input => Role::Input(next(&mut counts.inputs)?),
        GroundRole::Clock => Role::Clock,
        GroundRole::Register => Role::Register(next(&mut counts.registers)?),
        GroundRole::Plain => match shown {
            Some(ReadData::Captured) => Role::Captured(next(&mut counts.captured)?),
            _ => Role::Assigned,
        },
    })
}

/// The next number of a count.
fn next(count: &mut u32) -> Result<u32, AllocError>
    ensures number { IfOk result (λ number. number ≡ count.old) }
    ensures count { OnOk result (count.new ≡ count.old + 1) }
{
    let number = *count;
    let Some(more) = number.checked_add(1) else {
        return Err(AllocError);
    };
    *count = more;
    Ok(number)
}
