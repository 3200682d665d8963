//! The leaves of a net by their names.

ghost use Rattle.std.specs.Prelude.{◌≡◌, ◌≢◌, ℕ, ◌<◌, ◌↔◌, true, false, length, slice_get, Some, None};
ghost use Rattle.ground_net.specs.declared.net.Role.TheVariants.{Clock as TheClock};
ghost use Rattle.ground_net.specs.Naming.{IsNamed, IsFirstNamed};

use crate::net::{Leaf, Net, Role};

/// The first leaf of a name in flat order that is no Clock; None where there is none. Looks through all leaves and takes no memory.
pub fn find_leaf(net: &Net, name: &[u8]) -> Option<u32>
    requires few { length net.now.leaves < 4294967296 }
    ensures found { (x : ℕ) → (result ≡ Some x) ↔ IsFirstNamed net.now name.now x }
    ensures none { (result ≡ None) ↔ ((x : ℕ) → IsNamed net.now name.now x → ⊥) }
{
    for number in 0..net.leaves.len() {
        if has_name(&net.leaves.as_slice()[number], name) {
            return Some(number as u32);
        }
    }
    None
}

/// Whether a leaf has this name and is no Clock.
fn has_name(leaf: &Leaf, name: &[u8]) -> bool
    ensures yes { result ≡ true → (leaf.now.name ≡ name.now) × (leaf.now.role ≢ TheClock) }
    ensures no { result ≡ false → leaf.now.name ≡ name.now → leaf.now.role ≡ TheClock }
{
    !matches!(leaf.role, Role::Clock)
        && leaf.name.len() == name.len()
        && leaf.name.as_slice() == name
}
