//! The widths of a component's places.

ghost use Rattle.std.specs.Prelude.{◌≡◌};
ghost use Rattle.width_rules.specs.Places.{capped};

/// The width of a place of a component: the number of bits that its declaration gives, or the variable of this number.
#[derive(Clone, Copy)]
pub enum Slot {
    /// This many bits, where 129 stands for any number past 128.
    Fixed(u8),
    Var(u32),
}

// A component has a width for each of its places.
const _: () = prove!(size_of::<Slot>() <= 8);

/// A number of bits as it counts: every number past 128 is over the limit, and counts as 129.
pub fn capped(width: u128) -> u8
    ensures { result ≡ capped width }
{
    width.min(129) as u8
}
