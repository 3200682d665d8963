//! Counts of the bits of masks, of all 64 bits at once.

ghost use Rattle.std.specs.Prelude.{◌≡◌, ℕ, ◌+◌, ◌<◌, ◌^◌, length};
ghost use Rattle.std.specs.Int.{bit_at};
ghost use Rattle.cone_cutter.specs.Tallies.{tallied};

/// Adds the bits of a mask to 64 counts, of which the plane `i` has the binary digits `i`.
///
/// Takes as many steps as digits change: a few at most on average, since the digit `i` of a count changes each `2^i` masks.
pub fn add_mask(planes: &mut [u64], mask: u64)
    requires { (p : ℕ) → tallied planes.old p + 1 < 2 ^ length planes.old }
    ensures { (p : ℕ) → tallied planes.new p ≡ tallied planes.old p + bit_at mask p }
{
    let mut carry = mask;
    let mut digit = 0;
    'carrying: while carry != 0 && digit < planes.len() {
        let plane = planes[digit];
        planes[digit] = plane ^ carry;
        carry &= plane;
        digit += 1;
    }
}
