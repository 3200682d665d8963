//! Laws of the definitions that the contracts here name. The functions do nothing.

ghost use Rattle.std.specs.Prelude.{◌≡◌, List, length};
ghost use Rattle.fir_types.specs.declared.fir_type.FirType.{FirType as TheType};
ghost use Rattle.prim_ops.specs.declared.widths.Width.{Width as TheWidth};
ghost use Rattle.width_rules.specs.Places.{size, node_spots};
ghost use Rattle.type_filling.specs.Filling.{filled};
ghost use Rattle.part_fits.specs.Widths.{filled_widths};
ghost use Rattle.width_fit.specs.Written.{place_widths};

/// For as many widths as places, the places of the filled type have exactly these widths, and an AsyncReset its own.
pub fn places_are_filled()
    ensures { (typ : TheType) (widths : List TheWidth) → length widths ≡ size typ → place_widths (filled typ widths) ≡ filled_widths (node_spots typ) widths }
{}
