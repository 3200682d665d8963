//! Which input the clocks lead to.

ghost use Rattle.std.specs.Prelude.{◌≡◌, [], ◌∷◌, Some};
ghost use Rattle.fir_types.specs.declared.leaf.PathStep.TheVariants as step;
ghost use Rattle.fir_meaning.specs.Certain.{IsInitialized};
ghost use Rattle.fir_meaning.specs.ClockRoot.{Undriven, No_driver, From, driver_in, clock_root, HasOneClock};
ghost use Rattle.definition_examples.specs.Samples.{uint, clock_type, leaf};
ghost use Rattle.definition_examples.specs.Clocks.{at_main, clocked_by, ticking, through_node, through_instance, gated, with_memory, with_wire, clocks, to_indexed, from_indexed, invalidated, twice, turned, across};

/// The root is main's first Clock input: no later one, and no output.
pub fn the_first_clock_input_is_the_root()
    ensures first { clock_root (clocked_by 21) ≡ Some (at_main 20) }
    ensures no_output { clock_root ticking ≡ Some (at_main 20) }
{}

/// A register has the circuit's clock where its own one is the root, and where it leads there through a node or through an instance.
pub fn clocks_lead_to_the_root()
    ensures direct { HasOneClock (clocked_by 20) }
    ensures node { HasOneClock through_node }
    ensures instance { HasOneClock through_instance }
{}

/// A circuit has no clock where a register has the second Clock input, where what it has is connected under a condition, and where
/// nothing is connected to the clock of a memory's port.
pub fn other_clocks_lead_nowhere()
    ensures second_input { HasOneClock (clocked_by 21) → ⊥ }
    ensures condition { HasOneClock gated → ⊥ }
    ensures port { HasOneClock with_memory → ⊥ }
{}

/// A connect through a dynamic index gives no clock, on either side.
pub fn indexed_connects_give_no_clock()
    ensures left { driver_in clocks (leaf 23 (step.Element 0 ∷ [])) to_indexed ≡ No_driver }
    ensures right { driver_in clocks (leaf 28 []) from_indexed ≡ No_driver }
{}

/// An `invalidate` of a Clock takes its driver.
pub fn an_invalidate_takes_the_clock()
    ensures { driver_in clocks (leaf 28 []) invalidated ≡ No_driver }
{}

/// Of two connects to a Clock without a condition the last one drives it.
pub fn the_last_connect_gives_the_clock()
    ensures { driver_in clocks (leaf 28 []) twice ≡ From (leaf 21 []) }
{}

/// A connect drives the flipped Clocks of its right side from those of its left side, which it doesn't drive.
pub fn flipped_clocks_are_driven_from_the_left()
    ensures right { driver_in turned (leaf 34 (step.Field 32 ∷ [])) across ≡ From (leaf 33 (step.Field 32 ∷ [])) }
    ensures left { driver_in turned (leaf 33 (step.Field 32 ∷ [])) across ≡ Undriven }
{}

/// A circuit with a wire to which nothing is connected is not initialized, also where the wire is a Clock.
pub fn idle_wires_are_refused()
    ensures number { IsInitialized (with_wire (uint 4)) → ⊥ }
    ensures clock { IsInitialized (with_wire clock_type) → ⊥ }
{}
