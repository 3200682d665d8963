//! Laws of the definitions. The functions do nothing.

ghost use Rattle.std.specs.Prelude.{◌≡◌, ◌↔◌, ◌++◌, flat_map, ℕ, Bool, true, List, Some, slice_get, Contains};
ghost use Rattle.std.specs.Prelude.{nat_eq};
ghost use Rattle.std.specs.Map.{lookup};
ghost use Rattle.place_text.specs.First.{HasNone};
ghost use Rattle.fir_tree.specs.declared.scope.Fitted.{Fitted as FittedCircuit};
ghost use Rattle.fir_meaning.specs.Components.{Design as ADesign, TypedModule, Leaf, FlatLeaf, declarations_of, design_of, modules_of, module_at, type_in, flat, target_of};
ghost use Rattle.fir_meaning.specs.ClockRoot.{ClockFrom, IsRooted, HasOneClock, clock_root};
ghost use Rattle.fir_tree.specs.declared.circuit.Module.{Module as AModule};
ghost use Rattle.circuit_laws.specs.WellFormed.{IsWellFormed, IsKnownModule};
ghost use Rattle.clock_check.specs.Makes.{module_makes};
ghost use Rattle.clock_check.specs.Clocked.{IsFault, IsOther};
ghost use Rattle.clock_check.specs.HangsOther.{HangsOther};
ghost use Rattle.place_text.specs.declared.place.Place.{Place as APlace};
ghost use Rattle.clock_check.specs.Edges.{module_edges};
ghost use Rattle.clock_check.specs.Gets.{Gets, LinkAt};
ghost use Rattle.fir_meaning.specs.Mentions.{Scope};
ghost use Rattle.clock_check.specs.Hung.{module_hung, hung_by};
ghost use Rattle.clock_check.specs.Searched.{Sinks, IsSink, LeadsTo};
ghost use Rattle.clock_check.specs.Rooted.{HasRoot, IsClosed, IsSound};

use circuit_laws::laws::{
    components_are_named, names_are_declared_once, reached_modules_stand_at_paths,
};

/// A circuit of one clock has no fault of clocks.
pub fn one_clock_has_no_fault()
    ensures { (fitted : FittedCircuit) → HasOneClock (design_of fitted) → HasNone (IsFault fitted) }
{}

/// A circuit without a fault of clocks has one clock, where a set decides what leads to main's first Clock input.
pub fn no_fault_has_one_clock()
    ensures { (fitted : FittedCircuit) (set : FlatLeaf → Bool) → ((x : FlatLeaf) → (set x ≡ true) ↔ IsRooted (design_of fitted) x) → HasNone (IsFault fitted) → HasOneClock (design_of fitted) }
{}

/// The links that the walk through a module finds are all links of chains of clocks that begin in it.
pub fn edges_are_links()
    ensures { (fitted : FittedCircuit) → IsWellFormed fitted → (k : ℕ) (holder : AModule) (m : TypedModule) → slice_get fitted.checked.resolved.modules k ≡ Some holder → slice_get (modules_of fitted) k ≡ Some m → (x y : Leaf) → Contains (module_edges (type_in m) holder) (x, y) ↔ Gets m x y }
{
    names_are_declared_once();
}

/// A Clock leaf of the run has its value from another one just where it does at the path of a module.
pub fn links_stand_at_paths()
    ensures at { (design : ADesign) (x y : FlatLeaf) → ClockFrom design x y → LinkAt design x y }
    ensures from { (design : ADesign) (path : List ℕ) (m : TypedModule) (x y : Leaf) → module_at design path ≡ Some m → Gets m x y → ClockFrom design (flat m path x) (flat m path y) }
{}

/// A set of leaves of the run that has main's first Clock input, and with a leaf those that have their value from it, and whose
/// leaves all lead there, has just the leaves that do.
pub fn closed_sets_have_what_is_rooted()
    ensures { (design : ADesign) (set : FlatLeaf → Bool) → HasRoot design set → IsClosed design set → IsSound design set → (x : FlatLeaf) → (set x ≡ true) ↔ IsRooted design x }
{}

/// Where a leaf behind some instances leads to main's first Clock input, so does a leaf of the module just behind them. So where no
/// leaf of the module at a path does, none behind it does.
pub fn rooted_leaves_are_entered()
    ensures { (design : ADesign) (x : FlatLeaf) → IsRooted design x → (q r : List ℕ) → x.path ≡ q ++ r → (w : FlatLeaf) × IsRooted design w × (w.path ≡ q) }
{}

/// The registers and memory ports that are found in a module are those of its declarations, in their order.
pub fn hung_are_those_of_declarations()
    ensures { (types : Scope) (holder : AModule) → module_hung types holder ≡ flat_map (hung_by types) (declarations_of holder) }
{}

/// The faults of clocks are those of the registers and memory ports that are found in the modules that main reaches.
pub fn faults_hang()
    ensures { (fitted : FittedCircuit) → IsWellFormed fitted → (place : APlace) → IsOther (design_of fitted) place ↔ HangsOther fitted place }
{
    components_are_named();
    reached_modules_stand_at_paths();
}

/// The instances that are found in a module that main reaches are those of its components, each with its module.
pub fn instances_are_those_of_components()
    ensures { (fitted : FittedCircuit) → IsWellFormed fitted → (m : TypedModule) (its : IsKnownModule fitted m) (name : ℕ) → lookup (nat_eq name) (module_makes its.holder) ≡ target_of m name }
{
    components_are_named();
}

/// Where the links of a search are those of the chains of clocks, just the leaves that lead to main's first Clock input lead there by
/// the links of the search.
pub fn searches_find_what_is_rooted()
    ensures { (design : ADesign) (sinks : Sinks) (root : FlatLeaf) → clock_root design ≡ Some root → ((x y : FlatLeaf) → IsSink sinks x y ↔ ClockFrom design x y) → (x : FlatLeaf) → LeadsTo sinks root x ↔ IsRooted design x }
{}
