//! Laws of layouts. The functions do nothing.

ghost use Rattle.std.specs.Prelude.{◌≡◌, ℕ, ℤ, pos, List, map, find, Some, true, option_map};
ghost use Rattle.bit_words.specs.declared.value.Value.{Value as AValue};
ghost use Rattle.bit_words.specs.Values.{integer_of};
ghost use Rattle.fir_types.specs.declared.leaf.TypeLeaf.{TypeLeaf as TheLeaf};
ghost use Rattle.fir_types.specs.declared.leaf.PathStep.{PathStep as AStep};
ghost use Rattle.fir_types.specs.Leaves.{leaves};
ghost use Rattle.fir_tree.specs.declared.scope.Fitted.{Fitted as FittedCircuit};
ghost use Rattle.fir_meaning.specs.Components.{Design, TypedModule, Component, FlatLeaf, design_of, module_at};
ghost use Rattle.fir_meaning.specs.Values.{scene_of};
ghost use Rattle.fir_meaning.specs.WellTyped.{known_in};
ghost use Rattle.fir_meaning.specs.States.{located, where_located, or_else};
ghost use Rattle.fir_meaning.specs.Drives.{same_way};
ghost use Rattle.fir_meaning.specs.Loops.{HasLeaves};
ghost use Rattle.circuit_laws.specs.WellFormed.{IsWellFormed};
ghost use Rattle.plain_values.specs.declared.site.Site.{Site as ASite};
ghost use Rattle.plain_values.specs.Sites.{site_at, valuation_of, scene_at, known_at, AreNarrow};
ghost use Rattle.plain_cycle.specs.declared.declarations.Declaration.{Declaration as ADeclaration};
ghost use Rattle.plain_cycle.specs.Layouts.{Located, IsLocated, AreAll, IsLayout, site_with, site_of, all_flat};
ghost use Rattle.plain_cycle.specs.Parts.{bare};
ghost use Rattle.settling_laws.specs.Typed.{is_typed_declaration};

/// The first component of a name at a path is the one that the circuit has there.
pub fn layouts_find_components()
    ensures { (design : Design) (sites : List ASite) (declared : List ADeclaration) → IsLayout design sites declared → (path : List ℕ) (name : ℕ) → site_at sites path name ≡ option_map (λ found. site_with path (bare found.1)) (located design path name) }
{}

/// Of values beside the sites a module sees what the meaning lets it see of the valuation that they give, and its components have
/// their types.
pub fn modules_see_values()
    ensures scene { (design : Design) (sites : List ASite) (declared : List ADeclaration) → IsLayout design sites declared → (path : List ℕ) (m : TypedModule) → module_at design path ≡ Some m → (values : List (List AValue)) → scene_at sites values path ≡ scene_of m path (valuation_of sites values) }
    ensures known { (design : Design) (sites : List ASite) (declared : List ADeclaration) → IsLayout design sites declared → (path : List ℕ) (m : TypedModule) → module_at design path ≡ Some m → known_at sites path ≡ known_in m }
{}

/// In a well formed circuit no component has a ground type of more than 128 bits.
pub fn layouts_are_narrow()
    ensures { (fitted : FittedCircuit) (sites : List ASite) (declared : List ADeclaration) → IsWellFormed fitted → IsLayout (design_of fitted) sites declared → AreNarrow sites }
{}

/// The leaves of all components are all leaves of the run.
pub fn layouts_have_all_leaves()
    ensures { (design : Design) (all : List Located) → AreAll design all → (some : List FlatLeaf) → HasLeaves design some → HasLeaves design (all_flat all) }
{}

/// In a well formed circuit the block of each component is well typed, and so is what its declaration makes.
pub fn declarations_are_typed()
    ensures { (fitted : FittedCircuit) → IsWellFormed fitted → (x : Located) → IsLocated (design_of fitted) x → is_typed_declaration (known_in x.m) x.c.declaration ≡ true }
{}

/// Values beside the components, each of which is what a rule says of its leaf, give what the rule says of each leaf of the run, and 0
/// where there is no leaf.
pub fn values_are_those_of_leaves()
    ensures { (design : Design) (all : List Located) → AreAll design all → (rule : List ℕ → TypedModule × Component → TheLeaf → ℤ) (values : List (List AValue)) → map (map integer_of) values ≡ map (λ x. map (rule x.path (x.m, x.c)) (leaves x.c.typ)) all → (path : List ℕ) (name : ℕ) (way : List AStep) → valuation_of (map site_of all) values path name way ≡ where_located (pos 0) (λ found. or_else (pos 0) (option_map (rule path found) (find (λ leaf. same_way leaf.path way) (leaves found.1.typ)))) (located design path name) }
{}
